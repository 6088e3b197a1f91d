//! What manifests give for a file.
ghost use Rattle.std.specs.Prelude.{◌≡◌, ℕ, List, Some, IfOk, Contains, MatchOption, length, map};
ghost use Rattle.std.specs.Prelude.{option_map};
ghost use Rattle.std.specs.Option.{option_copied};
ghost use Rattle.bag_text.specs.Order.{IsListOf};
ghost use Rattle.bag_tree.specs.Bag.{file};
ghost use Rattle.bag_faults.specs.FaultOrder.{fault_cmp};
ghost use Rattle.bag_facts.specs.FactsOfBag.{IfBagRead};
ghost use Rattle.bag_facts.specs.TagFacts.{entry_paths, AreByPath};
ghost use Rattle.bag_stages.specs.Expected.{given};
ghost use Rattle.bag_stages.specs.Given.{AreNaming, IsGivenBy, kind_of};
ghost use Rattle.bag_stages.specs.Packed.{packed};
ghost use Rattle.bag_stages.specs.SumFaults.{faults_of_bytes, IsFaultOfFile};

use crate::packed::push_packed;
use crate::{Packed, Places};
use bag_facts::Facts;
use bag_read::{Kind, ManifestEntry};
use bag_text::{Alg, Text, is_payload};
use std::alloc::{AllocError, Global};

/// The digests that manifests give for a file (RFC 8493, 2.1.3 and 2.2.1), in the order of their
/// algorithms, of facts read for more than the declaration: none exactly where no manifest names
/// it. A manifest that names it at the place where it is looked for first is not searched, and each
/// other takes time log n of its entries. For one file after another in path order, hand over the
/// places that the call before left.
pub fn expected_of(
    alloc: Global,
    facts: &Facts,
    path: &Text,
    places: &mut Places,
) -> Result<Packed, AllocError>
    ensures algs { IfOk result (λ expected.
        IfBagRead facts.now (λ bag. AreNaming bag path.now (map (λ one. one.alg) expected))) }
    ensures faults { IfOk result (λ expected.
        IfBagRead facts.now (λ bag. (content : List ℕ) → file bag path.now ≡ Some content
        → IsListOf fault_cmp (IsFaultOfFile bag path.now)
        (faults_of_bytes path.now content expected))) }
    ensures room { IfOk result (λ expected. places.new.room ≡ length (packed expected)) }
{
    let kind = kind_of(path.as_str());
    let mut bytes = Vec::with_capacity(alloc, places.room)?;
    for alg in Alg::ALL {
        let Some(digest) = digest_by(facts, path, kind, alg, places.of(alg)) else {
            continue;
        };
        push_packed(&mut bytes, alg, digest)?;
    }
    bytes.shrink_to_fit();
    places.room = bytes.len();
    Ok(Packed::of(bytes))
}

/// The bytes of the digest that the manifest of a kind and an algorithm gives for a file, where it
/// names it.
fn digest_by<'a>(
    facts: &'a Facts,
    path: &Text,
    kind: Kind,
    alg: Alg,
    place: &mut usize,
) -> Option<&'a [u8]>
    ensures { IfBagRead facts.now (λ bag.
        IsGivenBy bag path.now kind alg (option_map (λ digest. given alg digest.now) result)) }
{
    let Some(entry) = entry_near(facts.entries(kind, alg), path, place) else {
        return None;
    };
    Some(entry.digest.bytes())
}

/// The entry of a path among entries in the order of their paths. It is looked for at a place
/// first, and then by a search; the place is left after it.
fn entry_near<'a>(
    entries: &'a [ManifestEntry],
    path: &Text,
    place: &mut usize,
) -> Option<&'a ManifestEntry>
    ensures { AreByPath entries.now → MatchOption (option_copied result)
        (¬ (Contains (entry_paths entries.now) path.now))
        (λ entry. Contains entries.now entry × (entry.path ≡ path.now)) }
{
    if let Some(entry) = entries.get(*place) {
        if entry.path == *path {
            *place += 1;
            return Some(entry);
        }
    }
    match entries.binary_search_by(|entry| entry.path.cmp(path)) {
        Ok(found) => {
            *place = found + 1;
            entries.get(found)
        }
        Err(after) => {
            *place = after;
            None
        }
    }
}

/// The kind of the manifests that may name a path.
pub(crate) fn kind_of(path: &str) -> Kind
    ensures { result ≡ kind_of path.now }
{
    if is_payload(path) {
        Kind::Payload
    } else {
        Kind::Tag
    }
}
