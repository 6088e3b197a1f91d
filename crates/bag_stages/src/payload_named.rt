//! What payload manifests say of the payload's files that isn't so.
ghost use Rattle.std.specs.Prelude.{◌≡◌, ◌↔◌, IfOk, IsTrue, MatchOption};
ghost use Rattle.bag_facts.specs.FactsOfBag.{IfBagRead};
ghost use Rattle.bag_facts.specs.TagFacts.{entry_paths};
ghost use Rattle.bag_facts.specs.Wanted.{paths_of};
ghost use Rattle.bag_stages.specs.CompletenessFaults.{IsWrong, IsWrongOfSome};
ghost use Rattle.bag_stages.specs.PayloadNamed.{RestStartsAfter, IsExact, payload_paths};
ghost use Rattle.bag_stages.specs.PayloadNamed.{IsPayloadNotFirst};
ghost use Rattle.bag_stages.specs.Found.{AreEachOnceOf};

use crate::appended::appended;
use crate::left_out::left_out_by_one;
use crate::missing::missing_of;
use bag_facts::Facts;
use bag_faults::Fault;
use bag_read::{Kind, ManifestEntry};
use bag_text::{Alg, Text, is_payload};
use bag_tree::FileEntry;
use std::alloc::{AllocError, Global};

/// The faults that payload manifests name files that aren't there, and that they don't name payload
/// files, one manifest after another.
pub(crate) fn payload_faults(alloc: Global, facts: &Facts) -> Result<Vec<Fault>, AllocError>
    ensures { IfOk result (λ faults. AreEachOnceOf facts.now IsWrongOfSome faults.items) }
{
    let mut faults = Vec::new(alloc);
    for alg in Alg::ALL {
        let of_alg = faults_of(alloc, facts, alg)?;
        faults = appended(faults, of_alg)?;
    }
    Ok(faults)
}

/// These faults of the manifest of an algorithm. Most manifests have none, which one look at both
/// lists shows.
fn faults_of(alloc: Global, facts: &Facts, alg: Alg) -> Result<Vec<Fault>, AllocError>
    ensures { IfOk result (λ faults.
        AreEachOnceOf facts.now (λ bag. IsWrong bag alg) faults.items) }
{
    if is_exact(facts, alg) {
        return Ok(Vec::new(alloc));
    }
    let missing = missing_of(alloc, facts, Kind::Payload, alg)?;
    let left_out = left_out_by_one(alloc, facts, alg)?;
    appended(missing, left_out)
}

/// Whether the payload manifest of an algorithm is there and names the payload's files and no
/// other, so that it has no fault of completeness. The facts are read for more than the
/// declaration.
pub(crate) fn is_exact(facts: &Facts, alg: Alg) -> bool
    ensures { IfBagRead facts.now (λ bag. IsTrue result ↔ IsExact bag alg) }
{
    match facts.manifest(Kind::Payload, alg) {
        Some(manifest) => are_named(manifest.entries.as_slice(), facts.files()),
        None => false,
    }
}

/// Whether entries are those of the payload files among these files, in their order.
fn are_named(entries: &[ManifestEntry], files: &[FileEntry]) -> bool
    ensures { IsTrue result ↔ (entry_paths entries.now ≡ payload_paths (paths_of files.now)) }
{
    let mut rest = entries;
    for file in files {
        let Some(after) = rest_after(rest, &file.path) else {
            return false;
        };
        rest = after;
    }
    rest.is_empty()
}

/// The entries that are left after a file: all of them where it isn't of the payload, and else
/// those after the first, which has its path.
fn rest_after<'a>(entries: &'a [ManifestEntry], path: &Text) -> Option<&'a [ManifestEntry]>
    ensures { MatchOption result
        (IsPayloadNotFirst (entry_paths entries.now) path.now)
        (λ rest. RestStartsAfter (entry_paths entries.now) path.now (entry_paths rest.now)) }
{
    if !is_payload(path.as_str()) {
        return Some(entries);
    }
    let Some((first, rest)) = entries.split_first() else {
        return None;
    };
    if first.path == *path {
        Some(rest)
    } else {
        None
    }
}
