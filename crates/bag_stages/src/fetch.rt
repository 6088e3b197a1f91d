//! Stage 4: the list of files to fetch.
ghost use Rattle.std.specs.Prelude.{◌≡◌, IfOk};
ghost use Rattle.bag_text.specs.Order.{IsListOf};
ghost use Rattle.bag_faults.specs.FaultOrder.{fault_cmp};
ghost use Rattle.bag_facts.specs.FactsOfBag.{IfBagRead};
ghost use Rattle.bag_facts.specs.TagFacts.{AreByPath};
ghost use Rattle.bag_stages.specs.FetchFaults.{not_in_manifest, AreByLine};
ghost use Rattle.bag_stages.specs.FetchFaults.{IsNamedByNoneAmong, IsFetchLeftOutByAll};
ghost use Rattle.bag_stages.specs.FetchFaults.{IsFetchLeftOutByOne};
ghost use Rattle.bag_stages.specs.FetchFaults.{IsFetchLeftOutBySome, IsFetchLeftOut};
ghost use Rattle.bag_stages.specs.FetchFaults.{IsNotNamedAmong};
ghost use Rattle.bag_stages.specs.FetchStage.{IsOfFetch};
ghost use Rattle.bag_stages.specs.Found.{AreFaultsOf, AreFetchFaultsOf};

use crate::named::is_named;
use crate::tag_file::faults_in_file;
use bag_facts::{Facts, Manifest};
use bag_faults::Fault;
use bag_read::{FetchEntry, Kind, TagName};
use bag_text::{Alg, Code, Rules, Text};
use std::alloc::{AllocError, Global};

/// The faults of `fetch.txt` (RFC 8493, 2.2.3), of facts read for more than the declaration: those
/// of its lines, and the files that payload manifests leave out. Bytes that aren't UTF-8 have none.
/// Fails only where memory runs out.
pub fn fetch_faults(alloc: Global, facts: &Facts) -> Result<Vec<Fault>, AllocError>
    ensures { IfOk result (λ faults. AreFaultsOf facts.now IsOfFetch faults.items) }
{
    let Some(list) = facts.fetch_list() else {
        return Ok(Vec::new(alloc));
    };
    if !list.is_text {
        return Ok(Vec::new(alloc));
    }
    let path = TagName::Fetch.path(alloc)?;
    let mut faults = faults_in_file(alloc, &path, None, list.faults.as_slice())?;
    let mut of_manifests = left_out_faults(alloc, facts, &path, list.entries.as_slice())?;
    faults.append(&mut of_manifests)?;
    faults.sort_unstable();
    Ok(faults)
}

/// The faults that payload manifests leave files to fetch out, by the rules of the bag's version.
fn left_out_faults(
    alloc: Global,
    facts: &Facts,
    path: &Text,
    entries: &[FetchEntry],
) -> Result<Vec<Fault>, AllocError>
    ensures { IfOk result (λ faults.
        AreFetchFaultsOf facts.now path.now entries.now IsFetchLeftOut faults.items) }
{
    match facts.rules() {
        Rules::V10 => left_out_by_some(alloc, facts, path, entries),
        Rules::V097 => left_out_by_all(alloc, facts, path, entries),
    }
}

/// The faults that payload manifests don't name files to fetch, one manifest after another.
fn left_out_by_some(
    alloc: Global,
    facts: &Facts,
    path: &Text,
    entries: &[FetchEntry],
) -> Result<Vec<Fault>, AllocError>
    ensures { IfOk result (λ faults.
        AreFetchFaultsOf facts.now path.now entries.now IsFetchLeftOutBySome faults.items) }
{
    let mut faults = Vec::new(alloc);
    for alg in Alg::ALL {
        let mut of_alg = left_out_by_one(alloc, facts, path, entries, alg)?;
        faults.append(&mut of_alg)?;
    }
    Ok(faults)
}

/// The faults that the payload manifest of an algorithm doesn't name files to fetch, where it is
/// there.
fn left_out_by_one(
    alloc: Global,
    facts: &Facts,
    path: &Text,
    entries: &[FetchEntry],
    alg: Alg,
) -> Result<Vec<Fault>, AllocError>
    ensures { IfOk result (λ faults. AreFetchFaultsOf
        facts.now path.now entries.now (λ bag. IsFetchLeftOutByOne bag alg) faults.items) }
{
    match facts.manifest(Kind::Payload, alg) {
        Some(manifest) => left_out_of(alloc, path, manifest, entries),
        None => Ok(Vec::new(alloc)),
    }
}

/// The faults that a payload manifest doesn't name files to fetch, in the order of their lines.
fn left_out_of(
    alloc: Global,
    path: &Text,
    manifest: &Manifest,
    entries: &[FetchEntry],
) -> Result<Vec<Fault>, AllocError>
    ensures { IfOk result (λ faults. AreByPath manifest.now.entries → AreByLine entries.now
        → IsListOf fault_cmp
        (IsNotNamedAmong path.now manifest.now.alg manifest.now.entries entries.now)
        faults.items) }
{
    let mut faults = Vec::new(alloc);
    for entry in entries {
        if !manifest.names(&entry.path) {
            faults.push(left_out_fault(alloc, path, Some(manifest.alg), entry)?)?;
        }
    }
    Ok(faults)
}

/// The faults that all payload manifests, of which there is one, leave files to fetch out: what the
/// rules of 0.97 ask.
fn left_out_by_all(
    alloc: Global,
    facts: &Facts,
    path: &Text,
    entries: &[FetchEntry],
) -> Result<Vec<Fault>, AllocError>
    ensures { IfOk result (λ faults.
        AreFetchFaultsOf facts.now path.now entries.now IsFetchLeftOutByAll faults.items) }
{
    if facts.algs(Kind::Payload).is_empty() {
        return Ok(Vec::new(alloc));
    }
    named_by_none(alloc, facts, path, entries)
}

/// The faults of the files to fetch that no payload manifest names, in the order of their lines.
fn named_by_none(
    alloc: Global,
    facts: &Facts,
    path: &Text,
    entries: &[FetchEntry],
) -> Result<Vec<Fault>, AllocError>
    ensures { IfOk result (λ faults. IfBagRead facts.now (λ bag. AreByLine entries.now
        → IsListOf fault_cmp (IsNamedByNoneAmong bag path.now entries.now) faults.items)) }
{
    let mut faults = Vec::new(alloc);
    for entry in entries {
        if !is_named(facts, Kind::Payload, &entry.path) {
            faults.push(left_out_fault(alloc, path, None, entry)?)?;
        }
    }
    Ok(faults)
}

/// The fault that payload manifests leave a file to fetch out; with an algorithm, its manifest
/// does.
fn left_out_fault(
    alloc: Global,
    path: &Text,
    alg: Option<Alg>,
    entry: &FetchEntry,
) -> Result<Fault, AllocError>
    ensures { IfOk result (λ fault. fault ≡ not_in_manifest path.now alg entry.now) }
{
    let detail = entry.path.copy(alloc)?;
    let fault = Fault::about(alloc, Code::FetchNotInManifest, path)?;
    Ok(fault.of(alg).at(entry.line).with(detail))
}
