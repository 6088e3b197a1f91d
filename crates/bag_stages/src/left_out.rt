//! Payload files that payload manifests leave out: by one of them, or by all.
ghost use Rattle.std.specs.Prelude.{◌≡◌, ◌↔◌, true, false, IsTrue, IfOk};
ghost use Rattle.std.specs.List.Sorted.{IsStrictlySortedBy};
ghost use Rattle.bag_text.specs.Order.{IsListOf};
ghost use Rattle.bag_text.specs.Path.{is_payload_path};
ghost use Rattle.bag_text.specs.Text.{text_cmp};
ghost use Rattle.bag_text.specs.declared.alg.Alg.{Alg as AlgValue};
ghost use Rattle.bag_faults.specs.FaultOrder.{fault_cmp};
ghost use Rattle.bag_facts.specs.FactsOfBag.{IfBagRead};
ghost use Rattle.bag_facts.specs.TagFacts.{AreByPath};
ghost use Rattle.bag_facts.specs.Wanted.{paths_of};
ghost use Rattle.bag_stages.specs.CompletenessFaults.{IsFileLeftOutByAll, IsFileLeftOutByOne};
ghost use Rattle.bag_stages.specs.CompletenessFaults.{IsFileNamedByNone, IsLeftOutAmong};
ghost use Rattle.bag_stages.specs.CompletenessFaults.{IsPathNamedByNone, IsV097LeftOutByAll};
ghost use Rattle.bag_stages.specs.CompletenessFaults.{IsV10LeftOutByOne};
ghost use Rattle.bag_stages.specs.PayloadNamed.{IsNamedExactly};
ghost use Rattle.bag_stages.specs.Found.{AreFaultsOf};

use crate::named::is_named;
use crate::payload_named::is_exact;
use crate::seek::seek;
use bag_facts::{Facts, Manifest};
use bag_faults::Fault;
use bag_read::Kind;
use bag_text::{Alg, Code, Rules, Text, is_payload};
use bag_tree::FileEntry;
use std::alloc::{AllocError, Global};

/// The faults that the payload manifest of an algorithm doesn't name payload files, where it is
/// there, in the order of their paths; none by the rules of 0.97, which don't ask each manifest for
/// each file. The facts are read for more than the declaration. Fails only where memory runs out.
pub(crate) fn left_out_by_one(
    alloc: Global,
    facts: &Facts,
    alg: Alg,
) -> Result<Vec<Fault>, AllocError>
    ensures { IfOk result (λ faults.
        AreFaultsOf facts.now (λ bag. IsV10LeftOutByOne bag alg) faults.items) }
{
    let is_asked = facts.rules() == Rules::V10;
    if is_asked {
        faults_of_one(alloc, facts, alg)
    } else {
        Ok(Vec::new(alloc))
    }
}

/// The faults that the payload manifest of an algorithm doesn't name payload files, where it is
/// there.
fn faults_of_one(alloc: Global, facts: &Facts, alg: Alg) -> Result<Vec<Fault>, AllocError>
    ensures { IfOk result (λ faults.
        AreFaultsOf facts.now (λ bag. IsFileLeftOutByOne bag alg) faults.items) }
{
    let files = facts.files();
    match facts.manifest(Kind::Payload, alg) {
        Some(manifest) => left_out_of(alloc, files, manifest),
        None => Ok(Vec::new(alloc)),
    }
}

/// The faults that a payload manifest doesn't name payload files, in the order of their paths.
fn left_out_of(
    alloc: Global,
    files: &[FileEntry],
    manifest: &Manifest,
) -> Result<Vec<Fault>, AllocError>
    ensures { IfOk result (λ faults. AreByPath manifest.now.entries
        → IsStrictlySortedBy text_cmp (paths_of files.now) → IsListOf fault_cmp
        (IsLeftOutAmong manifest.now.alg manifest.now.entries (paths_of files.now))
        faults.items) }
{
    let mut faults = Vec::new(alloc);
    let mut rest = manifest.entries.as_slice();
    for entry in files {
        let (after, is_named) = seek(rest, &entry.path);
        rest = after;
        if is_left_out(&entry.path, is_named) {
            let code = Code::PayloadFileNotListed;
            let fault = Fault::about(alloc, code, &entry.path)?;
            faults.push(fault.of(Some(manifest.alg)))?;
        }
    }
    Ok(faults)
}

/// Whether a path that a payload manifest names or doesn't is that of a payload file that it
/// doesn't name.
fn is_left_out(path: &Text, is_named: bool) -> bool
    ensures { IsTrue result ↔ ((is_payload_path path.now ≡ true) × (is_named ≡ false)) }
{
    !is_named && is_payload(path.as_str())
}

/// The faults that no payload manifest names payload files, where there is one, in the order of
/// their paths: what the rules of 0.97 ask, and none by those of 1.0. The facts are read for more
/// than the declaration. Fails only where memory runs out.
pub(crate) fn left_out_by_all(alloc: Global, facts: &Facts) -> Result<Vec<Fault>, AllocError>
    ensures { IfOk result (λ faults. AreFaultsOf facts.now IsV097LeftOutByAll faults.items) }
{
    let is_asked = facts.rules() == Rules::V097;
    if is_asked {
        faults_of_all(alloc, facts)
    } else {
        Ok(Vec::new(alloc))
    }
}

/// The faults that no payload manifest names payload files, where there is one.
fn faults_of_all(alloc: Global, facts: &Facts) -> Result<Vec<Fault>, AllocError>
    ensures { IfOk result (λ faults. AreFaultsOf facts.now IsFileLeftOutByAll faults.items) }
{
    if facts.algs(Kind::Payload).is_empty() {
        return Ok(Vec::new(alloc));
    }
    named_by_none(alloc, facts)
}

/// The faults of payload files that no payload manifest names, in the order of their paths. Mostly
/// there are none, which one look at a manifest and the files shows.
fn named_by_none(alloc: Global, facts: &Facts) -> Result<Vec<Fault>, AllocError>
    ensures { IfOk result (λ faults. AreFaultsOf facts.now IsFileNamedByNone faults.items) }
{
    if is_some_exact(facts) {
        return Ok(Vec::new(alloc));
    }
    named_by_none_among(alloc, facts)
}

/// Whether some payload manifest names the payload's files and no other.
fn is_some_exact(facts: &Facts) -> bool
    ensures { IfBagRead facts.now (λ bag. IsTrue result
        → (alg : AlgValue) × IsNamedExactly bag alg) }
{
    Alg::ALL.iter().any(|alg| is_exact(facts, *alg))
}

/// The faults of those of the bag's files that are of the payload, and that no payload manifest
/// names.
fn named_by_none_among(alloc: Global, facts: &Facts) -> Result<Vec<Fault>, AllocError>
    ensures { IfOk result (λ faults. AreFaultsOf facts.now IsFileNamedByNone faults.items) }
{
    let mut faults = Vec::new(alloc);
    for entry in facts.files() {
        if is_named_by_none(facts, &entry.path) {
            let code = Code::PayloadFileNotListed;
            faults.push(Fault::about(alloc, code, &entry.path)?)?;
        }
    }
    Ok(faults)
}

/// Whether a path is that of a payload file that no payload manifest names.
fn is_named_by_none(facts: &Facts, path: &Text) -> bool
    ensures yes { IfBagRead facts.now (λ bag. IsTrue result → IsPathNamedByNone bag path.now) }
    ensures no { IfBagRead facts.now (λ bag. IsPathNamedByNone bag path.now → IsTrue result) }
{
    is_payload(path.as_str()) && !is_named(facts, Kind::Payload, path)
}
