//! Files that manifests name and that aren't there.
ghost use Rattle.std.specs.Prelude.{◌≡◌, IfOk, Some};
ghost use Rattle.std.specs.List.Sorted.{IsStrictlySortedBy};
ghost use Rattle.bag_text.specs.Order.{IsListOf};
ghost use Rattle.bag_text.specs.Text.{text_cmp};
ghost use Rattle.bag_read.specs.declared.kind.Kind.TheVariants.{Tag};
ghost use Rattle.bag_faults.specs.FaultOrder.{fault_cmp};
ghost use Rattle.bag_facts.specs.TagFacts.{AreByPath};
ghost use Rattle.bag_facts.specs.Wanted.{paths_of};
ghost use Rattle.bag_stages.specs.CompletenessFaults.{missing_code, IsMissing};
ghost use Rattle.bag_stages.specs.CompletenessFaults.{IsMissingFromSome, IsMissingAmong};
ghost use Rattle.bag_stages.specs.Found.{AreFaultsOf, AreEachOnceOf};

use crate::appended::appended;
use crate::seek::seek;
use bag_facts::Facts;
use bag_faults::Fault;
use bag_read::{Kind, ManifestEntry};
use bag_text::{Alg, Code};
use bag_tree::FileEntry;
use std::alloc::{AllocError, Global};

/// The faults that tag manifests name files that aren't there, one manifest after another.
pub(crate) fn missing_tag_files(alloc: Global, facts: &Facts) -> Result<Vec<Fault>, AllocError>
    ensures { IfOk result (λ faults.
        AreEachOnceOf facts.now (λ bag. IsMissingFromSome bag Tag) faults.items) }
{
    let mut faults = Vec::new(alloc);
    for alg in Alg::ALL {
        let of_alg = missing_of(alloc, facts, Kind::Tag, alg)?;
        faults = appended(faults, of_alg)?;
    }
    Ok(faults)
}

/// The faults that the manifest of an algorithm names files that aren't there, where it is there
/// itself, in the order of their paths. The facts are read for more than the declaration. Fails
/// only where memory runs out.
pub(crate) fn missing_of(
    alloc: Global,
    facts: &Facts,
    kind: Kind,
    alg: Alg,
) -> Result<Vec<Fault>, AllocError>
    ensures { IfOk result (λ faults.
        AreFaultsOf facts.now (λ bag. IsMissing bag kind alg) faults.items) }
{
    let code = missing_code(kind);
    let files = facts.files();
    match facts.manifest(kind, alg) {
        Some(manifest) => missing_in(alloc, code, alg, manifest.entries.as_slice(), files),
        None => Ok(Vec::new(alloc)),
    }
}

/// The faults of entries whose files aren't among the listed ones, in the order of their paths.
fn missing_in(
    alloc: Global,
    code: Code,
    alg: Alg,
    entries: &[ManifestEntry],
    files: &[FileEntry],
) -> Result<Vec<Fault>, AllocError>
    ensures { IfOk result (λ faults. AreByPath entries.now
        → IsStrictlySortedBy text_cmp (paths_of files.now)
        → IsListOf fault_cmp (IsMissingAmong code alg entries.now files.now) faults.items) }
{
    let mut faults = Vec::new(alloc);
    let mut rest = files;
    for entry in entries {
        let (after, is_listed) = seek(rest, &entry.path);
        rest = after;
        if !is_listed {
            faults.push(Fault::about(alloc, code, &entry.path)?.of(Some(alg)))?;
        }
    }
    Ok(faults)
}

/// What a file is that a manifest of a kind names, and that isn't there.
fn missing_code(kind: Kind) -> Code
    ensures { result ≡ missing_code kind }
{
    match kind {
        Kind::Payload => Code::PayloadFileMissing,
        Kind::Tag => Code::TagFileMissing,
    }
}
