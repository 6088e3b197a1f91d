//! Stage 5: manifests.
ghost use Rattle.std.specs.Prelude.{◌≡◌, IfOk};
ghost use Rattle.std.specs.List.Sorted.{IsStrictlySortedBy};
ghost use Rattle.bag_text.specs.Order.{IsListOf};
ghost use Rattle.bag_text.specs.Only.{IsOnly};
ghost use Rattle.bag_text.specs.Text.{text_cmp};
ghost use Rattle.bag_tree.specs.Bag.{Bag};
ghost use Rattle.bag_faults.specs.FaultOrder.{fault_cmp};
ghost use Rattle.bag_facts.specs.FactsOfBag.{IsFactsOf, IsSaidOfTagFile};
ghost use Rattle.bag_facts.specs.TagFacts.{AreByPath};
ghost use Rattle.bag_facts.specs.Wanted.{paths_of};
ghost use Rattle.bag_facts.specs.declared.tag_facts.TagFacts.TheVariants as known;
ghost use Rattle.bag_stages.specs.ManifestFaults.{unnamed, IsAskedUnnamed, IsUnnamedFault};
ghost use Rattle.bag_stages.specs.ManifestFaults.{IsUnnamedAmong, IsOfManifest};
ghost use Rattle.bag_stages.specs.ManifestsStage.{IsOfManifests};
ghost use Rattle.bag_stages.specs.Found.{AreFaultsOf};

use crate::tag_file::line_faults;
use bag_facts::{Facts, Manifest, TagFacts};
use bag_faults::Fault;
use bag_read::{Kind, TagName, manifest_alg};
use bag_text::{Code, Rules, Text};
use bag_tree::FileEntry;
use std::alloc::{AllocError, Global};

/// The faults of manifests (RFC 8493, 2.1.3 and 2.2.1), of facts read for more than the
/// declaration. Fails only where memory runs out.
pub fn manifest_faults(alloc: Global, facts: &Facts) -> Result<Vec<Fault>, AllocError>
    ensures { IfOk result (λ faults. AreFaultsOf facts.now IsOfManifests faults.items) }
{
    let mut faults = Vec::new(alloc);
    for tag in facts.tags.as_slice() {
        if let TagFacts::Manifest(manifest) = tag {
            let mut of_manifest = faults_of(alloc, facts, manifest)?;
            faults.append(&mut of_manifest)?;
        }
    }
    Ok(faults)
}

/// The faults of one manifest: what it doesn't name stands before the faults of its lines.
fn faults_of(alloc: Global, facts: &Facts, manifest: &Manifest) -> Result<Vec<Fault>, AllocError>
    ensures { IfOk result (λ faults. (bag : Bag) → IsFactsOf bag facts.now
        → IsSaidOfTagFile bag (known.Manifest manifest.now)
        → IsListOf fault_cmp (IsOfManifest bag manifest.now.kind manifest.now.alg) faults.items) }
{
    let path = TagName::Manifest(manifest.kind, manifest.alg).path(alloc)?;
    let mut of_lines = line_faults(
        alloc,
        &path,
        Some(manifest.alg),
        manifest.is_text,
        manifest.faults.as_slice(),
    )?;
    match manifest.kind {
        Kind::Payload => Ok(of_lines),
        Kind::Tag => {
            let mut faults = asked_unnamed(alloc, facts, &path, manifest)?;
            faults.append(&mut of_lines)?;
            Ok(faults)
        }
    }
}

/// The listed payload manifests that the rules ask a tag manifest to name, and that it doesn't:
/// those of 0.97 ask for none.
fn asked_unnamed(
    alloc: Global,
    facts: &Facts,
    path: &Text,
    manifest: &Manifest,
) -> Result<Vec<Fault>, AllocError>
    ensures { IfOk result (λ faults. (bag : Bag) → IsFactsOf bag facts.now
        → AreByPath manifest.now.entries → IsListOf fault_cmp
        (IsAskedUnnamed bag path.now manifest.now.alg manifest.now.entries
        (paths_of facts.now.listing.files))
        faults.items) }
{
    match facts.rules() {
        Rules::V10 => unnamed_faults(alloc, facts.files(), path, manifest),
        Rules::V097 => Ok(Vec::new(alloc)),
    }
}

/// The listed payload manifests that a tag manifest doesn't name, each of any algorithm.
fn unnamed_faults(
    alloc: Global,
    files: &[FileEntry],
    path: &Text,
    manifest: &Manifest,
) -> Result<Vec<Fault>, AllocError>
    ensures { IfOk result (λ faults. AreByPath manifest.now.entries
        → IsStrictlySortedBy text_cmp (paths_of files.now) → IsListOf fault_cmp
        (IsUnnamedAmong path.now manifest.now.alg manifest.now.entries (paths_of files.now))
        faults.items) }
{
    let mut faults = Vec::new(alloc);
    for entry in files {
        if let Some(fault) = unnamed_fault(alloc, path, manifest, &entry.path)? {
            faults.push(fault)?;
        }
    }
    Ok(faults)
}

/// The fault of a file that is a payload manifest, and isn't named.
fn unnamed_fault(
    alloc: Global,
    path: &Text,
    manifest: &Manifest,
    file: &Text,
) -> Result<Option<Fault>, AllocError>
    ensures { IfOk result (λ fault. AreByPath manifest.now.entries
        → IsOnly (λ f. (f.detail ≡ file.now)
        × IsUnnamedFault path.now manifest.now.alg manifest.now.entries f) fault) }
{
    if manifest_alg(Kind::Payload, file.as_str()).is_none() || manifest.names(file) {
        return Ok(None);
    }
    Ok(Some(not_listed(alloc, path, manifest, file)?))
}

/// The fault that a tag manifest doesn't name a payload manifest.
fn not_listed(
    alloc: Global,
    path: &Text,
    manifest: &Manifest,
    file: &Text,
) -> Result<Fault, AllocError>
    ensures { IfOk result (λ fault. fault ≡ unnamed path.now manifest.now.alg file.now) }
{
    let detail = file.copy(alloc)?;
    let fault = Fault::about(alloc, Code::PayloadManifestNotListed, path)?;
    Ok(fault.of(Some(manifest.alg)).with(detail))
}
