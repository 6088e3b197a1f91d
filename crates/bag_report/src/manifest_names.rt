//! What a profile asks of manifests, of any algorithm.
ghost use Rattle.std.specs.Prelude.{◌≡◌, ◌↔◌, ℕ, List, IsTrue, IfOk};
ghost use Rattle.bag_read.specs.ManifestName.{manifest_name};
ghost use Rattle.bag_tree.specs.Bag.{Bag};
ghost use Rattle.bag_facts.specs.FactsOfBag.{IsFactsOf};
ghost use Rattle.bag_stages.specs.TagFiles.{HasManifest};
ghost use Rattle.bag_report.specs.ConformanceFaults as kinds;
ghost use Rattle.bag_report.specs.ConformanceFaults.{AreAll, IsOfKind, AreAllOf};
ghost use Rattle.bag_report.specs.ConformanceStage.{required_manifests, allowed_manifests};
ghost use Rattle.bag_report.specs.ConformanceStage.{LacksManifest, HasOtherManifest};
ghost use Rattle.bag_report.specs.NotAllowed.{IsOtherManifest};

use crate::profile_rules::{excludes, listed};
use bag_facts::Facts;
use bag_faults::Fault;
use bag_profile::{ListRule, Profile};
use bag_read::{Kind, manifest_alg};
use bag_text::{Code, Text};
use std::alloc::{AllocError, Global};

/// The faults that manifests of a kind are lacking, or may not be there (BagIt Profiles
/// Specification, Manifests-Required, Manifests-Allowed and the same of tag manifests).
pub(crate) fn manifest_faults(
    alloc: Global,
    facts: &Facts,
    profile: &Profile,
    kind: Kind,
) -> Result<Vec<Fault>, AllocError>
    ensures { IfOk result (λ faults.
        AreAllOf facts.now (λ bag f. IsOfKind bag profile.now f kind) faults.items) }
{
    let mut faults = lacking_manifests(alloc, facts, profile, kind)?;
    faults.append(&mut other_manifests(alloc, facts, profile, kind)?)?;
    Ok(faults)
}

/// The faults that manifests must be there, and aren't. A name that no manifest can have is always
/// lacking.
fn lacking_manifests(
    alloc: Global,
    facts: &Facts,
    profile: &Profile,
    kind: Kind,
) -> Result<Vec<Fault>, AllocError>
    ensures { IfOk result (λ faults. (bag : Bag) → IsFactsOf bag facts.now
        → AreAll (λ f. (f.code ≡ kinds.required_code kind) × LacksManifest bag profile.now f kind)
        faults.items) }
{
    let code = required_code(kind);
    let required = listed(profile, required_list(kind));
    let mut faults = Vec::new(alloc);
    for name in required {
        let path = manifest_path(alloc, kind, name)?;
        if !has_manifest(facts, kind, path.as_str()) {
            faults.push(Fault::about(alloc, code, &path)?)?;
        }
    }
    Ok(faults)
}

/// The faults that manifests are there, and may not be.
fn other_manifests(
    alloc: Global,
    facts: &Facts,
    profile: &Profile,
    kind: Kind,
) -> Result<Vec<Fault>, AllocError>
    ensures { IfOk result (λ faults. (bag : Bag) → IsFactsOf bag facts.now
        → AreAll (λ f. (f.code ≡ kinds.other_code kind) × HasOtherManifest bag profile.now f kind)
        faults.items) }
{
    let code = other_code(kind);
    let files = facts.files();
    let mut faults = Vec::new(alloc);
    for entry in files {
        if is_other_manifest(profile, kind, entry.path.as_str()) {
            faults.push(Fault::about(alloc, code, &entry.path)?)?;
        }
    }
    Ok(faults)
}

/// Whether a path is that of a manifest that may not be there.
fn is_other_manifest(profile: &Profile, kind: Kind, path: &str) -> bool
    ensures { IsTrue result ↔ IsOtherManifest profile.now kind path.now }
{
    match manifest_alg(kind, path) {
        Some(alg) => excludes(profile, allowed_list(kind), alg),
        None => false,
    }
}

/// Whether a bag has the manifest at the path that a name gives.
fn has_manifest(facts: &Facts, kind: Kind, path: &str) -> bool
    ensures { (bag : Bag) → IsFactsOf bag facts.now → (name : List ℕ)
        → path.now ≡ manifest_name kind name
        → IsTrue result ↔ HasManifest bag kind name }
{
    manifest_alg(kind, path).is_some() && facts.has_file(path)
}

/// The path that the manifest of a name would have.
fn manifest_path(alloc: Global, kind: Kind, name: &Text) -> Result<Text, AllocError>
    ensures { IfOk result (λ path. path ≡ manifest_name kind name.now) }
{
    let path = match kind {
        Kind::Payload => format!(in alloc; "manifest-{name}.txt")?,
        Kind::Tag => format!(in alloc; "tagmanifest-{name}.txt")?,
    };
    Ok(Text::from_string(path))
}

/// The list of the manifests of a kind that must be there.
fn required_list(kind: Kind) -> ListRule
    ensures { result ≡ required_manifests kind }
{
    match kind {
        Kind::Payload => ListRule::ManifestsRequired,
        Kind::Tag => ListRule::TagManifestsRequired,
    }
}

/// The list of the manifests of a kind that may be there.
fn allowed_list(kind: Kind) -> ListRule
    ensures { result ≡ allowed_manifests kind }
{
    match kind {
        Kind::Payload => ListRule::ManifestsAllowed,
        Kind::Tag => ListRule::TagManifestsAllowed,
    }
}

/// What it is that a manifest of a kind isn't there.
fn required_code(kind: Kind) -> Code
    ensures { result ≡ kinds.required_code kind }
{
    match kind {
        Kind::Payload => Code::ManifestRequired,
        Kind::Tag => Code::TagmanifestRequired,
    }
}

/// What it is that a manifest of a kind is there.
fn other_code(kind: Kind) -> Code
    ensures { result ≡ kinds.other_code kind }
{
    match kind {
        Kind::Payload => Code::ManifestNotAllowed,
        Kind::Tag => Code::TagmanifestNotAllowed,
    }
}
