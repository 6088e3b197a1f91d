//! What a profile asks of tag files that are no manifests.
ghost use Rattle.std.specs.Prelude.{◌≡◌, ◌↔◌, IsTrue, IfOk};
ghost use Rattle.bag_text.specs.declared.code.Code.TheVariants.{TagFileRequired, TagFileNotAllowed};
ghost use Rattle.bag_text.specs.declared.code.Code.TheVariants.{FetchNotAllowed};
ghost use Rattle.bag_tree.specs.Bag.{Bag};
ghost use Rattle.bag_facts.specs.FactsOfBag.{IsFactsOf};
ghost use Rattle.bag_report.specs.ConformanceFaults.{AreAll, IsOfTagFiles, AreAllOf};
ghost use Rattle.bag_report.specs.ConformanceStage.{LacksTagFile, HasOtherTagFile};
ghost use Rattle.bag_report.specs.ConformanceStage.{HasFetchFile};
ghost use Rattle.bag_report.specs.NotAllowed.{IsOtherTagFile};

use crate::profile_rules::{is_free_tag_file, listed, matches_none};
use bag_facts::Facts;
use bag_faults::Fault;
use bag_profile::{ListRule, Profile};
use bag_read::TagName;
use bag_text::Code;
use std::alloc::{AllocError, Global};

/// The faults that tag files are lacking, or may not be there (BagIt Profiles Specification,
/// Tag-Files-Required, Tag-Files-Allowed, Allow-Fetch.txt).
pub(crate) fn tag_file_faults(
    alloc: Global,
    facts: &Facts,
    profile: &Profile,
) -> Result<Vec<Fault>, AllocError>
    ensures { IfOk result (λ faults.
        AreAllOf facts.now (λ bag. IsOfTagFiles bag profile.now) faults.items) }
{
    let mut faults = lacking_tag_files(alloc, facts, profile)?;
    faults.append(&mut other_tag_files(alloc, facts, profile)?)?;
    faults.append(&mut fetch_faults(alloc, facts, profile)?)?;
    Ok(faults)
}

/// The faults that files must be there, and aren't.
fn lacking_tag_files(
    alloc: Global,
    facts: &Facts,
    profile: &Profile,
) -> Result<Vec<Fault>, AllocError>
    ensures { IfOk result (λ faults. (bag : Bag) → IsFactsOf bag facts.now
        → AreAll (λ f. (f.code ≡ TagFileRequired) × LacksTagFile bag profile.now f) faults.items) }
{
    let required = listed(profile, ListRule::TagFilesRequired);
    let mut faults = Vec::new(alloc);
    for path in required {
        if !facts.has_file(path.as_str()) {
            faults.push(Fault::about(alloc, Code::TagFileRequired, path)?)?;
        }
    }
    Ok(faults)
}

/// The faults that tag files are there, and may not be.
fn other_tag_files(
    alloc: Global,
    facts: &Facts,
    profile: &Profile,
) -> Result<Vec<Fault>, AllocError>
    ensures { IfOk result (λ faults. (bag : Bag) → IsFactsOf bag facts.now
        → AreAll (λ f. (f.code ≡ TagFileNotAllowed) × HasOtherTagFile bag profile.now f)
        faults.items) }
{
    let files = facts.files();
    let mut faults = Vec::new(alloc);
    for entry in files {
        if is_other_tag_file(profile, entry.path.as_str()) {
            faults.push(Fault::about(alloc, Code::TagFileNotAllowed, &entry.path)?)?;
        }
    }
    Ok(faults)
}

/// Whether a path is that of a tag file that may not be there.
fn is_other_tag_file(profile: &Profile, path: &str) -> bool
    ensures { IsTrue result ↔ IsOtherTagFile profile.now path.now }
{
    is_free_tag_file(path) && matches_none(profile, ListRule::TagFilesAllowed, path)
}

/// The fault that `fetch.txt` is there, and may not be.
fn fetch_faults(alloc: Global, facts: &Facts, profile: &Profile) -> Result<Vec<Fault>, AllocError>
    ensures { IfOk result (λ faults. (bag : Bag) → IsFactsOf bag facts.now
        → AreAll (λ f. (f.code ≡ FetchNotAllowed) × HasFetchFile bag profile.now f) faults.items) }
{
    let path = TagName::Fetch.path(alloc)?;
    if profile.allow_fetch() || !facts.has_file(path.as_str()) {
        return Ok(Vec::new(alloc));
    }
    Ok(vec![in alloc; Fault::new(alloc, Code::FetchNotAllowed, path)]?)
}
