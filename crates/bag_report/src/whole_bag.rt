//! What a profile asks of a bag as a whole.
ghost use Rattle.std.specs.Prelude.{◌≡◌, IfOk, option_and_then};
ghost use Rattle.std.specs.Option.{option_copied};
ghost use Rattle.bag_text.specs.declared.code.Code.TheVariants.{VersionNotAccepted};
ghost use Rattle.bag_read.specs.Declaration as declared;
ghost use Rattle.bag_tree.specs.Bag.{Bag, file};
ghost use Rattle.bag_facts.specs.FactsOfBag.{IsFactsOf};
ghost use Rattle.bag_stages.specs.TagFiles.{bagit_txt};
ghost use Rattle.bag_report.specs.ConformanceFaults.{AreAll, IsOfWhole, AreAllOf};
ghost use Rattle.bag_report.specs.ConformanceStage.{HasOtherVersion};
ghost use Rattle.bag_report.specs.NotAllowed.{other_version};
ghost use Rattle.bag_report.specs.NotAllowed as spec;

use crate::profile_rules::excludes;
use bag_facts::Facts;
use bag_faults::Fault;
use bag_profile::{Form, ListRule, Profile, Serialization};
use bag_read::TagName;
use bag_text::{Code, Text};
use std::alloc::{AllocError, Global};

/// The faults that the version isn't accepted, and that the bag is to be serialized or may not be
/// (BagIt Profiles Specification, Accept-BagIt-Version, Serialization).
pub(crate) fn whole_faults(
    alloc: Global,
    facts: &Facts,
    profile: &Profile,
) -> Result<Vec<Fault>, AllocError>
    ensures { IfOk result (λ faults.
        AreAllOf facts.now (λ bag. IsOfWhole bag profile.now) faults.items) }
{
    let mut faults = version_faults(alloc, facts, profile)?;
    if let Some(code) = wrong_form(profile) {
        faults.push(Fault::of_bag(alloc, code))?;
    }
    Ok(faults)
}

/// What is wrong with the form in which the bag lies, if anything is.
fn wrong_form(profile: &Profile) -> Option<Code>
    ensures { result ≡ spec.wrong_form profile.now.terms.serialization profile.now.form }
{
    match (profile.serialization(), profile.form()) {
        (Serialization::Required, Form::Folder) => Some(Code::SerializationRequired),
        (Serialization::Forbidden, Form::Archive) => Some(Code::SerializationForbidden),
        (Serialization::Required, Form::Archive)
        | (Serialization::Forbidden, Form::Folder)
        | (Serialization::Optional, Form::Folder | Form::Archive) => None,
    }
}

/// The fault that the bag declares a version that isn't accepted.
fn version_faults(alloc: Global, facts: &Facts, profile: &Profile) -> Result<Vec<Fault>, AllocError>
    ensures { IfOk result (λ faults. (bag : Bag) → IsFactsOf bag facts.now
        → AreAll (λ f. (f.code ≡ VersionNotAccepted) × HasOtherVersion bag profile.now f)
        faults.items) }
{
    let Some(version) = declared_version(facts) else {
        return Ok(Vec::new(alloc));
    };
    if !excludes(profile, ListRule::AcceptBagItVersion, version.as_str()) {
        return Ok(Vec::new(alloc));
    }
    Ok(vec![in alloc; version_fault(alloc, version)?]?)
}

/// The version that the bag declares, where line 1 of `bagit.txt` reads.
fn declared_version(facts: &Facts) -> Option<&Text>
    ensures { (bag : Bag) → IsFactsOf bag facts.now
        → option_copied result ≡ option_and_then declared.declared_version (file bag bagit_txt) }
{
    let Some(declaration) = facts.declaration() else {
        return None;
    };
    declaration.version.as_ref()
}

fn version_fault(alloc: Global, version: &Text) -> Result<Fault, AllocError>
    ensures { IfOk result (λ fault. fault ≡ other_version version.now) }
{
    let path = TagName::Declaration.path(alloc)?;
    let detail = version.copy(alloc)?;
    let fault = Fault::new(alloc, Code::VersionNotAccepted, path);
    Ok(fault.at(1).with(detail))
}
