//! Stage 8: what a profile asks of a bag.
ghost use Rattle.std.specs.Prelude.{◌⊎◌, IfOk};
ghost use Rattle.bag_read.specs.declared.kind.Kind.TheVariants.{Payload, Tag};
ghost use Rattle.bag_report.specs.ConformanceFaults.{IsOfKind, AreAllOf};
ghost use Rattle.bag_report.specs.ConformanceStage.{IsOfProfile};
ghost use Rattle.bag_stages.specs.Found.{AreFaultsOf};

use crate::elements::element_faults;
use crate::manifest_names::manifest_faults;
use crate::tag_files::tag_file_faults;
use crate::whole_bag::whole_faults;
use bag_facts::Facts;
use bag_faults::Fault;
use bag_profile::Profile;
use bag_read::Kind;
use std::alloc::{AllocError, Global};

/// Where a bag doesn't conform to a profile, of facts read for more than the declaration. Fails
/// only where memory runs out.
pub fn conformance_faults(
    alloc: Global,
    facts: &Facts,
    profile: &Profile,
) -> Result<Vec<Fault>, AllocError>
    ensures { IfOk result (λ faults.
        AreFaultsOf facts.now (λ bag. IsOfProfile bag profile.now) faults.items) }
{
    let mut faults = faults_of_parts(alloc, facts, profile)?;
    // The faults of elements ascend already: a stable sort keeps such runs.
    faults.sort()?;
    faults.dedup();
    Ok(faults)
}

/// The faults of all parts of a bag, in no order.
fn faults_of_parts(
    alloc: Global,
    facts: &Facts,
    profile: &Profile,
) -> Result<Vec<Fault>, AllocError>
    ensures { IfOk result (λ faults.
        AreAllOf facts.now (λ bag. IsOfProfile bag profile.now) faults.items) }
{
    let mut faults = element_faults(alloc, facts, profile)?;
    faults.append(&mut faults_of_manifests(alloc, facts, profile)?)?;
    faults.append(&mut tag_file_faults(alloc, facts, profile)?)?;
    faults.append(&mut whole_faults(alloc, facts, profile)?)?;
    Ok(faults)
}

/// The faults of manifests of both kinds.
fn faults_of_manifests(
    alloc: Global,
    facts: &Facts,
    profile: &Profile,
) -> Result<Vec<Fault>, AllocError>
    ensures { IfOk result (λ faults. AreAllOf facts.now (λ bag f.
        IsOfKind bag profile.now f Payload ⊎ IsOfKind bag profile.now f Tag) faults.items) }
{
    let mut faults = manifest_faults(alloc, facts, profile, Kind::Payload)?;
    faults.append(&mut manifest_faults(alloc, facts, profile, Kind::Tag)?)?;
    Ok(faults)
}
