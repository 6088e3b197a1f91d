//! The faults of a bag, stage by stage.
ghost use Rattle.std.specs.Prelude.{◌≡◌, ◌≢◌, ◌<◌, [], false, IfOk};
ghost use Rattle.std.specs.Option.{option_copied};
ghost use Rattle.bag_text.specs.Order.{IsListOf};
ghost use Rattle.bag_tree.specs.Bag.{Bag};
ghost use Rattle.bag_faults.specs.FaultOrder.{fault_cmp};
ghost use Rattle.bag_facts.specs.FactsOfBag.{IsFactsOf};
ghost use Rattle.bag_faults.specs.Options.{reaches};
ghost use Rattle.bag_faults.specs.Stage.{stage_number};
ghost use Rattle.bag_faults.specs.declared.options.Depth.TheVariants.{Declaration};
ghost use Rattle.bag_faults.specs.declared.stage.Stage.TheVariants as stage_of;
ghost use Rattle.bag_report.specs.ConformanceStage.{IsOfConformance};
ghost use Rattle.bag_report.specs.Report.{asks};
ghost use Rattle.bag_report.specs.Stages.{IsFoundAt, IsStageOf, check_of_facts};
ghost use Rattle.bag_stages.specs.Found.{AreFaultsOf};

use crate::conformance::conformance_faults;
use bag_facts::Facts;
use bag_faults::{Depth, Fault, Options, Stage};
use bag_profile::Profile;
use bag_stages::{
    completeness_faults, declaration_faults, fetch_faults, manifest_faults, metadata_faults,
    parts_faults,
};
use bag_text::Code;
use std::alloc::{AllocError, Global};

/// The faults of the stage of a number that are asked for, in their order. None are where the depth
/// doesn't have the stage, and of the eighth none are without a profile. The seventh needs the
/// files, so that for it there are none, as for every number above 8. Fails only where memory runs
/// out.
pub fn stage_faults(
    alloc: Global,
    facts: &Facts,
    profile: Option<&Profile>,
    stage: u8,
) -> Result<Vec<Fault>, AllocError>
    ensures faults { IfOk result (λ faults. (bag : Bag) → IsFactsOf bag facts.now → stage ≢ 7
        → IsStageOf (check_of_facts bag (option_copied profile.entry) facts.now) stage
        faults.items) }
    ensures seventh { IfOk result (λ faults. stage ≡ 7 → faults.items ≡ []) }
{
    let Some(stage) = Stage::from_number(stage) else {
        return Ok(Vec::new(alloc));
    };
    faults_of_stage(alloc, facts, profile, stage)
}

/// The same of a stage. Those of the seventh need the files, and aren't found here.
pub fn faults_of_stage(
    alloc: Global,
    facts: &Facts,
    profile: Option<&Profile>,
    stage: Stage,
) -> Result<Vec<Fault>, AllocError>
    ensures faults { IfOk result (λ faults. (bag : Bag) → IsFactsOf bag facts.now
        → stage ≢ stage_of.Validity
        → IsStageOf (check_of_facts bag (option_copied profile.entry) facts.now)
        (stage_number stage) faults.items) }
    ensures seventh { IfOk result (λ faults. stage ≡ stage_of.Validity → faults.items ≡ []) }
    ensures none { IfOk result (λ faults.
        reaches facts.now.options.depth (stage_number stage) ≡ false → faults.items ≡ []) }
{
    let options = facts.options;
    if !options.depth.has_stage(stage.number()) {
        return Ok(Vec::new(alloc));
    }
    let mut faults = found_faults(alloc, facts, profile, stage)?;
    faults.retain(|fault| asks(options, fault));
    Ok(faults)
}

/// The faults that a stage looks for, of facts that were read for it: clashes of names only where
/// they are asked for.
fn found_faults(
    alloc: Global,
    facts: &Facts,
    profile: Option<&Profile>,
    stage: Stage,
) -> Result<Vec<Fault>, AllocError>
    ensures faults { IfOk result (λ faults. (bag : Bag) → IsFactsOf bag facts.now
        → stage ≢ stage_of.Validity
        → (1 < stage_number stage → facts.now.options.depth ≢ Declaration)
        → IsListOf fault_cmp (IsFoundAt facts.now.options.clashes bag
        (option_copied profile.entry) (stage_number stage)) faults.items) }
    ensures seventh { IfOk result (λ faults. stage ≡ stage_of.Validity → faults.items ≡ []) }
{
    match stage {
        Stage::Declaration => declaration_faults(alloc, facts),
        Stage::Parts => parts_faults(alloc, facts),
        Stage::Metadata => metadata_faults(alloc, facts),
        Stage::Fetch => fetch_faults(alloc, facts),
        Stage::Manifests => manifest_faults(alloc, facts),
        Stage::Completeness => completeness_faults(alloc, facts),
        Stage::Validity => Ok(Vec::new(alloc)),
        Stage::Conformance => profile_faults(alloc, facts, profile),
    }
}

/// Where a bag doesn't conform to a profile, of facts that were read for more than the declaration.
fn profile_faults(
    alloc: Global,
    facts: &Facts,
    profile: Option<&Profile>,
) -> Result<Vec<Fault>, AllocError>
    ensures { IfOk result (λ faults. AreFaultsOf facts.now
        (λ bag. IsOfConformance bag (option_copied profile.entry)) faults.items) }
{
    match profile {
        Some(profile) => conformance_faults(alloc, facts, profile),
        None => Ok(Vec::new(alloc)),
    }
}

/// Whether a fault is asked for, as one of a stage that the depth has: that there is no
/// `Payload-Oxum` (RFC 8493, 2.2.2) at the depth `Fast` alone, and clashes of names where they are
/// looked for.
#[tactic(auto, unfolding(crate::specs::Report::asks))]
fn asks(options: Options, fault: &Fault) -> bool
    ensures { result ≡ asks options fault.now.code }
{
    match fault.code {
        Code::NoOxum => options.depth == Depth::Fast,
        Code::NameClash => options.clashes && options.depth.has_stage(fault.stage()),
        _ => options.depth.has_stage(fault.stage()),
    }
}
