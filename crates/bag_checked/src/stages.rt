//! The first fault of the stages that open no file.
ghost use Rattle.std.specs.Prelude.{◌≢◌, IfErr, OnOk};
ghost use Rattle.bag_faults.specs.Stage.{stage_number};
ghost use Rattle.bag_faults.specs.declared.stage.Stage.TheVariants as stage_of;
ghost use Rattle.bag_checked.specs.FirstFaults.{HasNoneAt, HasNoneBefore, IsFoundAt, IsFoundFirst};

use crate::Unchecked;
use crate::checked::first_of;
use crate::summed::no_memory;
use bag_facts::Facts;
use bag_faults::{BEFORE_DIGESTS, Stage};
use bag_report::faults_of_stage;
use std::alloc::Global;

/// Whether a bag has no fault of the stages 1 to 6, which come before digests are compared; else
/// the first.
pub fn check_stages(alloc: Global, facts: &Facts) -> Result<(), Unchecked>
    ensures none { OnOk result (HasNoneBefore facts.now 7) }
    ensures fault { IfErr result (IsFoundFirst facts.now) }
{
    for stage in BEFORE_DIGESTS {
        check_stage(alloc, facts, stage)?;
    }
    Ok(())
}

/// Whether a bag has no fault of a stage; else the first of that stage.
fn check_stage(alloc: Global, facts: &Facts, stage: Stage) -> Result<(), Unchecked>
    ensures none { OnOk result (stage ≢ stage_of.Validity
        → HasNoneAt facts.now (stage_number stage)) }
    ensures fault { IfErr result (λ found. stage ≢ stage_of.Validity
        → IsFoundAt facts.now (stage_number stage) found) }
{
    let Ok(faults) = faults_of_stage(alloc, facts, None, stage) else {
        return Err(no_memory(alloc));
    };
    match first_of(faults) {
        None => Ok(()),
        Some(fault) => Err(Unchecked::Faulty(fault)),
    }
}
