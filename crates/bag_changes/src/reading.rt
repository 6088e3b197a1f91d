//! Reading a bag that is to be renewed.
ghost use Rattle.std.specs.Prelude.{IfErr, IfOk, IsTrue, OnOk};
ghost use Rattle.bag_tree.specs.Tree.{Keeps, NothingFailed};
ghost use Rattle.bag_changes.specs.Folders.{OpensNothing};
ghost use Rattle.bag_changes.specs.Openings.{OpensBefore, OpensForRenewal};
ghost use Rattle.bag_changes.specs.Reading.{AllowsRenewal, HasReadBag, IsNotReady};
ghost use Rattle.bag_changes.specs.Reading.{MayRefuseReading};
ghost use Rattle.bag_changes.specs.Reserved.{IsOutOfTheWay};
ghost use Rattle.bag_renewed.specs.Target.{IsTargetFor};

use crate::RenewFault;
use crate::fault::{refusal, stopped};
use crate::info::check_info;
use crate::obstacles::check_obstacles;
use bag_checked::{CheckedFiles, FULL, check_files, check_stages};
use bag_facts::Facts;
use bag_renewed::{Renewal, Target, target_of};
use bag_tree::ReplaceTree;
use std::alloc::Global;

/// Reads a bag, which can be renewed, decides what is made of it, and computes the digests by the
/// algorithms of its new manifests.
///
/// It is refused with the first of its faults of the stages that open no file; then for what stands
/// in the way of a renewal, as a folder may; then for an element that can't be written; and then for
/// the first file that has another digest than a manifest gives. The tag files are read first. Then
/// each file is opened once, but the payload only where a payload manifest is written, or dropped and
/// not unchecked; and the bytes of `bag-info.txt` are kept, as its digests are compared then.
pub fn read_bag<T: ReplaceTree>(
    alloc: Global,
    tree: &mut T,
    renewal: &Renewal,
) -> Result<(Facts, Target, CheckedFiles), RenewFault>
    ensures keeps { Keeps (T.state tree.old) (T.state tree.new) }
    ensures read { IfOk result (λ read.
        HasReadBag renewal.now (T.state tree.old) (T.state tree.new) read.0 read.2.summed.items
        read.2.info) }
    ensures decided { IfOk result (λ read. IsTargetFor read.0 renewal.now read.1) }
    ensures refused { IfErr result
        (MayRefuseReading renewal.now (T.state tree.old) (T.state tree.new)) }
    ensures opens { OpensForRenewal renewal.now (T.state tree.old) (T.state tree.new) }
    ensures opens_before { IfErr result (OpensBefore (T.state tree.old) (T.state tree.new)) }
{
    let facts = match Facts::read(alloc, tree, FULL) {
        Ok(facts) => facts,
        Err(stop) => return Err(stopped(stop)),
    };
    let target = match check_facts(alloc, tree, &facts, renewal) {
        Ok(target) => target,
        Err(fault) => return Err(fault),
    };
    match check_files(alloc, tree, &facts, target.algs, target.reads_payload) {
        Ok(checked) => Ok((facts, target, checked)),
        Err(unchecked) => Err(refusal(unchecked)),
    }
}

/// What a renewal makes of a bag, where what is known of it allows that, and no folder is in the way.
#[tactic(auto, using(crate::proofs::ReadBag::refusing))]
fn check_facts<T: ReplaceTree>(
    alloc: Global,
    tree: &mut T,
    facts: &Facts,
    renewal: &Renewal,
) -> Result<Target, RenewFault>
    ensures still { OpensNothing (T.state tree.old) (T.state tree.new) }
    ensures no_failure { OnOk result (NothingFailed (T.state tree.old) (T.state tree.new)) }
    ensures target { IfOk result (AllowsRenewal facts.now renewal.now) }
    ensures way { OnOk result
        (IsTrue (T.state tree.old).honest → IsOutOfTheWay (T.state tree.old).bag) }
    ensures refused { IfErr result
        (IsNotReady facts.now renewal.now (T.state tree.old) (T.state tree.new)) }
{
    if let Err(unchecked) = check_stages(alloc, facts) {
        return Err(refusal(unchecked));
    }
    let target = target_of(facts, renewal);
    if let Err(fault) = check_obstacles(alloc, tree, facts, &target) {
        return Err(fault);
    }
    if let Err(fault) = check_info(alloc, facts, renewal, &target) {
        return Err(fault);
    }
    Ok(target)
}
