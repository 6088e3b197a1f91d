//! Renewals on disks in memory.
use crate::commands::Verb;
use crate::turns::{Calls, Turns, see_in_turn};
use bag_cli::Disks;
use bag_disk::DiskFault;
use bag_renew::renew;
use bag_renew_cli::{BagAction, RenewAction, RenewPlan, renewal_of};
use bag_store::FileTree;
use std::alloc::{AllocError, Global};
use test_case_lines::{Mistake, Report, Sight};
use test_disk::MemoryDisk;
use test_world::World;

/// Renews the bags in the folders of words, where these say so, and keeps what is left.
pub(crate) fn renew_in_memory(
    alloc: Global,
    words: &[&str],
    world: &mut World,
    report: &mut Report,
) {
    let Ok(plan) = renewal_of(alloc, words) else {
        return;
    };
    if !matches!(plan.action, RenewAction::Bags(BagAction::Renew)) {
        return;
    }
    for directory in plan.directories.as_slice() {
        let name = directory.as_str();
        match renewed(alloc, &plan, world, name) {
            Ok(mut tree) => world.keep(name, &mut tree, report),
            Err(_) => report.text.fail(Mistake::Memory),
        }
    }
}

/// The tree of a folder after the renewal of a plan, whether it was refused or not.
fn renewed(
    alloc: Global,
    plan: &RenewPlan,
    world: &World,
    name: &str,
) -> Result<FileTree<MemoryDisk>, AllocError> {
    let mut tree = FileTree::over(alloc, world.disk(alloc, name)?);
    let _ = renew(alloc, &mut tree, &plan.renewal);
    Ok(tree)
}

/// Compares what is answered where each call of the disk of one folder is refused in turn, by a
/// fault.
pub(crate) fn see_refused(
    sight: &Sight<'_>,
    fault: DiskFault,
    words: &[&str],
    world: &World,
    report: &mut Report,
) {
    let alloc = sight.texts.alloc;
    let is_one = match renewal_of(alloc, words) {
        Ok(plan) => plan.directories.as_slice().len() == 1,
        Err(_) => false,
    };
    if !is_one {
        report.text.fail(Mistake::Command);
        return;
    }
    let calls = Calls::Disk(Verb::Renew, words, fault);
    let turns = Turns {
        alloc,
        world,
        calls,
    };
    see_in_turn(sight, &turns, report);
}
