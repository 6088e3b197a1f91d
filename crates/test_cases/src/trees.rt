//! What checks and makings answer over trees in memory.
ghost use Rattle.std.specs.Prelude.{None};
ghost use Rattle.bag_store.specs.Tree.{Keeps};
ghost use Rattle.test_cases.specs.Checked.{IsChecked};

use bag_cli::{Action, Plan, make_and_report, request_for};
use bag_store::{FailTree, MemoryTree, Tree, WriteTree, WriterOut};
use bag_walk::{Part, Request, run, run_part, status};
use std::alloc::{AllocError, Global};
use test_case_lines::{Answer, Bytes, Mistake, Report, Sight};
use test_world::World;

/// Whether what a plan asks for can be done over trees: folders that can be trees are checked
/// without a profile, or made bags.
pub(crate) fn are_trees(plan: &Plan, world: &World) -> bool {
    for directory in plan.directories.as_slice() {
        if !world.has_tree(directory.as_str()) {
            return false;
        }
    }
    plan.profile.is_none() && matches!(plan.action, Action::Check | Action::Make)
}

/// The tree after a check, what the check wrote, and its exit status.
///
/// The clause says that a text which compares equal with what was written is one that a run may
/// write.
fn checked<T: Tree + Drop>(alloc: Global, tree: T, request: Request) -> (T, Vec<u8>, u8)
    ensures keeps { Keeps (T.state tree) (T.state result.0) }
    ensures checked { IsChecked (T.state tree) (T.state result.0) None request result.1.items
        result.2 }
{
    let mut out = WriterOut::new(Vec::<u8>::new(alloc));
    let (tree, outcome) = run(alloc, tree, None, request, &mut out);
    (tree, out.into_inner(), status(&outcome))
}

/// The tree after a check of a part, what it wrote, and its exit status.
fn checked_part<T: Tree + Drop>(
    alloc: Global,
    tree: T,
    part: Part,
    request: Request,
) -> (T, Vec<u8>, u8) {
    let mut out = WriterOut::new(Vec::<u8>::new(alloc));
    let (tree, outcome) = run_part(alloc, tree, None, None, part, request, &mut out);
    (tree, out.into_inner(), outcome.status())
}

/// The tree after a making, what was reported of the making, and the exit status.
fn made<T: WriteTree + Drop>(alloc: Global, tree: T, plan: &Plan, name: &str) -> (T, Vec<u8>, u8) {
    let mut out = WriterOut::new(Vec::<u8>::new(alloc));
    let info = plan.info.as_slice();
    let (tree, told) = make_and_report(alloc, tree, name, plan.algs, info, plan.quiet, &mut out);
    (tree, out.into_inner(), told.unwrap_or(3))
}

/// Does with a tree what a plan says. Gives the tree after that, what was written, and the exit
/// status.
fn done<T: WriteTree + Drop>(
    alloc: Global,
    plan: &Plan,
    name: &str,
    tree: T,
) -> Result<(T, Vec<u8>, u8), AllocError> {
    match plan.action {
        Action::Make => Ok(made(alloc, tree, plan, name)),
        _ => {
            let request = request_for(alloc, plan, name)?;
            Ok(match plan.part {
                Some(part) => checked_part(alloc, tree, part, request),
                None => checked(alloc, tree, request),
            })
        }
    }
}

/// Does with a folder what a plan says, over a tree of which the call of a number is refused, or
/// none for 0. Gives the tree after that, and adds what is written, and the exit status.
pub(crate) fn do_over_tree(
    alloc: Global,
    plan: &Plan,
    world: &World,
    name: &str,
    call: u64,
    answer: &mut Answer,
) -> Result<FailTree<MemoryTree>, Mistake> {
    let (tree, written, status) = done(alloc, plan, name, world.tree(name, call)?)?;
    answer.written.put_bytes(&written);
    answer.status = answer.status.max(status);
    Ok(tree)
}

/// Does with each folder what a plan says, as a tree in memory, where they can be trees, and keeps
/// what a making leaves.
pub(crate) fn see_in_trees(sight: &Sight<'_>, plan: &Plan, world: &mut World, report: &mut Report) {
    if !are_trees(plan, world) {
        return;
    }
    let alloc = sight.texts.alloc;
    let mut found = Answer::of(alloc, Bytes::new(alloc), 0);
    for directory in plan.directories.as_slice() {
        let name = directory.as_str();
        match do_over_tree(alloc, plan, world, name, 0, &mut found) {
            Ok(tree) => world.keep(name, &mut tree.into_inner(), report),
            Err(mistake) => report.text.fail(mistake),
        }
    }
    report.see(sight, "in a tree in memory", &found);
}
