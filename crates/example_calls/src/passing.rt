//! A check, one fault at a time, that passes over files that can't be read.
ghost use Rattle.std.specs.Prelude.{◌≤◌, IfOk};
ghost use Rattle.bag_tree.specs.Tree.{Keeps};
ghost use Rattle.bag_sources.specs.Steps.{state};

use crate::NotDone;
use bag_report::{Fault, Options};
use bag_store::{Out, Stop, Tree, put_pieces};
use bag_text::{Code, Text};
use bag_walk::{InOrder, Source, Sources, Steps, Walk};
use std::alloc::Global;

/// Writes the line of each fault of a bag, and passes over at most ten files that can't be read.
/// Gives the tree back, and how many files were passed over: of these nothing is known.
pub fn check_what_can_be_read<T: Tree + Drop, W: Out>(
    alloc: Global,
    tree: T,
    options: Options,
    out: &mut W,
) -> Result<(T, u64), NotDone>
    ensures keeps { IfOk result (λ checked. Keeps (T.state tree) (T.state checked.0)) }
    ensures passed { IfOk result (λ checked. checked.1 ≤ 10) }
{
    let mut walk = start(alloc, tree, options, None)?;
    for passed in 0..10 {
        let Some(stop) = write_faults(alloc, &mut walk, out)? else {
            return Ok((walk.into_tree(), passed));
        };
        let after = fault_after(alloc, &stop)?;
        walk = start(alloc, walk.into_tree(), options, Some(after))?;
    }
    match write_faults(alloc, &mut walk, out)? {
        Some(stop) => Err(NotDone::Unread(stop)),
        None => Ok((walk.into_tree(), 10)),
    }
}

/// A walk over the faults after one of them, or over all.
fn start<T: Tree + Drop>(
    alloc: Global,
    tree: T,
    options: Options,
    after: Option<Fault>,
) -> Result<Walk<T>, NotDone>
    ensures { IfOk result (λ walk.
        Keeps (T.state tree) (state T.Tree ⟦<Sources as Source<T>>⟧ walk)) }
{
    match Walk::start(alloc, tree, None, options, after) {
        Ok(walk) => Ok(walk),
        Err((_tree, stop)) => Err(NotDone::Unread(stop)),
    }
}

/// Writes the faults that a walk has still to give, up to a file that can't be read.
fn write_faults<T: Tree, S: InOrder<T>, W: Out>(
    alloc: Global,
    walk: &mut Steps<T, S>,
    out: &mut W,
) -> Result<Option<Stop>, NotDone>
    ensures { Keeps (state T.Tree S.Source walk.old) (state T.Tree S.Source walk.new) }
{
    for _ in 0..u64::MAX {
        if let Err(stop) = walk.go_on() {
            return Ok(Some(stop));
        }
        let Some(fault) = walk.shown() else {
            return Ok(None);
        };
        let line = fault.to_line(alloc)?;
        put_pieces(out, &[line.as_str(), "\n"])?;
    }
    Ok(None)
}

/// A fault that stands after all faults of the file at which a walk stopped, and before those of
/// the next.
fn fault_after(alloc: Global, stop: &Stop) -> Result<Fault, NotDone> {
    let mut path = String::new(alloc);
    path.push_str(stop.path.as_str())?;
    path.push('\0')?;
    let path = Text::from_str(alloc, path.as_str())?;
    Ok(Fault::new(alloc, Code::PayloadSumDiffers, path))
}
