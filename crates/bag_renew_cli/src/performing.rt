//! Does what a plan says.
ghost use Rattle.std.specs.Prelude.{◌≤◌};
ghost use Rattle.bag_program.specs.Folders.{disks_of};
ghost use Rattle.bag_program.specs.Halt.{status_of};
ghost use Rattle.bag_program.specs.InTurn.{Does};
ghost use Rattle.bag_renew_cli.specs.Renewals.{IsPerformed};

use crate::renewals::Renewals;
use crate::said::PROGRAM;
use crate::{RenewAction, RenewPlan};
use bag_program::{Disks, Folders, Halt, InFolders, Visits, in_turn, told_status, write_text};
use bag_tree::Out;
use std::alloc::Global;

/// Does a plan: renews the bags in the folders of the plan, one after the other, says what would be
/// done, writes a manifest, or writes the help.
///
/// Gives the exit status, over several folders the greatest: 0 where a bag was renewed or could be,
/// or a text was written; 1 where a bag has a fault for which it isn't renewed; and 3 where it
/// isn't for another reason, or a write or a growth was refused. Where `out` refuses, it stops.
pub fn perform<D: Disks, O: Out, E: Out>(
    alloc: Global,
    folders: &Folders<'_, D>,
    plan: &RenewPlan,
    visits: &mut Visits<D>,
    out: &mut O,
    err: &mut E,
) -> u8
    ensures status { result ≤ 3 }
    ensures performed { Does O.Out visits.old visits.new out.old out.new result
        (IsPerformed (D.below (disks_of folders.now)) plan.now) }
{
    let done = do_plan(alloc, folders, plan, visits, out, err);
    told_status(done, PROGRAM, err)
}

/// Does a plan. Gives the status.
fn do_plan<D: Disks, O: Out, E: Out>(
    alloc: Global,
    folders: &Folders<'_, D>,
    plan: &RenewPlan,
    visits: &mut Visits<D>,
    out: &mut O,
    err: &mut E,
) -> Result<u8, Halt>
    ensures { Does O.Out visits.old visits.new out.old out.new (status_of result)
        (IsPerformed (D.below (disks_of folders.now)) plan.now) }
{
    match &plan.action {
        RenewAction::Help(text) => write_text(text.as_str(), out),
        RenewAction::Bags(action) => {
            let deed = Renewals {
                alloc,
                plan,
                action: *action,
            };
            let renewals = InFolders {
                alloc,
                folders,
                program: PROGRAM,
                deed,
            };
            in_turn(&renewals, plan.directories.as_slice(), visits, out, err)
        }
    }
}
