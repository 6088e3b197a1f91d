//! Renewing one bag, and saying how it went.
ghost use Rattle.bag_renew_cli.specs.Renewing.{IsDryRun, IsRenewing, ReportsPlan, ReportsRenewal};

use crate::planned_lines::put_planned;
use crate::{put_renewal, renewal_status};
use bag_renew::{RenewFault, Renewal, plan_renewal, renew};
use bag_text::Items;
use bag_tree::{FileChange, Out, Refused, ReplaceTree};
use std::alloc::Global;

/// Renews a bag in place, as `renew`, and writes a line about it under a name: `NAME renewed`,
/// which is left out where the renewal is quiet, or `NAME not renewed: ` and the reason.
///
/// Gives the exit status; or the output's refusal. The bag is renewed before the line is written,
/// so that a refused output doesn't say whether it is.
pub fn renew_and_report<T: ReplaceTree, W: Out>(
    alloc: Global,
    tree: &mut T,
    name: &str,
    renewal: &Renewal,
    quiet: bool,
    out: &mut W,
) -> Result<u8, Refused>
    ensures { IsRenewing name.now renewal.now quiet (T.state tree.old) (T.state tree.new)
        (W.state out.old) (W.state out.new) result }
{
    let renewed = renew(alloc, tree, renewal);
    tell(name, &renewed, quiet, out)
}

/// Writes the line about a renewal, and gives the exit status.
fn tell<W: Out>(
    name: &str,
    renewed: &Result<(), RenewFault>,
    quiet: bool,
    out: &mut W,
) -> Result<u8, Refused>
    ensures { ReportsRenewal name.now renewed.now quiet (W.state out.old) (W.state out.new) result }
{
    put_renewal(name, renewed, quiet, out)?;
    Ok(renewal_status(renewed))
}

/// Checks a bag, and writes a line for each file that would be put or removed, in their order, or
/// why it can't be renewed. The bag stays as it is.
pub fn plan_and_report<T: ReplaceTree, W: Out>(
    alloc: Global,
    tree: &mut T,
    name: &str,
    renewal: &Renewal,
    quiet: bool,
    out: &mut W,
) -> Result<u8, Refused>
    ensures { IsDryRun name.now renewal.now quiet (T.state tree.old) (T.state tree.new)
        (W.state out.old) (W.state out.new) result }
{
    let planned = plan_renewal(alloc, tree, renewal);
    tell_plan(name, &planned, quiet, out)
}

/// Writes the lines about a plan, and gives the exit status.
fn tell_plan<W: Out>(
    name: &str,
    planned: &Result<Items<FileChange>, RenewFault>,
    quiet: bool,
    out: &mut W,
) -> Result<u8, Refused>
    ensures { ReportsPlan name.now planned.now quiet (W.state out.old) (W.state out.new) result }
{
    put_planned(name, planned, quiet, out)?;
    Ok(renewal_status(planned))
}
