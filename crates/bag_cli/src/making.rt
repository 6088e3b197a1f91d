//! Making one folder a bag.
ghost use Rattle.std.specs.Prelude.{◌≡◌};
ghost use Rattle.bag_cli.specs.Making.{IsMaking, ReportsMaking};
ghost use Rattle.bag_cli.specs.MakingLine as spec;

use crate::making_line::put_making;
use bag_make::{MakeFault, make};
use bag_text::{AlgSet, Text};
use bag_tree::{Out, Refused, WriteTree};
use std::alloc::Global;

/// Makes a folder a bag in place, as `make`, and writes a line about it under a name: `NAME made`,
/// which is left out where the making is quiet, or `NAME not made: ` and the reason.
///
/// Gives the exit status, 0 where the bag was made and 3 where it wasn't; or the output's refusal.
/// The folder is made a bag before the line is written, so that a refused output doesn't say
/// whether it is one.
pub fn make_and_report<T: WriteTree, W: Out>(
    alloc: Global,
    tree: T,
    name: &str,
    algs: AlgSet,
    info: &[(Text, Text)],
    quiet: bool,
    out: &mut W,
) -> (T, Result<u8, Refused>)
    ensures { IsMaking name.now algs info.now quiet (T.state tree) (T.state result.0)
        (W.state out.old) (W.state out.new) result.1 }
{
    let (tree, made) = make(alloc, tree, algs, info);
    let told = tell(name, &made, quiet, out);
    (tree, told)
}

/// Writes the line about a making, and gives the exit status.
fn tell<W: Out>(
    name: &str,
    made: &Result<(), MakeFault>,
    quiet: bool,
    out: &mut W,
) -> Result<u8, Refused>
    ensures { ReportsMaking name.now made.now quiet (W.state out.old) (W.state out.new) result }
{
    put_making(name, made, quiet, out)?;
    Ok(status(made))
}

/// The exit status.
fn status(made: &Result<(), MakeFault>) -> u8
    ensures { result ≡ spec.making_status made.now }
{
    match made {
        Ok(()) => 0,
        Err(_) => 3,
    }
}
