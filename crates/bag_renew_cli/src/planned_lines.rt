//! The lines that say what would be put and removed. Writing them takes no memory.
ghost use Rattle.std.specs.Prelude.{◌≡◌};
ghost use Rattle.bag_renew_cli.specs.PlannedLines as spec;
ghost use Rattle.bag_tree.specs.Pieces.{Writes};

use crate::renewal_line::put_not_renewed;
use crate::said::{WOULD_PUT, WOULD_REMOVE};
use bag_faults::put_line;
use bag_renew::RenewFault;
use bag_text::Items;
use bag_tree::{FileChange, Out, Refused};

/// Hands the lines about a bag of this name to the output: one for each change, nothing of them
/// where it is to be quiet, or the one that says why the bag can't be renewed.
pub(crate) fn put_planned<W: Out>(
    name: &str,
    planned: &Result<Items<FileChange>, RenewFault>,
    quiet: bool,
    out: &mut W,
) -> Result<(), Refused>
    ensures { Writes (W.state out.old) (W.state out.new)
        (spec.planned_lines name.now planned.now quiet) result }
{
    match planned {
        Ok(changes) => {
            if quiet {
                Ok(())
            } else {
                put_changes(name, changes.as_slice(), out)
            }
        }
        Err(fault) => put_not_renewed(name, fault, out),
    }
}

/// Hands the line of each change to the output.
fn put_changes<W: Out>(name: &str, changes: &[FileChange], out: &mut W) -> Result<(), Refused>
    ensures { Writes (W.state out.old) (W.state out.new)
        (spec.change_lines name.now changes.now) result }
{
    for change in changes {
        put_change(name, change, out)?;
    }
    Ok(())
}

/// Hands the line of a change to the output.
fn put_change<W: Out>(name: &str, change: &FileChange, out: &mut W) -> Result<(), Refused>
    ensures { Writes (W.state out.old) (W.state out.new)
        (spec.change_line name.now change.now) result }
{
    match change {
        FileChange::Put(file, _) => put_file(name, WOULD_PUT, file.as_str(), out),
        FileChange::Remove(file) => put_file(name, WOULD_REMOVE, file.as_str(), out),
    }
}

/// The line that says this of a file.
fn put_file<W: Out>(name: &str, what: &str, file: &str, out: &mut W) -> Result<(), Refused>
    ensures { Writes (W.state out.old) (W.state out.new)
        (spec.file_line name.now what.now file.now) result }
{
    put_line(name, &[what], out)?;
    put_line(file, &["\n"], out)
}
