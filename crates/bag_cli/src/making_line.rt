//! The line that says how making a bag went. Writing it takes no memory.
ghost use Rattle.bag_cli.specs.MakingLine as spec;
ghost use Rattle.bag_tree.specs.Pieces.{Writes};

use crate::said::{MADE, NOT_MADE};
use bag_faults::put_line;
use bag_make::{MakeFault, said};
use bag_program::{put_done, put_not_done, put_refused};
use bag_tags::said::{BAD_VALUE, NO_ALGORITHM};
use bag_text::said::OUT_OF_MEMORY;
use bag_tree::{Out, Refused, TreeFault};
use itoa::Buffer;

/// Hands the line about a folder of this name to the output, or nothing where the bag was made and
/// the making is quiet. The name and the path of a file are written as fields of a line.
pub fn put_making<W: Out>(
    name: &str,
    made: &Result<(), MakeFault>,
    quiet: bool,
    out: &mut W,
) -> Result<(), Refused>
    ensures { Writes (W.state out.old) (W.state out.new)
        (spec.line name.now made.now quiet) result }
{
    match made {
        Ok(()) => put_done(name, MADE, quiet, out),
        Err(fault) => put_not_made(name, fault, out),
    }
}

fn put_not_made<W: Out>(name: &str, fault: &MakeFault, out: &mut W) -> Result<(), Refused>
    ensures { Writes (W.state out.old) (W.state out.new)
        (spec.not_made_line name.now (spec.reason fault.now)) result }
{
    match fault {
        MakeFault::NoAlgorithm => put_not_done(name, NOT_MADE, NO_ALGORITHM, out),
        MakeFault::InTheWay => put_not_done(name, NOT_MADE, said::IN_THE_WAY, out),
        MakeFault::BadValue => put_not_done(name, NOT_MADE, BAD_VALUE, out),
        MakeFault::ReadStopped(stop) => {
            let path = stop.path.as_str();
            put_refused(name, NOT_MADE, said::READ, path, stop.cause, out)
        }
        MakeFault::Memory => put_not_done(name, NOT_MADE, OUT_OF_MEMORY, out),
        MakeFault::StepRefused(place, cause) => put_step(name, *place, *cause, out),
    }
}

fn put_step<W: Out>(name: &str, place: u64, cause: TreeFault, out: &mut W) -> Result<(), Refused>
    ensures { Writes (W.state out.old) (W.state out.new)
        (spec.not_made_line name.now (spec.refused_step place cause)) result }
{
    let mut digits = Buffer::new();
    put_line(
        name,
        &[
            NOT_MADE,
            said::STEP,
            digits.format(place),
            " ",
            cause.word(),
            "\n",
        ],
        out,
    )
}
