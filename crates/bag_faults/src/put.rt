//! The line of a fault, written without memory.
ghost use Rattle.std.specs.Prelude.{◌++◌, codes};
ghost use Rattle.bag_faults.specs.FaultLine.{fault_line, line_field};
ghost use Rattle.bag_faults.specs.FaultParts as spec;
ghost use Rattle.bag_tree.specs.Pieces.{Writes};

use crate::Fault;
use crate::fault::alg_name;
use crate::field::put_line;
use bag_tree::{Out, Refused, put_pieces};
use itoa::Buffer;

impl Fault {
    /// Hands the fault's line to the output, with its end. It takes no memory.
    pub fn put<W: Out>(&self, out: &mut W) -> Result<(), Refused>
        ensures { Writes (W.state out.old) (W.state out.new)
            (fault_line self.now ++ codes "\n") result }
    {
        let mut digits = Buffer::new();
        put_pieces(
            out,
            &[
                digits.format(self.code.number()),
                " ",
                self.code.word(),
                " ",
            ],
        )?;
        put_place(self, out)
    }
}

/// The path, the algorithm, the line and the detail.
fn put_place<W: Out>(fault: &Fault, out: &mut W) -> Result<(), Refused>
    ensures { Writes (W.state out.old) (W.state out.new) (spec.place fault.now) result }
{
    put_line(fault.path.as_str(), &[" ", alg_name(fault.alg), " "], out)?;
    put_end(fault, out)
}

/// The line and the detail.
fn put_end<W: Out>(fault: &Fault, out: &mut W) -> Result<(), Refused>
    ensures { Writes (W.state out.old) (W.state out.new) (spec.end fault.now) result }
{
    put_line_number(fault.line, out)?;
    put_line(fault.detail.as_str(), &["\n"], out)
}

/// The line's number and a space.
fn put_line_number<W: Out>(line: u64, out: &mut W) -> Result<(), Refused>
    ensures { Writes (W.state out.old) (W.state out.new) (line_field line ++ codes " ") result }
{
    if line == 0 {
        return put_pieces(out, &["- "]);
    }
    let mut digits = Buffer::new();
    put_pieces(out, &[digits.format(line), " "])
}
