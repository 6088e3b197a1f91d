//! Writes a text.
ghost use Rattle.std.specs.Prelude.{[]};
ghost use Rattle.bag_program.specs.Deeds.{IsSaid};
ghost use Rattle.bag_program.specs.Halt.{status_of};

use crate::Halt;
use bag_tree::{Out, put_pieces};

/// Writes a text. Gives the status.
pub fn write_text<O: Out>(text: &str, out: &mut O) -> Result<u8, Halt>
    ensures { IsSaid text.now (O.state out.old) (O.state out.new) [] (status_of result) }
{
    put_pieces(out, &[text])?;
    Ok(0)
}
