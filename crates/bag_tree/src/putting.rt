//! Hands texts to an output, whole.
ghost use Rattle.bag_tree.specs.Pieces.{Writes, joined_pieces};

use crate::{Out, Refused};

/// Hands all bytes to the output, in one write where it takes them whole.
pub fn put_all<W: Out>(out: &mut W, bytes: &[u8]) -> Result<(), Refused>
    ensures { Writes (W.state out.old) (W.state out.new) bytes.now result }
{
    let mut rest = bytes;
    while !rest.is_empty() {
        let count = out.put(rest)?;
        let (_, after) = rest.split_at(count);
        rest = after;
    }
    Ok(())
}

/// Hands the pieces of a text to the output. It takes no memory.
pub fn put_pieces<W: Out>(out: &mut W, pieces: &[&str]) -> Result<(), Refused>
    ensures { Writes (W.state out.old) (W.state out.new) (joined_pieces pieces.now) result }
{
    for piece in pieces {
        put_all(out, piece.as_bytes())?;
    }
    Ok(())
}
