//! What is said on `err`, beside the output. It takes no memory, and where `err` refuses, that is
//! reported no further.
ghost use Rattle.bag_tree.specs.Pieces.{joined_pieces};
ghost use Rattle.bag_program.specs.Saying.{Says, with_line_end};

use bag_tree::{Out, put_pieces};

/// Says the pieces of a text.
pub fn say_on<E: Out>(err: &mut E, pieces: &[&str])
    ensures { Says (E.state err.old) (E.state err.new) (joined_pieces pieces.now) }
{
    let _ = put_pieces(err, pieces);
}

/// Says a text with a line end at its end.
pub fn say_ended<E: Out>(text: &str, err: &mut E)
    ensures { Says (E.state err.old) (E.state err.new) (with_line_end text.now) }
{
    if text.as_bytes().ends_with(b"\n") {
        say_on(err, &[text]);
    } else {
        say_on(err, &[text, "\n"]);
    }
}
