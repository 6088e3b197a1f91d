//! Texts as fields of a line.
ghost use Rattle.std.specs.Prelude.{◌≡◌, ◌++◌};
ghost use Rattle.percent_encoding.specs.Iter.{encoded_text};
ghost use Rattle.bag_tree.specs.Pieces.{Writes, joined_pieces};
ghost use Rattle.bag_faults.specs.FaultLine.{field};

use bag_tree::{Out, Refused, put_all, put_pieces};
use percent_encoding::{AsciiSet, CONTROLS, PercentEncode, ascii_set, percent_encode};

/// The bytes that a field escapes, beside those outside ASCII.
const ESCAPED: AsciiSet = ascii_set!(CONTROLS.add(b' ').add(b'%'));

/// What a field escapes, and the hyphen, which alone stands for the empty text.
const ESCAPED_HYPHEN: AsciiSet = ascii_set!(ESCAPED.add(b'-'));

/// A text as a field, in pieces that take no memory: `-` where it is empty, `%2D` for the text `-`,
/// and else each byte as itself or as `%` and two upper-case hex digits, so that the field is ASCII
/// without a space.
pub(crate) fn field_pieces(text: &str) -> PercentEncode<'_>
    ensures { encoded_text result ≡ field text.now }
{
    if text.is_empty() {
        percent_encode(b"-", ESCAPED)
    } else if text == "-" {
        percent_encode(b"-", ESCAPED_HYPHEN)
    } else {
        percent_encode(text.as_bytes(), ESCAPED)
    }
}

/// Hands a text to the output as a field of a line, and then the pieces, with no line end of its
/// own. It takes no memory.
pub fn put_line<W: Out>(text: &str, pieces: &[&str], out: &mut W) -> Result<(), Refused>
    ensures { Writes (W.state out.old) (W.state out.new)
        (field text.now ++ joined_pieces pieces.now) result }
{
    put_field(text, out)?;
    put_pieces(out, pieces)
}

/// Hands a text to the output as a field of a line.
fn put_field<W: Out>(text: &str, out: &mut W) -> Result<(), Refused>
    ensures { Writes (W.state out.old) (W.state out.new) (field text.now) result }
{
    for piece in field_pieces(text) {
        put_all(out, piece.as_bytes())?;
    }
    Ok(())
}
