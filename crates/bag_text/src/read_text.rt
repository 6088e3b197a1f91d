//! The text of a tag file, and its lines.
ghost use Rattle.std.specs.Prelude.{◌≡◌, ◌<◌, ◌^◌, length, IfOk, MatchResult};
ghost use Rattle.std.specs.List.{enumerate_from};
ghost use Rattle.std.specs.Str.{IsUtf8};
ghost use Rattle.bag_text.specs.Lines as cut;
ghost use Rattle.bag_text.specs.NumberedRest.{numbered_rest};
ghost use Rattle.bag_text.specs.Text as spec;

use crate::Lines;
use std::str;
use thiserror::Error;

/// The character that may stand at the front of a text to say that it is Unicode: three bytes in
/// UTF-8.
pub const BYTE_ORDER_MARK: &str = "\u{FEFF}";

/// The bytes aren't UTF-8.
#[derive(Clone, Copy, Debug, PartialEq, Eq, Error)]
#[error("not UTF-8")]
pub struct NotUtf8;

/// The text of a tag file's bytes, without one leading byte order mark (RFC 8493, 2.1.1 and 2.3).
#[tactic(auto, using(crate::proofs::Utf8::utf8_texts))]
pub fn text_of(bytes: &[u8]) -> Result<&str, NotUtf8>
    ensures text { MatchResult result (λ text. spec.text_of bytes.now ≡ Some text.now) (λ _.
        spec.text_of bytes.now ≡ None) }
    ensures utf8 { IfOk result (λ text. IsUtf8 text.now) }
{
    match str::from_utf8(bytes) {
        Ok(text) => Ok(text.strip_prefix(BYTE_ORDER_MARK).unwrap_or(text)),
        Err(_) => Err(NotUtf8),
    }
}

/// The lines of a text with their numbers, from 1. A line ends in LF, CR or CRLF, and characters
/// after the last end are a line (RFC 8493, 2.3). Copies nothing.
#[tactic(auto, using(crate::proofs::FirstLine::lines_few))]
pub fn lines(text: &str) -> Lines<'_>
    ensures rest { numbered_rest result ≡ enumerate_from 1 (cut.lines text.now) }
    ensures few { length (cut.lines text.now) < 2 ^ 64 }
{
    Lines::new(text)
}
