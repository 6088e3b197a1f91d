//! Paths of files in a bag, and how manifests and `fetch.txt` write them.
ghost use Rattle.std.specs.Prelude.{◌≡◌, true, false, IsTrue, MatchResult, ◌≢◌, ◌==◌, ◌↔◌, ◌<◌};
ghost use Rattle.std.specs.Prelude.{◌≤◌, ◌∷◌, length, not, IfOk, IfSome, IsErrOf, MatchOption};
ghost use Rattle.std.specs.Prelude.{string_bytes, encode_utf8};
ghost use Rattle.std.specs.List.{list_all};
ghost use Rattle.bag_text.specs.PathPart.{with_byte, is_name};
ghost use Rattle.bag_text.specs.Path as spec;
ghost use Rattle.bag_text.specs.Spelling as spelled;
ghost use Rattle.bag_text.specs.Escape as writing;

use crate::{Rules, said};
use std::alloc::{AllocError, Global};
use thiserror::Error;

/// The text is no path: it is empty, begins or ends with `/`, or has a component that is empty, `.`
/// or `..`.
#[derive(Clone, Copy, Debug, PartialEq, Eq, Error)]
#[error("not a path inside the bag")]
pub struct Unsafe;

const SLASH: u8 = b'/';

const DOT: u8 = b'.';

/// What a component is as far as it is read.
#[derive(Clone, Copy)]
enum PathPart {
    /// It has no byte.
    Empty,
    /// It is `.`.
    Dot,
    /// It is `..`.
    TwoDots,
    /// It is anything else.
    Name,
}

impl PathPart {
    /// The component with one byte more.
    fn with(self, byte: u8) -> PathPart
        ensures { result ≡ with_byte self byte }
    {
        match self {
            PathPart::Empty if byte == DOT => PathPart::Dot,
            PathPart::Dot if byte == DOT => PathPart::TwoDots,
            _ => PathPart::Name,
        }
    }

    /// Whether it may stand in a path.
    fn is_name(self) -> bool
        ensures { result ≡ is_name self }
    {
        match self {
            PathPart::Empty | PathPart::Dot | PathPart::TwoDots => false,
            PathPart::Name => true,
        }
    }
}

/// Whether a text is a path: components joined by `/`, none of them empty, `.` or `..` (RFC 8493, 2
/// and 5.1).
pub fn check_path(text: &str) -> Result<(), Unsafe>
    ensures { MatchResult result (λ _. spec.is_path text.now ≡ true) (λ _.
        spec.is_path text.now ≡ false) }
{
    if is_plain(text.as_bytes()) {
        return Ok(());
    }
    let mut part = PathPart::Empty;
    for byte in text.as_bytes() {
        if *byte != SLASH {
            part = part.with(*byte);
        } else if part.is_name() {
            part = PathPart::Empty;
        } else {
            return Err(Unsafe);
        }
    }
    if part.is_name() { Ok(()) } else { Err(Unsafe) }
}

/// Whether these are a path in which no component begins with a dot, as in most paths. It takes no
/// branch for a byte, and keeps nothing of the byte before, so that many are tested at once.
fn is_plain(bytes: &[u8]) -> bool
    ensures { IsTrue result → spec.is_path bytes.now ≡ true }
{
    if bytes.is_empty() {
        return false;
    }
    let mut plain = !((bytes[0] == SLASH) | (bytes[0] == DOT));
    for place in 1..bytes.len() {
        let begins = bytes[place - 1] == SLASH;
        plain &= !(begins & ((bytes[place] == SLASH) | (bytes[place] == DOT)));
    }
    plain & (bytes[bytes.len() - 1] != SLASH)
}

/// Whether a text is the path of a payload file: one whose first component is `data`, and that has
/// a second (RFC 8493, 2.1.2).
pub fn is_payload(text: &str) -> bool
    ensures { result ≡ spec.is_payload_path text.now }
{
    let Some((first, _)) = text.split_once('/') else {
        return false;
    };
    first == "data" && check_path(text).is_ok()
}

/// Why a written path isn't read.
#[derive(Clone, Copy, Debug, PartialEq, Eq, Error)]
pub enum PathFault {
    /// A `%` that begins no escape of LF, CR or `%`.
    #[error("a % that begins no escape")]
    BadEscape,
    /// Memory ran out.
    #[error("{why}", why = said::OUT_OF_MEMORY)]
    Memory,
}

impl From<AllocError> for PathFault {
    ghost use Rattle.std.specs.Prelude.{◌≡◌};
    ghost use Rattle.bag_text.specs.declared.path.PathFault.TheVariants.{Memory};

    ghost from_gives = { λ _ fault. fault ≡ Memory };

    fn from(_error: AllocError) -> PathFault {
        PathFault::Memory
    }
}

/// A path as it is written: LF, CR and `%` as `%0A`, `%0D` and `%25`, every other character as
/// itself (RFC 8493, 2.1.3).
pub fn escape_path(alloc: Global, path: &str) -> Result<String, AllocError>
    ensures { IfOk result (λ text. string_bytes text ≡ writing.escape path.now) }
{
    let mut text = String::with_capacity(alloc, path.len())?;
    for c in path.chars() {
        match escape_of(c) {
            Some(escape) => text.push_str(escape)?,
            None => text.push(c)?,
        }
    }
    Ok(text)
}

/// The path that is written so, by the rules of a version. By those of 1.0 hex digits of either
/// case are read, and no other escapes than those of LF, CR and `%` (RFC 8493, 2.1.3); by those of
/// 0.97 no other than those of LF and CR, and each other `%` is itself.
pub fn unescape_path(alloc: Global, rules: Rules, text: &str) -> Result<String, PathFault>
    ensures ok { IfOk result (λ path. spelled.unescaped rules text.now ≡ Some (string_bytes path)) }
    ensures bad_escape { IsErrOf result PathFault.BadEscape
        ↔ (spelled.unescaped rules text.now ≡ None) }
{
    match rules {
        Rules::V10 => unescape_strictly(alloc, text),
        Rules::V097 => Ok(decode_line_ends(alloc, text)?),
    }
}

/// Whether a text is the path that it is written for: by the rules of 1.0 where it has no `%`. By
/// those of 0.97 it isn't looked at.
pub fn is_written_as_itself(rules: Rules, text: &str) -> bool
    ensures itself { IsTrue result → spelled.unescaped rules text.now ≡ Some text.now }
    ensures no_percent { rules ≡ Rules.V10
        → list_all (λ c. not (c == spelled.percent)) text.now ≡ true → IsTrue result }
{
    match rules {
        Rules::V10 => has_no_percent(text.as_bytes()),
        Rules::V097 => false,
    }
}

/// The path that is written so by the rules of 1.0. Judges the escapes before it takes memory,
/// which it does once.
fn unescape_strictly(alloc: Global, text: &str) -> Result<String, PathFault>
    ensures ok { IfOk result (λ path.
        spelled.unescaped_strictly text.now ≡ Some (string_bytes path)) }
    ensures bad_escape { IsErrOf result PathFault.BadEscape
        ↔ (spelled.unescaped_strictly text.now ≡ None) }
{
    if has_no_percent(text.as_bytes()) {
        return Ok(String::from_str(alloc, text)?);
    }
    if has_bad_escape(text) {
        return Err(PathFault::BadEscape);
    }
    Ok(decode(alloc, text)?)
}

/// Whether a text has no escape, as most have none. It takes no branch for a byte, so that many are
/// tested at once.
fn has_no_percent(bytes: &[u8]) -> bool
    ensures { result ≡ list_all (λ c. not (c == spelled.percent)) bytes.now }
{
    let mut all = true;
    for byte in bytes {
        all &= *byte != b'%';
    }
    all
}

/// Whether a `%` begins no escape.
fn has_bad_escape(text: &str) -> bool
    ensures { IsTrue result ↔ (spelled.unescaped_strictly text.now ≡ None) }
{
    let mut rest = text;
    while let Some((_, after)) = rest.split_once('%') {
        let Some((_, more)) = escaped_char(after) else {
            return true;
        };
        rest = more;
    }
    false
}

/// The path of a text in which each `%` begins an escape.
fn decode(alloc: Global, text: &str) -> Result<String, AllocError>
    requires { spelled.unescaped_strictly text.now ≢ None }
    ensures { IfOk result (λ path. spelled.unescaped_strictly text.now ≡ Some (string_bytes path)) }
{
    let mut path = String::with_capacity(alloc, text.len())?;
    let mut rest = text;
    while let Some((plain, after)) = rest.split_once('%') {
        let Some((c, more)) = escaped_char(after) else {
            unreachable!()
        };
        path.push_str(plain)?;
        path.push(c)?;
        rest = more;
    }
    path.push_str(rest)?;
    Ok(path)
}

/// What is written for a character that isn't written as itself.
fn escape_of(c: char) -> Option<&'static str>
    ensures { MatchOption result (writing.escape (encode_utf8 c) ≡ encode_utf8 c) (λ text.
        writing.escape (encode_utf8 c) ≡ text.now) }
{
    match c {
        '\n' => Some("%0A"),
        '\r' => Some("%0D"),
        '%' => Some("%25"),
        _ => None,
    }
}

/// The character that the two digits after a `%` stand for, and what follows them.
fn escaped_char(after: &str) -> Option<(char, &str)>
    ensures value { MatchOption result
        (spelled.unescaped_strictly (spelled.percent ∷ after.now) ≡ None) (λ read.
        spelled.unescaped_strictly (spelled.percent ∷ after.now)
        ≡ spelled.both (Some read.0) (spelled.unescaped_strictly read.1.now)) }
    ensures ascii { IfSome result (λ read. read.0 < 128) }
    ensures shorter { IfSome result (λ read. length read.1.now < length after.now) }
{
    let Some((digits, rest)) = after.split_at_checked(2) else {
        return None;
    };
    if digits.eq_ignore_ascii_case("0a") {
        Some(('\n', rest))
    } else if digits.eq_ignore_ascii_case("0d") {
        Some(('\r', rest))
    } else if digits == "25" {
        Some(('%', rest))
    } else {
        None
    }
}

/// The path of a text in which the ends of lines alone are escaped.
fn decode_line_ends(alloc: Global, text: &str) -> Result<String, AllocError>
    ensures { IfOk result (λ path. string_bytes path ≡ spelled.with_line_ends text.now) }
{
    let mut path = String::with_capacity(alloc, text.len())?;
    let mut rest = text;
    while let Some((plain, after)) = rest.split_once('%') {
        path.push_str(plain)?;
        let (c, more) = after_percent(after);
        path.push(c)?;
        rest = more;
    }
    path.push_str(rest)?;
    Ok(path)
}

/// The character that a `%` with this text after it stands for, and what follows: the end of a
/// line, or itself.
fn after_percent(after: &str) -> (char, &str)
    ensures value { spelled.with_line_ends (spelled.percent ∷ after.now)
        ≡ result.0 ∷ spelled.with_line_ends result.1.now }
    ensures ascii { result.0 < 128 }
    ensures shorter { length result.1.now ≤ length after.now }
{
    let Some((digits, more)) = after.split_at_checked(2) else {
        return ('%', after);
    };
    if digits.eq_ignore_ascii_case("0a") {
        ('\n', more)
    } else if digits.eq_ignore_ascii_case("0d") {
        ('\r', more)
    } else {
        ('%', after)
    }
}
