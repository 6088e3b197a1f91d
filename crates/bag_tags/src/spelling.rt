//! How the path of a file is spelled in a manifest, by the rules of a version (RFC 8493, 2.1.3).
ghost use Rattle.std.specs.Prelude.{◌≡◌, IfOk, MatchOption, encode_utf8, is_some, string_bytes};
ghost use Rattle.bag_text.specs.Spelling.{line_end};
ghost use Rattle.bag_tags.specs.PathSpelling as spec;
ghost use Rattle.bag_tags.specs.Writable as writable;

use bag_text::{Rules, escape_path, is_blank};
use std::alloc::{AllocError, Global};

/// What may stand before a path in a manifest, as `md5sum -b` has it.
const STAR: u8 = b'*';

const PERCENT: u8 = b'%';

/// Whether no manifest that is written by these rules can name this path: readers drop what it
/// begins with, a blank or a `*`; or by the rules of 0.97 it has `%0A` or `%0D` in it, in either
/// case, which would be read as the end of a line.
pub fn is_unnameable(rules: Rules, path: &str) -> bool
    ensures { result ≡ writable.is_unnameable rules path.now }
{
    is_unspelled(rules, path) || begins_with_mark(path)
}

/// A path as it is spelled by the rules of a version: by those of 1.0 LF, CR and `%` are escaped,
/// by those of 0.97 LF and CR alone.
pub(crate) fn spell_path(alloc: Global, rules: Rules, path: &str) -> Result<String, AllocError>
    ensures { IfOk result (λ text. string_bytes text ≡ spec.spelled rules path.now) }
{
    match rules {
        Rules::V10 => escape_path(alloc, path),
        Rules::V097 => escape_line_ends(alloc, path),
    }
}

/// Whether a path can't be spelled by these rules.
fn is_unspelled(rules: Rules, path: &str) -> bool
    ensures { result ≡ spec.is_unspelled rules path.now }
{
    match rules {
        Rules::V10 => false,
        Rules::V097 => has_escape(path.as_bytes()),
    }
}

/// Whether the escape of LF or CR stands anywhere in a path.
fn has_escape(path: &[u8]) -> bool
    ensures { result ≡ spec.has_escape path.now }
{
    let mut rest = path;
    while let Some((_, after)) = rest.split_first() {
        if begins_with_escape(rest) {
            return true;
        }
        rest = after;
    }
    false
}

fn begins_with_escape(bytes: &[u8]) -> bool
    ensures { result ≡ spec.begins_with_escape bytes.now }
{
    bytes.len() >= 3 && bytes[0] == PERCENT && is_line_end(bytes[1], bytes[2])
}

/// Whether two digits after a `%` stand for LF or CR.
fn is_line_end(high: u8, low: u8) -> bool
    ensures { result ≡ is_some (line_end high low) }
{
    high == b'0' && (low.eq_ignore_ascii_case(&b'a') || low.eq_ignore_ascii_case(&b'd'))
}

/// A path with LF and CR escaped.
fn escape_line_ends(alloc: Global, path: &str) -> Result<String, AllocError>
    ensures { IfOk result (λ text. string_bytes text ≡ spec.escape_line_ends path.now) }
{
    let mut text = String::with_capacity(alloc, path.len())?;
    for c in path.chars() {
        match escape_of(c) {
            Some(escape) => text.push_str(escape)?,
            None => text.push(c)?,
        }
    }
    Ok(text)
}

/// What is written for the end of a line.
fn escape_of(c: char) -> Option<&'static str>
    ensures { MatchOption result (spec.escape_line_ends (encode_utf8 c) ≡ encode_utf8 c) (λ text.
        spec.escape_line_ends (encode_utf8 c) ≡ text.now) }
{
    match c {
        '\n' => Some("%0A"),
        '\r' => Some("%0D"),
        _ => None,
    }
}

/// Whether a text begins with what a reader drops before a path.
fn begins_with_mark(text: &str) -> bool
    ensures { result ≡ writable.begins_with_mark text.now }
{
    match text.as_bytes().first() {
        Some(byte) => is_blank(*byte) || *byte == STAR,
        None => false,
    }
}
