//! Blanks, which are spaces and tabs.
ghost use Rattle.std.specs.Prelude.{◌≡◌, ◌≤◌, length, not};
ghost use Rattle.std.specs.List.{prefix_len, suffix_len};
ghost use Rattle.bag_text.specs.Text as spec;

use crate::line_cut::first_of_two;

const SPACE: u8 = b' ';

const TAB: u8 = b'\t';

/// A text without the spaces and tabs at both ends, as a slice of it.
pub fn trim(text: &str) -> &str
    ensures { result.now ≡ spec.trim text.now }
{
    without_trailing_blanks(without_leading_blanks(text))
}

/// Whether a line is empty or has only spaces and tabs.
pub fn is_blank_line(line: &str) -> bool
    ensures { result ≡ spec.is_blank_line line.now }
{
    leading_blanks(line.as_bytes()) == line.len()
}

/// What stands before the first space or tab, and what follows the spaces and tabs after it, as
/// slices of the line.
#[tactic(auto, using(crate::proofs::Blanks::before_blank_boundary))]
pub fn split_at_blanks(line: &str) -> (&str, &str)
    ensures front { result.0.now ≡ spec.before_blank line.now }
    ensures back { result.1.now ≡ spec.after_blanks line.now }
{
    let (front, rest) = line.split_at(before_blank(line.as_bytes()));
    (front, without_leading_blanks(rest))
}

#[tactic(auto, using(crate::proofs::Blanks::leading_boundary))]
fn without_leading_blanks(text: &str) -> &str
    ensures { result.now ≡ spec.without_leading_blanks text.now }
{
    let start = leading_blanks(text.as_bytes());
    &text[start..]
}

#[tactic(auto, using(crate::proofs::Blanks::trailing_boundary))]
fn without_trailing_blanks(text: &str) -> &str
    ensures { result.now ≡ spec.without_trailing_blanks text.now }
{
    let end = text.len() - trailing_blanks(text.as_bytes());
    &text[..end]
}

/// Whether a text begins with a space or a tab.
pub fn begins_with_blank(text: &str) -> bool
    ensures { result ≡ spec.begins_with_blank text.now }
{
    match text.as_bytes().first() {
        Some(byte) => is_blank(*byte),
        None => false,
    }
}

/// Whether a text ends with a space or a tab.
pub fn ends_with_blank(text: &str) -> bool
    ensures { result ≡ spec.ends_with_blank text.now }
{
    match text.as_bytes().last() {
        Some(byte) => is_blank(*byte),
        None => false,
    }
}

/// How many blanks the bytes begin with.
fn leading_blanks(bytes: &[u8]) -> usize
    ensures count { result ≡ prefix_len spec.is_blank bytes.now }
    ensures within { result ≤ length bytes.now }
{
    bytes.iter().take_while(|b| is_blank(**b)).count()
}

/// How many blanks the bytes end with.
fn trailing_blanks(bytes: &[u8]) -> usize
    ensures count { result ≡ suffix_len spec.is_blank bytes.now }
    ensures within { result ≤ length bytes.now }
{
    bytes.iter().rev().take_while(|b| is_blank(**b)).count()
}

/// How many bytes stand before the first blank.
fn before_blank(bytes: &[u8]) -> usize
    ensures count { result ≡ prefix_len (λ c. not (spec.is_blank c)) bytes.now }
    ensures within { result ≤ length bytes.now }
{
    first_of_two(SPACE, TAB, bytes).unwrap_or(bytes.len())
}

/// Whether a byte is a space or a tab.
pub fn is_blank(byte: u8) -> bool
    ensures { result ≡ spec.is_blank byte }
{
    byte == SPACE || byte == TAB
}
