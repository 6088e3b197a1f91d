//! What the two lines of the declaration say (RFC 8493, 2.1.1).
ghost use Rattle.std.specs.Prelude.{◌≡◌, not};
ghost use Rattle.std.specs.List.{list_all};
ghost use Rattle.std.specs.Option.{option_copied};
ghost use Rattle.bag_text.specs.Text as texts;
ghost use Rattle.bag_read.specs.Declaration as spec;

use crate::line_fault::{after_prefix, is_digits};
use bag_text::is_blank;

/// The version that line 1 declares, where it reads.
pub(crate) fn version_of(line: &str) -> Option<&str>
    ensures { option_copied result ≡ spec.version_of line.now }
{
    let Some(version) = after_prefix(line, "BagIt-Version: ") else {
        return None;
    };
    if is_version(version) {
        Some(version)
    } else {
        None
    }
}

/// Digits, a dot and digits.
fn is_version(text: &str) -> bool
    ensures { result ≡ spec.is_version text.now }
{
    match text.split_once('.') {
        None => false,
        Some((major, minor)) => is_digits(major) && is_digits(minor),
    }
}

/// The encoding that line 2 declares, where it reads.
pub(crate) fn encoding_of(line: &str) -> Option<&str>
    ensures { option_copied result ≡ spec.encoding_of line.now }
{
    let Some(encoding) = after_prefix(line, "Tag-File-Character-Encoding: ") else {
        return None;
    };
    if is_encoding(encoding) {
        Some(encoding)
    } else {
        None
    }
}

/// One or more characters without a blank.
fn is_encoding(text: &str) -> bool
    ensures { result ≡ spec.is_encoding text.now }
{
    !text.is_empty() && has_no_blank(text)
}

fn has_no_blank(text: &str) -> bool
    ensures { result ≡ list_all (λ c. not (texts.is_blank c)) text.now }
{
    text.as_bytes().iter().all(|b| !is_blank(*b))
}
