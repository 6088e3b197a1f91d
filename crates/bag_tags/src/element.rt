//! Elements that are written to `bag-info.txt`, and those that can't be (RFC 8493, 2.2.2).
ghost use Rattle.std.specs.Prelude.{◌≡◌, IfOk};
ghost use Rattle.std.specs.List.{list_any};
ghost use Rattle.bag_text.specs.LineEnd.{is_line_end};
ghost use Rattle.bag_text.specs.Text.{IsText};
ghost use Rattle.bag_read.specs.Oxum.{oxum_text};
ghost use Rattle.bag_tags.specs.Element as spec;

use bag_text::{BYTE_ORDER_MARK, Text, trim};
use std::alloc::{AllocError, Global};

/// The value of `Payload-Oxum`: how many bytes the payload has, a dot, and how many files.
pub fn oxum_value(alloc: Global, octets: u128, streams: u64) -> Result<Text, AllocError>
    ensures { IfOk result (λ text.
        text ≡ oxum_text (record { octets = octets; streams = streams })) }
{
    Ok(Text::from_string(format!(in alloc; "{octets}.{streams}")?))
}

/// The law that what a `&str` holds is a text.
pub fn are_texts(label: &str, value: &str)
    ensures { IsText label.now × IsText value.now }
{}

/// Whether a label and its value can't be written to `bag-info.txt`, since they would not be read
/// again as they are (RFC 8493, 2.2.2), by the conditions of `write_info`.
pub fn is_bad_element(element: &(Text, Text)) -> bool
    ensures { result ≡ spec.is_bad_element element.now }
{
    is_bad_label(element.0.as_str()) || is_bad_value(element.1.as_str())
}

/// A label that is empty, has a colon or a line end, begins or ends with a blank, or begins with a
/// byte order mark.
pub(crate) fn is_bad_label(label: &str) -> bool
    ensures { result ≡ spec.is_bad_label label.now }
{
    label.is_empty()
        || label.as_bytes().contains(&b':')
        || has_line_end(label)
        || has_outer_blank(label)
        || label.as_bytes().starts_with(BYTE_ORDER_MARK.as_bytes())
}

/// A value that has a line end, or begins or ends with a blank.
pub(crate) fn is_bad_value(value: &str) -> bool
    ensures { result ≡ spec.is_bad_value value.now }
{
    has_line_end(value) || has_outer_blank(value)
}

fn has_line_end(text: &str) -> bool
    ensures { result ≡ list_any is_line_end text.now }
{
    text.as_bytes()
        .iter()
        .any(|byte| *byte == b'\n' || *byte == b'\r')
}

/// Whether a text begins or ends with a blank.
fn has_outer_blank(text: &str) -> bool
    ensures { result ≡ spec.has_outer_blank text.now }
{
    trim(text) != text
}
