//! The metadata, `bag-info.txt`, with values that stand over several lines (RFC 8493, 2.2.2).
ghost use Rattle.std.specs.Prelude.{◌≡◌, ◌++◌, ◌↔◌, IfOk, OnOk, IsErrOf, IsTrue, bytes_eq, drop, []};
ghost use Rattle.std.specs.List.{list_any};
ghost use Rattle.bag_tags.specs.Element as bad;
ghost use Rattle.bag_tags.specs.OnLines as spec;

use crate::WriteFault;
use crate::element::{is_bad_label, is_bad_value};
use bag_text::Text;
use std::alloc::{AllocError, Global};

/// What stands between a label and its value.
const SEPARATOR: &[u8] = b": ";

const LINE_FEED: u8 = b'\n';

const TAB: u8 = b'\t';

/// The bytes of `bag-info.txt` with these labels and their values, in this order, as `write_info`
/// has them; but a value may have several lines, parted by LF, of which each after the first begins
/// with a tab in the file (RFC 8493, 2.2.2). `BadValue` where a label can't be written, or a line of
/// a value has CR, or begins or ends with a space or a tab, or is empty and not the first; that is
/// found before memory is taken.
pub fn write_long_info(alloc: Global, elements: &[(Text, Text)]) -> Result<Vec<u8>, WriteFault>
    ensures text { IfOk result (λ bytes. bytes.items ≡ spec.text_on_lines elements.now) }
    ensures bad { IsErrOf result WriteFault.BadValue
        ↔ IsTrue (list_any spec.is_bad_long_element elements.now) }
{
    if has_bad_element(elements) {
        return Err(WriteFault::BadValue);
    }
    Ok(text_on_lines(alloc, elements)?)
}

/// Whether a label and its value can't be written to `bag-info.txt`, by the conditions of
/// `write_long_info`.
pub fn is_bad_long_element(element: &(Text, Text)) -> bool
    ensures { result ≡ spec.is_bad_long_element element.now }
{
    is_bad_label(element.0.as_str()) || is_bad_long_value(element.1.as_str())
}

/// Whether a line of a value can't be written, or one after the first is empty.
fn is_bad_long_value(value: &str) -> bool
    ensures { result ≡ spec.is_bad_long_value value.now }
{
    has_bad_line(value) || has_empty_line(value)
}

fn has_bad_line(value: &str) -> bool
    ensures { result ≡ list_any bad.is_bad_value (spec.value_lines value.now) }
{
    value.split('\n').any(|line| is_bad_value(line))
}

/// Whether a line after the first is empty.
fn has_empty_line(value: &str) -> bool
    ensures { result
        ≡ list_any (λ line. bytes_eq line []) (drop 1 (spec.value_lines value.now)) }
{
    value.split('\n').skip(1).any(|line| is_empty(line))
}

fn is_empty(line: &str) -> bool
    ensures { result ≡ bytes_eq line.now [] }
{
    line.is_empty()
}

fn has_bad_element(elements: &[(Text, Text)]) -> bool
    ensures { result ≡ list_any spec.is_bad_long_element elements.now }
{
    elements.iter().any(|element| is_bad_long_element(element))
}

fn text_on_lines(alloc: Global, elements: &[(Text, Text)]) -> Result<Vec<u8>, AllocError>
    ensures { IfOk result (λ text. text.items ≡ spec.text_on_lines elements.now) }
{
    let mut text = Vec::new(alloc);
    for element in elements {
        text.extend_from_slice(element.0.as_str().as_bytes())?;
        text.extend_from_slice(SEPARATOR)?;
        push_on_lines(&mut text, element.1.as_str().as_bytes())?;
        text.push(LINE_FEED)?;
    }
    Ok(text)
}

/// Adds a value, whose lines after the first begin with a tab.
fn push_on_lines(text: &mut Vec<u8>, value: &[u8]) -> Result<(), AllocError>
    ensures { OnOk result (text.new.items ≡ text.old.items ++ spec.on_lines value.now) }
{
    for byte in value {
        text.push(*byte)?;
        if *byte == LINE_FEED {
            text.push(TAB)?;
        }
    }
    Ok(())
}
