//! The metadata, `bag-info.txt` (RFC 8493, 2.2.2).
ghost use Rattle.std.specs.Prelude.{◌≡◌, ◌↔◌, IfOk, IsErrOf, IsTrue, string_bytes};
ghost use Rattle.std.specs.List.{list_any};
ghost use Rattle.bag_tags.specs.Element as spec;

use crate::WriteFault;
use crate::element::is_bad_element;
use crate::line::push_line;
use bag_text::Text;
use std::alloc::{AllocError, Global};

/// What stands between a label and its value.
const SEPARATOR: &str = ": ";

/// The bytes of `bag-info.txt` with these labels and their values, in this order: a line
/// `LABEL: VALUE` for each (RFC 8493, 2.2.2). `BadValue` where a label is empty, has a colon, CR or
/// LF, begins or ends with a space or a tab, or begins with a byte order mark, or where a value has
/// CR or LF, or begins or ends with a space or a tab; that is found before memory is taken.
pub fn write_info(alloc: Global, elements: &[(Text, Text)]) -> Result<Vec<u8>, WriteFault>
    ensures text { IfOk result (λ bytes. bytes.items ≡ spec.info_text elements.now) }
    ensures bad { IsErrOf result WriteFault.BadValue
        ↔ IsTrue (list_any spec.is_bad_element elements.now) }
{
    if has_bad_element(elements) {
        return Err(WriteFault::BadValue);
    }
    let text = info_text(alloc, elements)?;
    Ok(text.into_bytes())
}

fn has_bad_element(elements: &[(Text, Text)]) -> bool
    ensures { result ≡ list_any spec.is_bad_element elements.now }
{
    elements.iter().any(|element| is_bad_element(element))
}

fn info_text(alloc: Global, elements: &[(Text, Text)]) -> Result<String, AllocError>
    ensures { IfOk result (λ text. string_bytes text ≡ spec.info_text elements.now) }
{
    let mut text = String::new(alloc);
    for element in elements {
        push_line(&mut text, element.0.as_str(), SEPARATOR, element.1.as_str())?;
    }
    Ok(text)
}
