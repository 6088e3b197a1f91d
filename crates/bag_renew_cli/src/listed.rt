//! The algorithms that a text lists, and the element that it writes.
ghost use Rattle.std.specs.Prelude.{◌≡◌, IfOk, map};
ghost use Rattle.bag_renew_cli.specs.Listed as spec;

use bag_renewed::passing;
use bag_text::{Alg, AlgSet, Items, Text, trim};
use std::alloc::{AllocError, Global};

/// What stands between an element's label and its value.
const EQUALS_SIGN: u8 = b'=';

/// Whether each part of a text between commas is the name of an algorithm.
fn are_algs(text: &str) -> bool
    ensures { result ≡ spec.are_algs (spec.names_in text.now) }
{
    text.split(',').all(|part| Alg::from_name(part).is_some())
}

/// Whether a part is the name of the algorithm.
fn has_alg(text: &str, alg: Alg) -> bool
    ensures { result ≡ spec.has_alg (spec.names_in text.now) alg }
{
    text.split(',').any(|part| alg.name() == part)
}

/// The algorithms that are named.
fn algs_among(text: &str) -> AlgSet
    ensures { result ≡ spec.algs_among (spec.names_in text.now) }
{
    passing(|alg| has_alg(text, alg))
}

/// The algorithms that a text lists, or `None` where a part isn't the name of one.
pub(crate) fn algs_listed(text: &str) -> Option<AlgSet>
    ensures { result ≡ spec.algs_listed text.now }
{
    if are_algs(text) {
        Some(algs_among(text))
    } else {
        None
    }
}

/// Whether a text writes an element: it has an equals sign.
pub(crate) fn is_element(text: &str) -> bool
    ensures { result ≡ spec.is_element text.now }
{
    text.as_bytes().iter().any(|byte| *byte == EQUALS_SIGN)
}

/// The element that a text writes: its label stands before the first equals sign.
fn element(alloc: Global, text: &str) -> Result<(Text, Text), AllocError>
    ensures { IfOk result (λ element. element ≡ spec.element text.now) }
{
    let (label, value) = match text.split_once('=') {
        None => (text, ""),
        Some(parts) => parts,
    };
    Ok((
        Text::from_str(alloc, label)?,
        Text::from_str(alloc, trim(value))?,
    ))
}

/// The elements that texts write, in their order.
pub(crate) fn elements(alloc: Global, texts: &[&str]) -> Result<Items<(Text, Text)>, AllocError>
    ensures { IfOk result (λ items.
        items ≡ map (λ text. spec.element text.now) texts.now) }
{
    let mut items = Items::new(alloc);
    for text in texts {
        items.push(element(alloc, text)?)?;
    }
    Ok(items)
}
