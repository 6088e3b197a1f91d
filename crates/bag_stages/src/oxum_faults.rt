//! The faults of `Payload-Oxum`.
ghost use Rattle.std.specs.Prelude.{◌≡◌, ◌∷◌, [], IfOk, map, position};
ghost use Rattle.bag_stages.specs.OxumFaults as reported;
ghost use Rattle.bag_stages.specs.PayloadSize.{listed_oxum};

use crate::payload_size::PayloadSize;
use bag_faults::Fault;
use bag_read::{Element, OXUM_LABEL, oxum_of};
use bag_text::{Code, Text, same_label};
use bag_tree::FileEntry;
use std::alloc::{AllocError, Global};

/// The faults of the elements that give the payload's size (RFC 8493, 2.2.2), where the payload is
/// among these files: the first of them counts, and there should be no other.
pub(crate) fn oxum_faults(
    alloc: Global,
    path: &Text,
    elements: &[Element],
    files: &[FileEntry],
) -> Result<Vec<Fault>, AllocError>
    ensures { IfOk result (λ faults. faults.items
        ≡ reported.oxum_faults path.now (listed_oxum files.now) (reported.oxums elements.now)) }
{
    let Some(at) = first_oxum(elements) else {
        return no_oxum(alloc, path);
    };
    let mut faults = first_faults(alloc, path, &elements[at], files)?;
    let mut again = later_faults(alloc, path, &elements[at + 1..])?;
    faults.append(&mut again)?;
    Ok(faults)
}

/// Where the first element stands that gives the payload's size.
fn first_oxum(elements: &[Element]) -> Option<usize>
    ensures { result ≡ position reported.is_oxum elements.now }
{
    elements.iter().position(|element| is_oxum(element))
}

/// Whether an element gives the payload's size.
fn is_oxum(element: &Element) -> bool
    ensures { result ≡ reported.is_oxum element.now }
{
    same_label(element.label.as_str(), OXUM_LABEL)
}

/// That no element gives the payload's size.
pub(crate) fn no_oxum(alloc: Global, path: &Text) -> Result<Vec<Fault>, AllocError>
    ensures { IfOk result (λ faults. faults.items ≡ reported.no_oxum path.now ∷ []) }
{
    Ok(vec![in alloc; Fault::about(alloc, Code::NoOxum, path)?]?)
}

/// The fault of the first element that gives the payload's size, if it has one.
fn first_faults(
    alloc: Global,
    path: &Text,
    element: &Element,
    files: &[FileEntry],
) -> Result<Vec<Fault>, AllocError>
    ensures { IfOk result (λ faults. faults.items
        ≡ reported.first_faults path.now (listed_oxum files.now) element.now) }
{
    let Some(size) = oxum_of(element.value.as_str()) else {
        return Ok(vec![in alloc; value_fault(alloc, Code::OxumMalformed, path, element)?]?);
    };
    let found = PayloadSize::of(files);
    if u128::from(size.octets) == found.octets && size.streams == found.streams {
        return Ok(Vec::new(alloc));
    }
    Ok(vec![in alloc; size_fault(alloc, path, element, found)?]?)
}

/// The faults of the later elements that give the payload's size.
fn later_faults(alloc: Global, path: &Text, elements: &[Element]) -> Result<Vec<Fault>, AllocError>
    ensures { IfOk result (λ faults.
        faults.items ≡ map (reported.again path.now) (reported.oxums elements.now)) }
{
    let mut faults = Vec::new(alloc);
    for element in elements {
        if is_oxum(element) {
            faults.push(value_fault(alloc, Code::OxumAgain, path, element)?)?;
        }
    }
    Ok(faults)
}

/// A fault of an element's value.
fn value_fault(
    alloc: Global,
    code: Code,
    path: &Text,
    element: &Element,
) -> Result<Fault, AllocError>
    ensures { IfOk result (λ fault.
        fault ≡ reported.of_element path.now code element.now element.now.value) }
{
    let detail = element.value.copy(alloc)?;
    let fault = Fault::about(alloc, code, path)?;
    Ok(fault.at(element.line).with(detail))
}

/// The fault of an element that gives another size than the payload has.
fn size_fault(
    alloc: Global,
    path: &Text,
    element: &Element,
    found: PayloadSize,
) -> Result<Fault, AllocError>
    ensures { IfOk result (λ fault. fault ≡ reported.differs path.now found element.now) }
{
    let PayloadSize { octets, streams } = found;
    let detail = format!(in alloc; "{}:{octets}.{streams}", element.value)?;
    let fault = Fault::about(alloc, Code::OxumDiffers, path)?;
    Ok(fault.at(element.line).with(Text::from_string(detail)))
}
