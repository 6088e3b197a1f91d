//! The elements of `bag-info.txt` after a renewal (RFC 8493, 2.2.2).
ghost use Rattle.std.specs.Prelude.{◌≡◌, ◌++◌, ◌&&◌, [], not, IfOk, OnOk, filter};
ghost use Rattle.std.specs.List.{list_any, prefix_len};
ghost use Rattle.bag_text.specs.Text as texts;
ghost use Rattle.bag_renewed.specs.Elements as spec;
ghost use Rattle.bag_renewed.specs.Elements.{has_label};
ghost use Rattle.bag_stages.specs.MetadataStage.{oxum_label};
ghost use Rattle.bag_renewed.specs.Placed.{in_place, is_placed, placed_with};
ghost use Rattle.bag_renewed.specs.Request as request;

use crate::ElementChanges;
use bag_tags::{OXUM_LABEL, is_bad_long_element};
use bag_text::{Text, same_label};
use std::alloc::{AllocError, Global};

/// Whether nothing is asked of elements.
pub(crate) fn asks_nothing(changes: &ElementChanges) -> bool
    ensures { result ≡ spec.asks_nothing changes.now }
{
    changes.set.is_empty() && changes.appended.is_empty() && changes.unset.is_empty()
}

/// Whether an element that is given can't be written, or is `Payload-Oxum`, whatever its case, or
/// that is to go; or one is appended of which the label is also set or unset.
pub fn is_bad_request(changes: &ElementChanges) -> bool
    ensures { result ≡ request.is_bad_request changes.now }
{
    has_refused(changes.set.as_slice())
        || has_refused(changes.appended.as_slice())
        || has_oxum_label(changes.unset.as_slice())
        || has_given_otherwise(changes, changes.appended.as_slice())
}

/// Whether elements are appended of which the label is also set or unset.
fn has_given_otherwise(changes: &ElementChanges, appended: &[(Text, Text)]) -> bool
    ensures { result ≡ list_any (request.is_given_otherwise changes.now) appended.now }
{
    appended
        .iter()
        .any(|element| is_given_otherwise(changes, element))
}

fn is_given_otherwise(changes: &ElementChanges, element: &(Text, Text)) -> bool
    ensures { result ≡ request.is_given_otherwise changes.now element.now }
{
    some_has(changes.set.as_slice(), element.0.as_str()) || goes(changes, element.0.as_str())
}

fn has_refused(elements: &[(Text, Text)]) -> bool
    ensures { result ≡ list_any request.is_refused elements.now }
{
    elements.iter().any(|element| is_refused(element))
}

fn is_refused(element: &(Text, Text)) -> bool
    ensures { result ≡ request.is_refused element.now }
{
    is_bad_long_element(element) || is_oxum(element)
}

fn has_oxum_label(labels: &[Text]) -> bool
    ensures { result ≡ list_any request.is_oxum_label labels.now }
{
    labels.iter().any(|label| is_oxum_label(label))
}

fn is_oxum_label(label: &Text) -> bool
    ensures { result ≡ request.is_oxum_label label.now }
{
    same_label(label.as_str(), OXUM_LABEL)
}

/// The elements that a bag is to have, whose payload has this size and which had the old ones.
pub fn renewed_elements(
    alloc: Global,
    changes: &ElementChanges,
    size: Text,
    old: &[(Text, Text)],
) -> Result<Vec<(Text, Text)>, AllocError>
    ensures { IfOk result (λ made. made.items ≡ spec.renewed_elements changes.now size old.now) }
{
    let mut elements = replaced(alloc, changes, old)?;
    let mut added = added_to(alloc, changes, old, &elements)?;
    let at = oxum_place(&elements);
    let mut after = elements.split_off(at)?;
    elements.append(&mut added)?;
    elements.push((Text::from_str(alloc, OXUM_LABEL)?, size))?;
    after.retain(|element| !is_oxum(element));
    elements.append(&mut after)?;
    Ok(elements)
}

/// Elements, with what stands in the place of each.
fn replaced(
    alloc: Global,
    changes: &ElementChanges,
    elements: &[(Text, Text)],
) -> Result<Vec<(Text, Text)>, AllocError>
    ensures { IfOk result (λ made. made.items ≡ spec.replaced changes.now [] elements.now) }
{
    let mut made = Vec::new(alloc);
    let mut placed = Vec::new(alloc);
    for element in elements {
        push_in_place(alloc, &mut made, changes, &mut placed, element)?;
    }
    Ok(made)
}

/// Adds what stands in the place of an element, where all those that are set with these labels
/// were placed before it.
fn push_in_place(
    alloc: Global,
    made: &mut Vec<(Text, Text)>,
    changes: &ElementChanges,
    placed: &mut Vec<Text>,
    element: &(Text, Text),
) -> Result<(), AllocError>
    ensures made { OnOk result
        (made.new.items
        ≡ made.old.items ++ in_place changes.now placed.old.items element.now) }
    ensures placed { OnOk result
        (placed.new.items ≡ placed_with changes.now placed.old.items element.now) }
{
    let label = element.0.as_str();
    let set = changes.set.as_slice();
    if !some_has(set, label) {
        if !goes(changes, label) {
            made.push(copy_of(alloc, element)?)?;
        }
    } else if !is_placed(placed, label) {
        push_those_with(alloc, made, set, label)?;
        placed.push(element.0.copy(alloc)?)?;
    }
    Ok(())
}

/// Adds those of these elements that have a label.
fn push_those_with(
    alloc: Global,
    made: &mut Vec<(Text, Text)>,
    elements: &[(Text, Text)],
    label: &str,
) -> Result<(), AllocError>
    ensures { OnOk result
        (made.new.items ≡ made.old.items ++ filter (has_label label.now) elements.now) }
{
    for element in elements {
        if same_label(element.0.as_str(), label) {
            made.push(copy_of(alloc, element)?)?;
        }
    }
    Ok(())
}

/// The elements that are added to the old ones, in whose place these stand.
fn added_to(
    alloc: Global,
    changes: &ElementChanges,
    old: &[(Text, Text)],
    standing: &[(Text, Text)],
) -> Result<Vec<(Text, Text)>, AllocError>
    ensures { IfOk result (λ made.
        made.items ≡ spec.new_ones changes.now old.now
        ++ spec.appended_to changes.now (standing.now ++ spec.new_ones changes.now old.now)) }
{
    let mut added = new_ones(alloc, changes, old)?;
    let mut appended = appended_to(alloc, changes, standing, &added)?;
    added.append(&mut appended)?;
    Ok(added)
}

/// The elements that are set with labels that are new.
fn new_ones(
    alloc: Global,
    changes: &ElementChanges,
    old: &[(Text, Text)],
) -> Result<Vec<(Text, Text)>, AllocError>
    ensures { IfOk result (λ made. made.items ≡ spec.new_ones changes.now old.now) }
{
    let mut ones = replaced(alloc, changes, changes.set.as_slice())?;
    ones.retain(|one| !some_has(old, one.0.as_str()));
    Ok(ones)
}

/// The elements that are appended, but for those that stand among the first or the others.
fn appended_to(
    alloc: Global,
    changes: &ElementChanges,
    first: &[(Text, Text)],
    others: &[(Text, Text)],
) -> Result<Vec<(Text, Text)>, AllocError>
    ensures { IfOk result (λ made.
        made.items ≡ spec.appended_to changes.now (first.now ++ others.now)) }
{
    let mut made = Vec::new(alloc);
    for element in changes.appended.as_slice() {
        if !stands_in(first, others, element) {
            made.push(copy_of(alloc, element)?)?;
        }
    }
    Ok(made)
}

/// Whether an element stands among the first or the others, with just its value.
fn stands_in(first: &[(Text, Text)], others: &[(Text, Text)], element: &(Text, Text)) -> bool
    ensures { result ≡ list_any (spec.is_same element.now) (first.now ++ others.now) }
{
    has_same(first, element) || has_same(others, element)
}

fn has_same(elements: &[(Text, Text)], element: &(Text, Text)) -> bool
    ensures { result ≡ list_any (spec.is_same element.now) elements.now }
{
    elements.iter().any(|other| is_same(element, other))
}

fn is_same(element: &(Text, Text), other: &(Text, Text)) -> bool
    ensures { result ≡ spec.is_same element.now other.now }
{
    same_label(other.0.as_str(), element.0.as_str()) && other.1.as_str() == element.1.as_str()
}

/// The place of the first `Payload-Oxum`, and behind all elements where there is none.
fn oxum_place(elements: &[(Text, Text)]) -> usize
    ensures { result ≡ prefix_len (λ element. not (has_label oxum_label element)) elements.now }
{
    for (place, element) in elements.iter().enumerate() {
        if is_oxum(element) {
            return place;
        }
    }
    elements.len()
}

fn is_oxum(element: &(Text, Text)) -> bool
    ensures { result ≡ has_label oxum_label element.now }
{
    is_oxum_label(&element.0)
}

/// Whether some element has a label.
fn some_has(elements: &[(Text, Text)], label: &str) -> bool
    ensures { result ≡ spec.some_has elements.now label.now }
{
    elements.iter().any(|element| has_label(element, label))
}

fn has_label(element: &(Text, Text), label: &str) -> bool
    ensures { result ≡ has_label label.now element.now }
{
    same_label(element.0.as_str(), label)
}

/// Whether no elements of a label are to be there.
fn goes(changes: &ElementChanges, label: &str) -> bool
    ensures { result ≡ spec.goes changes.now label.now }
{
    has_as_label(changes.unset.as_slice(), label)
}

/// Whether the elements that are set with a label were placed.
fn is_placed(placed: &[Text], label: &str) -> bool
    ensures { result ≡ is_placed placed.now label.now }
{
    has_as_label(placed, label)
}

fn has_as_label(labels: &[Text], label: &str) -> bool
    ensures { result ≡ list_any (λ one. texts.same_label one label.now) labels.now }
{
    labels.iter().any(|one| same_label(one.as_str(), label))
}

fn copy_of(alloc: Global, element: &(Text, Text)) -> Result<(Text, Text), AllocError>
    ensures { IfOk result (λ copy. copy ≡ element.now) }
{
    Ok((element.0.copy(alloc)?, element.1.copy(alloc)?))
}
