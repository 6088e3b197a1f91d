//! What a profile asks of the elements of `bag-info.txt`.
ghost use Rattle.std.specs.Prelude.{◌≡◌, IfOk};
ghost use Rattle.std.specs.List.{AllByRecursion, list_any};
ghost use Rattle.std.specs.Ordering.{nat_cmp, on};
ghost use Rattle.bag_text.specs.Order.{IsListOf};
ghost use Rattle.bag_read.specs.Info.{IsElement};
ghost use Rattle.bag_facts.specs.Facts.{rules_in};
ghost use Rattle.bag_facts.specs.FactsOfBag.{IfBagRead};
ghost use Rattle.bag_profile.specs.TextSet.{IsAscending};
ghost use Rattle.bag_stages.specs.MetadataStage.{bag_info_txt};
ghost use Rattle.bag_stages.specs.TagFiles.{lines_in};
ghost use Rattle.bag_report.specs.ConformanceFaults.{IsOfElements, AreAllOf};
ghost use Rattle.bag_report.specs.ElementFaults as reported;
ghost use Rattle.bag_report.specs.LabelOrder.{IsByLabel};

use crate::by_label::{by_label, labelled};
use crate::info_fault::info_fault;
use crate::label_rule::rule_faults;
use bag_facts::Facts;
use bag_faults::Fault;
use bag_profile::{LabelRule, Profile};
use bag_read::Element;
use bag_text::{Code, Text};
use std::alloc::{AllocError, Global};

/// The faults of the elements of `bag-info.txt`, by their lines: the profile isn't named, a label
/// is lacking or stands there again, a value isn't allowed (BagIt Profiles Specification,
/// Bag-Info).
pub(crate) fn element_faults(
    alloc: Global,
    facts: &Facts,
    profile: &Profile,
) -> Result<Vec<Fault>, AllocError>
    ensures { IfOk result (λ faults.
        AreAllOf facts.now (λ bag. IsOfElements bag profile.now) faults.items) }
{
    let sorted = by_label(alloc, elements_of(facts))?;
    let naming = labelled(sorted.as_slice(), "BagIt-Profile-Identifier");
    let mut faults = identifier_faults(alloc, profile.identifier(), naming)?;
    faults.append(&mut rules_faults(alloc, sorted.as_slice(), profile.labels())?)?;
    faults.sort_by_key(|fault| fault.line)?;
    Ok(faults)
}

/// The elements in line order; none where the file isn't there.
fn elements_of(facts: &Facts) -> &[Element]
    ensures { IfBagRead facts.now (λ bag. IsListOf (on (λ e. e.line) nat_cmp)
        (IsElement (rules_in bag) (lines_in bag bag_info_txt)) result.now) }
{
    match facts.metadata() {
        Some(metadata) => metadata.elements.as_slice(),
        None => &[],
    }
}

/// That no element names the profile, of those that may.
fn identifier_faults(
    alloc: Global,
    identifier: &str,
    naming: &[&Element],
) -> Result<Vec<Fault>, AllocError>
    ensures { IfOk result (λ faults. faults.items
        ≡ reported.identifier_faults identifier.now (reported.lent naming.now)) }
{
    if has_value(naming, identifier) {
        return Ok(Vec::new(alloc));
    }
    let detail = Text::from_str(alloc, identifier)?;
    Ok(vec![in alloc; info_fault(alloc, Code::ProfileIdentifier, 0, detail)?]?)
}

/// Whether an element has a value.
fn has_value(elements: &[&Element], value: &str) -> bool
    ensures { result ≡ list_any (reported.has_value value.now) (reported.lent elements.now) }
{
    elements
        .iter()
        .any(|element| element.value.as_str() == value)
}

/// The faults of all rules, of elements in the order of their labels.
fn rules_faults(
    alloc: Global,
    sorted: &[&Element],
    rules: &[LabelRule],
) -> Result<Vec<Fault>, AllocError>
    requires sorted { IsByLabel sorted.now }
    requires ascending { AllByRecursion (λ rule. IsAscending rule.values) rules.now }
    ensures { IfOk result (λ faults. faults.items
        ≡ reported.rules_faults (reported.lent sorted.now) rules.now) }
{
    let mut faults = Vec::new(alloc);
    for rule in rules {
        let found = labelled(sorted, rule.label.as_str());
        faults.append(&mut rule_faults(alloc, rule, found)?)?;
    }
    Ok(faults)
}
