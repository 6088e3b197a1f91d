//! What a rule asks of the elements of its label.
ghost use Rattle.std.specs.Prelude.{◌≡◌, ◌↔◌, Contains, IfOk, IsTrue, map};
ghost use Rattle.bag_profile.specs.TextSet.{IsAscending};
ghost use Rattle.bag_stages.specs.MetadataStage as spec;
ghost use Rattle.bag_report.specs.ElementFaults as reported;

use crate::info_fault::info_fault;
use bag_faults::Fault;
use bag_profile::LabelRule;
use bag_read::Element;
use bag_text::{Code, Text};
use std::alloc::{AllocError, Global};

/// The faults of a rule, of the elements of its label in line order.
pub(crate) fn rule_faults(
    alloc: Global,
    rule: &LabelRule,
    found: &[&Element],
) -> Result<Vec<Fault>, AllocError>
    requires { IsAscending rule.now.values }
    ensures { IfOk result (λ faults. faults.items
        ≡ reported.rule_faults rule.now (reported.lent found.now)) }
{
    let mut faults = required_faults(alloc, rule, found)?;
    faults.append(&mut repeated_faults(alloc, rule, found)?)?;
    faults.append(&mut value_faults(alloc, rule, found)?)?;
    Ok(faults)
}

/// That an element is lacking.
fn required_faults(
    alloc: Global,
    rule: &LabelRule,
    found: &[&Element],
) -> Result<Vec<Fault>, AllocError>
    ensures { IfOk result (λ faults. faults.items
        ≡ reported.required_faults rule.now (reported.lent found.now)) }
{
    if !found.is_empty() || !rule.required {
        return Ok(Vec::new(alloc));
    }
    let detail = rule.label.copy(alloc)?;
    Ok(vec![in alloc; info_fault(alloc, Code::LabelRequired, 0, detail)?]?)
}

/// The faults of the elements after the first, where only one may be there.
fn repeated_faults(
    alloc: Global,
    rule: &LabelRule,
    found: &[&Element],
) -> Result<Vec<Fault>, AllocError>
    ensures { IfOk result (λ faults. faults.items
        ≡ reported.repeated_faults rule.now (reported.lent found.now)) }
{
    if rule.repeatable || found.is_empty() {
        return Ok(Vec::new(alloc));
    }
    later_faults(alloc, &rule.label, &found[1..])
}

/// The faults of elements that stand there again.
fn later_faults(alloc: Global, label: &Text, later: &[&Element]) -> Result<Vec<Fault>, AllocError>
    ensures { IfOk result (λ faults. faults.items
        ≡ map (reported.later_fault label.now) (reported.lent later.now)) }
{
    let mut faults = Vec::new(alloc);
    for element in later {
        let detail = label.copy(alloc)?;
        faults.push(info_fault(alloc, Code::LabelRepeated, element.line, detail)?)?;
    }
    Ok(faults)
}

/// The faults of elements whose value isn't allowed.
fn value_faults(
    alloc: Global,
    rule: &LabelRule,
    found: &[&Element],
) -> Result<Vec<Fault>, AllocError>
    requires { IsAscending rule.now.values }
    ensures { IfOk result (λ faults. faults.items
        ≡ reported.value_faults rule.now (reported.lent found.now)) }
{
    let mut faults = Vec::new(alloc);
    for element in found {
        if !is_allowed(rule, &element.value) {
            faults.push(value_fault(alloc, rule, element)?)?;
        }
    }
    Ok(faults)
}

/// Whether the rule allows a value, found in time log n of its values.
fn is_allowed(rule: &LabelRule, value: &Text) -> bool
    requires { IsAscending rule.now.values }
    ensures { result ≡ reported.allows rule.now.values value.now }
{
    if rule.values.is_empty() {
        return true;
    }
    is_among(rule.values.as_slice(), value)
}

/// Whether a text is among ascending texts.
fn is_among(texts: &[Text], text: &Text) -> bool
    requires { IsAscending texts.now }
    ensures { IsTrue result ↔ Contains texts.now text.now }
{
    texts.binary_search(text).is_ok()
}

/// The fault of an element whose value isn't allowed.
fn value_fault(alloc: Global, rule: &LabelRule, element: &Element) -> Result<Fault, AllocError>
    ensures { IfOk result (λ fault. fault ≡ reported.value_fault rule.now element.now) }
{
    let detail = pair(alloc, &rule.label, &element.value)?;
    info_fault(alloc, Code::ValueNotAllowed, element.line, detail)
}

/// A label and a value, with a colon between them.
fn pair(alloc: Global, label: &Text, value: &Text) -> Result<Text, AllocError>
    ensures { IfOk result (λ text. text ≡ spec.pair label.now value.now) }
{
    Ok(Text::from_string(format!(in alloc; "{label}:{value}")?))
}
