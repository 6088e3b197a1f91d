//! Names that differ by normal form alone (Unicode Standard Annex 15).
ghost use Rattle.std.specs.Prelude.{◌≡◌, ◌↔◌, ℕ, All, List, Contains, IfOk, IsTrue, OnOk, string_bytes};
ghost use Rattle.std.specs.List.Sorted.{IsStrictlySortedBy};
ghost use Rattle.std.specs.Option.{option_map};
ghost use Rattle.std.specs.Str.{IsAscii};
ghost use Rattle.bag_text.specs.Order.{IsListOf};
ghost use Rattle.bag_text.specs.Text.{text_cmp};
ghost use Rattle.bag_faults.specs.FaultOrder.{fault_cmp};
ghost use Rattle.bag_stages.specs.Clashes.{nfc_of};
ghost use Rattle.bag_stages.specs.ClashFaults.{first_of_form, first_with, name_clash, IsClashAmong};
ghost use Rattle.bag_stages.specs.ClashStage.{IsClashFault};
ghost use Rattle.bag_stages.specs.Names.{texts_of};
ghost use Rattle.bag_stages.specs.Found.{AreFaultsOf};

use crate::names::{in_order, payload_names};
use bag_facts::Facts;
use bag_faults::Fault;
use bag_text::{Code, Text};
use std::alloc::{AllocError, Global};
use std::collections::HashMap;
use unicode_normalization::to_nfc;

/// The faults that names of the payload aren't the least of those with their NFC form.
pub(crate) fn clash_faults(alloc: Global, facts: &Facts) -> Result<Vec<Fault>, AllocError>
    ensures { IfOk result (λ faults. AreFaultsOf facts.now IsClashFault faults.items) }
{
    let names = payload_names(alloc, facts)?;
    if are_ascii(names.as_slice()) {
        return Ok(Vec::new(alloc));
    }
    let names = in_order(names)?;
    clashes_among(alloc, names.as_slice())
}

/// Whether all names are ASCII, so that each is its own NFC form.
fn are_ascii(names: &[&str]) -> bool
    ensures { IsTrue result ↔ All (λ name. IsAscii name.now) names.now }
{
    names.iter().all(|name| name.is_ascii())
}

/// The faults of ascending names: the first of a form is the least of its class.
fn clashes_among(alloc: Global, names: &[&str]) -> Result<Vec<Fault>, AllocError>
    ensures { IfOk result (λ faults. IsStrictlySortedBy text_cmp (texts_of names.now)
        → IsListOf fault_cmp (IsClashAmong (Contains (texts_of names.now))) faults.items) }
{
    let mut firsts = HashMap::new(alloc);
    let mut faults = Vec::new(alloc);
    for name in names {
        if let Some(fault) = clash_of(alloc, &mut firsts, name)? {
            faults.push(fault)?;
        }
    }
    Ok(faults)
}

/// The fault of a name whose form an earlier name has. A name without one is the first of its form
/// from now on.
fn clash_of<'a>(
    alloc: Global,
    firsts: &mut HashMap<String, &'a str>,
    name: &'a str,
) -> Result<Option<Fault>, AllocError>
    ensures fault { IfOk result (λ fault.
        fault ≡ option_map (name_clash name.now) (first_of_form firsts.old (nfc_of name.now))) }
    ensures firsts { OnOk result ((form : List ℕ)
        → first_of_form firsts.new form
        ≡ first_with (first_of_form firsts.old form) name.now form) }
{
    let form = nfc_form(alloc, name)?;
    if let Some(first) = firsts.get(form.as_str()) {
        return Ok(Some(clash_fault(alloc, name, first)?));
    }
    firsts.insert(form, name)?;
    Ok(None)
}

/// The NFC form of a name. That of an ASCII name is the name, and no table is asked.
fn nfc_form(alloc: Global, name: &str) -> Result<String, AllocError>
    ensures { IfOk result (λ form. string_bytes form ≡ nfc_of name.now) }
{
    if name.is_ascii() {
        return String::from_str(alloc, name);
    }
    to_nfc(alloc, name)
}

/// The fault that a name isn't the least of its class.
fn clash_fault(alloc: Global, name: &str, least: &str) -> Result<Fault, AllocError>
    ensures { IfOk result (λ fault. fault ≡ name_clash name.now least.now) }
{
    let detail = Text::from_str(alloc, least)?;
    let path = Text::from_str(alloc, name)?;
    Ok(Fault::new(alloc, Code::NameClash, path).with(detail))
}
