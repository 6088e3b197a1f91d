//! The new `bag-info.txt` (RFC 8493, 2.2.2).
ghost use Rattle.std.specs.Prelude.{◌≡◌, false, All, IfErr, IfOk, OnOk};
ghost use Rattle.std.specs.List.{list_any};
ghost use Rattle.bag_facts.specs.FactsOfBag.{IfBagRead, IsFactsOf};
ghost use Rattle.bag_read.specs.Oxum.{oxum_text};
ghost use Rattle.bag_stages.specs.MetadataStage.{bag_info_txt};
ghost use Rattle.bag_stages.specs.PayloadSize.{listed_oxum};
ghost use Rattle.bag_tags.specs.Element.{AreTexts};
ghost use Rattle.bag_tags.specs.OnLines as bad;
ghost use Rattle.bag_stages.specs.TagFiles.{lines_in};
ghost use Rattle.bag_text.specs.Lines.{lines_of_file};
ghost use Rattle.bag_tree.specs.Bag.{Bag};
ghost use Rattle.bag_renewed.specs.Elements.{elements_of, elements_on};
ghost use Rattle.bag_changes.specs.NewInfo as info;
ghost use Rattle.bag_changes.specs.NewInfo.{CanBeWritten, CanWriteInfo, IsInfoAfter, IsInfoRefusal};
ghost use Rattle.bag_renewed.specs.Target.{IsTargetOf};

use crate::RenewFault;
use bag_facts::Facts;
use bag_read::read_info;
use bag_renewed::{Renewal, Target, renewed_elements};
use bag_stages::PayloadSize;
use bag_tags::{Element, are_texts, is_bad_long_element, oxum_value, write_long_info};
use bag_text::{Items, Rules, Text};
use bag_tree::FileEntry;
use std::alloc::{AllocError, Global};

/// Whether the `bag-info.txt` that is to be written can be, by what is known of the old one.
pub(crate) fn check_info(
    alloc: Global,
    facts: &Facts,
    renewal: &Renewal,
    target: &Target,
) -> Result<(), RenewFault>
    ensures good { OnOk result (IfBagRead facts.now (λ bag.
        IsTargetOf bag renewal.now target.now → CanWriteInfo bag renewal.now)) }
    ensures refused { IfErr result (λ fault. IfBagRead facts.now (λ bag.
        IsTargetOf bag renewal.now target.now
        → IsInfoRefusal bag renewal.now (lines_in bag bag_info_txt) fault)) }
{
    if !target.writes_info {
        return Ok(());
    }
    let Ok(old) = known_elements(alloc, facts) else {
        return Err(RenewFault::Memory);
    };
    match new_elements(alloc, facts, renewal, &old) {
        Ok(_) => Ok(()),
        Err(fault) => Err(fault),
    }
}

/// The bytes of the `bag-info.txt` that is written, where one is. Of the old one these bytes are
/// given, so that the elements that stay are theirs.
pub fn info_file(
    alloc: Global,
    facts: &Facts,
    renewal: &Renewal,
    target: &Target,
    old: &[u8],
) -> Result<Option<Items<u8>>, RenewFault>
    ensures text { IfOk result (λ text. IfBagRead facts.now (λ bag.
        IsTargetOf bag renewal.now target.now
        → IsInfoAfter bag renewal.now (lines_of_file old.now) text)) }
    ensures refused { IfErr result (λ fault. IfBagRead facts.now (λ bag.
        IsTargetOf bag renewal.now target.now
        → IsInfoRefusal bag renewal.now (lines_of_file old.now) fault)) }
{
    if !target.writes_info {
        return Ok(None);
    }
    let Ok(old) = elements_in(alloc, facts.rules(), old) else {
        return Err(RenewFault::Memory);
    };
    let elements = match new_elements(alloc, facts, renewal, &old) {
        Ok(elements) => elements,
        Err(fault) => return Err(fault),
    };
    // The elements were asked, so that only memory can be wanting.
    match write_long_info(alloc, &elements) {
        Ok(bytes) => Ok(Some(Items::from_vec(bytes))),
        Err(_) => Err(RenewFault::Memory),
    }
}

/// Whether one of the elements can't be written. Where none is, each is of texts.
fn has_bad(elements: &[(Text, Text)]) -> bool
    ensures bad { result ≡ list_any bad.is_bad_long_element elements.now }
    ensures texts { result ≡ false → All AreTexts elements.now }
{
    elements.iter().any(|element| is_bad(element))
}

fn is_bad(element: &(Text, Text)) -> bool
    ensures bad { result ≡ bad.is_bad_long_element element.now }
    ensures texts { AreTexts element.now }
{
    are_texts(element.0.as_str(), element.1.as_str());
    is_bad_long_element(element)
}

/// The elements of the renewed bag, which all can be written, where the bag had these.
fn new_elements(
    alloc: Global,
    facts: &Facts,
    renewal: &Renewal,
    old: &[(Text, Text)],
) -> Result<Vec<(Text, Text)>, RenewFault>
    ensures elements { IfOk result (λ made. (bag : Bag) → IsFactsOf bag facts.now
        → made.items ≡ info.elements_from bag renewal.now old.now) }
    ensures good { IfOk result (λ made. CanBeWritten made.items) }
    ensures refused { IfErr result (λ fault. (bag : Bag) → IsFactsOf bag facts.now
        → info.AreRefused (info.elements_from bag renewal.now old.now) fault) }
{
    let Ok(elements) = changed_elements(alloc, facts, renewal, old) else {
        return Err(RenewFault::Memory);
    };
    if has_bad(&elements) {
        return Err(RenewFault::BadValue);
    }
    Ok(elements)
}

/// The elements of the renewed bag, where the bag had these.
fn changed_elements(
    alloc: Global,
    facts: &Facts,
    renewal: &Renewal,
    old: &[(Text, Text)],
) -> Result<Vec<(Text, Text)>, AllocError>
    ensures { IfOk result (λ made. (bag : Bag) → IsFactsOf bag facts.now
        → made.items ≡ info.elements_from bag renewal.now old.now) }
{
    let size = size_text(alloc, facts.files())?;
    renewed_elements(alloc, &renewal.elements, size, old)
}

/// The elements that the bag has, as they are known.
fn known_elements(alloc: Global, facts: &Facts) -> Result<Vec<(Text, Text)>, AllocError>
    ensures { IfOk result (λ made. IfBagRead facts.now (λ bag. made.items ≡ elements_of bag)) }
{
    match facts.metadata() {
        Some(metadata) => labels_and_values(alloc, metadata.elements.as_slice()),
        None => Ok(Vec::new(alloc)),
    }
}

/// The elements of the bytes of a `bag-info.txt`.
fn elements_in(alloc: Global, rules: Rules, bytes: &[u8]) -> Result<Vec<(Text, Text)>, AllocError>
    ensures { IfOk result (λ made. made.items ≡ elements_on rules (lines_of_file bytes.now)) }
{
    let read = read_info(alloc, rules, bytes)?;
    labels_and_values(alloc, read.items.as_slice())
}

fn labels_and_values(alloc: Global, elements: &[Element]) -> Result<Vec<(Text, Text)>, AllocError>
    ensures { IfOk result (λ made. made.items ≡ info.labels_and_values elements.now) }
{
    let mut made = Vec::new(alloc);
    for element in elements {
        made.push((element.label.copy(alloc)?, element.value.copy(alloc)?))?;
    }
    Ok(made)
}

/// The value of `Payload-Oxum`: how many bytes the payload has, a dot, and how many files.
fn size_text(alloc: Global, files: &[FileEntry]) -> Result<Text, AllocError>
    ensures { IfOk result (λ text. text ≡ oxum_text (listed_oxum files.now)) }
{
    let size = PayloadSize::of(files);
    oxum_value(alloc, size.octets, size.streams)
}
