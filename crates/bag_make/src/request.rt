//! What no bag can be made with.
ghost use Rattle.std.specs.Prelude.{◌≡◌, ◌≢◌, [], false, All, OnOk, IfErr};
ghost use Rattle.std.specs.List.{list_any};
ghost use Rattle.bag_tags.specs.Element.{AreTexts};
ghost use Rattle.bag_make.specs.Request.{IsRequestFault, is_refused as is_refused_by};

use crate::MakeFault;
use bag_tags::{OXUM_LABEL, are_texts, is_bad_element};
use bag_text::{AlgSet, Text, same_label};

/// Refuses a bag without an algorithm, and elements that can't be written or are `Payload-Oxum`,
/// whatever its case. Takes no memory.
pub(crate) fn check_request(algs: AlgSet, info: &[(Text, Text)]) -> Result<(), MakeFault>
    ensures good { OnOk result ((algs ≢ []) × (list_any is_refused_by info.now ≡ false)) }
    ensures texts { OnOk result (All AreTexts info.now) }
    ensures refused { IfErr result (IsRequestFault algs info.now) }
{
    if algs.is_empty() {
        return Err(MakeFault::NoAlgorithm);
    }
    if has_refused(info) {
        return Err(MakeFault::BadValue);
    }
    Ok(())
}

/// Whether one of the elements is refused. Where none is, each is of texts.
fn has_refused(info: &[(Text, Text)]) -> bool
    ensures refused { result ≡ list_any is_refused_by info.now }
    ensures texts { result ≡ false → All AreTexts info.now }
{
    info.iter().any(|element| is_refused(element))
}

/// Whether an element can't be written, or is computed.
fn is_refused(element: &(Text, Text)) -> bool
    ensures refused { result ≡ is_refused_by element.now }
    ensures texts { AreTexts element.now }
{
    let (label, value) = (element.0.as_str(), element.1.as_str());
    are_texts(label, value);
    is_bad_element(element) || same_label(label, OXUM_LABEL)
}
