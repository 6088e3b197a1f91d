//! Elements in the order of their labels.
ghost use Rattle.std.specs.Prelude.{◌≡◌, ℕ, List, IfOk};
ghost use Rattle.bag_report.specs.ElementFaults as reported;
ghost use Rattle.bag_report.specs.LabelOrder as order;

use bag_read::Element;
use bag_text::same_label;
use std::alloc::{AllocError, Global};
use std::cmp::Ordering;

/// The elements in the order of their labels, whatever the case of these; those of one label stay
/// in their order.
pub(crate) fn by_label(alloc: Global, elements: &[Element]) -> Result<Vec<&Element>, AllocError>
    ensures labelled { IfOk result (λ sorted. (label : List ℕ)
        → reported.labelled label (reported.lent sorted.items)
        ≡ reported.labelled label elements.now) }
    ensures sorted { IfOk result (λ sorted. order.IsByLabel sorted.items) }
{
    let mut sorted = lent(alloc, elements)?;
    sorted.sort_by(|a, b| label_cmp(a.label.as_str(), b.label.as_str()))?;
    Ok(sorted)
}

/// The elements of a label, in their order, found in time log n of the sorted elements.
pub(crate) fn labelled<'s, 'e>(sorted: &'s [&'e Element], label: &str) -> &'s [&'e Element]
    requires { order.IsByLabel sorted.now }
    ensures { reported.lent result.now ≡ reported.labelled label.now (reported.lent sorted.now) }
{
    let before = sorted.partition_point(|element| label_cmp(element.label.as_str(), label).is_lt());
    let (_, rest) = sorted.split_at(before);
    let count = rest.partition_point(|element| same_label(element.label.as_str(), label));
    let (found, _) = rest.split_at(count);
    found
}

/// The elements, lent.
fn lent(alloc: Global, elements: &[Element]) -> Result<Vec<&Element>, AllocError>
    ensures { IfOk result (λ all. reported.lent all.items ≡ elements.now) }
{
    elements.iter().collect(alloc)
}

/// How two labels compare by their bytes, ignoring ASCII case.
fn label_cmp(a: &str, b: &str) -> Ordering
    ensures { result ≡ order.label_cmp a.now b.now }
{
    let a = a.bytes().map(|byte| byte.to_ascii_lowercase());
    let b = b.bytes().map(|byte| byte.to_ascii_lowercase());
    a.cmp(b)
}
