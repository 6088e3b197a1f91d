//! What a line of `bag-info.txt` is (RFC 8493, 2.2.2).
ghost use Rattle.std.specs.Prelude.{◌≡◌, MatchOption, Some, None};
ghost use Rattle.bag_read.specs.Info as spec;
ghost use Rattle.bag_read.specs.InfoSplit.{HasKind};

use bag_text::{Rules, begins_with_blank, ends_with_blank, is_blank_line};

/// What a line is, taken by itself.
#[derive(Clone, Copy)]
pub(crate) enum LineKind<'a> {
    /// Empty, or only spaces and tabs.
    Blank,
    /// More of the value of the element above.
    Continuation,
    /// The first line of an element: its label, and what follows the colon.
    First { label: &'a str, part: &'a str },
    /// A line that should begin an element and doesn't.
    Faulty,
}

/// What a line is.
pub(crate) fn kind_of(rules: Rules, line: &str) -> LineKind<'_>
    ensures { HasKind rules line.now result }
{
    if is_blank_line(line) {
        return LineKind::Blank;
    }
    if begins_with_blank(line) {
        return LineKind::Continuation;
    }
    match split(rules, line) {
        Some((label, part)) => LineKind::First { label, part },
        None => LineKind::Faulty,
    }
}

/// The label and what follows the first colon, where the line splits there.
#[tactic(auto, using(crate::proofs::InfoLine::lacks, crate::proofs::InfoLine::has))]
fn split(rules: Rules, line: &str) -> Option<(&str, &str)>
    ensures { MatchOption result (spec.split rules line.now ≡ None) (λ x.
        spec.split rules line.now ≡ Some (x.0.now, x.1.now)) }
{
    let Some((before, part)) = line.split_once(':') else {
        return None;
    };
    let label = rules.label_of(before);
    if is_label(label) && rules.may_follow_colon(part) {
        Some((label, part))
    } else {
        None
    }
}

/// A label isn't empty and doesn't end with a blank.
fn is_label(text: &str) -> bool
    ensures { result ≡ spec.is_label text.now }
{
    !text.is_empty() && !ends_with_blank(text)
}
