//! Searches that go on where the last one ended.
ghost use Rattle.std.specs.Prelude.{map};
ghost use Rattle.std.specs.List.Sorted.{IsStrictlySortedBy};
ghost use Rattle.bag_text.specs.Text.{text_cmp};
ghost use Rattle.bag_stages.specs.Sought.{IsSought};

use bag_text::{HasPath, Text};
use std::cmp::Ordering;

/// Those of items in the order of their paths that come after a path, and whether one stands at it.
/// Looks at no item after the first of those.
pub(crate) fn seek<'a, T: HasPath>(items: &'a [T], path: &Text) -> (&'a [T], bool)
    ensures { IsStrictlySortedBy text_cmp (map T.path_of items.now)
        → IsSought path.now (map T.path_of items.now) (map T.path_of result.0.now) result.1 }
{
    let mut rest = items;
    while let Some((first, after)) = rest.split_first() {
        match first.path().cmp(path) {
            Ordering::Less => rest = after,
            Ordering::Equal => return (after, true),
            Ordering::Greater => return (rest, false),
        }
    }
    (rest, false)
}
