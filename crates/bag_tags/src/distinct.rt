//! Whether a list names each path once.
ghost use Rattle.std.specs.Prelude.{◌≡◌, ◌↔◌, IfOk, IsTrue};
ghost use Rattle.bag_tags.specs.Distinct.{TextsAscend, lent_texts};
ghost use Rattle.bag_tags.specs.Writable as spec;

use bag_text::Text;
use std::alloc::{AllocError, Global};

/// Whether no path stands twice among the entries of a manifest. Takes time n log n in their
/// number.
pub(crate) fn are_paths_distinct(
    alloc: Global,
    entries: &[(Text, Text)],
) -> Result<bool, AllocError>
    ensures { IfOk result (λ distinct. IsTrue distinct ↔ spec.NamesEachOnce entries.now) }
{
    let mut paths = paths(alloc, entries)?;
    paths.sort_unstable();
    Ok(is_ascending(paths.as_slice()))
}

/// The path of each entry.
fn paths(alloc: Global, entries: &[(Text, Text)]) -> Result<Vec<&str>, AllocError>
    ensures { IfOk result (λ paths. lent_texts paths.items ≡ spec.paths entries.now) }
{
    let mut paths = Vec::with_capacity(alloc, entries.len())?;
    for entry in entries {
        paths.push(entry.1.as_str())?;
    }
    Ok(paths)
}

/// Whether each text stands before the next.
fn is_ascending(texts: &[&str]) -> bool
    ensures { IsTrue result ↔ TextsAscend texts.now }
{
    texts.is_sorted_by(|a, b| a.cmp(b).is_lt())
}
