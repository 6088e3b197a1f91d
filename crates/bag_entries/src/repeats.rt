//! Whether entries of a manifest name each path once, and which lines name a path again.
ghost use Rattle.std.specs.Prelude.{◌≡◌, ◌↔◌, ℕ, IfOk, IsTrue, map};
ghost use Rattle.std.specs.BTreeSet.{contains};
ghost use Rattle.std.specs.List.Sorted.{IsStrictlyIncreasing};
ghost use Rattle.std.specs.Ordering.{nat_cmp};
ghost use Rattle.bag_entries.specs.Repeats.{fingerprint, mark_of, PathsAscend, AreDifferent};
ghost use Rattle.bag_entries.specs.Repeats.{IsRepeatedLine};

use crate::ManifestEntry;
use std::alloc::{AllocError, Global};
use std::collections::BTreeSet;
use std::hash::{FoldHasher, Hasher};

/// The lines that name the path of an earlier entry. Takes time n log n in the number of entries,
/// or n where their paths ascend.
pub fn repeated_lines(alloc: Global, entries: &[ManifestEntry]) -> Result<BTreeSet<u64>, AllocError>
    ensures { IfOk result (λ lines.
        (n : ℕ) → IsTrue (contains nat_cmp lines n) ↔ IsRepeatedLine entries.now n) }
{
    if are_different(alloc, entries)? {
        return Ok(BTreeSet::new(alloc));
    }
    lines_named_again(alloc, entries)
}

/// Whether the paths are known to differ; where they do, this may still be false.
fn are_different(alloc: Global, entries: &[ManifestEntry]) -> Result<bool, AllocError>
    ensures { IfOk result (λ different. IsTrue different → AreDifferent entries.now) }
{
    if is_ascending(entries) {
        return Ok(true);
    }
    fingerprints_differ(alloc, entries)
}

/// Whether the paths ascend, so that none is named again. Many programs write them so.
fn is_ascending(entries: &[ManifestEntry]) -> bool
    ensures { IsTrue result → PathsAscend entries.now }
{
    entries.is_sorted_by(|a, b| a.path.cmp(&b.path).is_lt())
}

/// Whether the paths have different fingerprints, so that none is named again. Sorted alone, these
/// take little time.
fn fingerprints_differ(alloc: Global, entries: &[ManifestEntry]) -> Result<bool, AllocError>
    ensures { IfOk result (λ differ. IsTrue differ → AreDifferent entries.now) }
{
    let mut fingerprints = fingerprints(alloc, entries)?;
    fingerprints.sort_unstable();
    Ok(is_increasing(fingerprints.as_slice()))
}

/// The fingerprint of the path of each entry.
fn fingerprints(alloc: Global, entries: &[ManifestEntry]) -> Result<Vec<u64>, AllocError>
    ensures { IfOk result (λ found. found.items ≡ map mark_of entries.now) }
{
    let mut found = Vec::with_capacity(alloc, entries.len())?;
    for entry in entries {
        found.push(fingerprint(entry.path.as_str()))?;
    }
    Ok(found)
}

/// A number of a path, which most often differs from those of other paths.
#[tactic(auto, unfolding(crate::specs::Repeats::fingerprint))]
fn fingerprint(path: &str) -> u64
    ensures { result ≡ fingerprint path.now }
{
    let mut hasher = FoldHasher::default();
    hasher.write(path.as_bytes());
    hasher.finish()
}

/// Whether each number is greater than the one before it.
fn is_increasing(numbers: &[u64]) -> bool
    ensures { IsTrue result → IsStrictlyIncreasing numbers.now }
{
    numbers.is_sorted_by(|a, b| a < b)
}

/// The lines that name the path of an earlier entry, found by looking up each path.
fn lines_named_again(alloc: Global, entries: &[ManifestEntry]) -> Result<BTreeSet<u64>, AllocError>
    ensures { IfOk result (λ lines.
        (n : ℕ) → IsTrue (contains nat_cmp lines n) ↔ IsRepeatedLine entries.now n) }
{
    let mut paths = BTreeSet::new(alloc);
    let mut lines = BTreeSet::new(alloc);
    for entry in entries {
        if !paths.insert(entry.path.as_str())? {
            lines.insert(entry.line)?;
        }
    }
    Ok(lines)
}
