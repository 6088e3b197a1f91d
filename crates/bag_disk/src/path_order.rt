//! Files in the order of their paths.
ghost use Rattle.std.specs.Prelude.{◌↔◌, IsTrue, map};
ghost use Rattle.std.specs.List.Sorted.{IsPermutation, IsSortedByKey, IsStrictlySortedBy};
ghost use Rattle.bag_text.specs.Text.{text_cmp};

use bag_tree::FileEntry;

/// Sorts files by the bytes of their paths. It takes no memory.
pub(crate) fn sort_in_place(files: &mut Vec<FileEntry>)
    ensures sorted { IsSortedByKey (λ file. file.path) text_cmp files.new.items }
    ensures permutation { IsPermutation files.old.items files.new.items }
{
    files.sort_unstable_by(|a, b| a.path.cmp(&b.path));
}

/// Whether no two of the sorted files have the same path.
pub(crate) fn all_differ(files: &[FileEntry]) -> bool
    requires { IsSortedByKey (λ file. file.path) text_cmp files.now }
    ensures { IsTrue result ↔ IsStrictlySortedBy text_cmp (map (λ file. file.path) files.now) }
{
    files.is_sorted_by(|a, b| a.path != b.path)
}
