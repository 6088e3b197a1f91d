//! When a tree has too many files and folders.
ghost use Rattle.std.specs.Prelude.{◌≡◌, ◌<◌, IfOk, IsTrue, false};
ghost use Rattle.bag_tree.specs.Tree.{most_entries};
ghost use Rattle.bag_disk.specs.Disk.{Nodes, entry_count};
ghost use Rattle.bag_disk.specs.FolderWalk.{AreFolders, AreThere, HasFound, IsTooMuch};
ghost use Rattle.bag_disk.specs.Refusal.{IsDueOnly, is_device};
ghost use Rattle.bag_disk.specs.declared.refusal.Refusal.TheVariants.{TooMany};

use crate::folder_walk::{FolderWalk, MOST_ENTRIES};
use crate::path_order::{all_differ, sort_in_place};
use crate::refusal::Refusal;
use bag_text::Text;
use bag_tree::FileEntry;
use std::alloc::AllocError;

/// Why a walk has no room for what it found: there is too much, or, where the disk named something
/// twice, out of memory.
pub(crate) fn no_room(walk: FolderWalk) -> Refusal
    ensures quiet { is_device result ≡ false }
    ensures due { IsDueOnly TooMany (IsTooMuch walk) result }
{
    match all_found(walk) {
        Ok(found) => {
            if are_too_many(found) {
                Refusal::TooMany
            } else {
                Refusal::Memory
            }
        }
        Err(_) => Refusal::Memory,
    }
}

/// All that a walk has found, folders too.
fn all_found(walk: FolderWalk) -> Result<Vec<FileEntry>, AllocError>
    ensures { IfOk result (λ found.
        (nodes : Nodes) → HasFound nodes walk walk.listed.items → AreThere nodes found.items) }
{
    let FolderWalk {
        files,
        folders,
        listed,
        ..
    } = walk;
    let found = with_folders(files, folders)?;
    with_folders(found, listed)
}

/// The files, and the folders but for the base folder.
fn with_folders(files: Vec<FileEntry>, folders: Vec<Text>) -> Result<Vec<FileEntry>, AllocError>
    ensures { IfOk result (λ found. (nodes : Nodes) → AreThere nodes files.items
        → AreFolders nodes folders.items → AreThere nodes found.items) }
{
    let mut found = files;
    let mut folders = folders;
    while let Some(path) = folders.pop() {
        if !path.is_empty() {
            found.push(FileEntry { path, size: 0 })?;
        }
    }
    Ok(found)
}

/// Whether this is more than a tree may have, none of it twice.
fn are_too_many(found: Vec<FileEntry>) -> bool
    ensures { IsTrue result → (nodes : Nodes) → AreThere nodes found.items
        → most_entries < entry_count nodes }
{
    let mut found = found;
    sort_in_place(&mut found);
    found.len() > MOST_ENTRIES as usize && all_differ(found.as_slice())
}
