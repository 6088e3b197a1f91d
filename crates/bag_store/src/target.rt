//! Folders that stand where something is to be moved.
ghost use Rattle.std.specs.Prelude.{◌≡◌, ◌↔◌, Any, IsTrue};
ghost use Rattle.bag_tree.specs.Moved as moving;
ghost use Rattle.bag_disk.specs.DiskNodes.{OnlyLooks};
ghost use Rattle.bag_disk.specs.Refusal.{failures_after};
ghost use Rattle.bag_store.specs.Due.{IsDueToFolder};

use bag_disk::{Disk, Refusal, list_below};
use bag_tree::{FileEntry, rest_within};
use std::alloc::Global;

/// Why nothing can be moved to where a folder stands: a file is in it, or none was found and it
/// might be replaced. The files below the base folder are listed for that.
pub(crate) fn folder_in_the_way<D: Disk>(disk: &mut D, alloc: Global, folder: &str) -> Refusal
    ensures looks { OnlyLooks (D.state disk.old) (D.state disk.new) }
    ensures refused { IsDueToFolder (D.state disk.old) folder.now result }
    ensures failures { (D.state disk.new).failures
        ≡ failures_after result (D.state disk.old).failures }
{
    match list_below(disk, alloc) {
        Ok(listing) => {
            if has_within(listing.files.as_slice(), folder) {
                Refusal::Exists
            } else {
                Refusal::InTheWay
            }
        }
        Err(Refusal::Device) => Refusal::Device,
        Err(Refusal::Memory) => Refusal::Memory,
        Err(Refusal::Special)
        | Err(Refusal::Name)
        | Err(Refusal::NotFound)
        | Err(Refusal::TooMany)
        | Err(Refusal::Exists)
        | Err(Refusal::Contradicts)
        | Err(Refusal::InTheWay) => Refusal::InTheWay,
    }
}

/// Whether one of the files stands at a path or below it.
fn has_within(files: &[FileEntry], top: &str) -> bool
    ensures { IsTrue result ↔ Any (λ file. IsTrue (moving.is_within top.now file.path)) files.now }
{
    files.iter().any(|file| is_within(top, file.path.as_str()))
}

/// Whether a path is another, or below it.
fn is_within(top: &str, path: &str) -> bool
    ensures { result ≡ moving.is_within top.now path.now }
{
    rest_within(top, path).is_some()
}
