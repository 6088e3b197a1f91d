//! Opening a file of a disk.
ghost use Rattle.std.specs.Prelude.{◌≡◌, ◌++◌, ◌∷◌, [], None, OnOk, OnErr, IfErr, IsTrue, is_some};
ghost use Rattle.bag_text.specs.Path.{is_path};
ghost use Rattle.bag_disk.specs.DiskNodes.{OnlyLooks, SameDisk, IsReachedByFolders};
ghost use Rattle.bag_disk.specs.Opening.{HasFolderAt, MayRefuseAsFolder, MayRefuseOpening};
ghost use Rattle.bag_disk.specs.Opening.{MayRefuseWay, OpensFileOfBag};
ghost use Rattle.bag_disk.specs.Refusal.{IsCounted};

use crate::path::is_path;
use crate::refusal::Refusal;
use crate::{Disk, Entry};

/// Opens the regular file at a path. Links on the way aren't followed, and neither a text that
/// isn't a path nor a folder has a file.
pub fn open_at<D: Disk>(disk: &mut D, path: &str) -> Result<(), Refusal>
    ensures same { SameDisk (D.state disk.old) (D.state disk.new) }
    ensures opened { OnOk result
        ((D.state disk.new).openings ≡ (D.state disk.old).openings ++ path.now ∷ []) }
    ensures only_paths { OnOk result (IsTrue (is_path path.now)) }
    ensures file_open { OnOk result (IsTrue (is_some (D.state disk.new).rest)) }
    ensures honest { OnOk result (OpensFileOfBag (D.state disk.old) (D.state disk.new) path.now) }
    ensures refused { IfErr result (MayRefuseOpening (D.state disk.old) path.now) }
    ensures closed { (D.state disk.old).rest ≡ None
        → OnErr result ((D.state disk.new).rest ≡ None) }
    ensures not_opened { OnErr result ((D.state disk.new).openings ≡ (D.state disk.old).openings) }
    ensures failures { IsCounted result (D.state disk.old) (D.state disk.new) }
{
    if !is_path(path) {
        return Err(Refusal::NotFound);
    }
    check_folders(disk, path)?;
    match disk.entry_at(path) {
        Ok(Entry::File(_)) => {}
        Ok(Entry::Folder) => return Err(Refusal::NotFound),
        Ok(Entry::Other) => return Err(Refusal::Special),
        Err(fault) => return Err(Refusal::of_path(fault)),
    }
    disk.open(path).map_err(Refusal::of_path)
}

/// Refuses a path that doesn't lead through folders alone.
fn check_folders<D: Disk>(disk: &mut D, path: &str) -> Result<(), Refusal>
    ensures looks { OnlyLooks (D.state disk.old) (D.state disk.new) }
    ensures reached { OnOk result
        (IsTrue (D.state disk.old).honest → IsReachedByFolders (D.state disk.old).nodes path.now) }
    ensures refused { IfErr result (MayRefuseWay (D.state disk.old) path.now) }
    ensures failures { IsCounted result (D.state disk.old) (D.state disk.new) }
{
    for (end, byte) in path.as_bytes().iter().enumerate() {
        if *byte == b'/' {
            check_is_folder(disk, &path[..end])?;
        }
    }
    Ok(())
}

/// Refuses what is no folder. A text that isn't a path has none.
pub fn check_is_folder<D: Disk>(disk: &mut D, folder: &str) -> Result<(), Refusal>
    ensures looks { OnlyLooks (D.state disk.old) (D.state disk.new) }
    ensures folder { OnOk result (HasFolderAt (D.state disk.old) folder.now) }
    ensures refused { IfErr result (MayRefuseAsFolder (D.state disk.old) folder.now) }
    ensures failures { IsCounted result (D.state disk.old) (D.state disk.new) }
{
    if !is_path(folder) {
        return Err(Refusal::NotFound);
    }
    match disk.entry_at(folder) {
        Ok(Entry::Folder) => Ok(()),
        Ok(Entry::File(_)) => Err(Refusal::NotFound),
        Ok(Entry::Other) => Err(Refusal::Special),
        Err(fault) => Err(Refusal::of_path(fault)),
    }
}
