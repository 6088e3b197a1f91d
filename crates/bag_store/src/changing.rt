//! The steps that change what stands below a base folder.
ghost use Rattle.std.specs.Prelude.{◌≡◌, ◌≢◌, IfErr, IsTrue, None, OnErr, OnOk, true, ℕ};
ghost use Rattle.bag_text.specs.Path.{is_base_name, under};
ghost use Rattle.bag_tree.specs.Asked.{AsksFolder, AsksMove, AsksRename, AsksSyncs};
ghost use Rattle.bag_tree.specs.Steps.{lacks_folder, lacks_source};
ghost use Rattle.bag_tree.specs.declared.event.DeviceEvent.TheVariants.{Rename};
ghost use Rattle.bag_disk.specs.DiskNodes.{Has, OnlyLooks, OnlySyncs};
ghost use Rattle.bag_disk.specs.WritableDisk.{ClosesOpenFile, MakesFolderNode, Moves, Notes};
ghost use Rattle.bag_store.specs.Asking.{AsksOfDisk, HasDurableFolders, SeesTakenLast};
ghost use Rattle.bag_store.specs.Changing.{HasFolderInTheWay, HasTarget, IsRenamed, IsMovedIn};
ghost use Rattle.bag_store.specs.Changing.{IsNameTaken, LacksFolder, LacksSource};
ghost use Rattle.bag_store.specs.Due.{IsDueInMaking};
ghost use Rattle.bag_disk.specs.Refusal.{IsCounted, IsDueInMove, IsDueInStep, MeetsSpecial};
ghost use Rattle.bag_disk.specs.Refusal.{failures_after, of_making};
ghost use Rattle.bag_disk.specs.declared.disk.DiskFault.TheVariants.{Exists};

use crate::standing::{Standing, check_free, check_taken, standing_at};
use crate::syncing::{BASE, sync_folder_names, sync_names, sync_with_base};
use crate::target::folder_in_the_way;
use bag_disk::{Disk, DiskFault, Refusal, WritableDisk, check_is_folder, path_in};
use std::alloc::Global;

/// Makes a folder in the base folder, where nothing has its name. First the base folder is synced,
/// so that a device that can't is known before anything is changed.
pub(crate) fn make_folder<D: WritableDisk>(disk: &mut D, name: &str) -> Result<(), Refusal>
    requires { IsTrue (is_base_name name.now) }
    ensures made { OnOk result (IsTrue (D.state disk.old).honest
        → MakesFolderNode (D.state disk.old).nodes (D.state disk.new).nodes name.now) }
    ensures closed { OnOk result (ClosesOpenFile (D.state disk.old) (D.state disk.new)) }
    ensures same { OnErr result (OnlySyncs (D.state disk.old) (D.state disk.new)) }
    ensures asked { AsksOfDisk (AsksFolder name.now) AsksSyncs
        (D.state disk.old) (D.state disk.new) result }
    ensures refused { IfErr result
        (IsDueInMaking (D.state disk.old) (IsNameTaken (D.state disk.old) name.now)) }
    ensures failures { IsCounted result (D.state disk.old) (D.state disk.new) }
{
    sync_names(disk, BASE)?;
    match disk.make_folder(name) {
        Ok(()) => Ok(()),
        Err(fault) => Err(not_made(disk, name, fault)),
    }
}

/// Why nothing was made, where the disk refused so. What it says that stands there may be no file
/// and no folder.
pub(crate) fn not_made<D: Disk>(disk: &mut D, name: &str, fault: DiskFault) -> Refusal
    requires name { IsTrue (is_base_name name.now) }
    requires there { fault ≡ Exists → IsTrue (D.state disk.old).honest
        → Has (D.state disk.old).nodes name.now }
    ensures looks { OnlyLooks (D.state disk.old) (D.state disk.new) }
    ensures due { IsDueInMaking (D.state disk.old) (IsNameTaken (D.state disk.old) name.now)
        result }
    ensures failures { (before : ℕ)
        → (D.state disk.old).failures ≡ failures_after (of_making fault) before
        → (D.state disk.new).failures ≡ failures_after result before }
{
    match fault {
        DiskFault::Exists => match check_free(disk, name) {
            Ok(()) => Refusal::Exists,
            Err(refusal) => refusal,
        },
        DiskFault::NotFound | DiskFault::Name | DiskFault::Device => Refusal::Device,
        DiskFault::Memory => Refusal::Memory,
    }
}

/// Moves what has a name in the base folder into a folder of it, where nothing has this name.
///
/// Before that the base folder is synced, but where the names of its folders are known to be
/// durable: in a folder whose own name is lost, what was moved is lost.
pub(crate) fn move_in<D: WritableDisk>(
    disk: &mut D,
    alloc: Global,
    is_synced: bool,
    top: &str,
    folder: &str,
) -> Result<(), Refusal>
    requires synced { is_synced ≡ true → HasDurableFolders (D.state disk.old) }
    requires top { IsTrue (is_base_name top.now) }
    requires folder { IsTrue (is_base_name folder.now) }
    ensures moved { OnOk result
        (IsMovedIn (D.state disk.old) (D.state disk.new) top.now folder.now) }
    ensures closed { OnOk result (ClosesOpenFile (D.state disk.old) (D.state disk.new)) }
    ensures same { OnErr result (OnlySyncs (D.state disk.old) (D.state disk.new)) }
    ensures asked { AsksOfDisk (AsksMove top.now folder.now) AsksSyncs
        (D.state disk.old) (D.state disk.new) result }
    ensures refused { IfErr result
        (IsDueInMove (MeetsSpecial (D.state disk.old))
        (LacksSource (D.state disk.old) top.now folder.now)
        (HasTarget (D.state disk.old) top.now folder.now)
        (HasFolderInTheWay (D.state disk.old) top.now folder.now)) }
    ensures failures { IsCounted result (D.state disk.old) (D.state disk.new) }
{
    sync_folder_names(disk, is_synced)?;
    move_below(disk, alloc, top, folder)
}

/// Moves what has a name in the base folder into a folder of it, by a rename after its looks.
fn move_below<D: WritableDisk>(
    disk: &mut D,
    alloc: Global,
    top: &str,
    folder: &str,
) -> Result<(), Refusal>
    requires top { IsTrue (is_base_name top.now) }
    requires folder { IsTrue (is_base_name folder.now) }
    ensures moved { OnOk result
        (IsMovedIn (D.state disk.old) (D.state disk.new) top.now folder.now) }
    ensures closed { OnOk result (ClosesOpenFile (D.state disk.old) (D.state disk.new)) }
    ensures same { OnErr result (OnlyLooks (D.state disk.old) (D.state disk.new)) }
    ensures noted { IsTrue (D.state disk.old).noted
        → OnOk result (Notes (Rename top.now (under folder.now top.now))
        (D.state disk.old) (D.state disk.new)) }
    ensures refused { IfErr result
        (IsDueInMove (MeetsSpecial (D.state disk.old))
        (LacksSource (D.state disk.old) top.now folder.now)
        (HasTarget (D.state disk.old) top.now folder.now)
        (HasFolderInTheWay (D.state disk.old) top.now folder.now)) }
    ensures failures { IsCounted result (D.state disk.old) (D.state disk.new) }
{
    check_is_folder(disk, folder)?;
    check_taken(disk, top)?;
    let target = path_in(alloc, folder, top)?;
    match standing_at(disk, target.as_str())? {
        None => {}
        Some(Standing::File) => return Err(Refusal::Exists),
        Some(Standing::Folder) => return Err(folder_in_the_way(disk, alloc, target.as_str())),
    }
    disk.rename(top, target.as_str()).map_err(Refusal::at_known)
}

/// Gives a folder of the base folder another name, where nothing has it. Before that both folders
/// are synced, which may take a while: only then it is looked whether the name is free.
pub(crate) fn rename_folder<D: WritableDisk>(
    disk: &mut D,
    from: &str,
    to: &str,
) -> Result<(), Refusal>
    requires from { IsTrue (is_base_name from.now) }
    requires to { IsTrue (is_base_name to.now) }
    ensures renamed { OnOk result
        (IsRenamed (D.state disk.old) (D.state disk.new) from.now to.now) }
    ensures closed { OnOk result (ClosesOpenFile (D.state disk.old) (D.state disk.new)) }
    ensures same { OnErr result (OnlySyncs (D.state disk.old) (D.state disk.new)) }
    ensures asked { AsksOfDisk (AsksRename from.now to.now) AsksSyncs
        (D.state disk.old) (D.state disk.new) result }
    ensures looks_last { IfErr result
        (SeesTakenLast from.now (D.state disk.old) (D.state disk.new)) }
    ensures refused { IfErr result (IsDueInStep (MeetsSpecial (D.state disk.old))
        (LacksFolder (D.state disk.old) from.now) (IsNameTaken (D.state disk.old) to.now)) }
    ensures failures { IsCounted result (D.state disk.old) (D.state disk.new) }
{
    check_is_folder(disk, from)?;
    sync_with_base(disk, from)?;
    check_free(disk, to)?;
    match disk.rename(from, to) {
        Ok(()) => Ok(()),
        Err(fault) => Err(Refusal::at_known(fault)),
    }
}
