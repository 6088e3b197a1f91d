//! Folders that are synced.
ghost use Rattle.std.specs.Prelude.{◌≡◌, IfErr, IsTrue, List, OnErr, OnOk, Some, is_some, true, ℕ};
ghost use Rattle.bag_tree.specs.Asked.{AsksSyncs};
ghost use Rattle.bag_tree.specs.declared.event.DeviceEvent.TheVariants.{Sync, SyncFolder};
ghost use Rattle.bag_disk.specs.DiskNodes.{OnlyLooks, OnlySyncs};
ghost use Rattle.bag_disk.specs.Refusal.{IsCounted};
ghost use Rattle.bag_disk.specs.WritableDisk.{ClosesOpenFile, Notes};
ghost use Rattle.bag_store.specs.Asking.{AsksAnsweredSyncs, AsksOfDisk, HasDurableFolders};
ghost use Rattle.bag_store.specs.Asking.{SyncsBoth};
ghost use Rattle.bag_store.specs.Due.{IsDueToDevice};

use bag_disk::{Refusal, WritableDisk};

/// The path of the base folder.
pub(crate) const BASE: &str = "";

/// Syncs a folder, so that the names in it are durable.
pub(crate) fn sync_names<D: WritableDisk>(disk: &mut D, folder: &str) -> Result<(), Refusal>
    ensures syncs { OnlySyncs (D.state disk.old) (D.state disk.new) }
    ensures same { OnErr result (OnlyLooks (D.state disk.old) (D.state disk.new)) }
    ensures same_file { D.written disk.new ≡ D.written disk.old }
    ensures noted { IsTrue (D.state disk.old).noted
        → OnOk result (Notes (SyncFolder folder.now) (D.state disk.old) (D.state disk.new)) }
    ensures refused { IfErr result IsDueToDevice }
    ensures failures { IsCounted result (D.state disk.old) (D.state disk.new) }
{
    disk.sync_folder(folder).map_err(Refusal::at_known)
}

/// Syncs the file that was written, so that its bytes are durable, and ends its writing.
pub(crate) fn sync_file<D: WritableDisk>(disk: &mut D) -> Result<(), Refusal>
    requires { IsTrue (is_some (D.written disk.old)) }
    ensures held { OnOk result ((D.state disk.new).nodes ≡ (D.state disk.old).nodes) }
    ensures closed { OnOk result (ClosesOpenFile (D.state disk.old) (D.state disk.new)) }
    ensures same { OnErr result (OnlyLooks (D.state disk.old) (D.state disk.new)) }
    ensures noted { IsTrue (D.state disk.old).noted
        → OnOk result ((path : List ℕ) → D.written disk.old ≡ Some path
        → Notes (Sync path) (D.state disk.old) (D.state disk.new)) }
    ensures refused { IfErr result IsDueToDevice }
    ensures failures { IsCounted result (D.state disk.old) (D.state disk.new) }
{
    disk.sync().map_err(Refusal::at_known)
}

/// Syncs a folder, and then the base folder.
pub(crate) fn sync_with_base<D: WritableDisk>(disk: &mut D, folder: &str) -> Result<(), Refusal>
    ensures syncs { OnlySyncs (D.state disk.old) (D.state disk.new) }
    ensures asked { AsksOfDisk (SyncsBoth folder.now) AsksSyncs
        (D.state disk.old) (D.state disk.new) result }
    ensures refused { IfErr result IsDueToDevice }
    ensures failures { IsCounted result (D.state disk.old) (D.state disk.new) }
{
    sync_names(disk, folder)?;
    sync_names(disk, BASE)
}

/// Syncs the base folder, but where the names that folders were given in it are known to be
/// durable.
pub(crate) fn sync_folder_names<D: WritableDisk>(
    disk: &mut D,
    is_synced: bool,
) -> Result<(), Refusal>
    requires { is_synced ≡ true → HasDurableFolders (D.state disk.old) }
    ensures syncs { OnlySyncs (D.state disk.old) (D.state disk.new) }
    ensures asked { AsksOfDisk AsksAnsweredSyncs AsksSyncs
        (D.state disk.old) (D.state disk.new) result }
    ensures durable { OnOk result (HasDurableFolders (D.state disk.new)) }
    ensures refused { IfErr result IsDueToDevice }
    ensures failures { IsCounted result (D.state disk.old) (D.state disk.new) }
{
    if is_synced {
        return Ok(());
    }
    sync_names(disk, BASE)
}
