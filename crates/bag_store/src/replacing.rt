//! Files that are put in place of others, and removed.
ghost use Rattle.std.specs.Prelude.{◌≡◌, ◌≢◌, ◌⊎◌, IfErr, IsTrue, OnErr, OnOk, [], true};
ghost use Rattle.bag_text.specs.Path.{is_base_name};
ghost use Rattle.bag_tree.specs.Bag.{has_folder};
ghost use Rattle.bag_tree.specs.FileChanges.{AsksFirstOf, AsksPut, AsksRemove};
ghost use Rattle.bag_tree.specs.declared.event.DeviceEvent.TheVariants.{SyncFolder};
ghost use Rattle.bag_disk.specs.DiskBag.{bag_of};
ghost use Rattle.bag_disk.specs.DiskNodes.{OnlyLooks, OnlySyncs, node};
ghost use Rattle.bag_disk.specs.Refusal.{IsCounted};
ghost use Rattle.bag_disk.specs.WritableDisk.{HasFileNode, Notes};
ghost use Rattle.bag_store.specs.Asking.{AsksOfDisk};
ghost use Rattle.bag_store.specs.Changing.{IsPlaceTaken, LacksFileThere};
ghost use Rattle.bag_store.specs.Due.{IsDueInMaking, IsDueInRemoving};
ghost use Rattle.bag_store.specs.Writing.{LeavesPut, LooksFirst, Puts, RemovesIt, is_none_or_file};

use crate::standing::{check_is_file, check_no_folder};
use crate::syncing::{BASE, sync_names};
use crate::writing::create;
use bag_disk::{Disk, Refusal, ReplaceDisk, WritableDisk};

/// Puts a file into the base folder, in place of any other of its name: it is made at a name
/// beside, synced with the base folder, and given its own name, and then the base folder is synced.
/// It is synced before, too, so that what an earlier program did there is durable.
pub(crate) fn replace<D: ReplaceDisk>(
    disk: &mut D,
    beside: &str,
    name: &str,
    bytes: &[u8],
) -> Result<(), Refusal>
    requires beside { IsTrue (is_base_name beside.now) }
    requires name { IsTrue (is_base_name name.now) }
    requires two { beside.now ≢ name.now }
    ensures put { OnOk result
        (Puts (D.state disk.old) (D.state disk.new) beside.now name.now bytes.now) }
    ensures left { OnErr result
        (LeavesPut (D.state disk.old) (D.state disk.new) beside.now name.now bytes.now) }
    ensures looks_first { LooksFirst (D.state disk.old) (D.state disk.new) name.now }
    ensures asked { AsksOfDisk (AsksPut beside.now name.now bytes.now)
        (AsksFirstOf (AsksPut beside.now name.now bytes.now))
        (D.state disk.old) (D.state disk.new) result }
    ensures refused { IfErr result
        (IsDueInMaking (D.state disk.old)
        (IsPlaceTaken (D.state disk.old) beside.now name.now)) }
    ensures failures { IsCounted result (D.state disk.old) (D.state disk.new) }
{
    sync_for_file(disk, name)?;
    create(disk, beside, bytes)?;
    match disk.replace(beside, name) {
        Ok(()) => sync_names(disk, BASE),
        Err(fault) => Err(Refusal::at_known(fault)),
    }
}

/// Syncs the base folder, where no folder has the name of a file that is to be put.
fn sync_for_file<D: WritableDisk>(disk: &mut D, name: &str) -> Result<(), Refusal>
    requires { IsTrue (is_base_name name.now) }
    ensures syncs { OnlySyncs (D.state disk.old) (D.state disk.new) }
    ensures same { OnErr result (OnlyLooks (D.state disk.old) (D.state disk.new)) }
    ensures noted { IsTrue (D.state disk.old).noted
        → OnOk result (Notes (SyncFolder []) (D.state disk.old) (D.state disk.new)) }
    ensures none { OnOk result (IsTrue (D.state disk.old).honest
        → is_none_or_file (node (D.state disk.old).nodes name.now) ≡ true) }
    ensures refused { IfErr result
        (IsDueInMaking (D.state disk.old) (IsTrue (D.state disk.old).honest
        → has_folder (bag_of (D.state disk.old).nodes) name.now ≡ true)) }
    ensures failures { IsCounted result (D.state disk.old) (D.state disk.new) }
{
    check_no_folder(disk, name)?;
    sync_names(disk, BASE)
}

/// Removes a file of the base folder, and syncs that. It is synced before, too, so that what an
/// earlier program did there is durable.
pub(crate) fn remove<D: ReplaceDisk>(disk: &mut D, name: &str) -> Result<(), Refusal>
    requires { IsTrue (is_base_name name.now) }
    ensures removed { OnOk result (RemovesIt (D.state disk.old) (D.state disk.new) name.now) }
    ensures left { OnErr result (OnlySyncs (D.state disk.old) (D.state disk.new)
        ⊎ RemovesIt (D.state disk.old) (D.state disk.new) name.now) }
    ensures asked { AsksOfDisk (AsksRemove name.now) (AsksFirstOf (AsksRemove name.now))
        (D.state disk.old) (D.state disk.new) result }
    ensures refused { IfErr result
        (IsDueInRemoving (D.state disk.old) (LacksFileThere (D.state disk.old) name.now)) }
    ensures failures { IsCounted result (D.state disk.old) (D.state disk.new) }
{
    sync_with_file(disk, name)?;
    match disk.remove(name) {
        Ok(()) => sync_names(disk, BASE),
        Err(fault) => Err(Refusal::of_path(fault)),
    }
}

/// Syncs the base folder, where a file has the name.
fn sync_with_file<D: WritableDisk>(disk: &mut D, name: &str) -> Result<(), Refusal>
    requires { IsTrue (is_base_name name.now) }
    ensures syncs { OnlySyncs (D.state disk.old) (D.state disk.new) }
    ensures same { OnErr result (OnlyLooks (D.state disk.old) (D.state disk.new)) }
    ensures noted { IsTrue (D.state disk.old).noted
        → OnOk result (Notes (SyncFolder []) (D.state disk.old) (D.state disk.new)) }
    ensures file { OnOk result
        (IsTrue (D.state disk.old).honest → HasFileNode (D.state disk.old).nodes name.now) }
    ensures refused { IfErr result
        (IsDueInRemoving (D.state disk.old) (LacksFileThere (D.state disk.old) name.now)) }
    ensures failures { IsCounted result (D.state disk.old) (D.state disk.new) }
{
    check_is_file(disk, name)?;
    sync_names(disk, BASE)
}
