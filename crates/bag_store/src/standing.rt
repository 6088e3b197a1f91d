//! Looks at what stands where a step is to be made.
ghost use Rattle.std.specs.Prelude.{◌≡◌, IfErr, IfOk, IsTrue, None, OnOk, false, true};
ghost use Rattle.bag_text.specs.Path.{is_base_name, is_path};
ghost use Rattle.bag_tree.specs.Bag.{has_folder};
ghost use Rattle.bag_tree.specs.Steps.{is_taken};
ghost use Rattle.bag_disk.specs.DiskNodes.{HasSpecial, IsReachedByFolders, OnlyLooks, node};
ghost use Rattle.bag_disk.specs.WritableDisk.{HasFileNode};
ghost use Rattle.bag_store.specs.Changing.{IsNameTaken, LacksFileThere};
ghost use Rattle.bag_disk.specs.DiskBag.{bag_of};
ghost use Rattle.bag_disk.specs.Refusal.{IsCounted, MeetsSpecial};
ghost use Rattle.bag_store.specs.Due.{IsDueInFinding, IsDueInLook, IsDueInMaking, IsDueInRemoving};
ghost use Rattle.bag_store.specs.Standing.{IsStanding};
ghost use Rattle.bag_store.specs.Writing.{is_none_or_file};

use bag_disk::{Disk, DiskFault, Entry, Refusal};

/// What can stand in a bag's folder.
#[derive(Clone, Copy)]
pub(crate) enum Standing {
    File,
    Folder,
}

/// What stands at a path. What is no file and no folder is `Special`, and no link is followed.
pub(crate) fn standing_at<D: Disk>(disk: &mut D, path: &str) -> Result<Option<Standing>, Refusal>
    requires { IsTrue (is_path path.now) }
    ensures looks { OnlyLooks (D.state disk.old) (D.state disk.new) }
    ensures found { IfOk result (λ standing.
        IsTrue (D.state disk.old).honest → IsReachedByFolders (D.state disk.old).nodes path.now
        → IsStanding (D.state disk.old).nodes path.now standing) }
    ensures refused { IfErr result
        (IsDueInLook (IsTrue (D.state disk.old).honest
        → IsReachedByFolders (D.state disk.old).nodes path.now
        → HasSpecial (D.state disk.old).nodes)) }
    ensures failures { IsCounted result (D.state disk.old) (D.state disk.new) }
{
    match disk.entry_at(path) {
        Ok(Entry::File(_)) => Ok(Some(Standing::File)),
        Ok(Entry::Folder) => Ok(Some(Standing::Folder)),
        Ok(Entry::Other) => Err(Refusal::Special),
        Err(DiskFault::NotFound) => Ok(None),
        Err(DiskFault::Memory) => Err(Refusal::Memory),
        Err(DiskFault::Exists) | Err(DiskFault::Name) | Err(DiskFault::Device) => {
            Err(Refusal::Device)
        }
    }
}

/// Refuses a name of the base folder that something has.
pub(crate) fn check_free<D: Disk>(disk: &mut D, name: &str) -> Result<(), Refusal>
    requires { IsTrue (is_base_name name.now) }
    ensures looks { OnlyLooks (D.state disk.old) (D.state disk.new) }
    ensures free { OnOk result
        (IsTrue (D.state disk.old).honest → node (D.state disk.old).nodes name.now ≡ None) }
    ensures refused { IfErr result
        (IsDueInMaking (D.state disk.old) (IsNameTaken (D.state disk.old) name.now)) }
    ensures failures { IsCounted result (D.state disk.old) (D.state disk.new) }
{
    match standing_at(disk, name)? {
        None => Ok(()),
        Some(_) => Err(Refusal::Exists),
    }
}

/// Refuses a name of the base folder that nothing has.
pub(crate) fn check_taken<D: Disk>(disk: &mut D, name: &str) -> Result<(), Refusal>
    requires { IsTrue (is_base_name name.now) }
    ensures looks { OnlyLooks (D.state disk.old) (D.state disk.new) }
    ensures taken { OnOk result (IsNameTaken (D.state disk.old) name.now) }
    ensures refused { IfErr result
        (IsDueInFinding (D.state disk.old)
        (IsTrue (D.state disk.old).honest
        → is_taken (bag_of (D.state disk.old).nodes) name.now ≡ false)) }
    ensures failures { IsCounted result (D.state disk.old) (D.state disk.new) }
{
    match standing_at(disk, name)? {
        None => Err(Refusal::NotFound),
        Some(_) => Ok(()),
    }
}

/// Refuses a name of the base folder that a folder has.
pub(crate) fn check_no_folder<D: Disk>(disk: &mut D, name: &str) -> Result<(), Refusal>
    requires { IsTrue (is_base_name name.now) }
    ensures looks { OnlyLooks (D.state disk.old) (D.state disk.new) }
    ensures none { OnOk result
        (IsTrue (D.state disk.old).honest
        → is_none_or_file (node (D.state disk.old).nodes name.now) ≡ true) }
    ensures refused { IfErr result
        (IsDueInMaking (D.state disk.old)
        (IsTrue (D.state disk.old).honest
        → has_folder (bag_of (D.state disk.old).nodes) name.now ≡ true)) }
    ensures failures { IsCounted result (D.state disk.old) (D.state disk.new) }
{
    match standing_at(disk, name)? {
        None | Some(Standing::File) => Ok(()),
        Some(Standing::Folder) => Err(Refusal::Exists),
    }
}

/// Whether a folder has a name in the base folder.
pub(crate) fn has_folder_named<D: Disk>(disk: &mut D, name: &str) -> Result<bool, Refusal>
    requires { IsTrue (is_base_name name.now) }
    ensures looks { OnlyLooks (D.state disk.old) (D.state disk.new) }
    ensures found { IfOk result (λ found. IsTrue (D.state disk.old).honest
        → found ≡ has_folder (bag_of (D.state disk.old).nodes) name.now) }
    ensures refused { IfErr result (IsDueInLook (MeetsSpecial (D.state disk.old))) }
    ensures failures { IsCounted result (D.state disk.old) (D.state disk.new) }
{
    match standing_at(disk, name)? {
        Some(Standing::Folder) => Ok(true),
        None | Some(Standing::File) => Ok(false),
    }
}

/// Refuses a name of the base folder that no file has.
pub(crate) fn check_is_file<D: Disk>(disk: &mut D, name: &str) -> Result<(), Refusal>
    requires { IsTrue (is_base_name name.now) }
    ensures looks { OnlyLooks (D.state disk.old) (D.state disk.new) }
    ensures file { OnOk result
        (IsTrue (D.state disk.old).honest → HasFileNode (D.state disk.old).nodes name.now) }
    ensures refused { IfErr result
        (IsDueInRemoving (D.state disk.old) (LacksFileThere (D.state disk.old) name.now)) }
    ensures failures { IsCounted result (D.state disk.old) (D.state disk.new) }
{
    match standing_at(disk, name)? {
        Some(Standing::File) => Ok(()),
        None | Some(Standing::Folder) => Err(Refusal::NotFound),
    }
}
