//! The files below the base folder of a disk.
ghost use Rattle.std.specs.Prelude.{◌≡◌, [], IfOk, IfErr, OnOk, Any, ◌↔◌, codes, IsTrue};
ghost use Rattle.std.specs.List.Sorted.{IsPermutation};
ghost use Rattle.bag_tree.specs.Listing.{IsOrdered, IsListingOf};
ghost use Rattle.bag_disk.specs.Disk.{is_plain};
ghost use Rattle.bag_disk.specs.DiskNodes.{OnlyLooks};
ghost use Rattle.bag_disk.specs.DiskBag.{bag_of};
ghost use Rattle.bag_disk.specs.FolderWalk.{ArePaths, IsUnlistable, MayRefuseWholeListing};
ghost use Rattle.bag_disk.specs.FolderWalk.{MayRefuseWalk, Walked};
ghost use Rattle.bag_disk.specs.Refusal.{IsCounted, IsDueOnly, IsNoFailure};
ghost use Rattle.bag_disk.specs.declared.refusal.Refusal.TheVariants.{Contradicts};

use crate::Disk;
use crate::folder_walk::FolderWalk;
use crate::limit::no_room;
use crate::path_order::all_differ;
use crate::refusal::Refusal;
use bag_text::{Items, Text, sort_by_path};
use bag_tree::Listing;
use std::alloc::Global;

/// Lists the files below the base folder. It follows no link in it, and opens no file.
pub fn list_below<D: Disk>(disk: &mut D, alloc: Global) -> Result<Listing, Refusal>
    ensures looks { OnlyLooks (D.state disk.old) (D.state disk.new) }
    ensures ordered { IfOk result (λ listing. IsOrdered listing.files) }
    ensures plain { OnOk result
        (IsTrue (D.state disk.old).honest → IsTrue (is_plain (D.state disk.old).nodes)) }
    ensures honest { IfOk result (λ listing. IsTrue (D.state disk.old).honest
        → IsListingOf (bag_of (D.state disk.old).nodes) listing) }
    ensures refused { IfErr result (MayRefuseWholeListing (D.state disk.old)) }
    ensures failures { IsCounted result (D.state disk.old) (D.state disk.new) }
{
    let found = walk(disk, alloc)?;
    listing_of(alloc, found)
}

/// Finds all that stands below the base folder.
fn walk<D: Disk>(disk: &mut D, alloc: Global) -> Result<FolderWalk, Refusal>
    ensures paths { IfOk result (λ walk. ArePaths walk.files.items) }
    ensures looks { OnlyLooks (D.state disk.old) (D.state disk.new) }
    ensures walked { IfOk result (λ walk. IsTrue (D.state disk.old).honest
        → Walked (D.state disk.old).nodes walk.files.items [] walk.listed.items []) }
    ensures refused { IfErr result (MayRefuseWalk (D.state disk.old)) }
    ensures failures { IsCounted result (D.state disk.old) (D.state disk.new) }
{
    let mut walk = FolderWalk::new(alloc)?;
    while let Some(folder) = walk.folders.pop() {
        match walk.list_folder(disk, folder) {
            Ok(()) => {}
            Err(Refusal::TooMany) => return Err(no_room(walk)),
            Err(refusal) => return Err(refusal),
        }
    }
    Ok(walk)
}

/// The listing of what was found: its files sorted, where no two have the same path.
fn listing_of(alloc: Global, walk: FolderWalk) -> Result<Listing, Refusal>
    requires { ArePaths walk.files.items }
    ensures ordered { IfOk result (λ listing. IsOrdered listing.files) }
    ensures files { IfOk result (λ listing. IsPermutation walk.files.items listing.files) }
    ensures refused { IfErr result (IsDueOnly Contradicts (IsUnlistable walk.files.items)) }
    ensures quiet { IsNoFailure result }
    ensures has_data { IfOk result (λ listing.
        IsTrue listing.has_data ↔ Any (λ folder. folder ≡ codes "data") walk.listed.items) }
{
    let FolderWalk { files, listed, .. } = walk;
    let has_data = has_data(listed.as_slice());
    let mut files = files;
    sort_by_path(alloc, &mut files)?;
    if !all_differ(files.as_slice()) {
        return Err(Refusal::Contradicts);
    }
    Ok(Listing {
        files: Items::from_vec(files),
        has_data,
    })
}

/// Whether one of the folders is the payload folder.
fn has_data(folders: &[Text]) -> bool
    ensures { IsTrue result ↔ Any (λ folder. folder ≡ codes "data") folders.now }
{
    folders.iter().any(|folder| folder.as_str() == "data")
}
