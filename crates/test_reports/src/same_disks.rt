//! Honest disks with files, and the program over them.
ghost use Rattle.std.specs.Prelude.{◌≡◌, List, [], None, ℕ};
ghost use Rattle.bag_cli.specs.Reported.{IsCheckOfOne, GivesReport};
ghost use Rattle.bag_program.specs.SystemReports.{unread_reports};
ghost use Rattle.bag_store.specs.DiskBag.{bag_of};
ghost use Rattle.bag_archive.specs.MemoryArchive.{state_of_bytes};
ghost use Rattle.test_disk.specs.MemoryDisk.{fresh, state_of};

use bag_cli::laws::honest_disks_are_reported;
use bag_cli::{Disks, Folders, Plan, ReadFault, perform};
use bag_reports::HeldReports;
use bag_tar::MemoryArchive;
use bag_text::Text;
use bag_tree::Out;
use std::alloc::{AllocError, Global};
use test_disk::MemoryDisk;

/// Disks that hold the same below each base folder, and no file beside them. Below `no memory`
/// there is none, when out of memory, and so there are no reports.
#[derive(Drop)]
pub(crate) struct SameDisks<'a> {
    pub(crate) held: &'a MemoryDisk,
}

impl<'a> Disks for SameDisks<'a> {
    type Disk = MemoryDisk;

    type Archive = MemoryArchive;

    type Reports = HeldReports;

    ghost below = { λ disks _. fresh (state_of disks.held.now).nodes };

    ghost archived = { λ _ _. state_of_bytes [] };

    ghost reported = { λ _ _. unread_reports 0 };

    ghost file = { λ _ _ bytes. bytes ≡ None };

    fn disk(&self, alloc: Global, base: &str) -> Result<MemoryDisk, AllocError> {
        if base == "no memory" {
            return Err(AllocError);
        }
        self.held.fresh_copy(alloc)
    }

    fn archive(&self, alloc: Global, _path: &str) -> Result<MemoryArchive, AllocError> {
        MemoryArchive::of(alloc, &[])
    }

    fn reports(&self, _alloc: Global, _paths: &[Text]) -> Result<HeldReports, AllocError> {
        Err(AllocError)
    }

    fn read_file(&self, _alloc: Global, _path: &str, _most: u32) -> Result<Vec<u8>, ReadFault> {
        Err(ReadFault::Unread)
    }
}

/// Checks what a disk holds as the program does, and gives the status.
///
/// Unless the status is 3, for a plan that checks one directory without a profile the output took
/// the report of the bag that stands on the disk.
pub fn checked<O: Out, E: Out>(
    alloc: Global,
    held: &MemoryDisk,
    plan: &Plan,
    out: &mut O,
    err: &mut E,
) -> u8
    ensures { (name : List ℕ) → IsCheckOfOne plan.now name
        → GivesReport plan.now None (bag_of (state_of held.now).nodes) name (O.state out.old)
        (O.state out.new) result }
{
    honest_disks_are_reported();
    let disks = SameDisks { held };
    let (folders, mut visits) = Folders::of(&disks);
    perform(alloc, &folders, plan, &mut visits, out, err)
}
