//! Disks in memory for the program.
ghost use Rattle.std.specs.Prelude.{◌≡◌, [], ⊤, IfOk, length};
ghost use Rattle.bag_program.specs.SystemReports.{unread_reports};
ghost use Rattle.bag_program.specs.SystemTar.{refused_times};
ghost use Rattle.test_disk.specs.MemoryDisk.{state_of};
ghost use Rattle.test_world.specs.Refusing.{refusing};
ghost use Rattle.test_world.specs.Shelf.{disk_at, unclaimed};

use crate::case_reports::CaseReports;
use crate::case_tar::CaseTar;
use crate::{Call, RefusingDisk, World};
use bag_disk::DiskFault;
use bag_program::{Disks, ReadFault};
use bag_text::Text;
use std::alloc::{AllocError, Global};
use std::cell::Cell;
use std::collections::BTreeMap;
use std::rc::Rc;
use test_disk::MemoryDisk;

/// A copy of the disk of a folder; an empty one where there is none.
fn copy_of(
    alloc: Global,
    disks: &BTreeMap<String, MemoryDisk>,
    folder: &str,
) -> Result<MemoryDisk, AllocError>
    ensures { IfOk result (λ disk. state_of disk ≡ disk_at disks.now folder.now) }
{
    match disks.get(folder) {
        Some(disk) => disk.fresh_copy(alloc),
        None => Ok(MemoryDisk::empty(alloc)),
    }
}

/// The path and the bytes of the file below a folder that holds something else when it is opened;
/// no file has the empty path.
fn opened_below<'a>(world: &'a World, folder: &str) -> (&'a str, &'a [u8]) {
    let Some((path, bytes)) = &world.opened else {
        return ("", &[]);
    };
    match path.as_str().split_once('/') {
        Some((name, path)) if name == folder => (path, bytes.as_slice()),
        _ => ("", &[]),
    }
}

/// The disks of the folders of a case, and the files beside them.
impl Disks for World {
    type Disk = MemoryDisk;

    type Archive = CaseTar;

    type Reports = CaseReports;

    ghost below = { λ world. unclaimed world.disks };

    ghost archived = { λ _ _. refused_times 0 [] };

    ghost reported = { λ _ paths. unread_reports (length paths) };

    ghost file = { λ _ _ _. ⊤ };

    fn disk(&self, alloc: Global, base: &str) -> Result<MemoryDisk, AllocError> {
        let (path, bytes) = opened_below(self, base);
        let path = Text::from_str(alloc, path)?;
        let bytes = bytes.to_vec(alloc)?;
        let mut disk = copy_of(alloc, &self.disks, base)?;
        disk.swap(path, bytes);
        if !self.disks.contains_key(base) {
            // a folder that isn't there can't be looked into
            disk.bar(Text::empty(alloc))?;
        }
        Ok(disk)
    }

    fn archive(&self, alloc: Global, path: &str) -> Result<CaseTar, AllocError> {
        CaseTar::of(alloc, self.file(path))
    }

    fn reports(&self, alloc: Global, paths: &[Text]) -> Result<CaseReports, AllocError> {
        CaseReports::of(alloc, self, paths)
    }

    fn read_file(&self, alloc: Global, path: &str, most: u32) -> Result<Vec<u8>, ReadFault> {
        match self.file(path) {
            Some(bytes) if bytes.len() as u64 <= u64::from(most) => match bytes.to_vec(alloc) {
                Ok(copy) => Ok(copy),
                Err(_) => Err(ReadFault::Memory),
            },
            Some(_) | None => Err(ReadFault::Unread),
        }
    }
}

/// Disks of each of which the call of a number is refused, from 0, or none, and then their calls
/// are counted.
#[derive(Drop)]
pub struct Refusing<'a, D> {
    disks: &'a D,
    call: Option<u64>,
    fault: DiskFault,
    calls: &'a Rc<Cell<u64>>,
}

impl<'a> Refusing<'a, World> {
    /// The disks of a case, of each of which the call of a number is refused by a fault, from 0, or
    /// none: then the case counts their calls.
    pub fn at(world: &'a World, refused: Option<(u64, DiskFault)>) -> Refusing<'a, World> {
        let (call, fault) = match refused {
            Some((call, fault)) => (Some(call), fault),
            None => (None, DiskFault::Device),
        };
        let calls = &world.calls;
        calls.set(0);
        Refusing {
            disks: world,
            call,
            fault,
            calls,
        }
    }
}

impl<'a, D: Disks> Disks for Refusing<'a, D> {
    type Disk = RefusingDisk<D::Disk>;

    type Archive = D::Archive;

    type Reports = D::Reports;

    ghost below = { λ these base. refusing (D.below these.disks.now base) these.fault 0 };

    ghost archived = { λ these. D.archived these.disks.now };

    ghost reported = { λ these. D.reported these.disks.now };

    ghost file = { λ these. D.file these.disks.now };

    fn disk(&self, alloc: Global, base: &str) -> Result<RefusingDisk<D::Disk>, AllocError> {
        let disk = self.disks.disk(alloc, base)?;
        let call = match self.call {
            Some(number) => Call::Numbered(number),
            None => Call::Counted(self.calls.clone()?),
        };
        Ok(RefusingDisk::over(disk, call, self.fault))
    }

    fn archive(&self, alloc: Global, path: &str) -> Result<D::Archive, AllocError> {
        self.disks.archive(alloc, path)
    }

    fn reports(&self, alloc: Global, paths: &[Text]) -> Result<D::Reports, AllocError> {
        self.disks.reports(alloc, paths)
    }

    fn read_file(&self, alloc: Global, path: &str, most: u32) -> Result<Vec<u8>, ReadFault> {
        self.disks.read_file(alloc, path, most)
    }
}
