//! What gives the disks that the program looks at.
ghost use Rattle.std.specs.Prelude.{ℕ, ◌≡◌, ◌≤◌, ⊤, false, List, [], vec_len};
ghost use Rattle.std.specs.Prelude.{Option, Some, IfOk, IsErrOf, length};
ghost use Rattle.bag_disk.specs.Disk.{DiskState};
ghost use Rattle.bag_system.specs.SystemDisk.{base_of, system_state};
ghost use Rattle.bag_reports.specs.Reports.{ReportsState};
ghost use Rattle.bag_archive.specs.Archive.{ArchiveState};
ghost use Rattle.bag_program.specs.SystemFile.{MayBeUnread};
ghost use Rattle.bag_program.specs.SystemReports.{unread_reports};
ghost use Rattle.bag_program.specs.SystemTar.{refused_times};
ghost use Rattle.bag_program.specs.declared.read_fault.ReadFault.TheVariants.{Unread};

use crate::read_fault::ReadFault;
use crate::system_file::{open_file, read_within};
use crate::{FileTrouble, SystemReports, SystemTar};
use bag_disk::ReplaceDisk;
use bag_reports::Reports;
use bag_system::{SystemDisk, Trouble};
use bag_tar::Archive;
use bag_text::Text;
use std::alloc::{AllocError, Global};
use std::os::fd::AsFd;
use std::rt::Files;

/// What gives a disk for each base folder, tar files, reports, and the bytes of files.
pub trait Disks {
    /// What it gives.
    type Disk: ReplaceDisk + Drop;

    /// What it gives for a tar file.
    type Archive: Archive + Drop;

    /// What it gives for reports.
    type Reports: Reports + Drop;

    /// What stands on the disk below each base folder.
    ghost below: { Self → List ℕ → DiskState };

    /// That a disk is the one below a base folder: of disks that are only made up nothing is said.
    ghost is_below: { Self.Disk → List ℕ → Type 0 } = { λ _ _. ⊤ };

    /// What the tar file at each path is.
    ghost archived: { Self → List ℕ → ArchiveState };

    /// What the reports at each list of paths are.
    ghost reported: { Self → List (List ℕ) → ReportsState };

    /// That the file at a path has these bytes, or none where there is no file that can be read.
    ghost file: { Self → List ℕ → Option (List ℕ) → Type 0 };

    /// The disk below a base folder, at which it doesn't look yet.
    fn disk(&self, alloc: Global, base: &str) -> Result<Self::Disk, AllocError>
        ensures state { IfOk result (λ disk. Self.Disk.state disk ≡ below self.now base.now) }
        ensures base { IfOk result (λ disk. is_below disk base.now) };

    /// Why the system refused last in a disk, for people to read, as far as that is known: no
    /// contract speaks of it.
    fn trouble<'d>(&self, _disk: &'d Self::Disk) -> Option<&'d Trouble> {
        None
    }

    /// The tar file at a path, which is one of the system's, and leads from no base folder. Where
    /// there is none, that is seen when it is read.
    fn archive(&self, alloc: Global, path: &str) -> Result<Self::Archive, AllocError>
        ensures state { IfOk result (λ archive.
            Self.Archive.state archive ≡ archived self.now path.now) };

    /// Why a tar file can't be read, for people to read, as far as that is known: no contract
    /// speaks of it.
    fn tar_trouble<'a>(&self, _archive: &'a Self::Archive) -> Option<&'a FileTrouble> {
        None
    }

    /// The reports at these paths, of which none is open. Each path is one of the system's, and
    /// leads from no base folder. Where there is no report, that is seen when it is opened.
    fn reports(&self, alloc: Global, paths: &[Text]) -> Result<Self::Reports, AllocError>
        ensures state { IfOk result (λ reports.
            Self.Reports.state reports ≡ reported self.now paths.now) };

    /// Why a report couldn't be read, for people to read, as far as that is known: no contract
    /// speaks of it.
    fn report_trouble<'r>(&self, _reports: &'r Self::Reports) -> Option<&'r FileTrouble> {
        None
    }

    /// The bytes of the file at a path, all of them. A file of more than `most` bytes can't be
    /// read.
    ///
    /// The path is one of the system's, and leads from no base folder.
    fn read_file(&self, alloc: Global, path: &str, most: u32) -> Result<Vec<u8>, ReadFault>
        ensures whole { IfOk result (λ bytes. file self.now path.now (Some bytes.items)) }
        ensures within { IfOk result (λ bytes. vec_len bytes ≤ most) }
        ensures unread { IsErrOf result Unread → MayBeUnread (file self.now path.now) most };
}

/// The disks that a runtime of the system reaches, of which nothing is promised.
impl<R: Files + AllocGlobal + Clone + Drop> Disks for R
where
    R::File: AsFd,
{
    type Disk = SystemDisk<R>;

    type Archive = SystemTar<R>;

    type Reports = SystemReports<R>;

    ghost below = { λ _ _. system_state [] false 0 };

    ghost is_below = { λ disk base. base_of disk ≡ base };

    ghost archived = { λ _ _. refused_times 0 [] };

    ghost reported = { λ _ paths. unread_reports (length paths) };

    ghost file = { λ _ _ _. ⊤ };

    fn disk(&self, alloc: Global, base: &str) -> Result<SystemDisk<R>, AllocError> {
        SystemDisk::new(self.clone()?, alloc, base)
    }

    fn trouble<'d>(&self, disk: &'d SystemDisk<R>) -> Option<&'d Trouble> {
        disk.trouble()
    }

    fn archive(&self, alloc: Global, path: &str) -> Result<SystemTar<R>, AllocError> {
        SystemTar::open(alloc, self, path)
    }

    fn tar_trouble<'a>(&self, archive: &'a SystemTar<R>) -> Option<&'a FileTrouble> {
        archive.trouble()
    }

    fn reports(&self, alloc: Global, paths: &[Text]) -> Result<SystemReports<R>, AllocError> {
        SystemReports::at(alloc, self.clone()?, paths)
    }

    fn report_trouble<'r>(&self, reports: &'r SystemReports<R>) -> Option<&'r FileTrouble> {
        reports.trouble()
    }

    fn read_file(&self, alloc: Global, path: &str, most: u32) -> Result<Vec<u8>, ReadFault> {
        read_within(alloc, open_file(self, path)?, most)
    }
}
