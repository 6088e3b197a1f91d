//! The calls of a disk, below a base folder.
ghost use Rattle.std.specs.Prelude.{◌≡◌, ◌<◌, ◌≤◌, ◌++◌, ◌∷◌, [], IfOk, OnOk, OnErr, IsErrOf};
ghost use Rattle.std.specs.Prelude.{IsTrue, MatchOption, None, length, is_some, ⊤};
ghost use Rattle.bag_text.specs.Path.{is_path};
ghost use Rattle.bag_disk.specs.Disk.{DiskState};
ghost use Rattle.bag_disk.specs.DiskNodes.{SameDisk, OnlyLooks, IsDisk, HasEntryAt, HasNothingAt};
ghost use Rattle.bag_disk.specs.DiskNodes.{HasEntered, TakesName, HasUnnamed, HasOpened};
ghost use Rattle.bag_disk.specs.DiskNodes.{HasReadNext};
ghost use Rattle.bag_disk.specs.Refusal.{CountsAs, at_known, of_name, refusal_at_path};
ghost use Rattle.bag_disk.specs.declared.disk.DiskFault.TheVariants.{Memory, Name, NotFound};

use bag_text::Text;
use bag_tree::said;
use std::alloc::{AllocError, AllocFailed};
use thiserror::Error;

/// What stands at a path.
#[derive(Clone, Copy, Debug, PartialEq, Eq)]
pub enum Entry {
    /// A regular file with its size in bytes.
    File(u64),
    Folder,
    /// A link, a socket, a pipe or a device.
    Other,
}

/// Why a call of a disk is refused.
#[derive(Clone, Copy, Debug, PartialEq, Eq, Error)]
pub enum DiskFault {
    /// Nothing stands there.
    #[error("{word}", word = said::NOT_FOUND)]
    NotFound,
    /// Something stands there already.
    #[error("{word}", word = said::EXISTS)]
    Exists,
    /// A name isn't UTF-8, or the system doesn't take it.
    #[error("{word}", word = said::NAME)]
    Name,
    /// Memory ran out.
    #[error("{word}", word = said::MEMORY)]
    Memory,
    /// The system refused.
    #[error("{word}", word = said::DEVICE)]
    Device,
}

impl From<AllocError> for DiskFault {
    ghost from_gives = { λ _ fault. fault ≡ Memory };

    fn from(_: AllocError) -> Self {
        DiskFault::Memory
    }
}

impl<T: Drop> From<AllocFailed<T>> for DiskFault {
    ghost from_gives = { λ _ fault. fault ≡ Memory };

    fn from(_: AllocFailed<T>) -> Self {
        DiskFault::Memory
    }
}

/// The calls of a disk, below a base folder. A path leads from the base folder.
///
/// What an honest disk answers is what stands below its base folder, which nothing but the disk's
/// own calls alters. Of a path that leads through a link nothing is said. A disk counts how often
/// its device has refused: each call says which of its faults are counted, one each, and nothing
/// else is.
pub trait Disk {
    /// What the disk means: what stands at each path, whether it is honest, which files were
    /// opened, the rest of the open file, the names that are left of the folder that was entered,
    /// how often the device has refused, and what it did, where it notes that.
    ghost state: { Self → DiskState };

    /// What stands at a path. A link at its end isn't followed. That nothing stands there isn't
    /// counted.
    fn entry_at(&mut self, path: &str) -> Result<Entry, DiskFault>
        requires { IsTrue (is_path path.now) }
        ensures looks { OnlyLooks (state self.old) (state self.new) }
        ensures names { (state self.new).names ≡ (state self.old).names }
        ensures found { IfOk result (HasEntryAt (state self.old) path.now) }
        ensures absent { IsErrOf result NotFound → HasNothingAt (state self.old) path.now }
        ensures failures { CountsAs refusal_at_path result (state self.old) (state self.new) };

    /// What stands at the path of what was named last, where a link isn't followed. All faults but
    /// `Memory` are counted, since something stands there.
    fn named_entry(&mut self, path: &str) -> Result<Entry, DiskFault>
        requires { IsTrue (is_path path.now) }
        ensures looks { OnlyLooks (state self.old) (state self.new) }
        ensures names { (state self.new).names ≡ (state self.old).names }
        ensures found { IfOk result (HasEntryAt (state self.old) path.now) }
        ensures failures { CountsAs at_known result (state self.old) (state self.new) };

    /// Enters a folder in place of the one that was entered, so that its names come next. The empty
    /// path is the base folder. All faults but `Memory` are counted.
    fn enter(&mut self, folder: &str) -> Result<(), DiskFault>
        ensures looks { OnlyLooks (state self.old) (state self.new) }
        ensures honest { OnOk result (HasEntered (state self.old) (state self.new) folder.now) }
        ensures failures { CountsAs at_known result (state self.old) (state self.new) };

    /// The next name of the folder that was entered; none at its end. `Name` says that it isn't
    /// UTF-8. All faults but that one and `Memory` are counted. What isn't a path is never given.
    fn next_name(&mut self) -> Result<Option<Text>, DiskFault>
        ensures looks { OnlyLooks (state self.old) (state self.new) }
        ensures unnamed { IsErrOf result Name → IsTrue (state self.old).honest
            → HasUnnamed (state self.old).names }
        ensures honest { IfOk result (TakesName (state self.old) (state self.new)) }
        ensures path { IfOk result (λ next. MatchOption next ⊤ (λ name. IsTrue (is_path name))) }
        ensures failures { CountsAs of_name result (state self.old) (state self.new) };

    /// Opens the file at a path in place of the one that was open. After a refusal nothing is open.
    /// That nothing stands there isn't counted.
    fn open(&mut self, path: &str) -> Result<(), DiskFault>
        requires { IsTrue (is_path path.now) }
        ensures same { SameDisk (state self.old) (state self.new) }
        ensures opened { OnOk result
            ((state self.new).openings ≡ (state self.old).openings ++ path.now ∷ []) }
        ensures file_open { OnOk result (IsTrue (is_some (state self.new).rest)) }
        ensures honest { OnOk result (HasOpened (state self.old) (state self.new) path.now) }
        ensures absent { IsErrOf result NotFound → HasNothingAt (state self.old) path.now }
        ensures closed { OnErr result ((state self.new).rest ≡ None) }
        ensures not_opened { OnErr result ((state self.new).openings ≡ (state self.old).openings) }
        ensures failures { CountsAs refusal_at_path result (state self.old) (state self.new) };

    /// Whether a file is open.
    fn is_open(&self) -> bool
        ensures { result ≡ is_some (state self.now).rest };

    /// Closes the open file.
    fn close(&mut self)
        ensures same { SameDisk (state self.old) (state self.new) }
        ensures openings { (state self.new).openings ≡ (state self.old).openings }
        ensures closed { (state self.new).rest ≡ None }
        ensures failures { (state self.new).failures ≡ (state self.old).failures };

    /// Reads the next bytes of the open file; none at its end. A refusal leaves the rest of the
    /// file. All faults but `Memory` are counted.
    fn read(&mut self, buffer: &mut [u8]) -> Result<usize, DiskFault>
        requires some { 0 < length buffer.old }
        requires file_open { IsTrue (is_some (state self.old).rest) }
        ensures same { SameDisk (state self.old) (state self.new) }
        ensures openings { (state self.new).openings ≡ (state self.old).openings }
        ensures file_open { OnOk result (IsTrue (is_some (state self.new).rest)) }
        ensures within { IfOk result (λ n. n ≤ length buffer.old) }
        ensures honest { IfOk result (HasReadNext (state self.old) (state self.new) buffer.new) }
        ensures unread { OnErr result ((state self.new).rest ≡ (state self.old).rest) }
        ensures failures { CountsAs at_known result (state self.old) (state self.new) };

    /// What stands on a disk stands at paths, each in folders that are there.
    ghost is_disk: { (disk : Self) → IsDisk (state disk).nodes };
}
