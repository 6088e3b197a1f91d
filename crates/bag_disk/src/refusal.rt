//! Why the disk refused.
ghost use Rattle.std.specs.Prelude.{◌≡◌};
ghost use Rattle.bag_disk.specs.Refusal.{at_known, is_device, of_making, of_name, refusal_at_path};
ghost use Rattle.bag_disk.specs.declared.refusal.Refusal.TheVariants.{Memory};

use crate::DiskFault;
use bag_tree::said;
use std::alloc::{AllocError, AllocFailed};
use thiserror::Error;

/// Why the disk refused. Each is shown as the tree over it answers it.
#[derive(Clone, Copy, Debug, PartialEq, Eq, Error)]
pub enum Refusal {
    /// The system refused.
    #[error("{word}", word = said::DEVICE)]
    Device,
    /// What stands there is neither a folder nor a regular file.
    #[error("{word}", word = said::SPECIAL)]
    Special,
    /// A name isn't UTF-8.
    #[error("{word}", word = said::NAME)]
    Name,
    /// There is no such file.
    #[error("{word}", word = said::NOT_FOUND)]
    NotFound,
    /// There are more than 16,777,216 files and folders.
    #[error("{word}", word = said::TOO_MANY)]
    TooMany,
    /// Memory ran out.
    #[error("{word}", word = said::MEMORY)]
    Memory,
    /// What was to be made is there.
    #[error("{word}", word = said::EXISTS)]
    Exists,
    /// The disk's answers contradict one another: what it named twice can't be listed.
    #[error("{word}", word = said::DEVICE)]
    Contradicts,
    /// A folder in which no file was found stands where something is to be moved.
    #[error("{word}", word = said::DEVICE)]
    InTheWay,
}

/// What a call of a disk is about, which says what its faults mean.
#[derive(Clone, Copy)]
pub enum Subject {
    /// The path of one file.
    Path,
    /// What the disk's own answers named.
    Known,
    /// The next name of a folder.
    Name,
    /// What is to be made.
    Making,
}

impl Subject {
    ghost use Rattle.bag_disk.specs.Subject.{meaning};

    /// What a fault of the disk means in a call about this.
    pub fn refusal(self, fault: DiskFault) -> Refusal
        ensures { result ≡ meaning self fault }
    {
        match self {
            Subject::Path => Refusal::of_path(fault),
            Subject::Known => Refusal::at_known(fault),
            Subject::Name => Refusal::of_name(fault),
            Subject::Making => Refusal::of_making(fault),
        }
    }
}

impl From<AllocError> for Refusal {
    ghost from_gives = { λ _ r. r ≡ Memory };

    fn from(_: AllocError) -> Self {
        Refusal::Memory
    }
}

impl<T: Drop> From<AllocFailed<T>> for Refusal {
    ghost from_gives = { λ _ r. r ≡ Memory };

    fn from(_: AllocFailed<T>) -> Self {
        Refusal::Memory
    }
}

impl Refusal {
    /// What a fault of the disk means at the path of one file.
    pub fn of_path(fault: DiskFault) -> Refusal
        ensures { result ≡ refusal_at_path fault }
    {
        match fault {
            DiskFault::NotFound => Refusal::NotFound,
            other => Refusal::at_known(other),
        }
    }

    /// What a fault of the disk means where its own answers named what stands there.
    pub fn at_known(fault: DiskFault) -> Refusal
        ensures { result ≡ at_known fault }
    {
        match fault {
            DiskFault::NotFound | DiskFault::Exists | DiskFault::Name | DiskFault::Device => {
                Refusal::Device
            }
            DiskFault::Memory => Refusal::Memory,
        }
    }

    /// What a fault of the disk means in place of a name.
    pub fn of_name(fault: DiskFault) -> Refusal
        ensures { result ≡ of_name fault }
    {
        match fault {
            DiskFault::Name => Refusal::Name,
            other => Refusal::at_known(other),
        }
    }

    /// What a fault of the disk means where something is to be made.
    pub fn of_making(fault: DiskFault) -> Refusal
        ensures { result ≡ of_making fault }
    {
        match fault {
            DiskFault::Exists => Refusal::Exists,
            other => Refusal::at_known(other),
        }
    }

    /// Whether the device refused.
    pub fn is_device(self) -> bool
        ensures { result ≡ is_device self }
    {
        match self {
            Refusal::Device => true,
            Refusal::Special
            | Refusal::Name
            | Refusal::NotFound
            | Refusal::TooMany
            | Refusal::Memory
            | Refusal::Exists
            | Refusal::Contradicts
            | Refusal::InTheWay => false,
        }
    }
}
