//! Which fault of a disk an error of the system is.
ghost use Rattle.std.specs.Prelude.{◌≡◌, IfOk, Ok};
ghost use Rattle.bag_disk.specs.declared.disk.DiskFault.TheVariants.{Memory, NotFound};

use crate::trouble::Trouble;
use bag_disk::DiskFault;
use bag_text::Text;
use std::alloc::{AllocError, Global};
use std::io;
use std::io::ErrorKind;

/// Why a call of the system was refused: the fault, and what the system answered, if it was asked
/// and there is memory to note it.
#[derive(Drop)]
pub(crate) struct SystemFault {
    pub(crate) fault: DiskFault,
    pub(crate) trouble: Option<Trouble>,
}

impl SystemFault {
    /// That the system answered this error at a location.
    pub(crate) fn at(alloc: Global, location: &str, error: io::Error) -> SystemFault {
        let fault = fault_of(&error);
        let trouble = match Text::from_str(alloc, location) {
            Ok(location) => Some(Trouble::new(location, error)),
            Err(AllocError) => None,
        };
        SystemFault { fault, trouble }
    }

    /// That nothing is there, as no name leads there. The system isn't asked.
    pub(crate) fn nowhere(alloc: Global) -> SystemFault
        ensures { result.fault ≡ NotFound }
    {
        let location = Text::empty(alloc);
        let error = io::Error::from(ErrorKind::NotFound);
        SystemFault {
            fault: DiskFault::NotFound,
            trouble: Some(Trouble::new(location, error)),
        }
    }
}

/// What a call of the system answered at a location, its error as a fault.
pub(crate) fn answer_at<T>(
    alloc: Global,
    location: &str,
    answer: io::Result<T>,
) -> Result<T, SystemFault>
    ensures { IfOk result (λ given. answer ≡ Ok given) }
{
    answer.map_err(|error| SystemFault::at(alloc, location, error))
}

impl From<DiskFault> for SystemFault {
    ghost from_gives = { λ fault refused. refused.fault ≡ fault };

    fn from(fault: DiskFault) -> Self {
        let trouble = None;
        SystemFault { fault, trouble }
    }
}

impl From<AllocError> for SystemFault {
    ghost from_gives = { λ _ refused. refused.fault ≡ Memory };

    fn from(_: AllocError) -> Self {
        SystemFault::from(DiskFault::Memory)
    }
}

/// Which error of the system is which fault.
fn fault_of(error: &io::Error) -> DiskFault {
    match error.kind() {
        ErrorKind::NotFound | ErrorKind::NotADirectory => DiskFault::NotFound,
        ErrorKind::AlreadyExists => DiskFault::Exists,
        ErrorKind::InvalidFilename => DiskFault::Name,
        ErrorKind::OutOfMemory => DiskFault::Memory,
        _ => DiskFault::Device,
    }
}
