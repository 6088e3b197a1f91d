//! Why a file isn't read.
ghost use Rattle.std.specs.Prelude.{◌≡◌, ◌≢◌, IfOk, IfErr, Ok, Err};
ghost use Rattle.std.specs.IoError.{error_kind};
ghost use Rattle.std.specs.declared.io.ErrorKind.TheVariants.{OutOfMemory};
ghost use Rattle.bag_program.specs.declared.read_fault.ReadFault.TheVariants.{Memory, Unread};

use crate::said::PROFILE_UNREAD;
use bag_text::said;
use std::io;
use std::io::ErrorKind;
use thiserror::Error;

/// Why a file isn't read.
#[derive(Clone, Copy, Debug, PartialEq, Eq, Error)]
pub enum ReadFault {
    /// There is no regular file, it can't be read, or it has too many bytes.
    #[error("{why}", why = PROFILE_UNREAD)]
    Unread,
    /// A growth was refused.
    #[error("{why}", why = said::OUT_OF_MEMORY)]
    Memory,
}

/// What a call of the system answered, its error as a fault: `Memory` where it is one of memory,
/// and else `Unread`.
pub(crate) fn answer_of<T>(answer: io::Result<T>) -> Result<T, ReadFault>
    ensures given { IfOk result (λ given. answer ≡ Ok given) }
    ensures answered { IfOk answer (λ given. result ≡ Ok given) }
    ensures memory { IfErr answer (λ error. error_kind error ≡ OutOfMemory → result ≡ Err Memory) }
    ensures unread { IfErr answer (λ error. error_kind error ≢ OutOfMemory → result ≡ Err Unread) }
{
    match answer {
        Ok(given) => Ok(given),
        Err(error) => Err(fault_of(&error)),
    }
}

/// Which fault an error of the system is.
fn fault_of(error: &io::Error) -> ReadFault
    ensures memory { error_kind error.now ≡ OutOfMemory → result ≡ Memory }
    ensures unread { error_kind error.now ≢ OutOfMemory → result ≡ Unread }
{
    if error.kind() == ErrorKind::OutOfMemory {
        ReadFault::Memory
    } else {
        ReadFault::Unread
    }
}
