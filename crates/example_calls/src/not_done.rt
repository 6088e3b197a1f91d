//! Why an example ends early.
use bag_report::{CursorFault, ProfileFault};
use bag_store::{Refused, Stop};
use std::alloc::AllocError;
use thiserror::Error;

/// Why a check wasn't made, or ended early.
#[derive(Debug, Drop, Error)]
pub enum NotDone {
    /// The bytes aren't a profile.
    #[error("profile: {0}")]
    Profile(ProfileFault),
    /// The line is that of no fault.
    #[error("{0}")]
    Cursor(CursorFault),
    /// The folder couldn't be listed, a tag file couldn't be read, or too many files were passed
    /// over.
    #[error("unread")]
    Unread(Stop),
    /// The output refused.
    #[error("output refused")]
    Unwritten,
    /// Memory ran out.
    #[error("out of memory")]
    Memory,
}

impl From<AllocError> for NotDone {
    fn from(_error: AllocError) -> NotDone {
        NotDone::Memory
    }
}

impl From<ProfileFault> for NotDone {
    fn from(fault: ProfileFault) -> NotDone {
        NotDone::Profile(fault)
    }
}

impl From<CursorFault> for NotDone {
    fn from(fault: CursorFault) -> NotDone {
        NotDone::Cursor(fault)
    }
}

impl From<Refused> for NotDone {
    fn from(_refused: Refused) -> NotDone {
        NotDone::Unwritten
    }
}
