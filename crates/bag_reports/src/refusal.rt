//! Why reports aren't joined.
ghost use Rattle.std.specs.Prelude.{◌≡◌};

use crate::reports::Unreadable;
use bag_text::said::OUT_OF_MEMORY;
use bag_tree::said;
use std::alloc::AllocError;
use thiserror::Error;

/// Why a report isn't joined with others.
#[derive(Clone, Copy, Debug, PartialEq, Eq, Error)]
pub enum Cause {
    /// It isn't the report of a part of a check.
    #[error("not the report of a part")]
    NotAReport,
    /// It was cut off: its last line has no end.
    #[error("cut off")]
    CutOff,
    /// It stopped at a limit of faults.
    #[error("stopped at a limit")]
    Stopped,
    /// It begins after a fault of its part.
    #[error("begins after a fault")]
    Resumed,
    /// Its bag couldn't be read to its end.
    #[error("of a bag that was not read to its end")]
    BagUnread,
    /// It is of a bag of another name than the first report.
    #[error("of another bag")]
    OtherBag,
    /// It was cut of other files or bytes than the first report.
    #[error("of other files")]
    OtherFiles,
    /// It was checked with `--clashes` and the first report without, or the other way round, or
    /// against another profile.
    #[error("of other options")]
    OtherOptions,
    /// It is one of another number of parts than the first report.
    #[error("of another number of parts")]
    OtherNumber,
    /// An earlier report is of the same part.
    #[error("of a part that is given twice")]
    Twice,
    /// No report is of this part, which is counted from 0.
    #[error("missing")]
    Missing,
    /// A fault doesn't stand after the one before it.
    #[error("out of order")]
    OutOfOrder,
    /// Its closing line doesn't count the faults before it, or isn't its last.
    #[error("not as its closing line says")]
    OtherCount,
    /// It couldn't be read.
    #[error("can't be read")]
    Unreadable,
    /// It was whole, and isn't as it was: some faults were written, but no closing line.
    #[error("changed while it was read")]
    Changed,
    /// Memory ran out.
    #[error("{why}", why = OUT_OF_MEMORY)]
    Memory,
    /// The output refused.
    #[error("{why}", why = said::OUTPUT_REFUSED)]
    Output,
}

impl From<Unreadable> for Cause {
    ghost use Rattle.bag_reports.specs.declared.refusal.Cause.TheVariants.{Unreadable};

    ghost from_gives = { λ _ e. e ≡ Unreadable };

    fn from(_: Unreadable) -> Cause {
        Cause::Unreadable
    }
}

impl From<AllocError> for Cause {
    ghost use Rattle.bag_reports.specs.declared.refusal.Cause.TheVariants.{Memory};

    ghost from_gives = { λ _ e. e ≡ Memory };

    fn from(_: AllocError) -> Cause {
        Cause::Memory
    }
}

/// Which report isn't joined, and why.
#[derive(Clone, Copy, Debug, PartialEq, Eq)]
pub struct Refusal {
    /// Which report, or which part where it is missing, counted from 0.
    pub number: u64,
    pub cause: Cause,
}
