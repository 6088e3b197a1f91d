//! Why no bag is made.
ghost use Rattle.std.specs.Prelude.{◌≡◌};
ghost use Rattle.bag_make.specs.declared.fault.MakeFault.TheVariants as why;

use crate::said;
use bag_tags::said::{BAD_VALUE, NO_ALGORITHM};
use bag_text::said::OUT_OF_MEMORY;
use bag_tree::{RefusedChange, Stop, TreeFault};
use std::alloc::AllocError;
use thiserror::Error;

/// Why no bag is made. Each refusal but `StepRefused` leaves the tree's bag as it was.
#[derive(Debug, Drop, Error)]
pub enum MakeFault {
    /// No algorithm is given.
    #[error("{why}", why = NO_ALGORITHM)]
    NoAlgorithm,
    /// A file stands where the files are held while they are moved.
    #[error("{why}", why = said::IN_THE_WAY)]
    InTheWay,
    /// An element that can't be written, or that is computed.
    #[error("{why}", why = BAD_VALUE)]
    BadValue,
    /// The tree refused to list its files, or to read one. The cause isn't out of memory.
    #[error("{read} {0}", read = said::READ)]
    ReadStopped(Stop),
    /// Memory ran out.
    #[error("{why}", why = OUT_OF_MEMORY)]
    Memory,
    /// The tree refused a step, which is given by its place from 1. All before it were taken.
    #[error("{step}{0} {1}", step = said::STEP)]
    StepRefused(u64, TreeFault),
}

impl From<AllocError> for MakeFault {
    ghost from_gives = { λ _ fault. fault ≡ why.Memory };

    fn from(_: AllocError) -> MakeFault {
        MakeFault::Memory
    }
}

impl From<RefusedChange> for MakeFault {
    ghost from_gives = { λ refusal fault. fault ≡ why.StepRefused refusal.place refusal.cause };

    fn from(refusal: RefusedChange) -> MakeFault {
        MakeFault::StepRefused(refusal.place, refusal.cause)
    }
}
