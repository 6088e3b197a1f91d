//! Why a tag file isn't written.
use crate::said;
use bag_text::said::OUT_OF_MEMORY;
use std::alloc::AllocError;
use thiserror::Error;

/// Why a tag file isn't written.
#[derive(Clone, Copy, Debug, PartialEq, Eq, Error)]
pub enum WriteFault {
    /// Memory ran out.
    #[error("{why}", why = OUT_OF_MEMORY)]
    Memory,
    /// A value that would not be read again as it is given.
    #[error("{why}", why = said::BAD_VALUE)]
    BadValue,
}

impl From<AllocError> for WriteFault {
    ghost use Rattle.std.specs.Prelude.{◌≡◌};
    ghost use Rattle.bag_tags.specs.declared.fault.WriteFault.TheVariants.{Memory};

    ghost from_gives = { λ _ fault. fault ≡ Memory };

    fn from(_error: AllocError) -> WriteFault {
        WriteFault::Memory
    }
}
