//! Why the words of a command line are refused.
ghost use Rattle.std.specs.Prelude.{◌≡◌};
ghost use Rattle.bag_arguments.specs.Plan.{usage_status};
ghost use Rattle.bag_arguments.specs.declared.usage.Usage.TheVariants.{Memory};

use crate::{CheckOption, said};
use bag_text::Text;
use bag_text::said::OUT_OF_MEMORY;
use std::alloc::{AllocError, AllocFailed};
use thiserror::Error;

/// Why the words of a command line are refused.
#[derive(Debug, Drop, Error)]
pub enum Usage {
    /// The program takes no such words. The text, of clap, says what is wrong with them and ends
    /// its lines itself.
    #[error("{0}")]
    Refused(Text),
    /// An option is given that needs `--validate`: the first, in the order of `CheckOption`.
    #[error("{program}{0}{why}", program = said::PROGRAM, why = said::NEEDS_VALIDATE)]
    NeedsValidate(CheckOption),
    /// Reports are to be joined, and another option of a check is given, or that it is to be quiet.
    #[error("{program}{why}", program = said::PROGRAM, why = said::JOIN_WITH_OTHER)]
    JoinWithOther,
    /// More than one depth is given.
    #[error("{program}{why}", program = said::PROGRAM, why = said::TWO_DEPTHS)]
    TwoDepths,
    /// A cursor is given for several folders.
    #[error("{program}{why}", program = said::PROGRAM, why = said::AFTER_SEVERAL)]
    AfterSeveral,
    /// The cursor is the line of no fault.
    #[error("{program}{why}", program = said::PROGRAM, why = said::AFTER_NOT_A_LINE)]
    AfterNotALine,
    /// A part is asked for, and a depth that compares no digests.
    #[error("{program}{why}", program = said::PROGRAM, why = said::PART_OF_DEPTH)]
    PartOfDepth,
    /// What is given as a part isn't one: digits, a slash and digits, the first number from 1 to
    /// the second, and this one at most 65,536.
    #[error("{program}{why}", program = said::PROGRAM, why = said::NOT_A_PART)]
    NotAPart,
    /// A growth was refused.
    #[error("{program}{why}", program = said::PROGRAM, why = OUT_OF_MEMORY)]
    Memory,
}

impl Usage {
    /// The exit status: 3 when out of memory, and else 2.
    pub fn status(&self) -> u8
        ensures { result ≡ usage_status self.now }
    {
        match self {
            Usage::Memory => 3,
            Usage::Refused(_)
            | Usage::NeedsValidate(_)
            | Usage::JoinWithOther
            | Usage::TwoDepths
            | Usage::AfterSeveral
            | Usage::AfterNotALine
            | Usage::PartOfDepth
            | Usage::NotAPart => 2,
        }
    }
}

impl From<AllocError> for Usage {
    ghost from_gives = { λ _ usage. usage ≡ Memory };

    fn from(_: AllocError) -> Usage {
        Usage::Memory
    }
}

impl<T: Drop> From<AllocFailed<T>> for Usage {
    ghost from_gives = { λ _ usage. usage ≡ Memory };

    fn from(_: AllocFailed<T>) -> Usage {
        Usage::Memory
    }
}
