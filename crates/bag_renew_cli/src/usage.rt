//! Why the words of a renewal's command line are refused.
ghost use Rattle.std.specs.Prelude.{◌≡◌};
ghost use Rattle.bag_renew_cli.specs.Plan.{usage_status};
ghost use Rattle.bag_renew_cli.specs.declared.usage.RenewUsage.TheVariants.{Memory};

use crate::{ElementOption, ListOption};
use bag_text::Text;
use std::alloc::{AllocError, AllocFailed};

/// Why the words of a renewal's command line are refused.
#[derive(Debug, Drop)]
pub enum RenewUsage {
    /// The program takes no such words. The text, of clap, says what is wrong with them and ends
    /// its lines itself.
    Refused(Text),
    /// A manifest is to be printed, and something is asked for besides.
    PrintWithOthers,
    /// A manifest is to be printed, of several bags.
    PrintSeveral,
    /// What is to be printed is the manifest of no algorithm.
    NotAnAlgorithm,
    /// The value of an option has no equals sign.
    NotAnElement(ElementOption),
    /// The value of an option isn't a list of algorithms, with commas between them.
    NotAlgorithms(ListOption),
    /// A growth was refused.
    Memory,
}

impl RenewUsage {
    /// The exit status: 3 when out of memory, and else 2.
    pub fn status(&self) -> u8
        ensures { result ≡ usage_status self.now }
    {
        match self {
            RenewUsage::Memory => 3,
            RenewUsage::Refused(_)
            | RenewUsage::PrintWithOthers
            | RenewUsage::PrintSeveral
            | RenewUsage::NotAnAlgorithm
            | RenewUsage::NotAnElement(_)
            | RenewUsage::NotAlgorithms(_) => 2,
        }
    }
}

impl From<AllocError> for RenewUsage {
    ghost from_gives = { λ _ usage. usage ≡ Memory };

    fn from(_: AllocError) -> RenewUsage {
        RenewUsage::Memory
    }
}

impl<T: Drop> From<AllocFailed<T>> for RenewUsage {
    ghost from_gives = { λ _ usage. usage ≡ Memory };

    fn from(_: AllocFailed<T>) -> RenewUsage {
        RenewUsage::Memory
    }
}
