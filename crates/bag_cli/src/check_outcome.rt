//! How a check of a bag, or of a part of it, ended.
ghost use Rattle.std.specs.Prelude.{◌≡◌};
ghost use Rattle.bag_cli.specs.Status.{check_status};

use bag_walk::{Outcome, PartOutcome, status};

/// How a check of a bag, or of a part of it, ended.
#[derive(Debug, Drop)]
pub(crate) enum CheckOutcome {
    OfBag(Outcome),
    OfPart(PartOutcome),
}

impl CheckOutcome {
    /// The exit status, where the output took the whole report.
    pub(crate) fn status(&self) -> Option<u8>
        ensures { result ≡ check_status self.now }
    {
        match self {
            CheckOutcome::OfBag(Outcome::Unwritten(_))
            | CheckOutcome::OfPart(PartOutcome::Unwritten(_)) => None,
            CheckOutcome::OfBag(outcome) => Some(status(outcome)),
            CheckOutcome::OfPart(outcome) => Some(outcome.status()),
        }
    }
}
