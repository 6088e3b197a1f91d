//! What a run is asked for, and how it ends.
ghost use Rattle.std.specs.Prelude.{◌≡◌};
ghost use Rattle.bag_walk.specs.Closing as spec;
ghost use Rattle.bag_walk.specs.ExitStatus as exit_status;

use bag_faults::{Fault, Options};
use bag_text::Text;
use bag_tree::Stop;

/// What a run is asked for.
#[derive(Debug, Drop)]
pub struct Request {
    pub options: Options,
    /// The cursor: only greater faults are written. It needn't be a fault of the bag.
    pub after: Option<Fault>,
    /// How many faults are written at the most; `None` stands for 18,446,744,073,709,551,615.
    pub limit: Option<u64>,
    /// Whether the closing line of a bag without faults is left out.
    pub quiet: bool,
    /// What the closing line calls the bag.
    pub name: Text,
}

/// How a run ended, with the number of fault lines that it wrote.
#[derive(Debug, Drop)]
pub enum Outcome {
    /// There was no cursor, the end of the report was reached, and the bag has no fault that was
    /// asked for.
    Clean,
    /// There was no cursor, and the end of the report was reached.
    Faults(u64),
    /// The limit was reached, and nothing further was looked at.
    Stopped(u64),
    /// The end of the report was reached after a cursor.
    Rest(u64),
    /// The tree or memory refused.
    Unread(u64, Stop),
    /// The output refused: it took this number of whole fault lines, and then a proper prefix of
    /// the next line.
    Unwritten(u64),
}

impl Outcome {
    /// How many fault lines were written.
    pub fn count(&self) -> u64
        ensures { result ≡ spec.count_of self.now }
    {
        match self {
            Outcome::Clean => 0,
            Outcome::Faults(count)
            | Outcome::Stopped(count)
            | Outcome::Rest(count)
            | Outcome::Unread(count, _)
            | Outcome::Unwritten(count) => *count,
        }
    }
}

/// The exit status of a run: 0 for `Clean` alone, 3 where something was refused, and else 1.
pub fn status(outcome: &Outcome) -> u8
    ensures { result ≡ exit_status.status outcome.now }
{
    match outcome {
        Outcome::Clean => 0,
        Outcome::Faults(_) | Outcome::Stopped(_) | Outcome::Rest(_) => 1,
        Outcome::Unread(_, _) | Outcome::Unwritten(_) => 3,
    }
}
