//! A part of a check, which a process of its own can write.
ghost use Rattle.std.specs.Prelude.{◌≡◌, ◌<◌, ◌≤◌};
ghost use Rattle.bag_faults.specs.Part as spec;

use std::marker::Model;

/// How many parts a check has at most.
const MOST_PARTS: u64 = 65_536;

/// A part of a check: which one, counted from 0, and of how many, 65,536 at most.
#[derive(Clone, Copy, Debug)]
pub struct Part {
    number: u64,
    of: u64,
}

impl Model for Part {
    ghost use Rattle.std.specs.Prelude.{refl};
    ghost use Rattle.bag_faults.specs.Part as spec;

    ghost Value = { spec.Part };

    ghost view = { λ part. record { number = part.number; of = part.of } };

    ghost invariant = { λ part. spec.IsPart record { number = part.number; of = part.of } };

    ghost inverse = { λ part. record { number = part.number; of = part.of } };

    ghost inverse_ok = { λ part. λ valid. refl };
}

impl Part {
    /// The part with this number, counted from 0, where there are so many parts: of none, of more
    /// than 65,536 and from the last one on there is none.
    pub fn new(number: u64, of: u64) -> Option<Part>
        ensures { result ≡ spec.part_at number of }
    {
        if number < of && of <= MOST_PARTS {
            Some(Part { number, of })
        } else {
            None
        }
    }

    /// Which part it is, counted from 0.
    pub fn number(self) -> u64
        ensures number { result ≡ self.number }
        ensures below { result < self.of }
    {
        self.number
    }

    /// How many parts there are.
    pub fn of(self) -> u64
        ensures of { result ≡ self.of }
        ensures most { result ≤ 65536 }
    {
        self.of
    }
}
