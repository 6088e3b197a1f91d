//! Faults that are at hand.
ghost use Rattle.std.specs.Prelude.{◌≡◌, ⊤, []};
ghost use Rattle.std.specs.List.Sorted.{IsStrictlySortedBy};
ghost use Rattle.bag_faults.specs.FaultOrder.{fault_cmp};
ghost use Rattle.bag_sources.specs.Filling.{first_of};

use crate::queue::Queue;
use crate::{InOrder, Quiet, Source};
use bag_faults::Fault;
use bag_tree::{Stop, Tree};

/// Ascending faults.
#[derive(Debug, Drop)]
pub struct Fixed {
    faults: Queue<Fault>,
}

impl Fixed {
    /// These faults. Takes no memory.
    pub fn new(faults: Vec<Fault>) -> Fixed
        requires { IsStrictlySortedBy fault_cmp faults.items }
        ensures { result ≡ record { faults = faults.items } }
    {
        Fixed::of(faults)
    }

    /// The same of faults of which it isn't known yet that they ascend.
    pub(crate) fn of(faults: Vec<Fault>) -> Fixed
        ensures { result ≡ record { faults = faults.items } }
    {
        Fixed {
            faults: Queue::new(faults),
        }
    }
}

impl<T: Tree> Source<T> for Fixed {
    ghost is_of = { λ bag s. IsStrictlySortedBy fault_cmp s.faults };

    ghost remaining = { λ bag s. s.faults };

    ghost todo = { λ s. [] };

    ghost found = { λ s. first_of s.faults };

    ghost in_order = { ⊤ };

    ghost is_first = { λ bag s fault h e. e };

    ghost ascends = { λ bag s h. h };

    fn fill(&mut self, _tree: &mut T) -> Result<(), Stop> {
        Ok(())
    }

    fn peek(&self) -> Option<&Fault> {
        self.faults.first()
    }

    fn advance(&mut self) {
        self.faults.leave_first();
    }
}

impl<T: Tree> InOrder<T> for Fixed {
    ghost is_in_order = { tt };
}

impl<T: Tree> Quiet<T> for Fixed {
    ghost use Rattle.std.specs.Prelude.{refl};

    ghost is_quiet = { λ s. refl };
}
