//! Faults of completeness, and clashes of names.
ghost use Rattle.std.specs.Prelude.{◌≡◌, ⊤, [], false, IfOk};
ghost use Rattle.std.specs.List.Sorted.{IsStrictlySortedBy};
ghost use Rattle.std.specs.Option.{option_copied};
ghost use Rattle.bag_faults.specs.FaultOrder.{fault_cmp};
ghost use Rattle.bag_faults.specs.Options.{reaches};
ghost use Rattle.bag_sources.specs.Completeness.{AreOfStageSix};
ghost use Rattle.bag_sources.specs.Filling.{first_of};

use crate::steps::stage_above;
use crate::{Fixed, InOrder, Quiet, Source};
use bag_facts::Facts;
use bag_faults::{Fault, Stage};
use bag_tree::{Stop, Tree};
use std::alloc::{AllocError, Global};

/// What keeps a bag from being complete (RFC 8493, 3), and where they are asked for clashes of
/// names, above a cursor. Opens no file.
#[derive(Debug, Drop)]
pub struct Completeness {
    list: Fixed,
}

impl Completeness {
    /// Those of each bag of which these facts were read: what its report has of stage 6 above the
    /// cursor, by any profile or by none, since no profile asks for more there. There are none
    /// where the depth doesn't have the stage. Fails only when out of memory.
    pub fn new(
        alloc: Global,
        facts: &Facts,
        after: Option<&Fault>,
    ) -> Result<Completeness, AllocError>
        ensures reported { IfOk result (λ source.
            AreOfStageSix facts.now (option_copied after.entry) source.list.faults) }
        ensures none { IfOk result (λ source.
            reaches facts.now.options.depth 6 ≡ false → source.list.faults ≡ []) }
    {
        let faults = stage_above(alloc, facts, None, Stage::Completeness, after)?;
        Ok(Completeness {
            list: Fixed::of(faults),
        })
    }
}

impl<T: Tree> Source<T> for Completeness {
    ghost is_of = { λ bag s. IsStrictlySortedBy fault_cmp s.list.faults };

    ghost remaining = { λ bag s. s.list.faults };

    ghost todo = { λ s. [] };

    ghost found = { λ s. first_of s.list.faults };

    ghost in_order = { ⊤ };

    ghost is_first = { λ bag s fault h e. e };

    ghost ascends = { λ bag s h. h };

    fn fill(&mut self, tree: &mut T) -> Result<(), Stop> {
        self.list.fill(tree)
    }

    fn peek(&self) -> Option<&Fault> {
        <Fixed as Source<T>>::peek(&self.list)
    }

    fn advance(&mut self) {
        <Fixed as Source<T>>::advance(&mut self.list);
    }
}

impl<T: Tree> InOrder<T> for Completeness {
    ghost is_in_order = { tt };
}

impl<T: Tree> Quiet<T> for Completeness {
    ghost use Rattle.std.specs.Prelude.{refl};

    ghost is_quiet = { λ s. refl };
}
