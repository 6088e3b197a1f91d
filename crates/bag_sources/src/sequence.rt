//! One source after another.
ghost use Rattle.std.specs.Prelude.{◌≡◌, ◌++◌, [], true, if◌then◌else◌};
ghost use Rattle.bag_sources.specs.Filling.{AllBelow, Where};
ghost use Rattle.bag_sources.specs.Lists.{front_ascends, first_of_both};
ghost use Rattle.bag_sources.specs.Openings.{NoFaultBefore};

use crate::{InOrder, Source};
use bag_faults::Fault;
use bag_tree::{Stop, Tree};

/// The faults of a source, and then those of another. Each fault of the first is less than each of
/// the second, which is filled only once nothing is left of the first.
#[derive(Debug, Drop)]
pub struct Then<A, B> {
    first: A,
    second: B,
    in_first: bool,
}

impl<A, B> Then<A, B> {
    /// The faults of both. Takes no memory.
    pub fn new(first: A, second: B) -> Then<A, B>
        ensures { result ≡ record { first = first; second = second; in_first = true } }
    {
        Then {
            first,
            second,
            in_first: true,
        }
    }
}

impl<T: Tree, A: Source<T>, B: Source<T>> Source<T> for Then<A, B> {
    ghost is_of = { λ bag s. Where s.in_first (A.is_of bag s.first
        × AllBelow (A.remaining bag s.first) (B.remaining bag s.second)
        × (A.in_order → NoFaultBefore (B.remaining bag s.second) (A.todo s.first)))
        × B.is_of bag s.second };

    ghost remaining = { λ bag s.
        (if s.in_first then A.remaining bag s.first else []) ++ B.remaining bag s.second };

    ghost todo = { λ s. (if s.in_first then A.todo s.first else []) ++ B.todo s.second };

    ghost found = { λ s. if s.in_first then A.found s.first else B.found s.second };

    ghost in_order = { A.in_order × B.in_order };

    ghost is_first = { λ bag s f h e. first_of_both s.in_first
        (A.found s.first) (B.found s.second) (A.remaining bag s.first) (B.remaining bag s.second) f
        (A.is_of bag s.first) _
        (λ k. A.is_first bag s.first f k) (λ k. B.is_first bag s.second f h.1 k) h.0 e };

    ghost ascends = { λ bag s h. front_ascends s.in_first
        (A.remaining bag s.first) (B.remaining bag s.second)
        (A.is_of bag s.first) _ (λ k. A.ascends bag s.first k) (B.ascends bag s.second h.1) h.0 };

    fn fill(&mut self, tree: &mut T) -> Result<(), Stop> {
        if !self.in_first {
            return self.second.fill(tree);
        }
        self.first.fill(tree)?;
        if self.first.peek().is_some() {
            return Ok(());
        }
        self.in_first = false;
        self.second.fill(tree)
    }

    fn peek(&self) -> Option<&Fault> {
        if self.in_first {
            self.first.peek()
        } else {
            self.second.peek()
        }
    }

    fn advance(&mut self) {
        if self.in_first {
            self.first.advance();
        } else {
            self.second.advance();
        }
    }
}

impl<T: Tree, A: InOrder<T>, B: InOrder<T>> InOrder<T> for Then<A, B> {
    ghost is_in_order = { (A.is_in_order, B.is_in_order) };
}
