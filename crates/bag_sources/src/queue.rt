//! Lists of which the first is taken, one after the other.
ghost use Rattle.std.specs.Prelude.{◌≡◌, ◌↔◌, [], IsSome, IsTrue};
ghost use Rattle.std.specs.Option.{option_copied};
ghost use Rattle.bag_sources.specs.Filling.{first_of};
ghost use Rattle.bag_sources.specs.Source.{rest_of};

use std::marker::Model;

/// A list, seen by contracts as what is left of it.
#[derive(Debug, Drop)]
pub(crate) struct Queue<T> {
    items: Vec<T>,
    pub(crate) next: usize,
}

impl<T> Model for Queue<T> {
    ghost use Rattle.std.specs.Prelude.{List, drop};

    ghost Value = { List T };

    ghost view = { λ queue. drop queue.next queue.items.items };
}

impl<T> Queue<T> {
    /// All of these.
    pub(crate) fn new(items: Vec<T>) -> Queue<T>
        ensures { result ≡ items.items }
    {
        Queue { items, next: 0 }
    }

    /// The first that is left.
    pub(crate) fn first(&self) -> Option<&T>
        ensures { option_copied result ≡ first_of self.now }
    {
        self.items.get(self.next)
    }

    /// Takes the first away.
    pub(crate) fn leave_first(&mut self)
        requires { IsSome (first_of self.old) }
        ensures { self.new ≡ rest_of self.old }
    {
        self.next += 1;
    }

    /// Whether nothing is left.
    pub(crate) fn is_empty(&self) -> bool
        ensures { IsTrue result ↔ (self.now ≡ []) }
    {
        self.first().is_none()
    }
}
