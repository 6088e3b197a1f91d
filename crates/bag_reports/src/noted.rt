//! What is noted, and only clauses read.
ghost use Rattle.std.specs.Prelude.{◌≡◌, ◌++◌, ◌∷◌, [], List};
ghost use Rattle.std.specs.Borrow.{ftrue};
ghost use Rattle.std.specs.Coded.{coded_list};

use std::marker::{Model, PhantomData};

/// What was noted, one after another. Only clauses read it: it takes no memory.
#[derive(Drop)]
pub struct Noted<T> {
    of: PhantomData<T>,
    pub ghost items: { List T } by { coded_list T.code },
}

impl<T> Model for Noted<T> {
    ghost also_owns = { λ _. ftrue };
}

impl<T> Noted<T> {
    /// Nothing yet.
    pub fn none() -> Noted<T>
        ensures { result.items ≡ [] }
    {
        Noted::these()
    }

    /// Notes one more. Something is given so that a proof can name it by that.
    pub fn note_of<G>(&mut self, _given: &G)
        ghost item: { T }
        ensures { self.new.items ≡ self.old.items ++ item ∷ [] }
    {
        *self = self.after();
    }

    /// What was noted after one more is.
    fn after(&self) -> Noted<T>
        ghost items: { List T }
        ensures { result.items ≡ items }
    {
        Noted::these()
    }

    /// What a clause names.
    fn these() -> Noted<T>
        ghost items: { List T }
        ensures { result.items ≡ items }
    {
        Noted { of: PhantomData }
    }
}
