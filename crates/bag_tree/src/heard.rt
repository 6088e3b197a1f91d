//! What was heard.
ghost use Rattle.std.specs.Prelude.{◌≡◌, ◌++◌, List, ℕ};
ghost use Rattle.std.specs.Borrow.{ftrue};

use std::marker::{Model, PhantomData};

/// Bytes that were heard, as those that a writer answered that it took, after those that it held.
/// Only clauses read them: it takes no memory.
#[derive(Drop)]
pub struct Heard {
    marker: PhantomData<u8>,
    pub ghost bytes: { List ℕ },
}

impl Model for Heard {
    ghost also_owns = { λ _. ftrue };
}

impl Heard {
    /// Begins with these bytes.
    pub fn new() -> Heard
        ghost held: { List ℕ }
        ensures { result.bytes ≡ held }
    {
        Heard {
            marker: PhantomData,
        }
    }

    /// Notes bytes after those that were heard.
    pub fn note(&mut self, _bytes: &[u8])
        ensures { self.new.bytes ≡ self.old.bytes ++ _bytes.now }
    {}
}
