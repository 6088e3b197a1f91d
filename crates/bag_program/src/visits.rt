//! Which folders were looked into.
ghost use Rattle.std.specs.Prelude.{◌≡◌, []};
ghost use Rattle.bag_program.specs.Folders.{visits_of, AddsEvent};
ghost use Rattle.bag_program.specs.Visits.{Event};

use crate::happening::Happening;
use bag_reports::Noted;
use std::marker::PhantomData;

/// Which folders were looked into that disks of the type `D` reach, one after another, as what
/// their trees were left, which couldn't be given, and which files were read beside them, with what
/// was answered. Only clauses read it: it takes no memory.
///
/// It comes with the `Folders`: nothing else makes one, and who has no disks can't make a second
/// one of their type.
#[derive(Drop)]
pub struct Visits<D> {
    of: PhantomData<D>,
    record: Noted<Happening>,
}

impl<D> Visits<D> {
    /// None yet.
    pub(crate) fn none() -> Visits<D>
        ensures { visits_of result ≡ [] }
    {
        Visits {
            of: PhantomData,
            record: Noted::none(),
        }
    }

    /// Notes an event. Its value is given so that a proof can name the event by it.
    pub(crate) fn note_of<T>(&mut self, _value: &T)
        ghost event: { Event }
        ensures { AddsEvent self.old self.new event }
    {
        self.record.note_of(_value);
    }
}
