//! An event, as it is noted.
ghost use Rattle.bag_program.specs.StoredEvent.{coded_event};
ghost use Rattle.bag_program.specs.Visits.{Event};

use std::marker::Model;

/// An event, by its name in clauses. No value of it is made.
#[derive(Drop)]
pub(crate) struct Happening {
    ghost event: { Event } by { coded_event },
}

impl Model for Happening {
    ghost use Rattle.bag_program.specs.StoredEvent.{coded_event};
    ghost use Rattle.bag_program.specs.Visits.{Event};

    ghost Value = { Event };

    ghost coded = { coded_event };

    ghost view = { λ it. it.event };

    ghost use Rattle.std.specs.Borrow.{ftrue};

    ghost also_owns = { λ _. ftrue };
}
