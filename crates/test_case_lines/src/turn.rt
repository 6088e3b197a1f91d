//! Answers of which an entry wants several, one after another.
use crate::answers::Answer;
use crate::bytes::Bytes;
use crate::lines::{Entry, Turn};
use crate::report::{Report, Sight};
use std::str;

/// What a turn of the lines below an entry wants: all but the last have the status 3, where it
/// isn't given, and the last has 0.
fn wanted_of(sight: &Sight<'_>, turn: Turn<'_>) -> Answer {
    let status = if turn.rest.is_some() { 3 } else { 0 };
    sight.texts.wanted(turn.lines, status)
}

/// Whether there is a turn, and it wants this answer.
pub fn is_wanted(sight: &Sight<'_>, turn: Option<Turn<'_>>, found: &Answer) -> bool {
    match turn {
        Some(turn) => wanted_of(sight, turn).is_same(found),
        None => false,
    }
}

/// Compares the answer that comes where the call of a number is refused, or none for 0, with the
/// one that a turn wants.
pub fn see_turn(sight: &Sight<'_>, turn: Turn<'_>, call: u64, found: &Answer, report: &mut Report) {
    let mut side = Bytes::new(sight.texts.alloc);
    if call == 0 {
        side.put("where no call is refused");
    } else {
        side.put("where call ");
        side.show(&call, " is refused");
    }
    let line = sight.entry.line;
    let below = turn.lines;
    let entry = Entry { line, below };
    let (file, texts) = (sight.file, sight.texts);
    let turn_sight = Sight { file, texts, entry };
    let side = str::from_utf8(&side.held).unwrap_or("");
    report.compare(&turn_sight, side, &wanted_of(sight, turn), found);
}
