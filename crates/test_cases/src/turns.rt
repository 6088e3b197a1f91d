//! Calls that are refused in turn: each that a run makes of which none is refused.
use crate::answers::{answer_in_memory, put_listing};
use crate::commands::Verb;
use crate::trees::do_over_tree;
use bag_cli::{Action, Plan};
use bag_disk::DiskFault;
use std::alloc::Global;
use test_case_lines::{Answer, Bytes, Mistake, Report, Sight, Turn, is_wanted, see_turn};
use test_world::World;

/// Whose calls are refused.
#[derive(Clone, Copy)]
pub(crate) enum Calls<'a> {
    /// Those of a tree of the folder with this name, with which a plan is done.
    Tree(&'a Plan, &'a str),
    /// Those of a disk, by a fault, over which a program runs with these words.
    Disk(Verb, &'a [&'a str], DiskFault),
}

/// A command over one folder, of which each call is refused in turn.
#[derive(Clone, Copy)]
pub(crate) struct Turns<'a> {
    pub(crate) alloc: Global,
    pub(crate) world: &'a World,
    pub(crate) calls: Calls<'a>,
}

impl Turns<'_> {
    /// What is answered where no call is refused, and how many calls are made then.
    fn unrefused(&self) -> (Answer, u64) {
        match self.calls {
            Calls::Tree(plan, folder) => self.over_tree(plan, folder, u64::MAX),
            Calls::Disk(verb, words, _) => {
                let answer = answer_in_memory(self.alloc, self.world, None, verb, words);
                (answer, self.world.call_count())
            }
        }
    }

    /// What is answered where the call of a number is refused, from 1.
    fn refused(&self, call: u64) -> Answer {
        match self.calls {
            Calls::Tree(plan, folder) => self.over_tree(plan, folder, call).0,
            Calls::Disk(verb, words, fault) => {
                let refused = Some((call.saturating_sub(1), fault));
                answer_in_memory(self.alloc, self.world, refused, verb, words)
            }
        }
    }

    /// What is answered over a tree of which the call of a number is refused; after it the files
    /// that a making leaves, each with its size; and how many calls were made, where they were too
    /// few for that.
    fn over_tree(&self, plan: &Plan, folder: &str, call: u64) -> (Answer, u64) {
        let mut answer = Answer::of(self.alloc, Bytes::new(self.alloc), 0);
        let mut calls = 0;
        match do_over_tree(self.alloc, plan, self.world, folder, call, &mut answer) {
            Ok(tree) => {
                let left = tree.calls_left().unwrap_or(0);
                calls = call.saturating_sub(left).saturating_sub(1);
                if matches!(plan.action, Action::Make) {
                    put_listing(&mut tree.into_inner(), true, &mut answer.written);
                }
            }
            Err(mistake) => answer.written.fail(mistake),
        }
        (answer, calls)
    }
}

/// Compares the answers that come with those that are wanted. The last is that of the run of which
/// no call is refused. Those before it have to come, one after another, each for one call or more,
/// where the calls of that run are refused, and no others.
pub(crate) fn see_in_turn(sight: &Sight<'_>, turns: &Turns<'_>, report: &mut Report) {
    let (unrefused, calls) = turns.unrefused();
    let mut next = Turn::of(sight.entry.below);
    let mut last = None;
    for call in 1..=calls {
        let found = turns.refused(call);
        if !is_wanted(sight, last, &found) {
            match next.rest {
                Some(rest) if is_wanted(sight, Some(next), &found) => {
                    last = Some(next);
                    next = Turn::of(rest);
                }
                Some(_) => return see_turn(sight, next, call, &found, report),
                None => return see_past(sight, last, call, &found, report),
            }
        }
    }
    if next.rest.is_some() && is_wanted(sight, Some(next), &unrefused) {
        report.text.fail(Mistake::Turns);
    }
    see_turn(sight, next, 0, &unrefused, report);
}

/// Compares the answer that comes where the call of a number is refused with the last one that is
/// wanted of such a call.
fn see_past(
    sight: &Sight<'_>,
    last: Option<Turn<'_>>,
    call: u64,
    found: &Answer,
    report: &mut Report,
) {
    match last {
        Some(last) => see_turn(sight, last, call, found, report),
        None => report.text.fail(Mistake::Turns),
    }
}
