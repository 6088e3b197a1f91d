//! The plan of the words.
ghost use Rattle.std.specs.Prelude.{◌≡◌, MatchResult, Some, None, codes, true};
ghost use Rattle.bag_arguments.specs.Given.{part_given};
ghost use Rattle.bag_arguments.specs.GivenRows.{HasLimit};
ghost use Rattle.bag_arguments.specs.Plan as spec;
ghost use Rattle.bag_arguments.specs.Plan.{IsNotRefused};
ghost use Rattle.bag_arguments.specs.Words.{clap_takes};
ghost use Rattle.bag_words.specs.Rows.{rows_in, texts_of_words, value as value_of};

use crate::command::command;
use crate::label::LABELS;
use crate::{Action, CheckOption, Plan, Usage, given};
use bag_faults::{CursorFault, Depth, Fault, Options, Part};
use bag_text::{AlgSet, Items};
use bag_words::matched::{is_given, value};
use bag_words::taking::{Declined, taken};
use clap::ArgMatches;
use std::alloc::Global;

/// The plan of the words, without the program's name.
pub fn plan_of(alloc: Global, words: &[&str]) -> Result<Plan, Usage>
    ensures planned { spec.IsPlanned (texts_of_words words.now) result }
    ensures taken { clap_takes (texts_of_words words.now) ≡ true → IsNotRefused result }
{
    if words.is_empty() {
        return Ok(plan_without_words(alloc, Action::Sample));
    }
    match taken(alloc, command(alloc), words) {
        Ok(matches) => plan_of_matches(alloc, &matches),
        Err(Declined::Help(text)) => Ok(plan_without_words(alloc, Action::Help(text))),
        Err(Declined::Refused(text)) => Err(Usage::Refused(text)),
        Err(Declined::Memory) => Err(Usage::Memory),
    }
}

/// A plan that does nothing with folders.
fn plan_without_words(alloc: Global, action: Action) -> Plan
    ensures { result ≡ spec.plan_without_words action }
{
    Plan {
        action,
        directories: Items::new(alloc),
        options: Options {
            depth: Depth::Declaration,
            clashes: false,
        },
        profile: None,
        after: None,
        limit: None,
        part: None,
        quiet: false,
        algs: AlgSet::empty(),
        info: Items::new(alloc),
    }
}

/// The plan of what is given, or the first thing that is wrong with it.
fn plan_of_matches(alloc: Global, matches: &ArgMatches<'_>) -> Result<Plan, Usage>
    requires { HasLimit (rows_in matches.now) }
    ensures { spec.Plans (rows_in matches.now) result }
{
    refuse_misuse(matches)?;
    let after = cursor(alloc, matches)?;
    let part = part(matches)?;
    Ok(Plan {
        action: given::action(matches),
        directories: given::directories(alloc, matches)?,
        options: Options {
            depth: given::depth(matches),
            clashes: is_given(matches, CheckOption::Clashes.id()),
        },
        profile: given::text_value(alloc, matches, CheckOption::Profile.id())?,
        after,
        limit: given::limit(matches),
        part,
        quiet: is_given(matches, "quiet"),
        algs: given::algs(matches),
        info: given::info(alloc, matches, &LABELS)?,
    })
}

/// Refuses the first thing that is wrong with what is given, but for the cursor's text.
fn refuse_misuse(matches: &ArgMatches<'_>) -> Result<(), Usage>
    ensures { MatchResult result (λ _. spec.misuse (rows_in matches.now) ≡ None)
        (λ usage. spec.misuse (rows_in matches.now) ≡ Some usage) }
{
    if let Some(option) = given::out_of_place(matches) {
        return Err(Usage::NeedsValidate(option));
    }
    if given::has_join_with_other(matches) {
        return Err(Usage::JoinWithOther);
    }
    if given::has_two_depths(matches) {
        return Err(Usage::TwoDepths);
    }
    if given::has_after_several(matches) {
        return Err(Usage::AfterSeveral);
    }
    Ok(())
}

/// The cursor, given by its line.
fn cursor(alloc: Global, matches: &ArgMatches<'_>) -> Result<Option<Fault>, Usage>
    ensures { spec.GivesCursor (value_of (rows_in matches.now) (codes "after")) result }
{
    let Some(line) = value(matches, CheckOption::After.id()) else {
        return Ok(None);
    };
    match Fault::from_line(alloc, line) {
        Ok(fault) => Ok(Some(fault)),
        Err(CursorFault::NotALine) => Err(Usage::AfterNotALine),
        Err(CursorFault::Memory) => Err(Usage::Memory),
    }
}

/// The part that is given, or what is wrong with it.
fn part(matches: &ArgMatches<'_>) -> Result<Option<Part>, Usage>
    ensures { MatchResult result
        (λ part. (spec.part_misuse (rows_in matches.now) ≡ None)
        × (part ≡ part_given (rows_in matches.now)))
        (λ usage. spec.part_misuse (rows_in matches.now) ≡ Some usage) }
{
    let Some(text) = value(matches, CheckOption::Part.id()) else {
        return Ok(None);
    };
    if given::depth(matches) != Depth::Full {
        return Err(Usage::PartOfDepth);
    }
    match given::part_of(text) {
        Some(part) => Ok(Some(part)),
        None => Err(Usage::NotAPart),
    }
}
