//! The plan of a renewal's words.
ghost use Rattle.std.specs.Prelude.{◌≡◌, MatchResult, Some, None, true};
ghost use Rattle.bag_words.specs.Rows.{rows_in};
ghost use Rattle.bag_words.specs.Rows.{texts_of_words};
ghost use Rattle.bag_renew_cli.specs.Given as asked;
ghost use Rattle.bag_renew_cli.specs.Plan as spec;
ghost use Rattle.bag_renew_cli.specs.Words.{clap_takes};

use crate::command::command;
use crate::{BagAction, ElementOption, ListOption, RenewAction, RenewPlan, RenewUsage, given};
use bag_renew::{ElementChanges, Renewal};
use bag_text::{Alg, AlgSet, Items};
use bag_words::matched::{is_given, value, values};
use bag_words::taking::{Declined, taken};
use clap::ArgMatches;
use std::alloc::Global;

/// The plan of a renewal's words, without the program's name.
pub fn renewal_of(alloc: Global, words: &[&str]) -> Result<RenewPlan, RenewUsage>
    ensures planned { spec.IsPlanned (texts_of_words words.now) result }
    ensures taken { clap_takes (texts_of_words words.now) ≡ true → spec.IsNotRefused result }
{
    match taken(alloc, command(alloc), words) {
        Ok(matches) => plan_of_matches(alloc, &matches),
        Err(Declined::Help(text)) => Ok(plan_without_words(alloc, RenewAction::Help(text))),
        Err(Declined::Refused(text)) => Err(RenewUsage::Refused(text)),
        Err(Declined::Memory) => Err(RenewUsage::Memory),
    }
}

/// A plan that does nothing with bags.
fn plan_without_words(alloc: Global, action: RenewAction) -> RenewPlan
    ensures { result ≡ spec.plan_without_words action }
{
    RenewPlan {
        action,
        directories: Items::new(alloc),
        renewal: Renewal::nothing(alloc),
        quiet: false,
    }
}

/// The plan of what is given, or the first thing that is wrong with it.
fn plan_of_matches(alloc: Global, matches: &ArgMatches<'_>) -> Result<RenewPlan, RenewUsage>
    ensures { spec.Plans (rows_in matches.now) result }
{
    refuse_print(matches)?;
    refuse_elements(matches)?;
    let renewal = renewal(alloc, matches)?;
    Ok(RenewPlan {
        action: RenewAction::Bags(action(matches)),
        directories: values(alloc, matches, "directory")?,
        renewal,
        quiet: is_given(matches, "quiet"),
    })
}

/// What is done with each bag.
fn action(matches: &ArgMatches<'_>) -> BagAction
    ensures { result ≡ spec.action_of (asked.printed (rows_in matches.now))
        (asked.is_dry (rows_in matches.now)) }
{
    match given::printed(matches) {
        Some(alg) => BagAction::Print(alg),
        None => {
            if is_given(matches, "dry-run") {
                BagAction::DryRun
            } else {
                BagAction::Renew
            }
        }
    }
}

/// Refuses the first thing that is wrong where a manifest is printed.
fn refuse_print(matches: &ArgMatches<'_>) -> Result<(), RenewUsage>
    ensures { MatchResult result (λ _. spec.print_misuse (rows_in matches.now) ≡ None)
        (λ usage. spec.print_misuse (rows_in matches.now) ≡ Some usage) }
{
    let Some(name) = value(matches, "print") else {
        return Ok(());
    };
    if given::has_others(matches) {
        return Err(RenewUsage::PrintWithOthers);
    }
    if given::has_several(matches) {
        return Err(RenewUsage::PrintSeveral);
    }
    match Alg::from_name(name) {
        Some(_) => Ok(()),
        None => Err(RenewUsage::NotAnAlgorithm),
    }
}

/// Refuses the first option whose value writes no element.
fn refuse_elements(matches: &ArgMatches<'_>) -> Result<(), RenewUsage>
    ensures { MatchResult result (λ _. spec.elements_misuse (rows_in matches.now) ≡ None)
        (λ usage. spec.elements_misuse (rows_in matches.now) ≡ Some usage) }
{
    if !given::are_elements(matches, "set") {
        return Err(RenewUsage::NotAnElement(ElementOption::Set));
    }
    if !given::are_elements(matches, "append") {
        return Err(RenewUsage::NotAnElement(ElementOption::Append));
    }
    Ok(())
}

/// What is asked of a bag, or the first option whose value is no list of algorithms.
fn renewal(alloc: Global, matches: &ArgMatches<'_>) -> Result<Renewal, RenewUsage>
    ensures { spec.GivesRenewal (rows_in matches.now) result }
{
    let added = algs(matches, ListOption::Add)?;
    let dropped = algs(matches, ListOption::Drop)?;
    Ok(Renewal {
        added,
        dropped,
        unchecked: is_given(matches, "unchecked"),
        elements: ElementChanges {
            set: given::elements(alloc, matches, "set")?,
            appended: given::elements(alloc, matches, "append")?,
            unset: values(alloc, matches, "unset")?,
        },
        to_1_0: is_given(matches, "to-1.0"),
    })
}

/// The algorithms that an option lists.
fn algs(matches: &ArgMatches<'_>, option: ListOption) -> Result<AlgSet, RenewUsage>
    ensures { spec.GivesAlgs (rows_in matches.now) option result }
{
    match given::algs(matches, option.name()) {
        Some(set) => Ok(set),
        None => Err(RenewUsage::NotAlgorithms(option)),
    }
}
