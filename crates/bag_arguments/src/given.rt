//! What is given on the command line, read from the matches of clap.
ghost use Rattle.std.specs.Prelude.{◌≡◌, ◌++◌, map, filter_map, find, option_map, codes, length};
ghost use Rattle.std.specs.Prelude.{IfOk, OnOk, Some, None, if◌then◌else◌};
ghost use Rattle.std.specs.Option.{option_to_list};
ghost use Rattle.bag_arguments.specs.Given as spec;
ghost use Rattle.bag_arguments.specs.GivenRows.{HasLimit};
ghost use Rattle.bag_text.specs.Alg.{name};
ghost use Rattle.bag_text.specs.AlgList.{with_member};
ghost use Rattle.bag_words.specs.Rows as rows;

use crate::check_option::CHECK_OPTIONS;
use crate::{Action, CheckOption, Label};
use bag_faults::{Depth, Part};
use bag_read::number_of;
use bag_text::{Alg, AlgSet, Items, Text, trim};
use bag_words::matched::{is_given, value, value_count, values};
use clap::ArgMatches;
use std::alloc::{AllocError, Global};

/// The value of an option, with a text of its own.
pub(crate) fn text_value(
    alloc: Global,
    matches: &ArgMatches<'_>,
    id: &str,
) -> Result<Option<Text>, AllocError>
    ensures { IfOk result (λ text. text ≡ rows.value (rows.rows_in matches.now) id.now) }
{
    match value(matches, id) {
        None => Ok(None),
        Some(text) => Ok(Some(Text::from_str(alloc, text)?)),
    }
}

/// The folders, with texts of their own.
pub(crate) fn directories(
    alloc: Global,
    matches: &ArgMatches<'_>,
) -> Result<Items<Text>, AllocError>
    ensures { IfOk result (λ items. items ≡ rows.directories (rows.rows_in matches.now)) }
{
    values(alloc, matches, "directory")
}

/// Whether an option that needs `--validate` is given.
fn has_check_option(matches: &ArgMatches<'_>, option: CheckOption) -> bool
    ensures { result ≡ spec.has_check_option (rows.rows_in matches.now) option }
{
    match option {
        CheckOption::Profile | CheckOption::After | CheckOption::MaxFaults | CheckOption::Part =>
            value(matches, option.id()).is_some(),
        _ => is_given(matches, option.id()),
    }
}

/// The first of these options that is given.
fn first_check_option(matches: &ArgMatches<'_>, options: &[CheckOption]) -> Option<CheckOption>
    ensures { result ≡ find (spec.has_check_option (rows.rows_in matches.now)) options.now }
{
    options
        .iter()
        .copied()
        .find(|option| has_check_option(matches, *option))
}

/// The first option that stands without the `--validate` that it needs.
pub(crate) fn out_of_place(matches: &ArgMatches<'_>) -> Option<CheckOption>
    ensures { result ≡ spec.out_of_place (rows.rows_in matches.now) }
{
    if is_given(matches, "validate") {
        None
    } else {
        first_check_option(matches, &CHECK_OPTIONS)
    }
}

/// Whether `--join` is given beside another option that needs `--validate`, or `--quiet`.
pub(crate) fn has_join_with_other(matches: &ArgMatches<'_>) -> bool
    ensures { result ≡ spec.has_join_with_other (rows.rows_in matches.now) }
{
    is_given(matches, CheckOption::Join.id())
        && (is_given(matches, "quiet") || has_other(matches, &CHECK_OPTIONS))
}

/// Whether one of these options is given that isn't `--join`.
fn has_other(matches: &ArgMatches<'_>, options: &[CheckOption]) -> bool
    ensures { result ≡ spec.has_other (rows.rows_in matches.now) options.now }
{
    options.iter().copied().any(|option| option.is_other() && has_check_option(matches, option))
}

/// Whether more than one depth is given.
pub(crate) fn has_two_depths(matches: &ArgMatches<'_>) -> bool
    ensures { result ≡ spec.has_two_depths (rows.rows_in matches.now) }
{
    let declaration = is_given(matches, CheckOption::DeclarationOnly.id());
    let fast = is_given(matches, CheckOption::Fast.id());
    let complete = is_given(matches, CheckOption::CompletenessOnly.id());
    declaration && fast || declaration && complete || fast && complete
}

/// The depth.
pub(crate) fn depth(matches: &ArgMatches<'_>) -> Depth
    ensures { result ≡ spec.depth (rows.rows_in matches.now) }
{
    if is_given(matches, CheckOption::DeclarationOnly.id()) {
        Depth::Declaration
    } else if is_given(matches, CheckOption::Fast.id()) {
        Depth::Fast
    } else if is_given(matches, CheckOption::CompletenessOnly.id()) {
        Depth::Complete
    } else {
        Depth::Full
    }
}

/// Whether a cursor is given for several folders.
pub(crate) fn has_after_several(matches: &ArgMatches<'_>) -> bool
    ensures { result ≡ spec.has_after_several (rows.rows_in matches.now) }
{
    value(matches, CheckOption::After.id()).is_some() && value_count(matches, "directory") > 1
}

/// What is done with the words.
pub(crate) fn action(matches: &ArgMatches<'_>) -> Action
    ensures { result ≡ spec.action (rows.rows_in matches.now) }
{
    if !is_given(matches, "validate") {
        Action::Make
    } else if is_given(matches, CheckOption::Join.id()) {
        Action::Join
    } else if is_given(matches, CheckOption::Tar.id()) {
        Action::CheckTars
    } else {
        Action::Check
    }
}

/// The limit, 1 or more.
pub(crate) fn limit(matches: &ArgMatches<'_>) -> Option<u64>
    requires { HasLimit (rows.rows_in matches.now) }
    ensures { spec.IsLimit (rows.value (rows.rows_in matches.now) (codes "max-faults")) result }
{
    value(matches, CheckOption::MaxFaults.id())?
        .parse::<u64>()
        .ok()
}

/// The part that a text names: `K/N` in ASCII digits is the part K, counted from 1, of N.
pub(crate) fn part_of(text: &str) -> Option<Part>
    ensures { result ≡ spec.part_of text.now }
{
    let Some((number, of)) = text.split_once('/') else {
        return None;
    };
    match (number_of(number), number_of(of)) {
        (None, _) | (_, None) | (Some(0), _) => None,
        (Some(number), Some(of)) => Part::new(number - 1, of),
    }
}

/// The set with an algorithm more where its option is given.
fn with_named(set: AlgSet, matches: &ArgMatches<'_>, alg: Alg) -> AlgSet
    ensures { result ≡
        (if rows.is_given (rows.rows_in matches.now) (name alg) then with_member set alg else set) }
{
    if is_given(matches, alg.name()) {
        set.with(alg)
    } else {
        set
    }
}

/// The algorithms that are named.
fn named_algs(matches: &ArgMatches<'_>) -> AlgSet
    ensures { result ≡ spec.named_algs (rows.rows_in matches.now) }
{
    let mut set = AlgSet::empty();
    for alg in Alg::ALL {
        set = with_named(set, matches, alg);
    }
    set
}

/// The algorithms that are named, or SHA-256 and SHA-512 where none is.
pub(crate) fn algs(matches: &ArgMatches<'_>) -> AlgSet
    ensures { result ≡ spec.or_default (spec.named_algs (rows.rows_in matches.now)) }
{
    let named = named_algs(matches);
    if named.is_empty() {
        AlgSet::empty().with(Alg::Sha256).with(Alg::Sha512)
    } else {
        named
    }
}

/// The element of a label.
fn element(
    alloc: Global,
    matches: &ArgMatches<'_>,
    label: Label,
) -> Result<Option<(Text, Text)>, AllocError>
    ensures { IfOk result (λ item. item ≡ spec.element (rows.rows_in matches.now) label) }
{
    match value(matches, label.option()) {
        None => Ok(None),
        Some(text) => Ok(Some((
            Text::from_str(alloc, label.name())?,
            Text::from_str(alloc, trim(text))?,
        ))),
    }
}

/// Puts an item at the end, where there is one.
fn push_some(items: &mut Items<(Text, Text)>, item: Option<(Text, Text)>) -> Result<(), AllocError>
    ensures { OnOk result (items.new ≡ items.old ++ option_to_list item) }
{
    match item {
        None => Ok(()),
        Some(item) => items.push(item),
    }
}

/// The elements of these labels.
pub(crate) fn info(
    alloc: Global,
    matches: &ArgMatches<'_>,
    labels: &[Label],
) -> Result<Items<(Text, Text)>, AllocError>
    ensures { IfOk result (λ items.
        items ≡ filter_map (spec.element (rows.rows_in matches.now)) labels.now) }
{
    let mut items = Items::new(alloc);
    for label in labels {
        push_some(&mut items, element(alloc, matches, *label)?)?;
    }
    Ok(items)
}
