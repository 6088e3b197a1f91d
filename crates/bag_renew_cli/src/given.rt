//! What is given on a renewal's command line, read from the matches of clap.
ghost use Rattle.std.specs.Prelude.{◌≡◌, IfOk};
ghost use Rattle.bag_words.specs.Rows.{rows_in};
ghost use Rattle.bag_renew_cli.specs.Given as spec;

use crate::listed::{self, algs_listed, is_element};
use bag_text::{Alg, AlgSet, Items, Text};
use bag_words::matched::{is_given, value, value_count};
use clap::ArgMatches;
use std::alloc::{AllocError, Global};

/// The algorithms that an option lists, or `None` where its value is no list of algorithms.
pub(crate) fn algs(matches: &ArgMatches<'_>, id: &str) -> Option<AlgSet>
    ensures { result ≡ spec.algs_given (rows_in matches.now) id.now }
{
    match value(matches, id) {
        None => Some(AlgSet::empty()),
        Some(text) => algs_listed(text),
    }
}

/// Whether each value of an option writes an element.
pub(crate) fn are_elements(matches: &ArgMatches<'_>, id: &str) -> bool
    ensures { result ≡ spec.are_elements (rows_in matches.now) id.now }
{
    match matches.get_strs(id) {
        None => true,
        Some(texts) => texts.iter().all(|text| is_element(text)),
    }
}

/// The elements of an option, in the order of the words.
pub(crate) fn elements(
    alloc: Global,
    matches: &ArgMatches<'_>,
    id: &str,
) -> Result<Items<(Text, Text)>, AllocError>
    ensures { IfOk result (λ items. items ≡ spec.elements (rows_in matches.now) id.now) }
{
    match matches.get_strs(id) {
        None => Ok(Items::new(alloc)),
        Some(texts) => listed::elements(alloc, texts),
    }
}

/// The algorithm whose manifest is printed.
pub(crate) fn printed(matches: &ArgMatches<'_>) -> Option<Alg>
    ensures { result ≡ spec.printed (rows_in matches.now) }
{
    match value(matches, "print") {
        None => None,
        Some(name) => Alg::from_name(name),
    }
}

/// Whether algorithms are added or dropped.
fn has_lists(matches: &ArgMatches<'_>) -> bool
    ensures { result ≡ spec.has_lists (rows_in matches.now) }
{
    value(matches, "add").is_some() || value(matches, "drop").is_some()
}

/// Whether something is asked of the elements.
fn has_elements(matches: &ArgMatches<'_>) -> bool
    ensures { result ≡ spec.has_elements (rows_in matches.now) }
{
    value(matches, "unset").is_some()
        || value(matches, "set").is_some()
        || value(matches, "append").is_some()
}

/// Whether something is asked for that no manifest is printed with.
pub(crate) fn has_others(matches: &ArgMatches<'_>) -> bool
    ensures { result ≡ spec.has_others (rows_in matches.now) }
{
    has_lists(matches)
        || has_elements(matches)
        || is_given(matches, "unchecked")
        || is_given(matches, "to-1.0")
        || is_given(matches, "dry-run")
}

/// Whether several bags are named.
pub(crate) fn has_several(matches: &ArgMatches<'_>) -> bool
    ensures { result ≡ spec.has_several (rows_in matches.now) }
{
    value_count(matches, "directory") > 1
}
