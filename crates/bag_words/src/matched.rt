//! What clap's matches hold for an argument.
ghost use Rattle.std.specs.Prelude.{◌≡◌, map, option_map, length, IfOk};
ghost use Rattle.bag_words.specs.Rows as spec;

use bag_text::{Items, Text};
use clap::ArgMatches;
use std::alloc::{AllocError, Global};

/// Whether an option without a value is given.
pub fn is_given(matches: &ArgMatches<'_>, id: &str) -> bool
    ensures { result ≡ spec.is_given (spec.rows_in matches.now) id.now }
{
    matches.get_one::<bool>(id).unwrap_or(false)
}

/// The value of an option.
pub fn value<'a>(matches: &ArgMatches<'a>, id: &str) -> Option<&'a str>
    ensures { option_map (λ text. text.now) result ≡ spec.value (spec.rows_in matches.now) id.now }
{
    matches.get_str(id)
}

/// All values of an argument, with texts of their own.
pub fn values(alloc: Global, matches: &ArgMatches<'_>, id: &str) -> Result<Items<Text>, AllocError>
    ensures { IfOk result (λ items. items ≡ spec.values (spec.rows_in matches.now) id.now) }
{
    match matches.get_strs(id) {
        None => Ok(Items::new(alloc)),
        Some(words) => texts(alloc, words),
    }
}

/// How many values an argument has.
pub fn value_count(matches: &ArgMatches<'_>, id: &str) -> usize
    ensures { result ≡ length (spec.values (spec.rows_in matches.now) id.now) }
{
    match matches.get_strs(id) {
        None => 0,
        Some(words) => words.len(),
    }
}

/// Texts of their own.
pub fn texts(alloc: Global, words: &[&str]) -> Result<Items<Text>, AllocError>
    ensures { IfOk result (λ items. items ≡ map (λ word. word.now) words.now) }
{
    let mut items = Items::new(alloc);
    for word in words {
        items.push(Text::from_str(alloc, word)?)?;
    }
    Ok(items)
}
