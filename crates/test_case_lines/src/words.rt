//! The words of a command.
use crate::bytes::Bytes;
use crate::mistake::Mistake;
use std::alloc::Global;

/// The first word of a text, and what stands after it; none where it has none, or one that is
/// quoted and has no end. A word that begins with `'` goes on to the next one.
fn first_word(text: &str) -> Option<(&str, &str)> {
    match text.strip_prefix('\'') {
        Some(quoted) => quoted.split_once('\''),
        None if text.is_empty() => None,
        None => Some(text.split_once(' ').unwrap_or((text, ""))),
    }
}

/// The words of a command, parted by spaces, but not between `'`.
pub fn words_of<'a>(alloc: Global, text: &'a str, mistakes: &mut Bytes) -> Vec<&'a str> {
    let mut words = Vec::new(alloc);
    let mut rest = text.trim_start_matches(' ');
    for _ in 0..text.len() {
        let Some((word, after)) = first_word(rest) else {
            break;
        };
        if words.push(word).is_err() {
            mistakes.fail(Mistake::Memory);
        }
        rest = after.trim_start_matches(' ');
    }
    if !rest.is_empty() {
        mistakes.fail(Mistake::Quote);
    }
    words
}
