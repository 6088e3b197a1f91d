//! Pairs of texts, of which tag files are written.
use crate::bytes::Bytes;
use crate::mistake::Mistake;
use bag_text::Text;
use std::alloc::Global;

/// A text that is kept.
fn kept(alloc: Global, text: &str, mistakes: &mut Bytes) -> Text {
    match Text::from_str(alloc, text) {
        Ok(text) => text,
        Err(_) => {
            mistakes.fail(Mistake::Memory);
            Text::empty(alloc)
        }
    }
}

/// The pairs of a text whose parts have `|` between them.
pub(crate) fn pairs_of(alloc: Global, text: &str, mistakes: &mut Bytes) -> Vec<(Text, Text)> {
    if !text.is_empty() && text.split('|').count() % 2 != 0 {
        mistakes.fail(Mistake::Row);
    }
    let mut pairs = Vec::new(alloc);
    let mut rest = text;
    for _ in 0..text.len() {
        let Some((front, after)) = rest.split_once('|') else {
            break;
        };
        let (back, after) = after.split_once('|').unwrap_or((after, ""));
        let pair = (kept(alloc, front, mistakes), kept(alloc, back, mistakes));
        if pairs.push(pair).is_err() {
            mistakes.fail(Mistake::Memory);
        }
        rest = after;
    }
    pairs
}
