//! Texts that are at hand, so that equal ones take no memory of their own.
ghost use Rattle.std.specs.Prelude.{◌≡◌, ◌++◌, ◌∷◌, [], IfOk, IfSome, OnOk};
ghost use Rattle.bag_entries.specs.Pool.{pool_runs, run_bytes};

use bag_text::Text;
use memchr::{memchr, memrchr};
use std::alloc::{AllocError, Global};
use std::cell::Cell;
use std::cmp::Ordering;
use std::rc::RcStr;

/// What stands after each text of a pool.
const END: char = '\0';

/// How often a search halves what is left: more often than any length can be.
const STEPS: u32 = 64;

/// Texts of which equal texts are parts: they stand in the order of their bytes, one after another,
/// in a few longer ones. Which texts it has decides nothing but how much memory is taken.
#[derive(Drop)]
pub struct Pool {
    wholes: Vec<RcStr>,
    /// Where a text is looked for first, after the one that was found last: in which of the longer
    /// texts, and where in it.
    next: Cell<(usize, usize)>,
}

impl Pool {
    /// The pool of no text, which takes no memory.
    pub fn empty(alloc: Global) -> Pool
        ensures { pool_runs result ≡ [] }
    {
        Pool {
            wholes: Vec::new(alloc),
            next: Cell::new((0, 0)),
        }
    }

    /// Adds the texts of a run, which stand after those that it has.
    pub fn add(&mut self, run: Run) -> Result<(), AllocError>
        ensures { OnOk result (pool_runs self.new ≡ pool_runs self.old ++ run_bytes run ∷ []) }
    {
        let Run { whole } = run;
        self.wholes.push(RcStr::from_string(whole)?)?;
        Ok(())
    }

    /// An equal text: a part of the pool's where it has it, and else a copy.
    pub fn text(&self, alloc: Global, text: &str) -> Result<Text, AllocError>
        ensures { IfOk result (λ t. t ≡ text.now) }
    {
        match self.find(text) {
            Some(found) => Ok(found),
            None => Text::from_str(alloc, text),
        }
    }

    /// An equal text of the pool.
    fn find(&self, text: &str) -> Option<Text>
        ensures { IfSome result (λ t. t ≡ text.now) }
    {
        let (which, place) = self.next.get();
        if let Some(found) = self.text_at(which, place, text) {
            return Some(found);
        }
        if let Some(found) = self.text_at(which.saturating_add(1), 0, text) {
            return Some(found);
        }
        let (which, place) = self.place_of(text.as_bytes());
        self.text_at(which, place, text)
    }

    /// An equal text, where it stands at this place. The next is looked for after it.
    fn text_at(&self, which: usize, place: usize, text: &str) -> Option<Text>
        ensures { IfSome result (λ t. t ≡ text.now) }
    {
        let Ok(Some(found)) = Text::part_of(self.wholes.get(which)?, place, text) else {
            return None;
        };
        let after = place.saturating_add(text.len()).saturating_add(1);
        self.next.set((which, after));
        Some(found)
    }

    /// Where a text stands, if the pool has it.
    fn place_of(&self, text: &[u8]) -> (usize, usize) {
        let which = self
            .wholes
            .partition_point(|whole| begins_before(whole, text))
            .saturating_sub(1);
        match self.wholes.get(which) {
            Some(whole) => (which, place_in(whole.as_str().as_bytes(), text)),
            None => (which, 0),
        }
    }
}

/// Whether the first text of a run is this one or stands before it.
fn begins_before(whole: &RcStr, text: &[u8]) -> bool {
    first_of(whole.as_str().as_bytes(), 0) <= text
}

/// Where a text stands in a longer one, if it does.
fn place_in(bytes: &[u8], text: &[u8]) -> usize {
    let mut low = 0usize;
    let mut high = bytes.len();
    for _ in 0..STEPS {
        let start = start_before(bytes, low.saturating_add(high.saturating_sub(low) / 2));
        let found = first_of(bytes, start);
        match found.cmp(text) {
            Ordering::Less => low = start.saturating_add(found.len()).saturating_add(1),
            Ordering::Equal => return start,
            Ordering::Greater => high = start,
        }
    }
    low
}

/// Where the text begins that a place is in.
fn start_before(bytes: &[u8], place: usize) -> usize {
    let Some((front, _)) = bytes.split_at_checked(place) else {
        return 0;
    };
    match memrchr(0, front) {
        Some(end) => end.saturating_add(1),
        None => 0,
    }
}

/// The bytes of the text that begins at a place.
fn first_of(bytes: &[u8], place: usize) -> &[u8] {
    let Some((_, rest)) = bytes.split_at_checked(place) else {
        return &[];
    };
    match memchr(0, rest) {
        Some(end) => rest.get(..end).unwrap_or(rest),
        None => rest,
    }
}

/// Texts in the order of their bytes that are put into a pool together.
#[derive(Drop)]
pub struct Run {
    whole: String,
}

impl Run {
    /// For texts that have so many bytes together, each with one more. For more it grows.
    pub fn with_room(alloc: Global, bytes: usize) -> Result<Run, AllocError>
        ensures { IfOk result (λ run. run_bytes run ≡ []) }
    {
        Ok(Run {
            whole: String::with_capacity(alloc, bytes)?,
        })
    }

    /// Puts a text at the end.
    pub fn push(&mut self, text: &str) -> Result<(), AllocError>
        ensures { OnOk result (run_bytes self.new ≡ run_bytes self.old ++ text.now ++ 0 ∷ []) }
    {
        self.whole.push_str(text)?;
        self.whole.push(END)?;
        Ok(())
    }
}
