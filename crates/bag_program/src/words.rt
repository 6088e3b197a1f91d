//! The words that the program was started with.
ghost use Rattle.std.specs.Prelude.{◌≡◌, ◌≢◌, ⊤, IfOk, List, Result, drop, map, string_bytes, ℕ};
ghost use Rattle.std.specs.IoError.{error_kind};
ghost use Rattle.std.specs.declared.io.ErrorKind.TheVariants.{OutOfMemory};
ghost use Rattle.std.specs.Vec.Iter.{into_iter_items};
ghost use Rattle.bag_words.specs.Rows.{texts_of_words};
ghost use Rattle.bag_program.specs.Words.{MayHaveAsked, answered};
ghost use Rattle.bag_program.specs.declared.no_words.NoWords.{NoWords};
ghost use Rattle.bag_program.specs.declared.no_words.NoWords.TheVariants.{Memory, NotUtf8};

use crate::NoWords;
use std::alloc::{AllocError, Global};
use std::env::{self, Args};
use std::io::{self, ErrorKind};
use std::rt::Env;

/// What gives the words that a program was started with.
pub trait Words {
    /// What it may answer: the words with the program's name first, or why there are none.
    ghost answers: { Self → Result (List (List ℕ)) NoWords → Type 0 };

    /// The words, with the program's name first. A word that isn't UTF-8 is refused.
    fn words(&self) -> Result<Args, NoWords>
        ensures { answers self.now (answered result) };
}

/// The words that a runtime was started with. Std says nothing of them, nor of why there are none.
impl<R: Env + AllocGlobal> Words for R {
    ghost answers = { λ _ _. ⊤ };

    fn words(&self) -> Result<Args, NoWords> {
        env::args(self).map_err(|error| why_none(&error))
    }
}

/// Why there are no words: memory ran out, or else one of them isn't UTF-8.
fn why_none(error: &io::Error) -> NoWords
    ensures memory { error_kind error.now ≡ OutOfMemory → result ≡ Memory }
    ensures not_utf8 { error_kind error.now ≢ OutOfMemory → result ≡ NotUtf8 }
{
    if error.kind() == ErrorKind::OutOfMemory {
        NoWords::Memory
    } else {
        NoWords::NotUtf8
    }
}

/// The words, without the program's name.
pub(crate) fn asked_words<W: Words>(alloc: Global, started: &W) -> Result<Vec<String>, NoWords>
    ensures { MayHaveAsked (W.answers started.now) result }
{
    Ok(without_name(alloc, started.words()?)?)
}

/// Words but the first.
fn without_name(alloc: Global, words: Args) -> Result<Vec<String>, AllocError>
    ensures { IfOk result (λ asked. asked.items ≡ drop 1 (into_iter_items words)) }
{
    words.skip(1).collect(alloc)
}

/// The texts of words that are owned.
pub(crate) fn texts_of(alloc: Global, words: &[String]) -> Result<Vec<&str>, AllocError>
    ensures { IfOk result (λ all. texts_of_words all.items ≡ map string_bytes words.now) }
{
    words.iter().map(|word| word.as_str()).collect(alloc)
}
