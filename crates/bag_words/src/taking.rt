//! What clap makes of the words of a command.
ghost use Rattle.std.specs.Prelude.{◌≡◌, IfErr, IfOk, MatchResult, true};
ghost use Rattle.clap.specs.Words.{App, IsParsedFrom, app_of, fault_of, kind_of, matches_of, takes};
ghost use Rattle.bag_words.specs.Taken as spec;
ghost use Rattle.bag_words.specs.Rows.{texts_of_words};

use bag_text::Text;
use clap::error::ErrorKind;
use clap::{ArgMatches, Command, Error};
use std::alloc::{AllocError, Global};

/// Why nothing is given by the words.
#[derive(Debug, Drop)]
pub enum Declined {
    /// Help is asked for: its text.
    Help(Text),
    /// The words are refused. The text says what is wrong with them and ends its lines itself.
    Refused(Text),
    /// A growth was refused.
    Memory,
}

/// What is given by the words of a command; or its help, where that is asked for, or why they are
/// refused.
pub fn taken<'a>(
    alloc: Global,
    command: Result<Command<'a>, AllocError>,
    words: &'a [&'a str],
) -> Result<ArgMatches<'a>, Declined>
    ensures taken { (app : App) → IfOk command.entry (λ c. app_of c ≡ app) → spec.IsPlain app
        → spec.IsTaken (fault_of app (texts_of_words words.entry.now))
        (matches_of app (texts_of_words words.entry.now)) result }
    ensures memory { (app : App) → IfOk command.entry (λ c. app_of c ≡ app)
        → takes app (texts_of_words words.entry.now) ≡ true
        → IfErr result (λ declined. declined ≡ Declined.Memory) }
    ensures parsed { IfOk result (λ m. MatchResult command.entry (λ c. IsParsedFrom c m) (λ _. ⊥)) }
{
    let Ok(command) = command else {
        return Err(Declined::Memory);
    };
    match command.try_get_matches_from(words) {
        Ok(matches) => Ok(matches),
        Err(error) => Err(answer_of(alloc, error)),
    }
}

/// The help or the refusal that an error of clap is.
fn answer_of(alloc: Global, error: Error) -> Declined
    ensures kind { spec.IsDeclined (kind_of error) result }
    ensures memory { kind_of error ≡ ErrorKind.OutOfMemory → result ≡ Declined.Memory }
{
    let kind = error.kind();
    if kind == ErrorKind::OutOfMemory {
        return Declined::Memory;
    }
    let text = match format!(in alloc; "{error}") {
        Ok(text) => Text::from_string(text),
        Err(_) => return Declined::Memory,
    };
    if kind == ErrorKind::DisplayHelp {
        Declined::Help(text)
    } else {
        Declined::Refused(text)
    }
}
