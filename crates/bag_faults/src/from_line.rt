//! Faults read back from their lines.
ghost use Rattle.std.specs.Prelude.{◌≡◌, ◌<◌, ◌^◌, Option, List, ℕ, IfOk, MatchOption, MatchResult};
ghost use Rattle.std.specs.Prelude.{IsUtf8, decimal};
ghost use Rattle.bag_text.specs.Code.{number};
ghost use Rattle.bag_text.specs.declared.alg.Alg.{Alg};
ghost use Rattle.bag_text.specs.declared.code.Code.{Code};
ghost use Rattle.bag_faults.specs.FaultLine as spec;
ghost use Rattle.bag_faults.specs.LineOf as line_of;
ghost use Rattle.bag_faults.specs.LineOf.{IsFault};
ghost use Rattle.bag_faults.specs.LineFields.{AreFields};
ghost use Rattle.bag_faults.specs.declared.fault.Fault.{Fault};

use crate::Fault;
use bag_text::{Alg, Code, Text, said};
use percent_encoding::{DecodeError, percent_decode};
use std::alloc::{AllocError, Global};
use thiserror::Error;

/// Why a text gave no fault.
#[derive(Clone, Copy, Debug, PartialEq, Eq, Error)]
pub enum CursorFault {
    /// The text is the line of no fault.
    #[error("not a fault line")]
    NotALine,
    /// Memory ran out before this was known.
    #[error("{why}", why = said::OUT_OF_MEMORY)]
    Memory,
}

impl From<AllocError> for CursorFault {
    ghost use Rattle.bag_faults.specs.declared.from_line.CursorFault.TheVariants.{Memory};

    ghost from_gives = { λ _ e. e ≡ Memory };

    fn from(_: AllocError) -> CursorFault {
        CursorFault::Memory
    }
}

impl Fault {
    /// The fault whose line this is. Every text that `to_line` doesn't write is refused, so also
    /// one with an end, with an escape that isn't needed, with lower-case hex, or with a line 0.
    /// Takes time in proportion to the text.
    pub fn from_line(alloc: Global, line: &str) -> Result<Fault, CursorFault>
        ensures ok { IfOk result (line_of.IsLineOf line.now) }
        ensures refused { result ≡ Err CursorFault.NotALine → (fault : Fault)
            → ¬ (line_of.IsLineOf line.now fault) }
    {
        let fault = read(alloc, line)?;
        let written = fault.to_line(alloc)?;
        if written.as_str() == line {
            Ok(fault)
        } else {
            Err(CursorFault::NotALine)
        }
    }
}

/// The fault whose line this is, or some other where the text is no line.
fn read(alloc: Global, line: &str) -> Result<Fault, CursorFault>
    ensures fault { IfOk result IsFault }
    ensures reads { (fault : Fault) → line_of.IsLineOf line.now fault
        → MatchResult result (λ read. read ≡ fault) (λ e. e ≡ CursorFault.Memory) }
{
    let Some(fields) = Fields::of(line) else {
        return Err(CursorFault::NotALine);
    };
    let code = read_code(fields.code)?;
    let alg = read_alg(fields.alg)?;
    let line = read_line_number(fields.line)?;
    let path = read_text(alloc, fields.path)?;
    let detail = read_text(alloc, fields.detail)?;
    Ok(Fault {
        code,
        path,
        alg,
        line,
        detail,
    })
}

/// The fields of a line, but for the word.
#[derive(Clone, Copy)]
struct Fields<'a> {
    code: &'a str,
    path: &'a str,
    alg: &'a str,
    line: &'a str,
    detail: &'a str,
}

impl<'a> Fields<'a> {
    /// The fields before the first five spaces, and what stands after these.
    fn of(text: &'a str) -> Option<Fields<'a>>
        ensures { (fault : Fault) → line_of.IsLineOf text.now fault
            → MatchOption result ⊥ (AreFields fault) }
    {
        let Some((code, rest)) = text.split_once(' ') else {
            return None;
        };
        let Some((_, rest)) = rest.split_once(' ') else {
            return None;
        };
        let Some((path, rest)) = rest.split_once(' ') else {
            return None;
        };
        let Some((alg, rest)) = rest.split_once(' ') else {
            return None;
        };
        let Some((line, detail)) = rest.split_once(' ') else {
            return None;
        };
        Some(Fields {
            code,
            path,
            alg,
            line,
            detail,
        })
    }
}

/// The code whose number is written so, or that of some number written otherwise.
fn read_code(field: &str) -> Result<Code, CursorFault>
    ensures { (code : Code) → decimal (number code) ≡ field.now → result ≡ Ok code }
{
    match field.parse::<u16>() {
        Ok(number) => Code::from_number(number).ok_or(CursorFault::NotALine),
        Err(_) => Err(CursorFault::NotALine),
    }
}

/// The algorithm that is written so, or none for a hyphen.
fn read_alg(field: &str) -> Result<Option<Alg>, CursorFault>
    ensures { (alg : Option Alg) → spec.alg_field alg ≡ field.now → result ≡ Ok alg }
{
    if field == "-" {
        return Ok(None);
    }
    match Alg::from_name(field) {
        Some(alg) => Ok(Some(alg)),
        None => Err(CursorFault::NotALine),
    }
}

/// The line number that is written so, or some number written otherwise.
fn read_line_number(field: &str) -> Result<u64, CursorFault>
    ensures { (line : ℕ) → line < 2 ^ 64 → spec.line_field line ≡ field.now → result ≡ Ok line }
{
    if field == "-" {
        return Ok(0);
    }
    field.parse().map_err(|_| CursorFault::NotALine)
}

/// The text that is written so, or some text written otherwise.
fn read_text(alloc: Global, field: &str) -> Result<Text, CursorFault>
    ensures text { IfOk result (λ text. IsUtf8 text) }
    ensures reads { (text : List ℕ) → IsUtf8 text → spec.field text ≡ field.now
        → MatchResult result (λ read. read ≡ text) (λ e. e ≡ CursorFault.Memory) }
{
    if field == "-" {
        return Ok(Text::empty(alloc));
    }
    match percent_decode(field.as_bytes()).decode_utf8(alloc) {
        Ok(text) => Ok(Text::from_string(text.into_owned(alloc)?)),
        Err(DecodeError::Utf8(_)) => Err(CursorFault::NotALine),
        Err(DecodeError::OutOfMemory) => Err(CursorFault::Memory),
    }
}
