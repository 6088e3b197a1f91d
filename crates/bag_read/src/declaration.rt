//! The declaration, `bagit.txt` (RFC 8493, 2.1.1).
ghost use Rattle.std.specs.Prelude.{◌≡◌, ◌∷◌, [], IfOk, length, slice_get, option_and_then};
ghost use Rattle.std.specs.Option.{option_copied};
ghost use Rattle.bag_text.specs.Lines as cut;
ghost use Rattle.bag_text.specs.Rules.{rules_of};
ghost use Rattle.bag_read.specs.Declaration as spec;
ghost use Rattle.bag_read.specs.DeclarationFaults.{utf8_fault, text_faults};
ghost use Rattle.bag_read.specs.LineFault.{AreFaults};

use crate::LineFault;
use crate::declaration_faults::{text_faults, utf8_faults};
use crate::declaration_line::{encoding_of, version_of};
use bag_text::{Items, Rules, Text, lines, text_of};
use std::alloc::{AllocError, Global};

/// What `bagit.txt` declares (RFC 8493, 2.1.1), and what is wrong with it, in line order.
#[derive(Debug, Drop)]
pub struct Declaration {
    /// The version of line 1, where that line reads.
    pub version: Option<Text>,
    /// The encoding of line 2, where that line reads.
    pub encoding: Option<Text>,
    /// What is wrong with it, in line order.
    pub faults: Items<LineFault>,
}

/// Reads the bytes of `bagit.txt` (RFC 8493, 2.1.1). Each of the two lines is judged by itself, and
/// the rest is read after a byte order mark too; in bytes that aren't UTF-8 nothing is read. Fails
/// only where memory runs out.
pub fn read_declaration(alloc: Global, bytes: &[u8]) -> Result<Declaration, AllocError>
    ensures version { IfOk result (λ d. d.version ≡ spec.declared_version bytes.now) }
    ensures encoding { IfOk result (λ d. d.encoding ≡ spec.declared_encoding bytes.now) }
    ensures faults { IfOk result (λ d. AreFaults (spec.IsDeclarationFault bytes.now) d.faults) }
{
    match text_of(bytes) {
        Ok(text) => read_text(alloc, bytes, text),
        Err(_) => unread(alloc),
    }
}

/// The rules by which a bag is judged whose `bagit.txt` has these bytes. Takes no memory.
pub fn declared_rules(bytes: &[u8]) -> Rules
    ensures { result ≡ rules_of (spec.declared_version bytes.now) }
{
    match text_of(bytes) {
        Ok(text) => rules_of_text(text),
        Err(_) => Rules::V10,
    }
}

/// The rules that a text declares.
fn rules_of_text(text: &str) -> Rules
    ensures { result
        ≡ rules_of (option_and_then spec.version_of (slice_get (cut.lines text.now) 0)) }
{
    let (first, _, _) = first_lines(text);
    Rules::of_version(declared_version(first))
}

/// Nothing is read in bytes that aren't UTF-8.
fn unread(alloc: Global) -> Result<Declaration, AllocError>
    ensures version { IfOk result (λ d. d.version ≡ None) }
    ensures encoding { IfOk result (λ d. d.encoding ≡ None) }
    ensures faults { IfOk result (λ d. d.faults ≡ utf8_fault ∷ []) }
{
    Ok(Declaration {
        version: None,
        encoding: None,
        faults: utf8_faults(alloc)?,
    })
}

/// Reads the text of these bytes.
fn read_text(alloc: Global, bytes: &[u8], text: &str) -> Result<Declaration, AllocError>
    ensures version { IfOk result (λ d.
        d.version ≡ option_and_then spec.version_of (slice_get (cut.lines text.now) 0)) }
    ensures encoding { IfOk result (λ d.
        d.encoding ≡ option_and_then spec.encoding_of (slice_get (cut.lines text.now) 1)) }
    ensures faults { IfOk result (λ d. d.faults ≡ text_faults bytes.now (cut.lines text.now)) }
{
    let (first, second, count) = first_lines(text);
    let version = declared_version(first);
    let encoding = declared_encoding(second);
    Ok(Declaration {
        version: owned(alloc, version)?,
        encoding: owned(alloc, encoding)?,
        faults: text_faults(alloc, bytes, count, version, encoding)?,
    })
}

/// The first two lines of a text, and how many lines it has.
fn first_lines(text: &str) -> (Option<&str>, Option<&str>, usize)
    ensures first { option_copied result.0 ≡ slice_get (cut.lines text.now) 0 }
    ensures second { option_copied result.1 ≡ slice_get (cut.lines text.now) 1 }
    ensures count { result.2 ≡ length (cut.lines text.now) }
{
    let mut rest = lines(text);
    let Some((_, first)) = rest.next() else {
        return (None, None, 0);
    };
    let Some((_, second)) = rest.next() else {
        return (Some(first), None, 1);
    };
    (Some(first), Some(second), 2 + rest.count())
}

fn declared_version(line: Option<&str>) -> Option<&str>
    ensures { option_copied result ≡ option_and_then spec.version_of (option_copied line.entry) }
{
    line.and_then(version_of)
}

fn declared_encoding(line: Option<&str>) -> Option<&str>
    ensures { option_copied result ≡ option_and_then spec.encoding_of (option_copied line.entry) }
{
    line.and_then(encoding_of)
}

/// The text, as one that is kept.
fn owned(alloc: Global, text: Option<&str>) -> Result<Option<Text>, AllocError>
    ensures { IfOk result (λ t. t ≡ option_copied text.entry) }
{
    match text {
        None => Ok(None),
        Some(text) => Ok(Some(Text::from_str(alloc, text)?)),
    }
}
