//! The metadata of a bag, `bag-info.txt` (RFC 8493, 2.2.2).
ghost use Rattle.std.specs.Prelude.{◌≡◌, false, IfOk};
ghost use Rattle.std.specs.List.{enumerate_from};
ghost use Rattle.std.specs.Ordering.{nat_cmp, on};
ghost use Rattle.bag_text.specs.Lines as cut;
ghost use Rattle.bag_text.specs.Order.{IsListOf};
ghost use Rattle.bag_read.specs.Info.{IsElement, IsInfoFault};
ghost use Rattle.bag_read.specs.InfoReader as reading;
ghost use Rattle.bag_read.specs.LineFault.{AreFaults};

use crate::info_reader::Reader;
use crate::line_fault::{Parsed, unread};
use bag_text::{Rules, Text, lines, text_of};
use std::alloc::{AllocError, Global};

/// An element of the metadata: the number of its first line, its label as it is written, and its
/// value, of which the parts of several lines are joined by one LF.
#[derive(Debug, Drop)]
pub struct Element {
    /// That of the label, counted from 1.
    pub line: u64,
    /// As it is spelled.
    pub label: Text,
    /// Joined from all its lines, without blanks around it.
    pub value: Text,
}

/// Reads the bytes of `bag-info.txt` (RFC 8493, 2.2.2). A line that isn't blank and begins with a
/// space or a tab goes on with the value of the element above it; after a line that is wrong it is
/// passed over. Each other line that isn't blank is an element or the fault `InfoLine`. Bytes that
/// aren't UTF-8 have no element and the one fault `NotUtf8`. Reads in one pass. Fails only where
/// memory runs out.
pub fn read_info(alloc: Global, rules: Rules, bytes: &[u8]) -> Result<Parsed<Element>, AllocError>
    ensures items { IfOk result (λ parsed.
        IsListOf (on (λ e. e.line) nat_cmp) (IsElement rules (cut.lines_of_file bytes.now))
        parsed.items) }
    ensures faults { IfOk result (λ parsed. AreFaults (IsInfoFault rules bytes.now) parsed.faults) }
{
    match text_of(bytes) {
        Ok(text) => read_text(alloc, rules, text),
        Err(_) => unread(alloc),
    }
}

fn read_text(alloc: Global, rules: Rules, text: &str) -> Result<Parsed<Element>, AllocError>
    ensures items { IfOk result (λ parsed.
        parsed.items ≡ reading.elements rules (enumerate_from 1 (cut.lines text.now))) }
    ensures faults { IfOk result (λ parsed.
        parsed.faults ≡ reading.faults rules false (enumerate_from 1 (cut.lines text.now))) }
{
    let mut reader = Reader::new(alloc);
    for (number, line) in lines(text) {
        reader.read_line(alloc, rules, number, line)?;
    }
    reader.finish(alloc)
}
