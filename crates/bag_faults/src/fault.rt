//! A fault of a bag, the order of faults, and their lines.
//!
//! A line is `CODE WORD PATH ALG LINE DETAIL`, six fields with one space between, all of it ASCII.
//! CODE is the number of the code, and WORD its word. ALG is the name of the algorithm, or `-` for
//! none. LINE is in decimal, or `-` for 0. PATH and DETAIL are `-` where they are empty, and `%2D`
//! where they are the text `-`. In any other text the bytes 0 to 32, `%`, 127 and those outside
//! ASCII are written as `%` and two upper-case hex digits, and every other byte as itself.
ghost use Rattle.std.specs.Option.{option_copied};
ghost use Rattle.std.specs.Prelude.{◌≡◌, IfOk, ◌++◌, ◌∷◌, [], OnOk, OnErr, string_bytes, decimal};
ghost use Rattle.std.specs.Io.{StartsWith};
ghost use Rattle.bag_text.specs.Alg.{rank_or_zero};
ghost use Rattle.bag_text.specs.Code as of_code;
ghost use Rattle.bag_faults.specs.FaultAt as made;
ghost use Rattle.bag_faults.specs.LineOf.{IsFault};
ghost use Rattle.bag_faults.specs.FaultLine as spec;

use crate::field::field_pieces;
use bag_text::{Alg, Code, Text};
use itoa::Buffer;
use std::alloc::{AllocError, Global};
use std::cmp::Ordering;

/// What is wrong with a bag, and where. Faults are ordered by stage (the first digit of the code's
/// number), path, algorithm (none first), line, code and detail; paths and details by bytes.
#[derive(Debug, Drop)]
pub struct Fault {
    /// What is wrong.
    pub code: Code,
    /// The file that it is about, UTF-8, with `/` between components; empty where none is.
    pub path: Text,
    /// The algorithm of the manifest concerned.
    pub alg: Option<Alg>,
    /// The line of the file, from 1; 0 where it is about no single line.
    pub line: u64,
    /// More on it, UTF-8, such as the text found; empty where there is no more to say.
    pub detail: Text,
}

impl Fault {
    /// The fault of the file at a path, as a whole; of the bag where the path is empty.
    pub fn new(alloc: Global, code: Code, path: Text) -> Fault
        ensures { result ≡ made.of_path code path None [] }
    {
        Fault {
            code,
            path,
            alg: None,
            line: 0,
            detail: Text::empty(alloc),
        }
    }

    /// The fault of the file at a path, which is copied. Fails only where memory runs out.
    pub fn about(alloc: Global, code: Code, path: &Text) -> Result<Fault, AllocError>
        ensures { IfOk result (λ fault. fault ≡ made.of_path code path.now None []) }
    {
        Ok(Fault::new(alloc, code, path.copy(alloc)?))
    }

    /// The fault of the bag, about no file.
    pub fn of_bag(alloc: Global, code: Code) -> Fault
        ensures { result ≡ made.of_bag code }
    {
        Fault::new(alloc, code, Text::empty(alloc))
    }

    /// The same fault, of the manifest of an algorithm.
    pub fn of(self, alg: Option<Alg>) -> Fault
        ensures { result ≡ record self { alg = alg } }
    {
        Fault { alg, ..self }
    }

    /// The same fault, of a line of its file, from 1.
    pub fn at(self, line: u64) -> Fault
        ensures { result ≡ record self { line = line } }
    {
        Fault { line, ..self }
    }

    /// The same fault, with more to say.
    pub fn with(self, detail: Text) -> Fault
        ensures { result ≡ record self { detail = detail } }
    {
        Fault { detail, ..self }
    }

    /// The stage of the check that finds it, from 1 to 8: the first digit of the code's number.
    pub fn stage(&self) -> u8
        ensures { result ≡ of_code.stage self.now.code }
    {
        (self.code.number() / 100) as u8
    }

    /// An equal fault, with texts of its own. Fails only where memory runs out.
    pub fn copy(&self, alloc: Global) -> Result<Fault, AllocError>
        ensures { IfOk result (λ fault. fault ≡ self.now) }
    {
        Ok(Fault {
            code: self.code,
            path: self.path.copy(alloc)?,
            alg: self.alg,
            line: self.line,
            detail: self.detail.copy(alloc)?,
        })
    }

    /// A copy of a fault that may be there, such as a cursor. Fails only where memory runs out.
    pub fn copied(alloc: Global, fault: Option<&Fault>) -> Result<Option<Fault>, AllocError>
        ensures { IfOk result (λ copy. copy ≡ option_copied fault.entry) }
    {
        match fault {
            None => Ok(None),
            Some(fault) => Ok(Some(fault.copy(alloc)?)),
        }
    }
}

/// The place of an algorithm in the order, 0 for none.
fn rank_of(alg: Option<Alg>) -> u8
    ensures { result ≡ rank_or_zero alg }
{
    match alg {
        None => 0,
        Some(alg) => alg.rank(),
    }
}

impl PartialEq for Fault {
    ghost use Rattle.bag_faults.specs.FaultOrder.{fault_cmp};
    ghost use Rattle.std.specs.Ordering.{eq_by_cmp};
    ghost use Rattle.std.proofs.Common.{rules};
    ghost use Rattle.std.specs.Cmp.Rules.{comparing};

    ghost eq = { eq_by_cmp fault_cmp };

    ghost laws = { Prim.search (comparing, rules) depth 12 };

    fn eq(&self, other: &Fault) -> bool {
        self.cmp(other) == Ordering::Equal
    }
}

impl Eq for Fault {
    ghost use Rattle.std.proofs.Common.{rules};
    ghost use Rattle.std.specs.Cmp.Rules.{comparing};

    ghost laws = { Prim.search (comparing, rules) depth 12 };
}

impl Ord for Fault {
    ghost use Rattle.bag_faults.specs.FaultOrder.{fault_cmp};
    ghost use Rattle.std.proofs.Common.{rules};
    ghost use Rattle.std.specs.Cmp.Rules.{comparing};

    ghost cmp = { fault_cmp };

    ghost total = { Prim.search (comparing, rules) depth 12 };

    ghost matches_partial_cmp = { Prim.search (comparing, rules) depth 12 };

    ghost matches_eq = { Prim.search (comparing, rules) depth 12 };

    fn cmp(&self, other: &Fault) -> Ordering {
        self.stage()
            .cmp(&other.stage())
            .then(self.path.cmp(&other.path))
            .then(rank_of(self.alg).cmp(&rank_of(other.alg)))
            .then(self.line.cmp(&other.line))
            .then(self.code.number().cmp(&other.code.number()))
            .then(self.detail.cmp(&other.detail))
    }
}

impl PartialOrd for Fault {
    ghost use Rattle.bag_faults.specs.FaultOrder.{fault_cmp};
    ghost use Rattle.std.proofs.Common.{rules};
    ghost use Rattle.std.specs.Cmp.{partial_order_from_own_ties};
    ghost use Rattle.std.specs.Cmp.Rules.{comparing};
    ghost use Rattle.std.specs.Ordering.{as_partial_cmp};

    ghost partial_cmp = { as_partial_cmp fault_cmp };

    ghost laws = { partial_order_from_own_ties (Prim.search (comparing, rules) depth 12)
        (Prim.search (comparing, rules) depth 12) };

    fn partial_cmp(&self, other: &Fault) -> Option<Ordering> {
        Some(self.cmp(other))
    }
}

impl Fault {
    /// The fault as a line, without an end: `601 payload-file-missing data/a md5 - -`. Fails only
    /// where memory runs out.
    pub fn to_line(&self, alloc: Global) -> Result<String, AllocError>
        ensures { IfOk result (λ line. string_bytes line ≡ spec.fault_line self.now) }
    {
        let mut line = String::new(alloc);
        self.append_line(&mut line)?;
        Ok(line)
    }

    /// Appends the fault as a line, without an end. Fails only where memory runs out, and leaves
    /// the text as it was.
    pub fn append_line(&self, out: &mut String) -> Result<(), AllocError>
        ensures ok { OnOk result
            (string_bytes out.new ≡ string_bytes out.old ++ spec.fault_line self.now) }
        ensures err { OnErr result (string_bytes out.new ≡ string_bytes out.old) }
    {
        let start = out.len();
        let result = append_fields(self, out);
        if result.is_err() {
            out.truncate(start);
        }
        result
    }
}

/// Appends the fields with a space between each two. Where memory runs out, some of it is after the
/// old text.
fn append_fields(fault: &Fault, out: &mut String) -> Result<(), AllocError>
    ensures ok { OnOk result
        (string_bytes out.new ≡ string_bytes out.old ++ spec.fault_line fault.now) }
    ensures err { OnErr result (StartsWith (string_bytes out.new) (string_bytes out.old)) }
{
    append_number(u64::from(fault.code.number()), out)?;
    append_word(fault.code.word(), out)?;
    append_text(fault.path.as_str(), out)?;
    append_word(alg_name(fault.alg), out)?;
    append_line_number(fault.line, out)?;
    append_text(fault.detail.as_str(), out)
}

pub(crate) fn alg_name(alg: Option<Alg>) -> &'static str
    ensures { result.now ≡ spec.alg_field alg }
{
    match alg {
        None => "-",
        Some(alg) => alg.name(),
    }
}

fn append_number(number: u64, out: &mut String) -> Result<(), AllocError>
    ensures ok { OnOk result (string_bytes out.new ≡ string_bytes out.old ++ decimal number) }
    ensures err { OnErr result (StartsWith (string_bytes out.new) (string_bytes out.old)) }
{
    let mut buffer = Buffer::new();
    out.push_str(buffer.format(number))
}

/// Appends a space and a word.
fn append_word(word: &str, out: &mut String) -> Result<(), AllocError>
    ensures ok { OnOk result (string_bytes out.new ≡ string_bytes out.old ++ 32 ∷ word.now) }
    ensures err { OnErr result (StartsWith (string_bytes out.new) (string_bytes out.old)) }
{
    out.push_str(" ")?;
    out.push_str(word)
}

/// Appends a space and the field of a line number.
fn append_line_number(line: u64, out: &mut String) -> Result<(), AllocError>
    ensures ok { OnOk result
        (string_bytes out.new ≡ string_bytes out.old ++ 32 ∷ spec.line_field line) }
    ensures err { OnErr result (StartsWith (string_bytes out.new) (string_bytes out.old)) }
{
    out.push_str(" ")?;
    if line == 0 {
        out.push_str("-")
    } else {
        append_number(line, out)
    }
}

/// Appends a space and the field of a text.
fn append_text(text: &str, out: &mut String) -> Result<(), AllocError>
    ensures ok { OnOk result
        (string_bytes out.new ≡ string_bytes out.old ++ 32 ∷ spec.field text.now) }
    ensures err { OnErr result (StartsWith (string_bytes out.new) (string_bytes out.old)) }
{
    out.push_str(" ")?;
    field_pieces(text).append_to(out)
}

/// Every fault has UTF-8 texts, and a line number that fits 64 bits.
pub fn every_fault_is_one(fault: &Fault)
    ensures { IsFault fault.now }
{
    let _path = fault.path.as_str();
    let _line = fault.line;
    let _detail = fault.detail.as_str();
}
