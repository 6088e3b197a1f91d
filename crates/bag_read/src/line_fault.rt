//! What a tag file says and what is wrong with it, line by line, and what its lines are made of:
//! texts in front of others and after them, spelled paths, and numbers in ASCII digits.
ghost use Rattle.std.specs.Prelude.{◌≡◌, ◌∷◌, [], ℕ, List, Result, Err, IfOk, ◌≢◌, ◌++◌};
ghost use Rattle.std.specs.Prelude.{MatchOption};
ghost use Rattle.std.specs.Char.{is_ascii_digit};
ghost use Rattle.std.specs.List.{list_all};
ghost use Rattle.std.specs.Option.{option_copied};
ghost use Rattle.bag_read.specs.LineFault.{entries_read, faults_read, not_utf8};
ghost use Rattle.bag_read.specs.Reason.{IsReadOf, Reason, decoded_or};
ghost use Rattle.bag_text.specs.Spelling.{unescaped};
ghost use Rattle.bag_text.specs.Lines as cut;
ghost use Rattle.bag_text.specs.Text as spec;

use bag_entries::Pool;
use bag_text::{
    Code, Items, PathFault, Rules, Text, is_blank_line, is_written_as_itself, lines, unescape_path,
};
use std::alloc::{AllocError, Global};

/// A fault of a tag file. Lines count from 1; the line is 0 where the fault is of the whole file.
#[derive(Debug, Drop)]
pub struct LineFault {
    /// Counted from 1; 0 is the file as a whole.
    pub line: u64,
    pub code: Code,
    /// Empty where there is none.
    pub detail: Text,
}

/// What a tag file says, and what is wrong with it, each in line order.
#[derive(Debug, Drop)]
pub struct Parsed<T> {
    pub items: Items<T>,
    pub faults: Items<LineFault>,
}

/// Why a line isn't read.
#[derive(Debug, Drop)]
pub(crate) enum Why {
    /// It is wrong: a code, and a fault's detail.
    Fault(Code, Text),
    /// Memory ran out.
    Memory,
}

impl From<AllocError> for Why {
    ghost use Rattle.std.specs.Prelude.{◌≡◌};
    ghost use Rattle.bag_read.specs.declared.line_fault.Why.TheVariants.{Memory};

    ghost from_gives = { λ _ why. why ≡ Memory };

    fn from(_error: AllocError) -> Why {
        Why::Memory
    }
}

/// How the lines of a tag file read, each by itself.
pub(crate) trait LineForm {
    /// What a line says.
    type Entry: Drop;

    /// What the line of a number says, or why it doesn't read.
    ghost reads: { Self → ℕ → List ℕ → Result Self.Entry Reason };

    /// Reads a line that isn't blank.
    fn read(&self, alloc: Global, number: u64, line: &str) -> Result<Self::Entry, Why>
        ensures { IsReadOf (reads self.now number line.now) result };
}

/// Reads each line of a text that isn't blank, in one pass. Room is taken at once for `room` lines
/// that read.
pub(crate) fn read_lines<F: LineForm>(
    alloc: Global,
    form: &F,
    text: &str,
    room: usize,
) -> Result<Parsed<F::Entry>, AllocError>
    ensures items { IfOk result (λ parsed.
        parsed.items ≡ entries_read (F.reads form.now) (cut.lines text.now)) }
    ensures faults { IfOk result (λ parsed.
        parsed.faults ≡ faults_read (F.reads form.now) (cut.lines text.now)) }
{
    let mut items = Items::from_vec(Vec::with_capacity(alloc, room)?);
    let mut faults = Items::new(alloc);
    for (line, content) in lines(text) {
        if !is_blank_line(content) {
            match form.read(alloc, line, content) {
                Ok(entry) => items.push(entry)?,
                Err(Why::Fault(code, detail)) => faults.push(LineFault { line, code, detail })?,
                Err(Why::Memory) => return Err(AllocError),
            }
        }
    }
    Ok(Parsed { items, faults })
}

/// How many bytes are counted at once: few enough that their line ends are counted in a byte.
const BLOCK: usize = 128;

/// As many as a text has lines, or more.
pub(crate) fn line_count(text: &str) -> usize {
    let mut count = 1usize;
    for block in text.as_bytes().chunks(BLOCK) {
        count = count.saturating_add(usize::from(line_end_count(block)));
    }
    count
}

/// How many line ends are in a block. It takes no branch for a byte, and counts in a byte, so that
/// many are counted at once.
fn line_end_count(block: &[u8]) -> u8 {
    let mut count = 0u8;
    for byte in block {
        count = count.wrapping_add(u8::from((*byte == b'\n') | (*byte == b'\r')));
    }
    count
}

/// That a line doesn't read, with a detail that is copied.
pub(crate) fn refuse<T>(alloc: Global, code: Code, detail: &str) -> Result<T, Why>
    ensures { IsReadOf (Err (code, detail.now)) result }
{
    Err(Why::Fault(code, Text::from_str(alloc, detail)?))
}

/// What is read of bytes that aren't UTF-8: no item, and the one fault `NotUtf8`, of the whole
/// file. Fails only where memory runs out.
pub(crate) fn unread<T>(alloc: Global) -> Result<Parsed<T>, AllocError>
    ensures items { IfOk result (λ parsed. parsed.items ≡ []) }
    ensures faults { IfOk result (λ parsed. parsed.faults ≡ not_utf8 ∷ []) }
{
    let mut faults = Items::new(alloc);
    faults.push(LineFault {
        line: 0,
        code: Code::NotUtf8,
        detail: Text::empty(alloc),
    })?;
    Ok(Parsed {
        items: Items::new(alloc),
        faults,
    })
}

/// What stands after a prefix, where the text has it.
pub(crate) fn after_prefix<'a>(text: &'a str, prefix: &str) -> Option<&'a str>
    ensures { option_copied result ≡ spec.after_prefix prefix.now text.now }
{
    text.strip_prefix(prefix)
}

/// What stands before a suffix, where the text has it.
pub(crate) fn before_suffix<'a>(text: &'a str, suffix: &str) -> Option<&'a str>
    ensures { MatchOption result ((front : List ℕ) → text.now ≢ front ++ suffix.now) (λ front.
        text.now ≡ front.now ++ suffix.now) }
{
    text.strip_suffix(suffix)
}

/// The text without a prefix, where it has it.
pub(crate) fn without_prefix<'a>(text: &'a str, prefix: &str) -> &'a str
    ensures { result.now ≡ spec.without_prefix prefix.now text.now }
{
    match after_prefix(text, prefix) {
        Some(rest) => rest,
        None => text,
    }
}

/// The path that is spelled; where an escape in it is bad, this code, with the spelling.
pub(crate) fn decode_path(
    alloc: Global,
    rules: Rules,
    spelling: &str,
    bad_escape: Code,
) -> Result<Text, Why>
    ensures { IsReadOf (decoded_or bad_escape (unescaped rules spelling.now) spelling.now) result }
{
    match unescape_path(alloc, rules, spelling) {
        Ok(path) => Ok(Text::from_string(path)),
        Err(PathFault::BadEscape) => refuse(alloc, bad_escape, spelling),
        Err(PathFault::Memory) => Err(Why::Memory),
    }
}

/// The same, where many paths are known: those of the pool take no memory of their own.
pub(crate) fn decode_known(
    alloc: Global,
    known: &Pool,
    rules: Rules,
    spelling: &str,
    bad_escape: Code,
) -> Result<Text, Why>
    ensures { IsReadOf (decoded_or bad_escape (unescaped rules spelling.now) spelling.now) result }
{
    if is_written_as_itself(rules, spelling) {
        Ok(known.text(alloc, spelling)?)
    } else {
        decode_path(alloc, rules, spelling, bad_escape)
    }
}

/// One or more ASCII digits.
pub(crate) fn is_digits(text: &str) -> bool
    ensures { result ≡ spec.is_digits text.now }
{
    !text.is_empty() && has_digits_only(text)
}

fn has_digits_only(text: &str) -> bool
    ensures { result ≡ list_all is_ascii_digit text.now }
{
    text.as_bytes().iter().all(|b| b.is_ascii_digit())
}
