//! The list of files to fetch, `fetch.txt` (RFC 8493, 2.2.3).
ghost use Rattle.std.specs.Prelude.{◌≡◌, IfOk};
ghost use Rattle.std.specs.Ordering.{nat_cmp, on};
ghost use Rattle.bag_text.specs.Lines as cut;
ghost use Rattle.bag_text.specs.Order.{IsListOf};
ghost use Rattle.bag_read.specs.LineFault.{AreFaults};
ghost use Rattle.bag_read.specs.Fetch as spec;
ghost use Rattle.bag_read.specs.ReadEntries as of_line;
ghost use Rattle.bag_read.specs.Fetch.{IsFetch, IsFetchFault};
ghost use Rattle.bag_read.specs.Reason.{IsReadOf};

use crate::line_fault::{
    LineForm, Parsed, Why, decode_path, is_digits, read_lines, refuse, unread, without_prefix,
};
use bag_text::{Code, Rules, Text, check_path, is_payload, split_at_blanks, text_of};
use std::alloc::{AllocError, Global};

/// What stands for a length that isn't given.
const UNKNOWN: &str = "-";

/// A line of `fetch.txt` that reads: where a payload file is, its length in bytes or `-`, each as
/// it is written, and the path that it gets.
#[derive(Debug, Drop)]
pub struct FetchEntry {
    /// Counted from 1.
    pub line: u64,
    /// As it stands.
    pub url: Text,
    /// As it stands: digits, or `-`.
    pub length: Text,
    /// Decoded, and safe.
    pub path: Text,
}

/// Reads the bytes of `fetch.txt` (RFC 8493, 2.2.3). Each line that isn't blank is an entry or has
/// one fault; a path may stand in more than one line, and the syntax of a URL isn't looked at.
/// Bytes that aren't UTF-8 have no entry and the one fault `NotUtf8`. One pass. Fails only where
/// memory runs out.
pub fn read_fetch(
    alloc: Global,
    rules: Rules,
    bytes: &[u8],
) -> Result<Parsed<FetchEntry>, AllocError>
    ensures items { IfOk result (λ parsed.
        IsListOf (on (λ e. e.line) nat_cmp) (IsFetch rules (cut.lines_of_file bytes.now))
        parsed.items) }
    ensures faults { IfOk result (λ parsed.
        AreFaults (IsFetchFault rules bytes.now) parsed.faults) }
{
    match text_of(bytes) {
        Ok(text) => read_lines(alloc, &FetchForm { rules }, text, 0),
        Err(_) => unread(alloc),
    }
}

/// How the lines of `fetch.txt` read.
#[derive(Drop)]
struct FetchForm {
    rules: Rules,
}

impl LineForm for FetchForm {
    type Entry = FetchEntry;

    ghost reads = { λ form line content. of_line.fetch_entry_in form.rules line content };

    fn read(&self, alloc: Global, number: u64, line: &str) -> Result<FetchEntry, Why> {
        let (url, after) = split_at_blanks(line);
        let (length, written) = split_at_blanks(after);
        if lacks_part(url, length, written) {
            return refuse(alloc, Code::FetchLine, "");
        }
        let path = self.path(alloc, without_prefix(written, "./"))?;
        Ok(entry(alloc, number, url, length, path)?)
    }
}

impl FetchForm {
    /// The path of a line by how it is spelled.
    fn path(&self, alloc: Global, spelling: &str) -> Result<Text, Why>
        ensures { IsReadOf (spec.path_spelled self.now.rules spelling.now) result }
    {
        in_payload(decode_path(alloc, self.rules, spelling, Code::FetchEscape)?)
    }
}

/// Whether a part is missing, or the length isn't one. A line that begins with a blank lacks its
/// URL.
fn lacks_part(url: &str, length: &str, written: &str) -> bool
    ensures { result ≡ spec.lacks_part url.now length.now written.now }
{
    url.is_empty() || !is_length(length) || written.is_empty()
}

/// A length in bytes, or a sign that it isn't given.
fn is_length(text: &str) -> bool
    ensures { result ≡ spec.is_length text.now }
{
    text == UNKNOWN || is_digits(text)
}

/// A path to which a file may be fetched, or why it may not.
fn in_payload(path: Text) -> Result<Text, Why>
    ensures { IsReadOf (spec.fetched_path path) result }
{
    if is_payload(path.as_str()) {
        Ok(path)
    } else if check_path(path.as_str()).is_ok() {
        Err(Why::Fault(Code::FetchOutsidePayload, path))
    } else {
        Err(Why::Fault(Code::FetchUnsafePath, path))
    }
}

/// The entry of a line with these parts.
fn entry(
    alloc: Global,
    line: u64,
    url: &str,
    length: &str,
    path: Text,
) -> Result<FetchEntry, AllocError>
    ensures { IfOk result (λ entry. entry ≡ of_line.entry line url.now length.now path) }
{
    Ok(FetchEntry {
        line,
        url: Text::from_str(alloc, url)?,
        length: Text::from_str(alloc, length)?,
        path,
    })
}
