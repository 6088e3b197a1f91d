//! Manifests (RFC 8493, 2.1.3 and 2.2.1).
ghost use Rattle.std.specs.Prelude.{◌≡◌, Ok, Err, IfOk, MatchOption};
ghost use Rattle.std.specs.BTreeSet.{contains};
ghost use Rattle.std.specs.Char.{is_ascii_hexdigit};
ghost use Rattle.std.specs.List.{list_all};
ghost use Rattle.std.specs.Ordering.{nat_cmp, on};
ghost use Rattle.bag_text.specs.Lines as cut;
ghost use Rattle.bag_text.specs.Order.{IsListOf};
ghost use Rattle.bag_read.specs.LineFault.{AreFaults};
ghost use Rattle.bag_read.specs.Manifest as spec;
ghost use Rattle.bag_read.specs.ReadEntries as of_line;
ghost use Rattle.bag_read.specs.Manifest.{IsEntry, IsManifestFault};
ghost use Rattle.bag_read.specs.Reason.{IsReadOf};
ghost use Rattle.bag_read.specs.ReadOnce.{IsReadOnce};

use crate::Kind;
use crate::line_fault::{
    LineForm, Parsed, Why, decode_known, line_count, read_lines, refuse, unread, without_prefix,
};
use crate::manifest_name::is_manifest_name;
use bag_entries::{Digest, ManifestEntry, Pool, repeated_lines};
use bag_text::{Alg, Code, Rules, Text, check_path, is_payload, split_at_blanks, text_of};
use std::alloc::{AllocError, Global};
use std::collections::BTreeSet;

/// Reads the bytes of a manifest of an algorithm (RFC 8493, 2.1.3 and 2.2.1). Each line that isn't
/// blank is an entry or has one fault; a path that is named again is a fault of the later line, and
/// its first entry counts. Bytes that aren't UTF-8 name nothing and have the one fault `NotUtf8`.
/// Takes time n log n in the number of lines. Fails only where memory runs out.
pub fn read_manifest(
    alloc: Global,
    rules: Rules,
    kind: Kind,
    alg: Alg,
    bytes: &[u8],
) -> Result<Parsed<ManifestEntry>, AllocError>
    ensures items { IfOk result (λ parsed.
        IsListOf (on (λ e. e.line) nat_cmp) (IsEntry rules kind alg (cut.lines_of_file bytes.now))
        parsed.items) }
    ensures faults { IfOk result (λ parsed.
        AreFaults (IsManifestFault rules kind alg bytes.now) parsed.faults) }
{
    read_manifest_among(alloc, &Pool::empty(alloc), rules, kind, alg, bytes)
}

/// The same, where many paths are known: those of the pool take no memory of their own.
pub fn read_manifest_among(
    alloc: Global,
    known: &Pool,
    rules: Rules,
    kind: Kind,
    alg: Alg,
    bytes: &[u8],
) -> Result<Parsed<ManifestEntry>, AllocError>
    ensures items { IfOk result (λ parsed.
        IsListOf (on (λ e. e.line) nat_cmp) (IsEntry rules kind alg (cut.lines_of_file bytes.now))
        parsed.items) }
    ensures faults { IfOk result (λ parsed.
        AreFaults (IsManifestFault rules kind alg bytes.now) parsed.faults) }
{
    match text_of(bytes) {
        Ok(text) => read_text(alloc, known, rules, kind, alg, text),
        Err(_) => unread(alloc),
    }
}

/// Reads a text. Where a path is named again, it is read once more, with the lines known that do.
fn read_text(
    alloc: Global,
    known: &Pool,
    rules: Rules,
    kind: Kind,
    alg: Alg,
    text: &str,
) -> Result<Parsed<ManifestEntry>, AllocError>
    ensures { IfOk result (λ parsed.
        IsReadOnce rules kind alg (cut.lines text.now) parsed.items parsed.faults) }
{
    let room = line_count(text);
    let form = ManifestForm {
        known,
        rules,
        kind,
        alg,
        repeated: BTreeSet::new(alloc),
    };
    let parsed = read_lines(alloc, &form, text, room)?;
    let repeated = repeated_lines(alloc, parsed.items.as_slice())?;
    if repeated.is_empty() {
        return Ok(parsed);
    }
    let form = ManifestForm {
        known,
        rules,
        kind,
        alg,
        repeated,
    };
    read_lines(alloc, &form, text, room)
}

/// How the lines of a manifest read.
#[derive(Drop)]
struct ManifestForm<'a> {
    /// Paths that take no memory of their own.
    known: &'a Pool,
    rules: Rules,
    kind: Kind,
    alg: Alg,
    /// The lines that are known to name the path of an earlier line.
    repeated: BTreeSet<u64>,
}

impl<'a> ManifestForm<'a> {
    /// Reads a line that isn't blank: its digest and its path, or the first reason why it doesn't
    /// read.
    fn line(&self, alloc: Global, line: &str) -> Result<(Digest, Text), Why>
        ensures { IsReadOf (spec.manifest_line self.now.rules self.now.kind self.now.alg line.now)
            result }
    {
        let (digits, rest) = split_at_blanks(line);
        let digest = self.digest(alloc, digits, rest)?;
        self.named(alloc, digest, without_marks(rest))
    }

    /// The digest, where it is hex of the algorithm's length and something follows it.
    fn digest(&self, alloc: Global, digits: &str, rest: &str) -> Result<Digest, Why>
        ensures { IsReadOf (spec.checked_digest self.now.alg digits.now rest.now) result }
    {
        if digits.is_empty() || !is_hex(digits.as_bytes()) || rest.is_empty() {
            return refuse(alloc, Code::ManifestLine, "");
        }
        if digits.len() != self.alg.hex_len() {
            return refuse(alloc, Code::DigestLength, digits);
        }
        Ok(Digest::of_digits(alloc, self.alg, digits.as_bytes())?)
    }

    /// A line of which the digest is good, by how its path is spelled.
    fn named(&self, alloc: Global, digest: Digest, spelling: &str) -> Result<(Digest, Text), Why>
        ensures { IsReadOf (spec.line_by_spelling self.now.rules self.now.kind digest spelling.now)
            result }
    {
        let path = decode_known(
            alloc,
            self.known,
            self.rules,
            spelling,
            Code::ManifestEscape,
        )?;
        match misplaced(self.kind, path.as_str()) {
            None => Ok((digest, path)),
            Some(code) => Err(Why::Fault(code, path)),
        }
    }

    /// The entry of a line that says this, where it is the first that names the path.
    fn entry(&self, line: u64, digest: Digest, path: Text) -> Result<ManifestEntry, Why>
        ensures { IsReadOf
            (of_line.entry_unless (contains nat_cmp self.now.repeated line) line (digest, path))
            result }
    {
        if self.repeated.contains(&line) {
            Err(Why::Fault(Code::NamedAgain, path))
        } else {
            Ok(ManifestEntry { line, digest, path })
        }
    }
}

impl<'a> LineForm for ManifestForm<'a> {
    type Entry = ManifestEntry;

    ghost reads = { λ form line content.
        of_line.manifest_entry_in (λ n path. contains nat_cmp form.repeated n) form.rules form.kind
        form.alg line content };

    fn read(&self, alloc: Global, number: u64, line: &str) -> Result<ManifestEntry, Why> {
        let (digest, path) = self.line(alloc, line)?;
        self.entry(number, digest, path)
    }
}

/// Whether all bytes are hex digits. It takes no branch for a byte, as none could be predicted in a
/// digest.
fn is_hex(bytes: &[u8]) -> bool
    ensures { result ≡ list_all is_ascii_hexdigit bytes.now }
{
    let mut all = true;
    for b in bytes {
        all &= is_hex_digit(*b);
    }
    all
}

fn is_hex_digit(b: u8) -> bool
    ensures { result ≡ is_ascii_hexdigit b }
{
    b.is_ascii_digit() | ((b >= b'A') & (b <= b'F')) | ((b >= b'a') & (b <= b'f'))
}

/// The rest of a line without what may be written before a path: one `*`, as `md5sum -b` has it,
/// and then one `./`.
fn without_marks(rest: &str) -> &str
    ensures { result.now ≡ spec.without_marks rest.now }
{
    without_prefix(without_prefix(rest, "*"), "./")
}

/// Why a manifest of this kind may not name this text, if it may not.
fn misplaced(kind: Kind, path: &str) -> Option<Code>
    ensures { MatchOption result (spec.named_path kind path.now ≡ Ok path.now) (λ code.
        spec.named_path kind path.now ≡ Err (code, path.now)) }
{
    match kind {
        Kind::Payload => {
            if is_payload(path) {
                None
            } else if check_path(path).is_ok() {
                Some(Code::ManifestOutsidePayload)
            } else {
                Some(Code::ManifestUnsafePath)
            }
        }
        Kind::Tag => {
            if check_path(path).is_err() {
                Some(Code::ManifestUnsafePath)
            } else if is_payload(path) {
                Some(Code::TagmanifestNamesPayload)
            } else if is_manifest_name(Kind::Tag, path) {
                Some(Code::TagmanifestNamesTagmanifest)
            } else {
                None
            }
        }
    }
}
