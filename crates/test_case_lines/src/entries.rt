//! What the entries of a case file say.
use crate::answers::Answer;
use crate::bytes::Bytes;
use crate::lines::{Entry, Word};
use crate::mistake::Mistake;
use crate::reader::Reader;
use crate::report::{Report, Sight};
use crate::texts::Texts;

/// The name in an entry and its value, as in `NAME = VALUE`.
fn name_and_value(rest: &str) -> (&str, Option<&str>) {
    match (rest.split_once(" = "), rest.strip_suffix(" =")) {
        (Some((name, value)), _) => (name, Some(value)),
        (None, Some(name)) => (name, Some("")),
        (None, None) => (rest, None),
    }
}

/// The bytes of an entry: those of its value, where it has one, or else of the lines below it. A
/// folder takes neither, and a link a value alone.
fn value_of(texts: &Texts, entry: Entry<'_>, value: Option<&str>) -> Bytes {
    let mistake = match (entry.line.word, value) {
        (Word::Folder, Some(_)) | (Word::Link, None) => Mistake::Value,
        (Word::Folder, None) | (_, Some(_)) if !entry.below.is_empty() => Mistake::Unasked,
        (_, Some(value)) => return texts.bytes(value),
        (_, None) => return texts.lines(entry.below),
    };
    let mut bytes = Bytes::new(texts.alloc);
    bytes.fail(mistake);
    bytes
}

/// The path at which an entry puts something, below a folder, and what that holds.
pub fn path_and_bytes(
    texts: &Texts,
    folder: &[u8],
    entry: Entry<'_>,
    report: &mut Report,
) -> (Bytes, Bytes) {
    let (name, value) = name_and_value(entry.line.rest);
    let mut path = Bytes::new(texts.alloc);
    path.put_bytes(folder);
    texts.add_text(name, &mut path);
    report.note(&path);
    let bytes = value_of(texts, entry, value);
    report.note(&bytes);
    (path, bytes)
}

/// `text NAME = VALUE`: gives a text a name.
pub fn name_text(texts: &mut Texts, entry: Entry<'_>, report: &mut Report) {
    let (name, value) = name_and_value(entry.line.rest);
    let bytes = value_of(texts, entry, value);
    report.note(&bytes);
    if !texts.name(name, bytes.held) {
        report.text.fail(Mistake::Memory);
    }
}

/// Reads a row, as `LEFT => RIGHT`, and compares what is read of what the left side spells with
/// what the right one does.
pub fn read_row(reader: Option<Reader>, sight: &Sight<'_>, report: &mut Report) {
    let (Some(reader), Some((left, right))) = (reader, sight.entry.line.rest.split_once("=>"))
    else {
        report.text.fail(Mistake::Row);
        return;
    };
    let texts = sight.texts;
    let bytes = texts.bytes(left.trim_matches(' '));
    report.note(&bytes);
    let mut found = Bytes::new(texts.alloc);
    reader.read(texts.alloc, &bytes.held, &mut found);
    let found = Answer::of(texts.alloc, found, 0);
    let wanted = Answer::of(texts.alloc, texts.bytes(right.trim_matches(' ')), 0);
    report.compare(sight, "read", &wanted, &found);
}
