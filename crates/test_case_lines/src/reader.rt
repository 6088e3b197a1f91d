//! What a row is read by.
use crate::bytes::Bytes;
use crate::mistake::Mistake;
use crate::plans::plan;
use crate::spelled;
use crate::tag_files::manifest_name;
use crate::written::pairs_of;
use bag_faults::Fault;
use bag_profile::Profile;
use bag_read::{Kind, read_declaration, read_fetch, read_info, read_manifest};
use bag_tags::{write_info, write_manifest_by};
use bag_text::{Alg, Rules, escape_path, text_of, unescape_path};
use std::alloc::Global;

/// What a row is read by.
#[derive(Clone, Copy)]
pub enum Reader {
    /// What `bagit.txt` declares.
    Declaration,
    /// What `bag-info.txt` says by the rules of a version.
    Info(Rules),
    /// What `fetch.txt` says.
    Fetch(Rules),
    /// What a manifest of an algorithm says.
    Manifest(Rules, Kind, Alg),
    Profile,
    /// The text that bytes are.
    Text,
    /// A digest of bytes.
    Digest(Alg),
    WriteInfo,
    /// The text of a manifest by the rules of a version.
    WriteManifest(Rules, Kind, Alg),
    Oxum,
    /// A line of a report, which is written again.
    Line,
    /// The spelling of a path in a manifest.
    Escape,
    Unescape(Rules),
    Path,
    Trim,
    /// The numbered lines of a text.
    Lines,
    /// Two labels, with `|` between them.
    Label,
    /// What stands before the first blanks of a line, and after them.
    Blanks,
    /// The number of a fault code.
    Code,
    Algorithm,
    /// The name of a file in the base folder.
    ManifestName,
    /// A pattern, and after a space the name that it may match.
    Pattern,
    /// Words of the command line.
    Plan,
}

/// The readers that have a name of one word.
const ONE_WORD: &[(&str, Reader)] = &[
    ("declaration", Reader::Declaration),
    ("info", Reader::Info(Rules::V10)),
    ("fetch", Reader::Fetch(Rules::V10)),
    ("profile", Reader::Profile),
    ("text", Reader::Text),
    ("write-info", Reader::WriteInfo),
    ("oxum", Reader::Oxum),
    ("line", Reader::Line),
    ("escape", Reader::Escape),
    ("unescape", Reader::Unescape(Rules::V10)),
    ("path", Reader::Path),
    ("trim", Reader::Trim),
    ("lines", Reader::Lines),
    ("label", Reader::Label),
    ("blanks", Reader::Blanks),
    ("code", Reader::Code),
    ("algorithm", Reader::Algorithm),
    ("manifest-name", Reader::ManifestName),
    ("pattern", Reader::Pattern),
    ("plan", Reader::Plan),
];

/// Those after whose name an algorithm stands, in place of the one here.
const BY_ALGORITHM: &[(&str, Reader)] = &[
    (
        "manifest",
        Reader::Manifest(Rules::V10, Kind::Payload, Alg::Md5),
    ),
    (
        "tagmanifest",
        Reader::Manifest(Rules::V10, Kind::Tag, Alg::Md5),
    ),
    (
        "write-manifest",
        Reader::WriteManifest(Rules::V10, Kind::Payload, Alg::Md5),
    ),
    (
        "write-tagmanifest",
        Reader::WriteManifest(Rules::V10, Kind::Tag, Alg::Md5),
    ),
    ("digest", Reader::Digest(Alg::Md5)),
];

fn named(readers: &[(&str, Reader)], word: &str) -> Option<Reader> {
    for (name, reader) in readers {
        if *name == word {
            return Some(*reader);
        }
    }
    None
}

impl Reader {
    /// The reader that words ask for, as `manifest md5`; with `0.97` after them by the rules of
    /// that version.
    pub fn of(words: &[&str]) -> Option<Reader> {
        match words {
            [words @ .., "0.97"] => Reader::of_name(words)?.older(),
            _ => Reader::of_name(words),
        }
    }

    fn of_name(words: &[&str]) -> Option<Reader> {
        match words {
            [word] => named(ONE_WORD, *word),
            [word, alg] => Some(named(BY_ALGORITHM, *word)?.by(Alg::from_name(*alg)?)),
            _ => None,
        }
    }

    /// The same reader by the rules of version 0.97, where it goes by rules.
    fn older(self) -> Option<Reader> {
        match self {
            Reader::Info(_) => Some(Reader::Info(Rules::V097)),
            Reader::Fetch(_) => Some(Reader::Fetch(Rules::V097)),
            Reader::Unescape(_) => Some(Reader::Unescape(Rules::V097)),
            Reader::Manifest(_, kind, alg) => Some(Reader::Manifest(Rules::V097, kind, alg)),
            Reader::WriteManifest(_, kind, alg) => {
                Some(Reader::WriteManifest(Rules::V097, kind, alg))
            }
            _ => None,
        }
    }

    /// The same reader, by an algorithm.
    fn by(self, alg: Alg) -> Reader {
        match self {
            Reader::Manifest(rules, kind, _) => Reader::Manifest(rules, kind, alg),
            Reader::WriteManifest(rules, kind, _) => Reader::WriteManifest(rules, kind, alg),
            _ => Reader::Digest(alg),
        }
    }

    /// Adds what is read in bytes.
    pub fn read(self, alloc: Global, bytes: &[u8], out: &mut Bytes) {
        match self {
            Reader::Declaration => out.take(read_declaration(alloc, bytes)),
            Reader::Info(rules) => out.take(read_info(alloc, rules, bytes)),
            Reader::Fetch(rules) => out.take(read_fetch(alloc, rules, bytes)),
            Reader::Manifest(rules, kind, alg) => {
                out.take(read_manifest(alloc, rules, kind, alg, bytes));
            }
            Reader::Profile => out.take(Profile::read(alloc, bytes)),
            Reader::Digest(alg) => out.take(spelled::hex_of(alloc, alg, bytes)),
            _ => match text_of(bytes) {
                Ok(text) => self.read_text(alloc, text, out),
                Err(_) => self.refuse_text(out),
            },
        }
    }

    /// Adds what is said of bytes that are no text.
    fn refuse_text(self, out: &mut Bytes) {
        match self {
            Reader::Text => out.put("not UTF-8"),
            _ => out.fail(Mistake::Text),
        }
    }

    /// Adds what is read in a text.
    fn read_text(self, alloc: Global, text: &str, out: &mut Bytes) {
        match self {
            Reader::WriteInfo => {
                let elements = pairs_of(alloc, text, out);
                out.take(write_info(alloc, &elements));
            }
            Reader::WriteManifest(rules, kind, alg) => {
                let entries = pairs_of(alloc, text, out);
                out.take(write_manifest_by(alloc, rules, kind, alg, &entries));
            }
            Reader::Plan => plan(alloc, text, out),
            Reader::Line => out.take(Fault::from_line(alloc, text)),
            Reader::Escape => out.take(escape_path(alloc, text)),
            Reader::Unescape(rules) => out.take(unescape_path(alloc, rules, text)),
            _ => self.read_part(text, out),
        }
    }

    /// Adds what is read in a text without memory for it.
    fn read_part(self, text: &str, out: &mut Bytes) {
        match self {
            Reader::Oxum => spelled::oxum(text, out),
            Reader::Lines => spelled::numbered(text, out),
            Reader::Blanks => spelled::parted(text, out),
            Reader::Algorithm => spelled::algorithm(text, out),
            Reader::ManifestName => manifest_name(text, out),
            Reader::Code => spelled::code(text, out),
            Reader::Label => spelled::labels(text, out),
            Reader::Pattern => spelled::matched(text, out),
            Reader::Path => out.put(spelled::path(text)),
            Reader::Trim => out.put(spelled::trimmed(text)),
            _ => out.put(text),
        }
    }
}
