//! What tag files say.
use crate::bytes::Bytes;
use crate::shown::Shown;
use bag_read::{
    Declaration, Element, FetchEntry, Kind, LineFault, ManifestEntry, Parsed, TagName, manifest_alg,
};
use bag_text::Text;

/// Each fault's code, line and detail.
fn put_faults(faults: &[LineFault], out: &mut Bytes) {
    for fault in faults {
        out.show(&fault.code.number(), " ");
        out.show(&fault.line, " ");
        out.show(&fault.detail, "|");
    }
}

fn or_none(text: &Option<Text>) -> &str {
    match text {
        Some(text) => text.as_str(),
        None => "none",
    }
}

/// What `bagit.txt` declares: the version, the encoding, and the faults.
impl Shown for Declaration {
    fn put_in(&self, out: &mut Bytes) {
        out.show(&or_none(&self.version), " ");
        out.show(&or_none(&self.encoding), "|");
        put_faults(self.faults.as_slice(), out);
    }
}

/// What metadata says: each element's line, label and value, and the faults.
impl Shown for Parsed<Element> {
    fn put_in(&self, out: &mut Bytes) {
        for element in self.items.as_slice() {
            out.show(&element.line, "<");
            out.show(&element.label, "><");
            out.show(&element.value, ">|");
        }
        put_faults(self.faults.as_slice(), out);
    }
}

/// What `fetch.txt` says: each entry's line, URL, length and path, and the faults.
impl Shown for Parsed<FetchEntry> {
    fn put_in(&self, out: &mut Bytes) {
        for entry in self.items.as_slice() {
            out.show(&entry.line, " ");
            out.show(&entry.url, " ");
            out.show(&entry.length, " ");
            out.show(&entry.path, "|");
        }
        put_faults(self.faults.as_slice(), out);
    }
}

/// What a manifest says: each entry's line, digest and path, and the faults.
impl Shown for Parsed<ManifestEntry> {
    fn put_in(&self, out: &mut Bytes) {
        let alloc = out.alloc;
        for entry in self.items.as_slice() {
            out.show(&entry.line, " ");
            out.take(entry.digest.to_text(alloc));
            out.put(" ");
            out.show(&entry.path, "|");
        }
        put_faults(self.faults.as_slice(), out);
    }
}

/// What a tag file is by its name; `?` where its algorithm isn't supported.
pub(crate) fn manifest_name(name: &str, out: &mut Bytes) {
    let known = TagName::at(name);
    let mark = if known.is_none() { "? " } else { "" };
    match (
        manifest_alg(Kind::Payload, name),
        manifest_alg(Kind::Tag, name),
    ) {
        (Some(alg), _) => put_alg("payload ", mark, alg, out),
        (None, Some(alg)) => put_alg("tag ", mark, alg, out),
        (None, None) => out.put(match known {
            Some(TagName::Declaration) => "declaration",
            Some(TagName::Info) => "metadata",
            Some(TagName::Fetch) => "files to fetch",
            Some(TagName::Manifest(_, _)) => "a manifest without an algorithm",
            None => "none",
        }),
    }
}

fn put_alg(kind: &str, mark: &str, alg: &str, out: &mut Bytes) {
    out.put(kind);
    out.put(mark);
    out.put(alg);
}
