//! What texts, lines, paths, codes, algorithms and patterns are.
use crate::bytes::Bytes;
use crate::mistake::Mistake;
use bag_profile::matches;
use bag_read::oxum_of;
use bag_text::{
    Alg, AlgSet, Code, check_path, is_blank_line, is_payload, lines, same_label, split_at_blanks,
    trim,
};
use bag_tree::{Digests, HexFault};
use std::alloc::Global;

/// The digest of bytes, in hex.
pub(crate) fn hex_of(alloc: Global, alg: Alg, bytes: &[u8]) -> Result<String, HexFault> {
    let mut digests = Digests::new(AlgSet::empty().with(alg));
    digests.update(bytes);
    digests.finish().hex(alloc, alg)
}

/// How many bytes and files a value of `Payload-Oxum` says.
pub(crate) fn oxum(text: &str, out: &mut Bytes) {
    match oxum_of(text) {
        Some(oxum) => {
            out.show(&oxum.octets, " ");
            out.show(&oxum.streams, "");
        }
        None => out.put("none"),
    }
}

/// The lines of a text, each with its number.
pub(crate) fn numbered(text: &str, out: &mut Bytes) {
    for (number, line) in lines(text) {
        out.show(&number, "<");
        out.show(&line, ">|");
    }
}

/// What stands before the first blanks of a line, and after them.
pub(crate) fn parted(line: &str, out: &mut Bytes) {
    let (front, back) = split_at_blanks(line);
    out.show(&front, "<");
    out.show(&back, ">");
}

/// How many hex digits a digest of an algorithm has, and the place of the algorithm in the order.
pub(crate) fn algorithm(name: &str, out: &mut Bytes) {
    match Alg::from_name(name) {
        Some(alg) => {
            out.show(&alg.hex_len(), " ");
            out.show(&alg.rank(), "");
        }
        None => out.put("none"),
    }
}

/// The word of the fault code with a number.
pub(crate) fn code(text: &str, out: &mut Bytes) {
    match text.parse::<u16>() {
        Ok(number) => out.put(match Code::from_number(number) {
            Some(code) if code.number() == number => code.word(),
            Some(_) => "another number",
            None => "none",
        }),
        Err(_) => out.fail(Mistake::Number),
    }
}

/// What a text is as a path.
pub(crate) fn path(text: &str) -> &'static str {
    match (check_path(text).is_ok(), is_payload(text)) {
        (false, false) => "no path",
        (false, true) => "no path, but in the payload",
        (true, false) => "path",
        (true, true) => "payload path",
    }
}

/// A text without the blanks at its ends.
pub(crate) fn trimmed(text: &str) -> &str {
    let trimmed = trim(text);
    if is_blank_line(text) == trimmed.is_empty() {
        trimmed
    } else {
        "a blank line that isn't one"
    }
}

/// Whether two labels are the same.
pub(crate) fn labels(text: &str, out: &mut Bytes) {
    match text.split_once('|') {
        Some((a, b)) if same_label(a, b) => out.put("same"),
        Some(_) => out.put("not the same"),
        None => out.fail(Mistake::Row),
    }
}

/// Whether a pattern matches the name after it.
pub(crate) fn matched(text: &str, out: &mut Bytes) {
    match text.split_once(' ') {
        Some((pattern, name)) if matches(pattern, name) => out.put("matches"),
        Some(_) => out.put("doesn't match"),
        None => out.fail(Mistake::Row),
    }
}
