//! What the readers and writers answer, as rows want it.
use crate::bytes::Bytes;
use bag_faults::Fault;
use bag_text::Text;
use std::fmt::Display;

/// What is put into bytes as a row wants it.
pub trait Shown {
    fn put_in(&self, out: &mut Bytes);
}

impl Bytes {
    /// Adds what was answered, or why it was refused.
    pub fn take<T: Shown + Drop, E: Display + Drop>(&mut self, answer: Result<T, E>) {
        match &answer {
            Ok(value) => value.put_in(self),
            Err(refusal) => self.show(refusal, ""),
        }
    }
}

impl Shown for String {
    fn put_in(&self, out: &mut Bytes) {
        out.put(self.as_str());
    }
}

impl Shown for Text {
    fn put_in(&self, out: &mut Bytes) {
        out.put(self.as_str());
    }
}

impl Shown for Vec<u8> {
    fn put_in(&self, out: &mut Bytes) {
        out.put_bytes(self);
    }
}

impl Shown for Fault {
    fn put_in(&self, out: &mut Bytes) {
        let alloc = out.alloc;
        out.take(self.to_line(alloc));
    }
}

/// Each fault's line, with its end.
impl Shown for Vec<Fault> {
    fn put_in(&self, out: &mut Bytes) {
        for fault in self {
            fault.put_in(out);
            out.put("\n");
        }
    }
}
