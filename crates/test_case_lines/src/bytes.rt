//! Bytes that grow.
use crate::mistake::Mistake;
use std::alloc::Global;
use std::fmt::Display;
use std::io::Write;

/// Bytes that grow, and the first mistake that was made on the way.
#[derive(Drop)]
pub struct Bytes {
    pub alloc: Global,
    pub held: Vec<u8>,
    pub mistake: Option<Mistake>,
}

impl Bytes {
    /// No bytes yet.
    pub fn new(alloc: Global) -> Bytes {
        Bytes::of(alloc, Vec::new(alloc))
    }

    /// These bytes.
    pub fn of(alloc: Global, held: Vec<u8>) -> Bytes {
        Bytes {
            alloc,
            held,
            mistake: None,
        }
    }

    /// Whether these are the same bytes, without a mistake.
    pub fn is_same(&self, other: &Bytes) -> bool {
        self.held.as_slice() == other.held.as_slice()
            && self.mistake.is_none()
            && other.mistake.is_none()
    }

    /// Notes a mistake, unless there was one before.
    pub fn fail(&mut self, mistake: Mistake) {
        if self.mistake.is_none() {
            self.mistake = Some(mistake);
        }
    }

    /// Adds bytes.
    pub fn put_bytes(&mut self, bytes: &[u8]) {
        if self.held.extend_from_slice(bytes).is_err() {
            self.fail(Mistake::Memory);
        }
    }

    /// Adds a text.
    pub fn put(&mut self, text: &str) {
        self.put_bytes(text.as_bytes());
    }

    /// Adds what a value shows itself as, and a text after it.
    pub fn show<T: Display>(&mut self, value: &T, after: &str) {
        if write!(self.held, "{value}{after}").is_err() {
            self.fail(Mistake::Memory);
        }
    }
}
