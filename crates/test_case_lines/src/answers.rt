//! Answers: what a command writes, what it reports, and its status.
use crate::bytes::Bytes;
use std::alloc::Global;

/// What is written, what is reported on the error output, and the exit status.
#[derive(Drop)]
pub struct Answer {
    pub written: Bytes,
    pub told: Bytes,
    pub status: u8,
}

impl Answer {
    /// The answer of what reports nothing.
    pub fn of(alloc: Global, written: Bytes, status: u8) -> Answer {
        Answer {
            written,
            told: Bytes::new(alloc),
            status,
        }
    }

    /// Whether all three are the same, byte for byte, and there is no mistake.
    pub fn is_same(&self, other: &Answer) -> bool {
        self.written.is_same(&other.written)
            & self.told.is_same(&other.told)
            & (self.status == other.status)
    }
}
