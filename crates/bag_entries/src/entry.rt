//! An entry of a manifest (RFC 8493, 2.1.3 and 2.2.1).
use crate::Digest;
use bag_text::{HasPath, Text};

/// A line of a manifest that reads: the digest, and the path that is named.
#[derive(Debug, Drop)]
pub struct ManifestEntry {
    /// Counted from 1.
    pub line: u64,
    pub digest: Digest,
    /// Decoded, and safe.
    pub path: Text,
}

impl HasPath for ManifestEntry {
    ghost path_of = { λ entry. entry.path };

    fn path(&self) -> &Text {
        &self.path
    }
}
