//! The two kinds of manifests.

/// A payload manifest (RFC 8493, 2.1.3) or a tag manifest (2.2.1).
#[derive(Clone, Copy, Debug, PartialEq, Eq)]
pub enum Kind {
    /// `manifest-ALG.txt`, which names payload files.
    Payload,
    /// `tagmanifest-ALG.txt`, which names other files.
    Tag,
}
