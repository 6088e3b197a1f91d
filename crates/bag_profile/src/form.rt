//! In which form a bag lies.

/// In which form a bag lies that is compared with a profile (RFC 8493, 2 and 4).
#[derive(Clone, Copy, Debug, PartialEq, Eq)]
pub enum Form {
    /// A base folder: the bag isn't serialized.
    Folder,
    /// One file that holds the base folder: the bag is serialized.
    Archive,
}
