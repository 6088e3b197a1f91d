//! What a tree holds.
use bag_text::{HasPath, Items, Text};

/// A file of a tree.
#[derive(Debug, Drop)]
pub struct FileEntry {
    /// The path from the base folder, its components joined by `/`.
    pub path: Text,
    /// The size in bytes.
    pub size: u64,
}

impl HasPath for FileEntry {
    ghost path_of = { λ file. file.path };

    fn path(&self) -> &Text {
        &self.path
    }
}

/// The files of a tree in the order of their paths, and whether its base folder has the folder
/// `data`.
#[derive(Debug, Drop)]
pub struct Listing {
    /// In the order of their paths by bytes.
    pub files: Items<FileEntry>,
    /// Whether there is the payload folder, `data`.
    pub has_data: bool,
}
