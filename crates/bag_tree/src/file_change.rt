//! A change of one file of the base folder.
use bag_text::{Items, Text};

/// A change of one file of the base folder, which a reader sees made or not made, and nothing of it
/// between.
#[derive(Debug, Drop)]
pub enum FileChange {
    /// A file of these bytes stands there, in place of any other of its name.
    Put(Text, Items<u8>),
    /// The file doesn't stand there.
    Remove(Text),
}
