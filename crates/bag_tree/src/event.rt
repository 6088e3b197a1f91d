//! What a device did.
use bag_text::{Items, Text};

/// A change that a device made, or what it was asked to make durable.
///
/// A path leads from the base folder; the empty one is the base folder.
#[derive(Debug, Drop)]
pub enum DeviceEvent {
    /// An empty folder was made in the base folder.
    MakeFolder(Text),
    /// What stood at one path, with all that is below it, stands at another.
    Rename(Text, Text),
    /// An empty file was made in the base folder.
    Create(Text),
    /// A file of the base folder was removed.
    Remove(Text),
    /// Bytes were put after those of a file.
    Write(Text, Items<u8>),
    /// The bytes of a file were made durable.
    Sync(Text),
    /// The names in a folder were made durable.
    SyncFolder(Text),
    /// A sync of a file or a folder was refused: what wasn't durable by then may be lost, whatever
    /// is synced later.
    SyncRefused(Text),
}
