//! Trees of the files on a disk; and all that stores a bag, under one name.
//!
//! ```
//! let mut tree = FileTree::at(rt, alloc, "deposit")?;
//! let listing = tree.list()?;
//! for entry in listing.files.as_slice() {
//!     let bytes = read_whole(alloc, &mut tree, entry)?;
//! }
//! ```
//!
//! A `FileTree` stands over any `Disk`, a few calls of the system below a base folder, and is
//! proved for each honest one. Over a `WritableDisk` it can be changed step by step, so that a
//! folder is made a bag in place (RFC 8493, 2.1); over a `ReplaceDisk` files of its base folder can
//! be put in place of others, and removed, and it can be asked whether a folder has a name there.
//! `FileTree::at` is the tree over the system's disk, of which nothing is promised. What a tree
//! means, its changes and its digests are in `bag_tree`, trees in memory in `bag_memory`, disks in
//! `bag_disk`.
//!
//! A tree of files is honest where its disk is, and has what stands there; a step on an honest one
//! is its function on bags, and replaces nothing but a file of the name that is given.
#![tactic(auto)]

mod answered;
mod changing;
mod file_tree;
pub mod laws;
mod replacing;
mod standing;
mod syncing;
mod target;
mod writing;

pub use bag_disk::{Disk, DiskFault, Entry, ReplaceDisk, WritableDisk};
pub use bag_memory::{FailTree, MemoryTree, SkewTree};
pub use bag_system::SystemDisk;
pub use bag_tree::{
    Answer, DeviceEvent, Digests, FileEntry, HexFault, Listing, Out, Refused, ReplaceTree, Stop,
    Sums, Tree, TreeFault, WriteTree, WriterOut, digest_file, put_all, put_pieces, read_whole,
};
pub use file_tree::FileTree;
