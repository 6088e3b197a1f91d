//! What a tree of files is and how it can be changed, what takes the output, and the digests of
//! files.
//!
//! ```
//! let listing = tree.list()?;
//! for entry in listing.files.as_slice() {
//!     let sums = digest_file(&mut tree, entry, algs, &mut buffer)?;
//! }
//! tree.make_folder("new")?;
//! tree.move_in("readme.txt", "new")?;
//! ```
//!
//! Of RFC 8493 it keeps the structure of a bag: files by path, and the payload folder (2, 2.1.2),
//! and the checksum algorithms and how their values are spelled (2.4). With the steps of a
//! `WriteTree` a folder is made a bag in place (2.1).
//!
//! Over an honest tree what is listed or read is the bag, or a named refusal; over any tree each
//! refusal is one that the call may answer, and openings and device failures are counted. An output
//! says what it took and whether it has refused. An answered step is its function on the bag of an
//! honest tree; a refused one changes nothing, but that a refused `create` may leave a file of some
//! first bytes. Digests are those of the joined bytes, by the algorithms asked for alone, however
//! the reads are cut.
#![tactic(auto)]

mod answer;
mod changing_files;
mod digests;
mod event;
mod file_change;
mod file_reading;
mod file_sums;
mod given_files;
mod hasher;
mod heard;
pub mod laws;
mod listing;
mod out;
mod path_rest;
mod putting;
mod replace_tree;
pub mod said;
mod sums;
mod tree;
mod tree_fault;
mod whole;
mod write_tree;
mod writer_out;

pub use answer::Answer;
pub use changing_files::{RefusedChange, change_files};
pub use digests::Digests;
pub use event::DeviceEvent;
pub use file_change::FileChange;
pub use file_sums::digest_file;
pub use given_files::GivenFiles;
pub use heard::Heard;
pub use listing::{FileEntry, Listing};
pub use out::{Out, Refused};
pub use path_rest::rest_within;
pub use putting::{put_all, put_pieces};
pub use replace_tree::ReplaceTree;
pub use sums::{HexFault, Sums};
pub use tree::Tree;
pub use tree_fault::{Stop, TreeFault};
pub use whole::read_whole;
pub use write_tree::WriteTree;
pub use writer_out::WriterOut;
