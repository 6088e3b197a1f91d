//! What is read of a bag: its files, and what its tag files say.
//!
//! ```
//! let facts = Facts::read(alloc, &mut tree, options)?;
//! for tag in facts.tags.as_slice() {
//!     if let TagFacts::Manifest(manifest) = tag {
//!         let entries = manifest.entries.as_slice();
//!     }
//! }
//! ```
//!
//! Of RFC 8493 it keeps which files of a bag are tag files that are read (2.1, 2.2), and what each
//! of them says.
//!
//! The facts are the bag's, of an honest tree, and else those of some bag with the listed files;
//! exactly the wanted tag files are opened, each once and in path order.
#![tactic(auto)]

mod facts;
mod listed_manifest;
mod pooling;
mod tag_facts;
mod tag_reader;

pub use facts::Facts;
pub use tag_facts::{FetchList, Manifest, Metadata, TagFacts};
