//! Reads the tag files of a bag: what they say, and what is wrong with them, line by line.
//!
//! ```
//! let declaration = read_declaration(alloc, &bytes)?;
//! let manifest = read_manifest(alloc, Rules::V10, Kind::Payload, Alg::Sha256, &bytes)?;
//! for entry in manifest.items.as_slice() {
//!     let (path, digest) = (entry.path.as_str(), entry.digest.bytes());
//! }
//! ```
//!
//! Of RFC 8493 it keeps the declaration (2.1.1), payload manifests (2.1.3) and tag manifests
//! (2.2.1), the metadata (2.2.2) and the list of files to fetch (2.2.3).
//!
//! Each call says what a tag file says, by the rules of either version, and exactly what is wrong
//! with it, in line order.
#![tactic(auto)]

mod declaration;
mod declaration_faults;
mod declaration_line;
mod fetch;
mod info;
mod info_line;
mod info_reader;
mod kind;
pub mod laws;
mod line_fault;
mod manifest;
mod manifest_name;
mod oxum;
mod tag_name;

pub use bag_entries::{Digest, ManifestEntry};
pub use declaration::{Declaration, declared_rules, read_declaration};
pub use fetch::{FetchEntry, read_fetch};
pub use info::{Element, read_info};
pub use kind::Kind;
pub use line_fault::{LineFault, Parsed};
pub use manifest::{read_manifest, read_manifest_among};
pub use manifest_name::{is_manifest_name, manifest_alg};
pub use oxum::{OXUM_LABEL, Oxum, number_of, oxum_of};
pub use tag_name::{DECLARATION, INFO, TagName};
