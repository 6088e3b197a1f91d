//! Writes the tag files of a bag, so that what is written is read again as the same.
//!
//! ```
//! let declaration = write_declaration(alloc)?;
//! let info = write_info(alloc, &elements)?;
//! let manifest = write_manifest(alloc, Kind::Payload, Alg::Sha256, &entries)?;
//! ```
//!
//! Of RFC 8493 it keeps the declaration (2.1.1), payload manifests (2.1.3), the metadata (2.2.2)
//! and tag manifests (2.2.1). What reads them is in `bag_read`, and is shown here.
//!
//! A text is written exactly, or refused where it wouldn't be read again as what was given. What is
//! written is read again, by the rules of 1.0, as the same and nothing else, with no fault.
//!
//! The manifests of a bag of version 0.97 are written by its rules (`write_manifest_by`,
//! `manifests_by`), where each path can be named by them (`is_unnameable`), and are read again by
//! them. Metadata that is written reads the same by the rules of both versions.
#![tactic(auto)]

mod declaration;
mod distinct;
mod element;
mod entry;
mod fault;
mod info;
pub mod laws;
mod line;
mod long_info;
mod manifest;
pub mod said;
mod spelling;
mod summed;
mod tag_file;

pub use bag_read::{
    Declaration, Digest, Element, FetchEntry, Kind, LineFault, ManifestEntry, OXUM_LABEL, Oxum,
    Parsed, TagName, declared_rules, manifest_alg, oxum_of, read_declaration, read_fetch,
    read_info, read_manifest,
};
pub use declaration::{DECLARATION_TEXT, declaration_file, write_declaration};
pub use element::{are_texts, is_bad_element, oxum_value};
pub use fault::WriteFault;
pub use info::write_info;
pub use long_info::{is_bad_long_element, write_long_info};
pub use manifest::{push_entry, write_manifest, write_manifest_by};
pub use spelling::is_unnameable;
pub use summed::{SummedFile, manifests_by, manifests_of, sum_text, sum_texts, sums_of};
pub use tag_file::TagFile;
