//! The faults that each stage of a check finds, of what was read of a bag.
//!
//! ```
//! let facts = Facts::read(alloc, &mut tree, options)?;
//! for fault in &manifest_faults(alloc, &facts)? {
//!     let line = fault.to_line(alloc)?;
//! }
//! ```
//!
//! Of RFC 8493 it keeps the declaration (2.1.1), the parts of a bag (2.1, 2.3 and 2.4), the
//! metadata and the payload's size in it (2.2.2), the list of files to fetch (2.2.3), manifests
//! whose lines are right (2.1.3, 2.2.1), and complete and valid bags (3). The module of a stage
//! finds its faults, and the page of `specs` with its name and `Stage` says what they are; of the
//! seventh `sum_faults` and `ValidityStage`. No file is opened: the stage of digests takes those of
//! one file after the other.
//!
//! Each stage's faults are found exactly. Only clashes of names depend on an option, and only stage
//! 1 can do with facts of the declaration alone. The algorithms whose manifests name a file are
//! exactly the expected ones, and of its digests the seventh stage's faults are found exactly.
#![tactic(auto)]

mod appended;
mod clashes;
mod completeness;
mod declaration;
mod expected;
mod fetch;
pub mod laws;
mod left_out;
mod manifests;
mod metadata;
mod missing;
mod named;
mod names;
mod oxum_faults;
mod packed;
mod parts;
mod payload_named;
mod payload_size;
mod places;
mod seek;
mod sum_faults;
mod tag_file;

pub use completeness::completeness_faults;
pub use declaration::declaration_faults;
pub use expected::expected_of;
pub use fetch::fetch_faults;
pub use manifests::manifest_faults;
pub use metadata::metadata_faults;
pub use named::{is_named, is_named_by};
pub use names::in_order;
pub use packed::{Packed, Unpacking};
pub use parts::parts_faults;
pub use payload_size::PayloadSize;
pub use places::Places;
pub use sum_faults::faults_by;
