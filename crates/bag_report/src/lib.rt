//! The report of a bag: what is a fault of it, which faults are asked for, and how they are found,
//! stage by stage.
//!
//! ```
//! let facts = Facts::read(alloc, &mut tree, options)?;
//! for fault in &stage_faults(alloc, &facts, Some(&profile), Stage::Conformance.number())? {
//!     let line = fault.to_line(alloc)?;
//!     let same = Fault::from_line(alloc, line.as_str())?;
//! }
//! ```
//!
//! Of RFC 8493 it keeps what a complete bag and a valid one have (3). What is read of a bag is in
//! `bag_facts`, faults and their lines are in `bag_faults`, profiles in `bag_profile`, the faults of
//! each other stage than the eighth in `bag_stages`. Those of the eighth are here: where a bag
//! doesn't conform to a profile (BagIt Profiles Specification), of what was read of it beyond the
//! declaration.
//!
//! Of each stage but the seventh exactly the part of the report is found that is asked for; every
//! bag has exactly one report.
#![tactic(auto)]

mod by_label;
mod conformance;
mod elements;
mod info_fault;
mod label_rule;
pub mod laws;
mod manifest_names;
mod profile_rules;
mod stages;
mod tag_files;
mod whole_bag;

pub use bag_facts::{Facts, FetchList, Manifest, Metadata, TagFacts};
pub use bag_faults::{CursorFault, Depth, Fault, Options, Stage};
pub use bag_profile::{Profile, ProfileFault};
pub use conformance::conformance_faults;
pub use stages::{faults_of_stage, stage_faults};
