//! Reads profiles of bags: which labels, manifests, tag files and versions a bag may or must have.
//!
//! ```
//! let profile = Profile::read(alloc, &bytes)?;
//! for rule in profile.labels() {
//!     if rule.required {
//!         require(rule.label.as_str());
//!     }
//! }
//! let patterns = profile.names(ListRule::TagFilesAllowed);
//! ```
//!
//! Of the BagIt Profiles Specification 1.x it keeps the keys of "Implementation Details" that `Key`
//! names, and the patterns of `Tag-Files-Allowed`. It looks at no bag.
//!
//! A profile is exactly that of the bytes, or the first thing that is wrong with it, but for
//! memory.
#![tactic(auto)]

mod fault;
mod form;
mod key;
mod label;
pub mod laws;
mod name_lists;
mod pattern;
mod profile;
mod read;
mod rule;
pub mod said;
mod terms;
mod text_set;
mod unchecked;

pub use fault::ProfileFault;
pub use form::Form;
pub use key::Key;
pub use label::LabelRule;
pub use pattern::matches;
pub use profile::Profile;
pub use rule::ListRule;
pub use terms::Serialization;
