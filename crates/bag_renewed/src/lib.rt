//! What a renewed bag is: what is asked of a bag, and what that makes of it.
//!
//! ```
//! let mut renewal = Renewal::nothing(alloc);
//! renewal.added = AlgSet::empty().with(Alg::Sha512);
//! let target = target_of(&facts, &renewal);
//! let elements = renewed_elements(alloc, &renewal.elements, size, &old)?;
//! ```
//!
//! The bag has the payload that it had. Its manifests are of the algorithms that it had or that are
//! added, but for those that are dropped; elements of `bag-info.txt` are set, unset and appended, and
//! `Payload-Oxum` stands there once (RFC 8493, 2.1.3, 2.2.1 and 2.2.2). A bag of version 0.97 stays
//! one, or becomes one of 1.0 where that is asked. What needs no change is kept.
//!
//! What is decided of a bag is decided once, by what was read of it.
#![tactic(auto)]

mod algorithms;
mod elements;
mod renewal;
mod target;

pub use algorithms::{algs_there, has, has_some, passing};
pub use elements::{is_bad_request, renewed_elements};
pub use renewal::{ElementChanges, Renewal};
pub use target::{Target, target_of};
