//! Renewing a bag in place: one tag file after the other is put or removed, and its payload stays.
//!
//! ```
//! let mut renewal = Renewal::nothing(alloc);
//! renewal.added = AlgSet::empty().with(Alg::Sha512);
//! renew(alloc, &mut tree, &renewal)?;
//! ```
//!
//! What the renewed bag is, `bag_renewed` says: manifests of further algorithms are made, and elements
//! of `bag-info.txt` are set (RFC 8493, 2.1.1, 2.1.3, 2.2.1 and 2.2.2). A bag of version 0.97 stays
//! one and is written by its rules, or becomes one of 1.0 where that is asked. After the tag files
//! were read for what they say, `bag_checked` reads each file once: the digests that manifests give
//! are compared, and the new ones computed, over the same bytes; and the elements that stay are read
//! of these bytes.
//!
//! Of a bag in which a fault is found nothing is made. A fault of the renewed bag of an honest tree is
//! damage of the payload that wasn't read and that the old bag had. The changes that make it put or
//! remove one tag file after the other, each can be made after those before it, and none touches the
//! payload.
#![tactic(auto)]

pub mod laws;
mod renewing;

pub use bag_changes::RenewFault;
pub use bag_checked::{Unchecked, check_and_sum, new_manifests};
pub use bag_renewed::{ElementChanges, Renewal};
pub use bag_tags::TagFile;
pub use renewing::{plan_renewal, renew};
