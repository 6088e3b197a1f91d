//! What a renewal reads of a bag, what stands in its way, and the changes that it makes, in their
//! order.
//!
//! ```
//! let (facts, target, checked) = read_bag(alloc, tree, &renewal)?;
//! let info = info_file(alloc, &facts, &renewal, &target, checked.info.as_slice())?;
//! let changes = changes_of(alloc, &facts, &target, checked.summed, info)?;
//! ```
//!
//! All of the bag that is wanted is read first: a bag is refused with the first of its faults, else for
//! what stands in the way, else for an element that can't be written (RFC 8493, 2.1.1, 2.1.3, 2.2.1 and
//! 2.2.2). The changes put or remove one tag file after the other, and none touches the payload.
#![tactic(auto)]

mod composing;
mod fault;
mod folders;
mod info;
mod named;
mod obstacles;
mod reading;
mod removing;
mod tag_files;
mod unlisted;

pub use composing::changes_of;
pub use fault::{RenewFault, refusal};
pub use info::info_file;
pub use obstacles::BEGUN_FILE;
pub use reading::read_bag;
