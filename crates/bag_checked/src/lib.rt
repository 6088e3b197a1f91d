//! A bag that is checked and summed in one reading: the digests that its manifests give are compared,
//! and others computed, over the same bytes.
//!
//! ```
//! let sums = check_and_sum(alloc, &mut tree, file, &expected, algs, &mut buffer)?;
//! for manifest in &new_manifests(alloc, &mut tree, algs)? {
//!     let bytes = manifest.content.as_slice();
//! }
//! ```
//!
//! After the tag files were read for what they say, each file is read once. So damage that comes
//! after a check is never given a digest, over any tree. Of a bag in which a fault is found nothing
//! is made; the fault is the first in the order of a report. The bytes of `bag-info.txt` are kept, so
//! that what is written of them was compared.
//!
//! Only the tag files were opened where a fault of the stages that open no payload file is found.
#![tactic(auto)]

mod checked;
mod further;
mod stages;
mod summed;

pub use checked::{Unchecked, check_and_sum};
pub use further::{FULL, new_manifests};
pub use stages::check_stages;
pub use summed::{CheckedFiles, check_files};
