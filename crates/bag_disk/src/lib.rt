//! Disks: what answers calls below a base folder, and which files stand there.
//!
//! ```
//! let listing = list_below(&mut disk, alloc)?;
//! for entry in listing.files.as_slice() {
//!     open_at(&mut disk, entry.path.as_str())?;
//! }
//! ```
//!
//! A `Disk` says what stands at its paths, a `WritableDisk` has the calls that make a bag besides,
//! and a `ReplaceDisk` those that put a file in place of another and remove one.
//! What an honest disk answers is what stands there. Of RFC 8493 it keeps which files are in a bag,
//! and by which paths (2, 2.1.2): regular files below the base folder, to which no link leads.
//!
//! Over an honest disk a listing is that of the bag, and the file at the path is opened; each
//! refusal is one that is due, and no link is followed.
#![tactic(auto)]

mod disk;
mod failures;
mod folder_walk;
pub mod laws;
mod limit;
mod listing;
mod location;
mod opening;
mod path;
mod path_order;
mod refusal;
mod replace_disk;
mod writable_disk;

pub use disk::{Disk, DiskFault, Entry};
pub use failures::Failures;
pub use listing::list_below;
pub use location::{is_location, location_below, path_in};
pub use opening::{check_is_folder, open_at};
pub use refusal::{Refusal, Subject};
pub use replace_disk::ReplaceDisk;
pub use writable_disk::WritableDisk;
