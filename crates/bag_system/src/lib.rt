//! The system's disk: each call of a disk is handed to the system, below one base folder.
//!
//! ```
//! let mut disk = SystemDisk::new(rt, alloc, "deposit")?;
//! let listing = list_below(&mut disk, alloc)?;
//! ```
//!
//! Nothing is promised of the system: what `SystemDisk` hands it, and makes of its answers, is read
//! by hand. `Trouble` keeps why the system refused last, to be said beside what a report says.
#![tactic(auto)]

mod base_folder;
mod ownership;
mod system_disk;
mod system_fault;
mod trouble;

pub use system_disk::SystemDisk;
pub use trouble::Trouble;
