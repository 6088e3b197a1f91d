//! What stands in the folder in which a case runs, in memory and on the disk: folders, tar files and
//! reports; and disks of which one call is refused.
//!
//! ```
//! let mut world = World::new(alloc)?;
//! world.make_folder(rt, "bag", &mut report);
//! let disks = Refusing::at(&world, Some((call, DiskFault::Device)));
//! ```
//!
//! A `RefusingDisk` is any disk of which one call is refused.
#![tactic(auto)]

mod case_reports;
mod case_tar;
mod on_disk;
mod packing;
mod refusing_disk;
mod shelf;
mod tars;
mod world;

pub use case_reports::CaseReports;
pub use case_tar::CaseTar;
pub use refusing_disk::{Call, RefusingDisk};
pub use shelf::Refusing;
pub use tars::Tar;
pub use world::World;
