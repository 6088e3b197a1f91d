//! A disk in memory, for examples and tests of what stands on disks.
//!
//! ```
//! let mut nodes = BTreeMap::new(alloc);
//! nodes.insert(b"data".to_vec(alloc)?, Node::Folder)?;
//! let disk = MemoryDisk::holding(alloc, nodes);
//! ```
//!
//! A `MemoryDisk` is honest until a file is swapped, and notes what its device did.
//!
//! There is a `MemoryDisk` of all that can stand on a disk, and of nothing else. Clauses say why a
//! call of it may be refused, but for `next_name`, `read`, `replace` and `remove`.
#![tactic(auto)]

mod memory_changes;
mod memory_disk;
mod reading;
mod swap;
mod trail;

pub use bag_tree::DeviceEvent;
pub use memory_disk::MemoryDisk;
pub use test_nodes::Node;
