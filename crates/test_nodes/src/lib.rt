//! What stands on a disk in memory, by its paths, and how that changes.
//!
//! ```
//! add_node(alloc, &mut nodes, b"data", Node::Folder)?;
//! append(alloc, &mut nodes, b"data/a", bytes)?;
//! ```
//!
//! A change is made whole, or refused by what a disk would say and then none is made. Clauses say why
//! it may be refused.
#![tactic(auto)]

mod changing;
mod held;
mod placing;

pub use changing::{add_node, append, moved_to, put_in_place, removed};
pub use held::{Node, is_folder, names_in, node_at};
pub use placing::are_placed;
