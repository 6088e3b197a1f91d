//! Trees in memory; and for tests, trees of which a call is refused, or that list something else.
//!
//! ```
//! let mut tree = MemoryTree::new(alloc);
//! tree.put_file("bagit.txt", declaration)?;
//! tree.put_folder("data")?;
//! let mut refusing = FailTree::new(tree, 3);
//! ```
//!
//! Trees in memory are honest, each call is exact, and a refused step changes nothing. The calls of
//! a tree for tests are those of the tree below, but for the refused call and for what `list`
//! answers.
#![tactic(auto)]

mod calls;
mod changing;
mod fail_tree;
mod file_map;
mod folder_set;
pub mod laws;
mod memory_tree;
mod moved;
mod skew_tree;

pub use fail_tree::FailTree;
pub use memory_tree::MemoryTree;
pub use skew_tree::SkewTree;
