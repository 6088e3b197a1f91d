//! Sources of a bag's faults, and walks over them: each fault is found when it is asked for.
//!
//! ```
//! let mut walk = Walk::start(alloc, tree, Some(&profile), options, None)?;
//! walk.step()?;
//! let first = walk.shown();
//! ```
//!
//! A `Source` gives faults in their order, and opens a file only when its faults are asked for.
//! Sources are put together by `Then`, one after the other, and by `Merge`, both at once. A walk,
//! `Steps`, owns a tree and a source of its bag, and gives one fault after the other; `Walk` is the
//! walk over the report of a bag, or over one part of it, whose bounds are found in the bag's files
//! alone. After a refusal it has the same faults still to give, and asked again it begins with the
//! file that was refused.
//!
//! A source gives the faults that are left, the least first; a file is opened when its faults are
//! asked for, once for all its algorithms, and none after the fault that is given.
#![tactic(auto)]

mod above_cursor;
mod completeness;
mod files;
mod fixed;
mod merge;
mod next;
mod part;
mod queue;
mod sequence;
mod source;
mod steps;
mod to_sum;
mod validity;

pub use bag_faults::Part;
pub use completeness::Completeness;
pub use fixed::Fixed;
pub use merge::Merge;
pub use part::{Bound, Bounds, Listed, only_part};
pub use sequence::Then;
pub use source::{InOrder, Quiet, Source};
pub use steps::{Sources, Steps, Walk};
pub use validity::Validity;
