//! The faults of a bag: what they say, their order, and their lines; and what a check looks for.
//!
//! ```
//! let line = fault.to_line(alloc)?;
//! let same = Fault::from_line(alloc, line.as_str())?;
//! ```
//!
//! The order of faults is total, and faults that tie are one; no two faults have the same line, and
//! a line is read back.
#![tactic(auto)]

mod fault;
mod field;
mod from_line;
pub mod laws;
mod options;
mod part;
mod put;
mod stage;

pub use fault::Fault;
pub use field::put_line;
pub use from_line::CursorFault;
pub use options::{Depth, Options};
pub use part::Part;
pub use stage::{BEFORE_DIGESTS, Stage};
