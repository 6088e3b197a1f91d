//! Reports of all parts of a check, joined into the report of one check.
//!
//! ```
//! let (reports, joined) = join(alloc, reports, &mut out);
//! let exit = status(&joined?);
//! ```
//!
//! A part of a check, `run_part`, ends its report by a line that says of which bag, which part and
//! what files it is, and how many faults it found. `join` reads the reports of all parts, in any
//! order, and writes what one check would have written.
//!
//! Lines `unchecked KEY` may stand before a report, as a check with a profile writes them; they are
//! passed over. Each report is read three times: for its closing line, to see that all of it is
//! whole and in order, and once more while it is written. What is joined is what was read last: it
//! was whole, whatever was read before. Memory is needed for one line at a time, and a place for
//! each part. What is read of one report is in `bag_reports`.
#![tactic(auto)]

mod joining;
pub mod laws;
mod nowhere;
mod parts;
mod plan;

pub use joining::join;
