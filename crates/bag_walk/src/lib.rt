//! Runs of a check: the faults of a bag, found as they are asked for, one line each, and how a run
//! ended.
//!
//! ```
//! let (tree, outcome) = run(alloc, tree, Some(&profile), request, &mut out);
//! let exit = status(&outcome);
//! ```
//!
//! A run says which lines are written, which files are opened before each, and how it ended.
//! `run_segments` writes a report in segments, of which each goes on after the last line that was
//! written.
//! `run_part` writes one part of a report, so that as many processes check one bag: each finds the
//! bounds of its part in the bag's files alone, and the lines of all parts, one after the other, are
//! those of one run.
//!
//! What a run writes, and how it ends, is the theorem of the whole: exactly the faults above the
//! cursor, up to the limit, then the closing line, or a proper prefix. Segments add up to one
//! report. The sources of faults, and the walks over them, are those of `bag_sources`.
#![tactic(auto)]

mod closing;
pub mod laws;
mod outcome;
mod part_run;
mod runner;
pub mod said;
mod segment;
mod segments;

pub use bag_sources::{
    Completeness, Fixed, InOrder, Listed, Merge, Part, Quiet, Source, Sources, Steps, Then,
    Validity, Walk,
};
pub use outcome::{Outcome, Request, status};
pub use part_run::{PartOutcome, put_done_line, run_part};
pub use runner::run;
pub use segments::run_segments;
