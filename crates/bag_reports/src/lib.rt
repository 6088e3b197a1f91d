//! What is read of the report of one part: its lines, its faults, and its closing line.
//!
//! ```
//! input.open(number)?;
//! let count = write_report(alloc, input, &mut line, &mut last, out)?;
//! if is_done_line(alloc, &subject, part, count, line.as_slice())? {
//!     input.expect_end()?;
//! }
//! ```
//!
//! `Input` reads `Reports` line by line, of which one at a time is open; `HeldReports` are held in
//! memory. `write_report` passes over lines `unchecked KEY` at the head of a report, hands those of
//! its faults to an output, each after the one before it, and leaves the line after them.
//! `DoneLine` is what the closing line of a part says that is done. `Cause` says why a report isn't
//! joined with others, which `bag_join` does.
//!
//! A closing line is read only where a run over a part writes just that; and of honest reports,
//! whole ones are read to their end unless memory, a read or the output fails.
#![tactic(auto)]

mod done_line;
mod fault_lines;
mod head;
mod held;
mod input;
mod noted;
mod numbers;
mod refusal;
mod reports;
pub mod said;

pub use done_line::{DoneLine, Subject, is_done_line};
pub use fault_lines::write_report;
pub use held::{HeldReports, Told};
pub use input::{Input, LINE_FEED};
pub use noted::Noted;
pub use numbers::plus;
pub use refusal::{Cause, Refusal};
pub use reports::{Reports, Unreadable};
