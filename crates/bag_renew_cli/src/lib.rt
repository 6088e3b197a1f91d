//! Renewing bags by a command line: the plan of its words, and what that plan says.
//!
//! ```
//! let (folders, mut visits) = Folders::of(&rt);
//! let mut out = WriterOut::new(io::writer(&rt));
//! let mut err = WriterOut::new(rt.stderr());
//! let status = BagitRenew::start(&rt, &folders, &mut visits, &mut out, &mut err);
//! ```
//!
//! `renewal_of` gives exactly the plan, the help, or the first thing that is wrong with the words,
//! but for memory. For each directory the output takes how its renewal went, and the status is the
//! greatest of all; each folder whose tree is given, and as what it is left, is noted.
#![tactic(auto)]

mod command;
mod given;
mod help;
mod listed;
mod performing;
mod plan;
mod planned_lines;
mod planning;
mod printing;
mod renewal_line;
mod renewals;
mod renewing;
mod request_option;
pub mod said;
mod usage;
mod whole_program;
mod words_refusal;

pub use performing::perform;
pub use plan::{BagAction, RenewAction, RenewPlan};
pub use planning::renewal_of;
pub use printing::print_manifest;
pub use renewal_line::{put_renewal, renewal_status};
pub use renewing::{plan_and_report, renew_and_report};
pub use request_option::{ElementOption, ListOption};
pub use usage::RenewUsage;
pub use whole_program::BagitRenew;
pub use words_refusal::refuse_words;
