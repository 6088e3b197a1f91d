//! What the words of the command line ask for.
//!
//! ```
//! match plan_of(alloc, &words) {
//!     Ok(plan) => perform(alloc, &folders, &plan, &mut visits, &mut out, &mut err),
//!     Err(usage) => refuse_words(&usage, &mut err),
//! }
//! ```
//!
//! `plan_of` gives exactly the plan, the help, or the first thing that is wrong with the words, but
//! for memory.
#![tactic(auto)]

mod check_option;
mod command;
mod given;
mod help;
mod label;
mod plan;
mod planning;
pub mod said;
mod usage;

pub use check_option::CheckOption;
pub use label::Label;
pub use plan::{Action, Plan};
pub use planning::plan_of;
pub use usage::Usage;
