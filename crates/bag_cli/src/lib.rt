//! What the command line does: the plan of its words, and what that plan says.
//!
//! ```
//! let (folders, mut visits) = Folders::of(&rt);
//! let mut out = WriterOut::new(io::writer(&rt));
//! let mut err = WriterOut::new(rt.stderr());
//! let status = Bagit::start(&rt, &folders, &mut visits, &mut out, &mut err);
//! ```
//!
//! `Disks`, of `bag_program`, gives the disks, tar files, reports and profiles that the program
//! looks at.
//!
//! For each directory the output takes what the run theorem says of its tree, or what its making
//! reported, and the status is the greatest of all. The disk is the one below the base folder.
#![tactic(auto)]

mod all_checks;
mod all_makings;
mod check;
mod check_outcome;
mod check_tar;
mod join_reports;
pub mod laws;
mod making;
mod making_line;
mod performing;
mod profile_file;
mod profile_refusal;
mod said;
mod sample;
mod tar_line;
mod unchecked_keys;
mod whole_program;
mod words_refusal;
mod work;

pub use bag_arguments::{Action, Plan, Usage, plan_of};
pub use bag_program::{Disks, Folders, NoWords, Program, ReadFault, Visits, Words};
pub use bag_tree::WriterOut;
pub use check::request_for;
pub use making::make_and_report;
pub use making_line::put_making;
pub use performing::perform;
pub use profile_file::{MOST_BYTES, SummedProfile, read_profile};
pub use profile_refusal::{ProfileRefusal, refuse_profile};
pub use unchecked_keys::write_unchecked;
pub use whole_program::Bagit;
pub use words_refusal::refuse_words;
