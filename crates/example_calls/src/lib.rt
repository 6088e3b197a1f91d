//! The examples of docs/LIBRARY.md, proved: a check by a profile that goes on after an earlier
//! report, a check that passes over files that can't be read, a report in segments and one in parts,
//! a check of a tar file, a making with each refusal, a renewal, and a tree and an output of one's
//! own.
#![tactic(auto)]

mod check;
mod making;
mod not_done;
mod own_out;
mod own_tree;
mod parts;
mod passing;
mod renewing;
mod segments;
mod tars;

pub use check::check_by_profile;
pub use making::{Advice, make_bag};
pub use not_done::NotDone;
pub use own_out::LinesOut;
pub use own_tree::CountingTree;
pub use parts::check_part;
pub use passing::check_what_can_be_read;
pub use renewing::add_sha512;
pub use segments::check_in_segments;
pub use tars::check_tar;
