//! The words of a command line: arguments, what clap makes of the words, and what is given by them.
//!
//! ```
//! let matches = taken(alloc, command, words)?;
//! let quiet = is_given(&matches, "quiet");
//! let folders = values(alloc, &matches, "directory")?;
//! ```
//!
//! `taken` is for commands without subcommands. What is given, the help and each refusal are those
//! that clap defines, but for memory.
#![tactic(auto)]

pub mod argument;
pub mod matched;
pub mod taking;
