//! What trees, runs, walks, makings and readers do that no words of the command line and no case file
//! can ask for: disks that a test makes up, and real folders, listed, read and changed step by step; how
//! often a file is read for its digests; the order of faults and their copies, faults that are taken
//! one at a time, lists and sizes that are not the bag's, and requests that words can't give; parts
//! of longer texts; and the program over honest disks.
#![tactic(auto)]

mod same_disks;

pub use same_disks::checked;

#[cfg(test)]
mod checks;
#[cfg(test)]
mod digests;
#[cfg(test)]
mod faults;
#[cfg(test)]
mod folders;
#[cfg(test)]
mod held;
#[cfg(test)]
mod listings;
#[cfg(test)]
mod made_up;
#[cfg(test)]
mod makings;
#[cfg(test)]
mod pieces;
#[cfg(test)]
mod segments;
#[cfg(test)]
mod shown;
#[cfg(test)]
mod steps;
#[cfg(test)]
mod texts;
#[cfg(test)]
mod trials;
#[cfg(test)]
mod walks;
