//! Makes a bag of a folder, in place (RFC 8493, 2.1): all is read and composed before the first
//! change, each step is done or not done, and the bag that is made has no fault.
//!
//! ```
//! let algs = AlgSet::empty().with(Alg::Sha256);
//! let (tree, made) = make(alloc, tree, algs, &[(label, value)]);
//! ```
//!
//! The bag that was made is the one of the definition, has the folder as its payload, and no fault,
//! as long as the numbers of files and of bytes stay below 2^64. Each refusal comes for its reason
//! alone, and before the first step leaves the bag as it was; a refused step leaves what the steps
//! before it made, and perhaps a begun tag file.
//!
//! A making outlasts a power cut: at any moment it leaves each file of the folder whole, and after
//! Ok the bag that was made and nothing else, as far as the device keeps what it is asked to sync.
#![tactic(auto)]

mod fault;
pub mod laws;
mod making;
mod obstacle;
mod plan;
mod reading;
mod request;
pub mod said;
mod step;
mod summed;
mod texts;
mod tops;

pub use fault::MakeFault;
pub use making::make;
