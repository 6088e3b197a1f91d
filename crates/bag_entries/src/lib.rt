//! The entries of a manifest: the line, the digest and the path of each; which of them name a path
//! again; and paths that are at hand, so that equal ones take no memory of their own.
//!
//! ```
//! let hex = entry.digest.to_text(alloc)?;
//! let again = repeated_lines(alloc, entries)?;
//! ```
//!
//! Of RFC 8493 it keeps digests (2.4) and that a manifest names a path once (2.1.3).
//!
//! A digest is the one that its digits spell, in either case; the lines that name a path again are
//! told, and no others. What a pool holds decides nothing but how much memory is taken.
#![tactic(auto)]

mod digest;
mod entry;
mod pool;
mod repeats;

pub use digest::Digest;
pub use entry::ManifestEntry;
pub use pool::{Pool, Run};
pub use repeats::repeated_lines;
