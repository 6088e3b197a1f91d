//! Why tag files can't be written, as it is said, each text once.

/// No algorithm is asked for, or would be left.
pub const NO_ALGORITHM: &str = "no algorithm";

/// An element can't be written.
pub const BAD_VALUE: &str = "bad value";
