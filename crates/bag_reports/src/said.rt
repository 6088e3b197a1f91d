//! What is said before the lines of a report, each text once.

/// Before a key of a profile that isn't checked.
pub const UNCHECKED: &str = "unchecked ";
