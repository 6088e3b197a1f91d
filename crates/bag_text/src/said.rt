//! What each program says, each text once.

/// Memory ran out.
pub const OUT_OF_MEMORY: &str = "out of memory";
