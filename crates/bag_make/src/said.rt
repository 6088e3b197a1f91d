//! Why a folder wasn't made a bag, as it is said, each text once.

/// A file stands where the files are held while they are moved.
pub const IN_THE_WAY: &str = ".bagit-new is there";

/// Before the file of a making that couldn't be read.
pub const READ: &str = "read";

/// Before the place of a step that was refused.
pub const STEP: &str = "step ";
