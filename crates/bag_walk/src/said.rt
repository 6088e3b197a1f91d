//! What a closing line says, each text once.

/// What is said after the name of a bag that has no fault, by the depth of the check.
pub const GOOD_DECLARATION: &str = " has a good declaration";

pub const AGREES_WITH_OXUM: &str = " agrees with its oxum";

pub const COMPLETE: &str = " is complete";

pub const VALID: &str = " is valid";

/// What is said after the name of a bag before the number of faults that were written.
pub const HAS_FAULTS: &str = " has faults: ";

pub const STOPPED: &str = " stopped, faults: ";

pub const REST_DONE: &str = " rest done, faults: ";

/// After the name of a bag that couldn't be read to its end, and after the cause.
pub const UNREAD: &str = " unread ";

pub const FAULTS: &str = ", faults: ";
