//! What the program says in lines of its own, each text once.

/// Before the reason why a profile is refused.
pub const PROFILE: &str = "profile: ";

/// After the name of a folder that was made a bag, and before the reason why another wasn't.
pub const MADE: &str = " made";

pub const NOT_MADE: &str = " not made: ";
