//! Why a profile is refused, as it is said, each text once.

/// Why a profile is refused; the last before the key whose value has a wrong shape.
pub const NOT_JSON: &str = "not JSON";

pub const NO_IDENTIFIER: &str = "no identifier";

pub const WRONG_SHAPE: &str = "wrong shape: ";
