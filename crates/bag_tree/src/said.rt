//! Why a tree or an output refused a call, as it is said, each text once.

/// The output refused.
pub const OUTPUT_REFUSED: &str = "output refused";

/// Why a tree refused a call, each a word.
pub const DEVICE: &str = "device";

pub const SPECIAL: &str = "special";

pub const NAME: &str = "name";

pub const NOT_FOUND: &str = "not-found";

pub const TOO_MANY: &str = "too-many";

pub const CHANGED: &str = "changed";

pub const NONE_OPEN: &str = "none-open";

pub const MEMORY: &str = "memory";

pub const EXISTS: &str = "exists";
