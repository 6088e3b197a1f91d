//! What the program says of its words, and before a line about itself, each text once.

/// A part is asked for at a depth that compares no digests.
pub const PART_OF_DEPTH: &str =
    "--part takes none of --declaration-only, --fast, --completeness-only";

/// What is given as a part isn't one.
pub const NOT_A_PART: &str = "--part is not K/N, with 1 <= K <= N <= 65536";

/// Parts are to be joined, and what they are reports of is asked for besides, or to be quiet.
pub const JOIN_WITH_OTHER: &str = "--join takes neither --quiet nor another option of a check";

/// What begins a line about the program itself.
pub const PROGRAM: &str = "bagit: ";

/// After an option that is only for checks.
pub const NEEDS_VALIDATE: &str = " needs --validate";

/// More than one depth is given.
pub const TWO_DEPTHS: &str = "more than one of --declaration-only, --fast, --completeness-only";

/// A cursor is given for several folders.
pub const AFTER_SEVERAL: &str = "--after takes one directory";

/// The cursor is the line of no fault.
pub const AFTER_NOT_A_LINE: &str = "--after is not a fault line";
