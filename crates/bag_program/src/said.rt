//! What programs say of files and of their words, each text once.

/// The profile's file can't be read.
pub const PROFILE_UNREAD: &str = "profile unread";

/// A word of the command line isn't UTF-8.
pub const WORD_NOT_UTF8: &str = "a word isn't UTF-8";
