//! The rules of a version, and what of `bag-info.txt` they differ in.
ghost use Rattle.std.specs.Prelude.{◌≡◌};
ghost use Rattle.std.specs.Option.{option_copied};
ghost use Rattle.bag_text.specs.Rules as spec;

use crate::{begins_with_blank, trim};

/// The rules by which the tag files of a bag are read.
#[derive(Clone, Copy, Debug, PartialEq, Eq)]
pub enum Rules {
    /// Those of RFC 8493, which is version 1.0.
    V10,
    /// Those of version 0.97, which older tools declare.
    V097,
}

impl Rules {
    /// The rules of the version that a bag declares, if any: those of 1.0, but for 0.97.
    pub fn of_version(version: Option<&str>) -> Rules
        ensures { result ≡ spec.rules_of (option_copied version.entry) }
    {
        match version {
            None => Rules::V10,
            Some(version) => {
                if version == "0.97" {
                    Rules::V097
                } else {
                    Rules::V10
                }
            }
        }
    }

    /// The label of an element of the metadata, of what stands before the colon (RFC 8493, 2.2.2):
    /// all of that; by the rules of 0.97 without the blanks before the colon.
    pub fn label_of(self, before: &str) -> &str
        ensures { result.now ≡ spec.label_of self before.now }
    {
        match self {
            Rules::V10 => before,
            Rules::V097 => trim(before),
        }
    }

    /// Whether this may follow the colon after a label (RFC 8493, 2.2.2): nothing, or what begins
    /// with a blank; by the rules of 0.97 anything.
    pub fn may_follow_colon(self, part: &str) -> bool
        ensures { result ≡ spec.may_follow_colon self part.now }
    {
        match self {
            Rules::V10 => part.is_empty() || begins_with_blank(part),
            Rules::V097 => true,
        }
    }
}
