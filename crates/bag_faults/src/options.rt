//! What is asked of a check.
ghost use Rattle.std.specs.Prelude.{◌≡◌, ◌↔◌, IsTrue};
ghost use Rattle.bag_faults.specs.Options.{reaches};
ghost use Rattle.bag_faults.specs.Options.{Wants};

use crate::Stage;
use bag_read::TagName;

/// How much of a bag is checked.
#[derive(Clone, Copy, Debug, PartialEq, Eq)]
pub enum Depth {
    /// `bagit.txt` alone.
    Declaration,
    /// The parts of the bag and its `Payload-Oxum`.
    Fast,
    /// All but the digests: a complete bag (RFC 8493, 3).
    Complete,
    /// A valid bag (RFC 8493, 3).
    Full,
}

impl Depth {
    /// Whether a stage of the check, from 1 to 8, is looked at; the eighth has faults only where
    /// there is a profile.
    pub fn has_stage(self, stage: u8) -> bool
        ensures { result ≡ reaches self stage }
    {
        let is_conformance = stage == Stage::Conformance as u8;
        match self {
            Depth::Declaration => stage <= Stage::Declaration as u8,
            Depth::Fast => stage <= Stage::Metadata as u8 || is_conformance,
            Depth::Complete => stage <= Stage::Completeness as u8 || is_conformance,
            Depth::Full => stage <= Stage::Conformance as u8,
        }
    }
}

/// What a check looks for.
#[derive(Clone, Copy, Debug, PartialEq, Eq)]
pub struct Options {
    pub depth: Depth,
    /// Whether names that have one normal form are faults.
    pub clashes: bool,
}

impl Options {
    /// Whether a tag file is read: `bagit.txt` at every depth, and the others at the depths above
    /// `Declaration`.
    pub fn wants(self, name: TagName) -> bool
        ensures { IsTrue result ↔ Wants self name }
    {
        name == TagName::Declaration || self.depth != Depth::Declaration
    }
}
