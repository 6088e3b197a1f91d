//! The stages of a check.
ghost use Rattle.std.specs.Prelude.{◌≡◌, ◌≢◌, MatchOption};
ghost use Rattle.bag_faults.specs.Stage.{stage_number};
ghost use Rattle.bag_faults.specs.declared.stage.Stage.{Stage};

/// A stage of a check, in the order in which a report has their faults.
#[derive(Clone, Copy, Debug, PartialEq, Eq)]
pub enum Stage {
    /// What `bagit.txt` declares (RFC 8493, 2.1.1).
    Declaration = 1,
    /// The parts that a bag has to have (RFC 8493, 2.1).
    Parts = 2,
    /// The elements of `bag-info.txt` (RFC 8493, 2.2.2).
    Metadata = 3,
    /// The lines of `fetch.txt` (RFC 8493, 2.2.3).
    Fetch = 4,
    /// The lines of manifests (RFC 8493, 2.1.3 and 2.2.1).
    Manifests = 5,
    /// What is missing, and what no manifest names (RFC 8493, 3).
    Completeness = 6,
    /// The digests (RFC 8493, 3).
    Validity = 7,
    /// What a profile asks for.
    Conformance = 8,
}

/// The stages before that of digests.
pub const BEFORE_DIGESTS: [Stage; 6] = [
    Stage::Declaration,
    Stage::Parts,
    Stage::Metadata,
    Stage::Fetch,
    Stage::Manifests,
    Stage::Completeness,
];

impl Stage {
    /// The first digit of the codes of its faults.
    pub fn number(self) -> u8
        ensures { result ≡ stage_number self }
    {
        self as u8
    }

    /// The stage of a number, or `None` where no stage has it.
    pub fn from_number(number: u8) -> Option<Stage>
        ensures { MatchOption result ((stage : Stage) → stage_number stage ≢ number)
            (λ stage. stage_number stage ≡ number) }
    {
        match number {
            1 => Some(Stage::Declaration),
            2 => Some(Stage::Parts),
            3 => Some(Stage::Metadata),
            4 => Some(Stage::Fetch),
            5 => Some(Stage::Manifests),
            6 => Some(Stage::Completeness),
            7 => Some(Stage::Validity),
            8 => Some(Stage::Conformance),
            _ => None,
        }
    }
}
