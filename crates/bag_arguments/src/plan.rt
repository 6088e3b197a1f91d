//! What the words of a command line ask for.
use bag_faults::{Fault, Options, Part};
use bag_text::{AlgSet, Items, Text};

/// What is to be done.
#[derive(Debug, Drop)]
pub enum Action {
    /// The sample bag is checked.
    Sample,
    /// The help is written.
    Help(Text),
    /// The bags in folders are checked.
    Check,
    /// The bags in tar files are checked.
    CheckTars,
    /// The reports of all parts of a check are joined into one.
    Join,
    /// Folders are made bags.
    Make,
}

/// What the words of a command line ask for.
#[derive(Debug, Drop)]
pub struct Plan {
    pub action: Action,
    /// The folders, the tar files or the reports, in the order of the words.
    pub directories: Items<Text>,
    pub options: Options,
    /// The file of the profile.
    pub profile: Option<Text>,
    /// Only faults above this one are written.
    pub after: Option<Fault>,
    /// How many faults are written at most, for each folder.
    pub limit: Option<u64>,
    /// The part of each report that is written; the whole one where there is none.
    pub part: Option<Part>,
    pub quiet: bool,
    /// The algorithms of a bag that is made.
    pub algs: AlgSet,
    /// The elements of a bag that is made, label and value, in the order in which they are written.
    pub info: Items<(Text, Text)>,
}
