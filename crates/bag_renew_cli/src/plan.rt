//! What the words of a renewal's command line ask for.
use bag_renew::Renewal;
use bag_text::{Alg, Items, Text};

/// What is done with a bag.
#[derive(Clone, Copy, Debug)]
pub enum BagAction {
    /// It is renewed.
    Renew,
    /// It is checked, and it is said what would be put and removed.
    DryRun,
    /// Its new manifest of this algorithm is written.
    Print(Alg),
}

/// What is to be done.
#[derive(Debug, Drop)]
pub enum RenewAction {
    /// The help is written.
    Help(Text),
    /// This is done with each bag.
    Bags(BagAction),
}

/// What the words of a renewal's command line ask for.
#[derive(Debug, Drop)]
pub struct RenewPlan {
    pub action: RenewAction,
    /// The bags in the order of the words.
    pub directories: Items<Text>,
    /// What each of them is to have afterwards.
    pub renewal: Renewal,
    pub quiet: bool,
}
