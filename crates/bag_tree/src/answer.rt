//! What a tree answered last.
ghost use Rattle.std.specs.Prelude.{◌≡◌};
ghost use Rattle.bag_tree.specs.FileReads.{answer_of_read};

use crate::TreeFault;

/// What the last call of a tree answered.
#[derive(Clone, Copy, Debug, PartialEq, Eq)]
pub enum Answer {
    /// What was asked for.
    Given,
    /// That the open file is at its end.
    AtEnd,
    /// That the files weren't listed.
    Unlisted(TreeFault),
    /// Of any other call, that it was refused.
    Refused(TreeFault),
}

impl Answer {
    /// What a read answers that gives `count` bytes.
    pub fn of_read(count: usize) -> Answer
        ensures { result ≡ answer_of_read count }
    {
        if count == 0 {
            Answer::AtEnd
        } else {
            Answer::Given
        }
    }
}
