//! Changes of files, one after another.
ghost use Rattle.std.specs.Prelude.{◌≡◌, All, IsTrue, MatchResult, OnOk, OnErr, IfErr};
ghost use Rattle.bag_text.specs.Path.{is_base_name};
ghost use Rattle.bag_tree.specs.Asked.{Adds};
ghost use Rattle.bag_tree.specs.ChangeFiles.{HasChanged, HasStopped, IsOfFile, LastsChanged};
ghost use Rattle.bag_tree.specs.ChangeFiles.{LastsResumed, LeavesChange, MayRefuseFileChange};
ghost use Rattle.bag_tree.specs.ChangeFiles.{OutlastsChanges, OutlastsResumedChanges, more_by};
ghost use Rattle.bag_tree.specs.Changes.{AppliesStep};
ghost use Rattle.bag_tree.specs.FileChanges.{AsksFirstOf, ChangeAsks, changed};
ghost use Rattle.bag_tree.specs.declared.answer.Answer.TheVariants.{Refused};

use crate::{FileChange, ReplaceTree, TreeFault};

/// A change that was refused, and why.
#[derive(Clone, Copy, Debug, PartialEq, Eq)]
pub struct RefusedChange {
    /// The place of the change, from 1.
    pub place: u64,
    pub cause: TreeFault,
}

/// Makes changes of files of the base folder in order, up to the first that is refused. Each file
/// is written at the name `beside` the others before it has its own.
///
/// On a device that notes what it does, and on which what was synced is durable, a power cut at any
/// moment, be it answered Ok or not, leaves what the first of the changes made, for some number of
/// them, and perhaps a file at the name beside. After Ok it leaves what all of them made.
///
/// So it is also where they go on from where an earlier program was killed, since each change syncs
/// the base folder first: a cut before that was answered leaves what it could have left before.
pub fn change_files<T: ReplaceTree>(
    tree: &mut T,
    beside: &str,
    changes: &[FileChange],
) -> Result<(), RefusedChange>
    requires beside { IsTrue (is_base_name beside.now) }
    requires files { All (IsOfFile beside.now) changes.now }
    ensures changed { OnOk result
        (HasChanged beside.now changes.now (T.state tree.old) (T.state tree.new)) }
    ensures stopped { IfErr result
        (HasStopped beside.now changes.now (T.state tree.old) (T.state tree.new)) }
    ensures any_moment { OutlastsChanges
        beside.now changes.now (T.state tree.old) (T.state tree.new) }
    ensures lasting { OnOk result
        (LastsChanged beside.now changes.now (T.state tree.old) (T.state tree.new)) }
    ensures resumed { OutlastsResumedChanges
        beside.now changes.now (T.state tree.old) (T.state tree.new) }
    ensures resumed_lasting { OnOk result
        (LastsResumed beside.now changes.now (T.state tree.old) (T.state tree.new)) }
{
    change_each(tree, beside, changes)
}

/// Makes changes of files in order, up to the first that is refused.
fn change_each<T: ReplaceTree>(
    tree: &mut T,
    beside: &str,
    changes: &[FileChange],
) -> Result<(), RefusedChange>
    requires beside { IsTrue (is_base_name beside.now) }
    requires files { All (IsOfFile beside.now) changes.now }
    ensures changed { OnOk result
        (HasChanged beside.now changes.now (T.state tree.old) (T.state tree.new)) }
    ensures stopped { IfErr result
        (HasStopped beside.now changes.now (T.state tree.old) (T.state tree.new)) }
{
    for (place, change) in changes.iter().enumerate() {
        if let Err(cause) = change_file(tree, beside, change) {
            return Err(RefusedChange {
                place: place as u64 + 1,
                cause,
            });
        }
    }
    Ok(())
}

/// Makes a change of a file.
fn change_file<T: ReplaceTree>(
    tree: &mut T,
    beside: &str,
    change: &FileChange,
) -> Result<(), TreeFault>
    requires beside { IsTrue (is_base_name beside.now) }
    requires file { IsOfFile beside.now change.now }
    ensures done { OnOk result (AppliesStep
        (changed change.now) (more_by change.now) (T.state tree.old) (T.state tree.new)) }
    ensures no_failure { OnOk result ((T.state tree.new).failures ≡ (T.state tree.old).failures) }
    ensures left { OnErr result
        (LeavesChange beside.now change.now (T.state tree.old) (T.state tree.new)) }
    ensures refused { IfErr result
        (MayRefuseFileChange beside.now change.now (T.state tree.old) (T.state tree.new)) }
    ensures answered { IfErr result (λ cause. (T.state tree.new).last ≡ Refused cause) }
    ensures asked { IsTrue (T.state tree.old).noted → MatchResult result
        (λ _. Adds (ChangeAsks beside.now change.now) (T.state tree.old).trail
        (T.state tree.new).trail)
        (λ _. Adds (AsksFirstOf (ChangeAsks beside.now change.now)) (T.state tree.old).trail
        (T.state tree.new).trail) }
{
    match change {
        FileChange::Put(name, bytes) => tree.replace(beside, name.as_str(), bytes.as_slice()),
        FileChange::Remove(name) => tree.remove(name.as_str()),
    }
}
