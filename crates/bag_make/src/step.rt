//! The steps in which a bag is made.
ghost use Rattle.std.specs.Prelude.{◌≡◌, ◌⊎◌, OnOk, OnErr, IfErr, IsTrue, All};
ghost use Rattle.bag_tree.specs.declared.answer.Answer.TheVariants.{Refused};
ghost use Rattle.bag_make.specs.Steps.{CanTake, HasLeft, MayRefuseStep, HasTaken, HasStopped};
ghost use Rattle.bag_make.specs.StepsTaken.{IsStep, HasAsked, HasDone};

use bag_text::{Items, Text};
use bag_tree::{RefusedChange, TreeFault, WriteTree};

/// The folder that holds the files while they are moved.
pub const NEW_FOLDER: &str = ".bagit-new";

/// The folder of the payload.
pub const DATA_FOLDER: &str = "data";

/// A step of making a bag in place.
#[derive(Debug, Drop)]
pub enum Step {
    /// Makes the folder for the files.
    MakeFolder,
    /// Moves what has this name in the base folder into that folder.
    MoveIn(Text),
    /// Makes that folder the folder of the payload.
    Rename,
    /// Makes a tag file of these bytes.
    Create(Text, Items<u8>),
}

/// Takes the steps in order, up to the first that is refused.
pub(crate) fn take_steps<T: WriteTree>(tree: &mut T, steps: &[Step]) -> Result<(), RefusedChange>
    requires { All IsStep steps.now }
    ensures taken { OnOk result (HasTaken steps.now (T.state tree.old) (T.state tree.new)) }
    ensures stopped { IfErr result (HasStopped steps.now (T.state tree.old) (T.state tree.new)) }
{
    for (place, step) in steps.iter().enumerate() {
        if let Err(cause) = take_step(tree, step) {
            return Err(RefusedChange {
                place: place as u64 + 1,
                cause,
            });
        }
    }
    Ok(())
}

/// Takes a step.
fn take_step<T: WriteTree>(tree: &mut T, step: &Step) -> Result<(), TreeFault>
    requires { IsStep step.now }
    ensures done { OnOk result (HasDone step.now (T.state tree.old) (T.state tree.new)) }
    ensures possible { OnOk result
        (IsTrue (T.state tree.old).honest → CanTake step.now (T.state tree.old).bag) }
    ensures no_failure { OnOk result ((T.state tree.new).failures ≡ (T.state tree.old).failures) }
    ensures left { OnErr result (HasLeft step.now (T.state tree.old) (T.state tree.new)) }
    ensures refused { IfErr result (MayRefuseStep step.now (T.state tree.old) (T.state tree.new)) }
    ensures answered { IfErr result (λ cause. (T.state tree.new).last ≡ Refused cause) }
    ensures asked { HasAsked step.now (T.state tree.old) (T.state tree.new) result }
{
    match step {
        Step::MakeFolder => tree.make_folder(NEW_FOLDER),
        Step::MoveIn(top) => tree.move_in(top.as_str(), NEW_FOLDER),
        Step::Rename => tree.rename_folder(NEW_FOLDER, DATA_FOLDER),
        Step::Create(name, bytes) => tree.create(name.as_str(), bytes.as_slice()),
    }
}
