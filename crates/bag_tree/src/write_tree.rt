//! A tree of files that can be changed.
ghost use Rattle.std.specs.Prelude.{◌≢◌, IsTrue};
ghost use Rattle.bag_text.specs.Path.{is_base_name};
ghost use Rattle.bag_tree.specs.ChangeCalls.{Creates, MakesFolder, MovesIn, RenamesFolder};

use crate::{Tree, TreeFault};

/// A tree whose base folder can be changed, step by step.
///
/// Each step is a function on bags. A step that is answered Ok makes its change, after which no
/// file is open; one that is refused changes nothing, but that a refused `create` may leave a file
/// that has some first bytes. An honest tree stays honest. It answers `Exists` only where the
/// target is there, `NotFound` only where what is to be moved or the folder for it isn't, and Ok in
/// neither case.
///
/// Where its device notes what it does, each call says what it asked of that, in order, so that it
/// is known what a power cut may leave at any moment. A folder's name is durable before anything is
/// moved into it, what was moved before the folder is renamed, and a file that was made when its
/// call is answered. A refused call may have synced, and a sync may be what was refused: then what
/// wasn't durable may be lost, whatever is synced later, so a caller makes no further step.
pub trait WriteTree: Tree {
    /// Makes a folder in the base folder.
    fn make_folder(&mut self, name: &str) -> Result<(), TreeFault>
        requires { IsTrue (is_base_name name.now) }
        ensures { MakesFolder name.now (Self.state self.old) (Self.state self.new) result };

    /// Moves what has a name in the base folder, with all that is below it, into a folder of the
    /// base folder.
    fn move_in(&mut self, top: &str, folder: &str) -> Result<(), TreeFault>
        requires top { IsTrue (is_base_name top.now) }
        requires folder { IsTrue (is_base_name folder.now) }
        requires two { top.now ≢ folder.now }
        ensures { MovesIn top.now folder.now (Self.state self.old) (Self.state self.new) result };

    /// Gives a folder of the base folder, with all that is below it, another name.
    fn rename_folder(&mut self, from: &str, to: &str) -> Result<(), TreeFault>
        requires from { IsTrue (is_base_name from.now) }
        requires to { IsTrue (is_base_name to.now) }
        ensures { RenamesFolder from.now to.now (Self.state self.old) (Self.state self.new)
            result };

    /// Makes a file in the base folder.
    fn create(&mut self, name: &str, bytes: &[u8]) -> Result<(), TreeFault>
        requires { IsTrue (is_base_name name.now) }
        ensures { Creates name.now bytes.now (Self.state self.old) (Self.state self.new) result };
}
