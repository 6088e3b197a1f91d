//! A tree whose tag files can be written anew.
ghost use Rattle.std.specs.Prelude.{◌≢◌, IsTrue};
ghost use Rattle.bag_text.specs.Path.{is_base_name};
ghost use Rattle.bag_tree.specs.ReplaceCalls.{LooksForFolder, Removes, Replaces};

use crate::{Tree, TreeFault};

/// A tree in whose base folder files can be put in place of others, and removed, one by one.
///
/// Each change is a function on bags, and a reader sees it made or not made. A file is written at a
/// name beside the others, and given its own name once its bytes are durable. A change that is
/// answered Ok is durable, and no file is open after it; one that is refused was made or not, and
/// may leave a begun file at the name beside. An honest tree stays honest. Before each change the
/// base folder is synced, so that names are durable which an earlier program gave that was killed.
///
/// Where its device notes what it does, each call says what it asked of that, in order; a refused
/// call asked the first of that, and then perhaps for a sync that was refused.
pub trait ReplaceTree: Tree {
    /// Whether a folder of this name stands in the base folder, also an empty one, which no listing
    /// shows. There no file can be put. It looks only, and the file that is open stays open.
    fn has_folder(&mut self, name: &str) -> Result<bool, TreeFault>
        requires { IsTrue (is_base_name name.now) }
        ensures { LooksForFolder name.now (Self.state self.old) (Self.state self.new) result };

    /// Puts a file of these bytes into the base folder, in place of any other of its name.
    fn replace(&mut self, beside: &str, name: &str, bytes: &[u8]) -> Result<(), TreeFault>
        requires beside { IsTrue (is_base_name beside.now) }
        requires name { IsTrue (is_base_name name.now) }
        requires two { beside.now ≢ name.now }
        ensures { Replaces beside.now name.now bytes.now (Self.state self.old)
            (Self.state self.new) result };

    /// Removes a file of the base folder.
    fn remove(&mut self, name: &str) -> Result<(), TreeFault>
        requires { IsTrue (is_base_name name.now) }
        ensures { Removes name.now (Self.state self.old) (Self.state self.new) result };
}
