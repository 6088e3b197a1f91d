//! What is done with the trees of folders, and reported.
ghost use Rattle.std.specs.Prelude.{◌≤◌, IfOk};
ghost use Rattle.bag_program.specs.FolderDeeds.{IsLastDeed, IsWholeDeed, TreeDeed};
ghost use Rattle.bag_program.specs.Folders.{tree_in};

use crate::one_by_one::Turn;
use crate::{Disks, Folders, Halt, Visits, say_trouble};
use bag_disk::ReplaceDisk;
use bag_store::FileTree;
use bag_tree::{Out, Refused};
use std::alloc::Global;

/// What is done with the tree of the files in a folder.
pub trait FolderDeed {
    /// What was done with a tree, and reported under a name.
    ghost done: { Self → TreeDeed };

    /// Does it with a tree, and reports that under a name. Gives the status, or the output's
    /// refusal.
    fn do_with<K: ReplaceDisk + Drop, O: Out, E: Out>(
        &self,
        tree: FileTree<K>,
        name: &str,
        out: &mut O,
        err: &mut E,
    ) -> (FileTree<K>, Result<u8, Refused>)
        ensures status { IfOk result.1 (λ n. n ≤ 3) }
        ensures done { done self.now name.now
            (⟦<FileTree<K> as bag_tree::Tree>⟧.state tree)
            (⟦<FileTree<K> as bag_tree::Tree>⟧.state result.0)
            (O.state out.old) (O.state out.new) result.1 };
}

/// What is done in each of several folders.
#[derive(Drop)]
pub struct InFolders<'w, D, F> {
    pub alloc: Global,
    pub folders: &'w Folders<'w, D>,
    /// The name of the program, for what it says of a folder.
    pub program: &'w str,
    pub deed: F,
}

impl<D: Disks, F: FolderDeed> Turn<D> for InFolders<'_, D, F> {
    ghost last = { λ it name.
        IsLastDeed (F.done it.deed) (tree_in D.below it.folders.now name) name };

    ghost whole = { λ it name.
        IsWholeDeed (F.done it.deed) (tree_in D.below it.folders.now name) name };

    /// Does it in the folder of this name, and says on `err` why the system refused.
    fn do_for<O: Out, E: Out>(
        &self,
        name: &str,
        visits: &mut Visits<D>,
        out: &mut O,
        err: &mut E,
    ) -> Result<u8, Halt> {
        let tree = self.folders.enter(self.alloc, name, visits)?;
        let (tree, told) = self.deed.do_with(tree, name, out, err);
        say_trouble(self.alloc, self.program, self.folders.trouble(&tree), err);
        self.folders.leave(tree, visits);
        Ok(told?)
    }
}
