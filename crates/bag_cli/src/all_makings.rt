//! Bags that are made of folders, one after the other.
ghost use Rattle.bag_program.specs.Folders.{disks_of};
ghost use Rattle.bag_program.specs.Halt.{status_of};
ghost use Rattle.bag_program.specs.InTurn.{Does};
ghost use Rattle.bag_cli.specs.Makings.{IsMakingBy};
ghost use Rattle.bag_cli.specs.Performed.{AreMade};

use crate::make_and_report;
use crate::work::Work;
use bag_arguments::{Plan, said};
use bag_disk::ReplaceDisk;
use bag_program::{Disks, FolderDeed, Halt, InFolders, Visits, in_turn};
use bag_store::FileTree;
use bag_tree::{Out, Refused};
use std::alloc::Global;

/// What makes a folder a bag.
#[derive(Drop)]
struct Making<'w> {
    alloc: Global,
    plan: &'w Plan,
}

impl FolderDeed for Making<'_> {
    ghost done = { λ it. IsMakingBy it.plan.now };

    fn do_with<K: ReplaceDisk + Drop, O: Out, E: Out>(
        &self,
        tree: FileTree<K>,
        name: &str,
        out: &mut O,
        _err: &mut E,
    ) -> (FileTree<K>, Result<u8, Refused>) {
        let plan = self.plan;
        let info = plan.info.as_slice();
        make_and_report(self.alloc, tree, name, plan.algs, info, plan.quiet, out)
    }
}

impl<D: Disks> Work<'_, D> {
    /// Makes the folders of the plan bags in place, one after the other. Gives the greatest status.
    pub(crate) fn make_all<O: Out, E: Out>(
        &self,
        visits: &mut Visits<D>,
        out: &mut O,
        err: &mut E,
    ) -> Result<u8, Halt>
        ensures { Does O.Out visits.old visits.new out.old out.new (status_of result)
            (AreMade (D.below (disks_of self.now.folders.now)) self.now.plan.now) }
    {
        let alloc = self.alloc;
        let plan = self.plan;
        let makings = InFolders {
            alloc,
            folders: self.folders,
            program: said::PROGRAM,
            deed: Making { alloc, plan },
        };
        in_turn(&makings, plan.directories.as_slice(), visits, out, err)
    }
}
