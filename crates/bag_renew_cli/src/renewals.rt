//! What is done with a bag.
ghost use Rattle.bag_renew_cli.specs.Renewals.{IsDone};

use crate::printing::print_manifest;
use crate::renewing::{plan_and_report, renew_and_report};
use crate::{BagAction, RenewPlan};
use bag_disk::ReplaceDisk;
use bag_program::FolderDeed;
use bag_store::FileTree;
use bag_tree::{Out, Refused, ReplaceTree};
use std::alloc::Global;

/// What a plan does with each bag.
#[derive(Drop)]
pub(crate) struct Renewals<'w> {
    pub(crate) alloc: Global,
    pub(crate) plan: &'w RenewPlan,
    pub(crate) action: BagAction,
}

impl Renewals<'_> {
    /// Does it with a tree, and reports that. Gives the status.
    fn do_by<T: ReplaceTree, O: Out, E: Out>(
        &self,
        tree: &mut T,
        name: &str,
        out: &mut O,
        err: &mut E,
    ) -> Result<u8, Refused>
        ensures { IsDone self.now.plan.now self.now.action name.now
            (T.state tree.old) (T.state tree.new) (O.state out.old) (O.state out.new) result }
    {
        let alloc = self.alloc;
        let renewal = &self.plan.renewal;
        let quiet = self.plan.quiet;
        match self.action {
            BagAction::Renew => renew_and_report(alloc, tree, name, renewal, quiet, out),
            BagAction::DryRun => plan_and_report(alloc, tree, name, renewal, quiet, out),
            BagAction::Print(alg) => print_manifest(alloc, tree, name, alg, out, err),
        }
    }
}

impl FolderDeed for Renewals<'_> {
    ghost done = { λ it. IsDone it.plan.now it.action };

    fn do_with<K: ReplaceDisk + Drop, O: Out, E: Out>(
        &self,
        tree: FileTree<K>,
        name: &str,
        out: &mut O,
        err: &mut E,
    ) -> (FileTree<K>, Result<u8, Refused>) {
        let mut tree = tree;
        let told = self.do_by(&mut tree, name, out, err);
        (tree, told)
    }
}
