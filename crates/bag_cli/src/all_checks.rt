//! Checks of bags, one after the other.
ghost use Rattle.std.specs.Option.{option_copied};
ghost use Rattle.bag_cli.specs.Checked.{IsSampleChecked};
ghost use Rattle.bag_cli.specs.CheckedAs.{AreCheckedAs, IsLastAs, IsWholeAs};
ghost use Rattle.bag_program.specs.Folders.{disks_of};
ghost use Rattle.bag_program.specs.Halt.{status_of};
ghost use Rattle.bag_program.specs.InTurn.{Does};

use crate::SummedProfile;
use crate::check::{check_sample, whole_status};
use crate::work::Work;
use bag_arguments::{Action, Plan};
use bag_program::{Disks, Halt, Turn, Visits, in_turn};
use bag_tree::Out;
use std::alloc::Global;

/// Checks the sample bag. Gives the status.
pub(crate) fn check_samples<O: Out>(alloc: Global, plan: &Plan, out: &mut O) -> Result<u8, Halt>
    ensures { IsSampleChecked plan.now (O.state out.old) (O.state out.new) (status_of result) }
{
    whole_status(check_sample(alloc, plan, out))
}

/// The checks of the bags of a plan's words, by this profile or without one.
#[derive(Drop)]
struct Checks<'w, D> {
    work: &'w Work<'w, D>,
    profile: Option<&'w SummedProfile>,
}

impl<D: Disks> Turn<D> for Checks<'_, D> {
    ghost last = { λ it. IsLastAs it.work.now.plan.now.action
        (D.below (disks_of it.work.now.folders.now)) (D.archived (disks_of it.work.now.folders.now))
        it.work.now.plan.now (option_copied it.profile) };

    ghost whole = { λ it. IsWholeAs it.work.now.plan.now.action
        (D.below (disks_of it.work.now.folders.now)) (D.archived (disks_of it.work.now.folders.now))
        it.work.now.plan.now (option_copied it.profile) };

    /// Checks the bag of a word: in the folder of this name, or in the tar file, by the plan.
    fn do_for<O: Out, E: Out>(
        &self,
        name: &str,
        visits: &mut Visits<D>,
        out: &mut O,
        err: &mut E,
    ) -> Result<u8, Halt> {
        let work = self.work;
        match &work.plan.action {
            Action::CheckTars => work.check_tar(self.profile, name, visits, out, err),
            Action::Sample | Action::Help(_) | Action::Check | Action::Join | Action::Make => {
                work.check_folder(self.profile, name, visits, out, err)
            }
        }
    }
}

impl<D: Disks> Work<'_, D> {
    /// Checks the bags of the plan's words, one after the other, by this profile or without one.
    /// Gives the greatest status.
    pub(crate) fn check_each<O: Out, E: Out>(
        &self,
        profile: Option<&SummedProfile>,
        visits: &mut Visits<D>,
        out: &mut O,
        err: &mut E,
    ) -> Result<u8, Halt>
        ensures { Does O.Out visits.old visits.new out.old out.new (status_of result)
            (AreCheckedAs self.now.plan.now.action (D.below (disks_of self.now.folders.now))
            (D.archived (disks_of self.now.folders.now)) self.now.plan.now
            (option_copied profile.entry)) }
    {
        let checks = Checks {
            work: self,
            profile,
        };
        in_turn(&checks, self.plan.directories.as_slice(), visits, out, err)
    }
}
