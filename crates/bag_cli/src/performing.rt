//! Does what a plan says.
ghost use Rattle.std.specs.Option.{option_copied};
ghost use Rattle.std.specs.Prelude.{◌≡◌, ◌≤◌, Some};
ghost use Rattle.bag_cli.specs.CheckedAs.{AreCheckedAs, AreCheckedInForm, in_form};
ghost use Rattle.bag_program.specs.Folders.{disks_of};
ghost use Rattle.bag_program.specs.Halt.{status_of};
ghost use Rattle.bag_program.specs.InTurn.{Does};
ghost use Rattle.bag_cli.specs.Performed.{AreCheckedBy, IsChecked, IsPerformed};

use crate::all_checks::check_samples;
use crate::unchecked_keys::say_unchecked;
use crate::work::Work;
use crate::{SummedProfile, read_profile, refuse_profile};
use bag_arguments::{Action, Plan, said};
use bag_program::{Disks, Folders, Halt, Visits, told_status, write_text};
use bag_tree::Out;
use std::alloc::Global;

/// Does a plan: writes the reports, what was made or the help to `out`, and what is refused beside
/// that to `err`, as well as why the system refused.
///
/// Gives the exit status, over several folders the greatest: 0 if a bag was checked to its end,
/// without a cursor, and has no fault, or was made, or help was written; 1 if it has faults, or its
/// report began at a cursor, stopped at a limit or is a part's; 2 if the profile is rejected; and 3
/// if a read or a write failed, memory ran out, a bag wasn't made, or reports weren't joined. The
/// profile is read first. If `out` fails, it stops. Unless the status is 2 or 3, `out` took a whole
/// report for each bag that was checked, and the line of each that was made but for a quiet plan; or
/// the report of one check, into which reports of parts were joined.
///
/// `visits` are those that were made with the folders: each folder of the plan is looked into once
/// at most, in order, and no other; the profile's file is read once, and no other; the reports that
/// are joined are asked for together, and no folder beside them. Whatever a folder's status, the
/// next one is asked for; where memory runs out for one, it stops, and that one was asked for.
pub fn perform<D: Disks, O: Out, E: Out>(
    alloc: Global,
    folders: &Folders<'_, D>,
    plan: &Plan,
    visits: &mut Visits<D>,
    out: &mut O,
    err: &mut E,
) -> u8
    ensures status { result ≤ 3 }
    ensures performed { Does O.Out visits.old visits.new out.old out.new result
        (IsPerformed (D.below (disks_of folders.now)) (D.archived (disks_of folders.now))
        (D.reported (disks_of folders.now)) (D.file (disks_of folders.now)) plan.now) }
{
    let work = Work {
        alloc,
        folders,
        plan,
    };
    let done = work.perform(visits, out, err);
    told_status(done, said::PROGRAM, err)
}

impl<D: Disks> Work<'_, D> {
    /// Does the plan. Gives the status.
    fn perform<O: Out, E: Out>(
        &self,
        visits: &mut Visits<D>,
        out: &mut O,
        err: &mut E,
    ) -> Result<u8, Halt>
        ensures { Does O.Out visits.old visits.new out.old out.new (status_of result)
            (IsPerformed (D.below (disks_of self.now.folders.now))
            (D.archived (disks_of self.now.folders.now))
            (D.reported (disks_of self.now.folders.now))
            (D.file (disks_of self.now.folders.now)) self.now.plan.now) }
    {
        match &self.plan.action {
            Action::Sample => check_samples(self.alloc, self.plan, out),
            Action::Help(text) => write_text(text.as_str(), out),
            Action::Check | Action::CheckTars => self.check_all(visits, out, err),
            Action::Join => self.join_reports(visits, out, err),
            Action::Make => self.make_all(visits, out, err),
        }
    }

    /// Checks the bags of the plan's words, by its profile where it has one, which is read first.
    /// Why there is none is said on `err`.
    fn check_all<O: Out, E: Out>(
        &self,
        visits: &mut Visits<D>,
        out: &mut O,
        err: &mut E,
    ) -> Result<u8, Halt>
        ensures { Does O.Out visits.old visits.new out.old out.new (status_of result)
            (IsChecked (AreCheckedInForm self.now.plan.now.action
            (D.below (disks_of self.now.folders.now))
            (D.archived (disks_of self.now.folders.now)) self.now.plan.now)
            (D.file (disks_of self.now.folders.now)) self.now.plan.now self.now.plan.now.profile) }
    {
        let Some(path) = &self.plan.profile else {
            return self.check_each(None, visits, out, err);
        };
        match read_profile(self.alloc, self.folders, path.as_str(), visits) {
            Ok(read) => {
                let formed = self.in_form(read);
                self.check_by(&formed, visits, out, err)
            }
            Err(refusal) => Ok(refuse_profile(refusal, err)),
        }
    }

    /// A profile as it is compared with the plan's bags: those in tar files are serialized.
    fn in_form(&self, read: SummedProfile) -> SummedProfile
        ensures { Some result ≡ in_form self.now.plan.now.action (Some read) }
    {
        match &self.plan.action {
            Action::CheckTars => {
                let SummedProfile { profile, sum } = read;
                let profile = profile.for_archives();
                SummedProfile { profile, sum }
            }
            Action::Sample | Action::Help(_) | Action::Check | Action::Join | Action::Make => {
                read
            }
        }
    }

    /// Says which keys of a profile aren't checked, and checks the bags of the plan's words by it.
    fn check_by<O: Out, E: Out>(
        &self,
        read: &SummedProfile,
        visits: &mut Visits<D>,
        out: &mut O,
        err: &mut E,
    ) -> Result<u8, Halt>
        ensures { Does O.Out visits.old visits.new out.old out.new (status_of result)
            (AreCheckedBy (AreCheckedAs self.now.plan.now.action
            (D.below (disks_of self.now.folders.now))
            (D.archived (disks_of self.now.folders.now)) self.now.plan.now)
            self.now.plan.now read.now) }
    {
        say_unchecked(self.plan.quiet, &read.profile, out)?;
        self.check_each(Some(read), visits, out, err)
    }
}
