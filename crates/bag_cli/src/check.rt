//! One check: the report of one bag, or of a part of it.
ghost use Rattle.std.specs.Prelude.{◌≡◌, IfOk, MatchResult};
ghost use Rattle.std.specs.Option.{option_copied};
ghost use Rattle.std.specs.Result.{result_ok};
ghost use Rattle.bag_program.specs.Folders.{tree_in, visits_of};
ghost use Rattle.bag_cli.specs.Checked as checked;
ghost use Rattle.bag_cli.specs.Checked.{request_of, IsCheckBy};
ghost use Rattle.bag_cli.specs.Checking.{ChecksFolder, ChecksTree, IsCheckOfSample};
ghost use Rattle.bag_program.specs.InTurn.{HasVisited};
ghost use Rattle.bag_cli.specs.Status as spec;

use crate::SummedProfile;
use crate::check_outcome::CheckOutcome;
use crate::sample::sample_tree;
use crate::work::Work;
use bag_arguments::{Plan, said};
use bag_faults::{Fault, Part};
use bag_profile::Profile;
use bag_program::{Disks, Halt, Visits, say_trouble};
use bag_text::Text;
use bag_tree::{Out, Tree};
use bag_walk::{Request, run, run_part};
use std::alloc::{AllocError, Global};

impl<D: Disks> Work<'_, D> {
    /// Checks the bag in a folder, as the plan says, by this profile or without one. Gives the
    /// status where the whole report was written, and says on `err` why the system refused. The
    /// folder is asked for before anything else that takes memory.
    pub(crate) fn check_folder<O: Out, E: Out>(
        &self,
        profile: Option<&SummedProfile>,
        directory: &str,
        visits: &mut Visits<D>,
        out: &mut O,
        err: &mut E,
    ) -> Result<u8, Halt>
        ensures { HasVisited (visits_of visits.old) (visits_of visits.new) (λ own.
            ChecksFolder self.now.plan.now (option_copied profile.entry)
            (tree_in D.below self.now.folders.now directory.now) directory.now
            (O.state out.old) (O.state out.new) own result) }
    {
        let tree = self.folders.enter(self.alloc, directory, visits)?;
        let (tree, checked) = check_tree(self.alloc, tree, self.plan, profile, directory, out);
        say_trouble(self.alloc, said::PROGRAM, self.folders.trouble(&tree), err);
        self.folders.leave(tree, visits);
        whole_status(checked)
    }
}

/// The status of a check, where the whole report was written.
pub(crate) fn whole_status(checked: Result<CheckOutcome, AllocError>) -> Result<u8, Halt>
    ensures { result_ok result ≡ spec.whole_status checked }
{
    checked?.status().ok_or(Halt::Unwritten)
}

/// Checks the sample bag, as a plan says.
pub(crate) fn check_sample<O: Out>(
    alloc: Global,
    plan: &Plan,
    out: &mut O,
) -> Result<CheckOutcome, AllocError>
    ensures { MatchResult result
        (λ outcome. IsCheckOfSample plan.now (O.state out.old) (O.state out.new) outcome)
        (λ _. O.state out.new ≡ O.state out.old) }
{
    let tree = sample_tree(alloc)?;
    let (_tree, checked) = check_tree(alloc, tree, plan, None, "sample", out);
    checked
}

/// Checks the bag of a tree under a name, as a plan says. Where memory for what is asked for runs
/// out, it doesn't look at the tree.
pub(crate) fn check_tree<T: Tree, O: Out>(
    alloc: Global,
    tree: T,
    plan: &Plan,
    profile: Option<&SummedProfile>,
    name: &str,
    out: &mut O,
) -> (T, Result<CheckOutcome, AllocError>)
    ensures { ChecksTree plan.now (option_copied profile.entry)
        (T.state tree) (T.state result.0) name.now
        (O.state out.old) (O.state out.new) result.1 }
{
    match request_for(alloc, plan, name) {
        Ok(request) => {
            let (tree, outcome) = check_asked(alloc, tree, plan.part, profile, request, out);
            (tree, Ok(outcome))
        }
        Err(AllocError) => (tree, Err(AllocError)),
    }
}

/// Checks the bag of a tree, or a part of it where one is given, as is asked for.
fn check_asked<T: Tree, O: Out>(
    alloc: Global,
    tree: T,
    part: Option<Part>,
    profile: Option<&SummedProfile>,
    request: Request,
    out: &mut O,
) -> (T, CheckOutcome)
    ensures { IsCheckBy part (option_copied profile.entry) (T.state tree) (T.state result.0)
        request (O.state out.old) (O.state out.new) result.1 }
{
    let own = profile_of(profile);
    match part {
        None => {
            let (tree, outcome) = run(alloc, tree, own, request, out);
            (tree, CheckOutcome::OfBag(outcome))
        }
        Some(part) => {
            let sum = sum_of(profile);
            let (tree, outcome) = run_part(alloc, tree, own, sum, part, request, out);
            (tree, CheckOutcome::OfPart(outcome))
        }
    }
}

/// The profile that was read.
fn profile_of(read: Option<&SummedProfile>) -> Option<&Profile>
    ensures { option_copied result ≡ checked.profile_of (option_copied read.entry) }
{
    match read {
        None => None,
        Some(read) => Some(&read.profile),
    }
}

/// The SHA-256 of the bytes that the profile was read from.
fn sum_of(read: Option<&SummedProfile>) -> Option<&str>
    ensures { option_copied result ≡ checked.sum_of (option_copied read.entry) }
{
    match read {
        None => None,
        Some(read) => Some(read.sum.as_str()),
    }
}

/// What a plan's check of a bag of this name asks for. It fails only when out of memory.
pub fn request_for(alloc: Global, plan: &Plan, name: &str) -> Result<Request, AllocError>
    ensures { IfOk result (λ request. request ≡ request_of plan.now name.now) }
{
    Ok(Request {
        options: plan.options,
        after: Fault::copied(alloc, plan.after.as_ref())?,
        limit: plan.limit,
        quiet: plan.quiet,
        name: Text::from_str(alloc, name)?,
    })
}
