//! One check of the bag in a tar file.
ghost use Rattle.std.specs.Option.{option_copied};
ghost use Rattle.bag_cli.specs.Checking.{ChecksFolder};
ghost use Rattle.bag_program.specs.Folders.{tar_in, visits_of};
ghost use Rattle.bag_program.specs.InTurn.{HasVisited};
ghost use Rattle.bag_cli.specs.TarChecked.{ChecksTar, IsMemberAt, IsReadAgain, TellsUnopened};
ghost use Rattle.bag_archive.specs.Archive.{SameArchive};
ghost use Rattle.bag_tar.specs.TarTree.{state_of};
ghost use Rattle.std.specs.Prelude.{◌≡◌, [], unwrap_or};

use crate::SummedProfile;
use crate::check::{check_tree, whole_status};
use crate::tar_line::tell_no_tree;
use crate::work::Work;
use bag_arguments::said;
use bag_program::{Disks, Halt, Visits, say_file_trouble};
use bag_tar::{Archive, TarFault, TarStop, TarTree, name_at};
use bag_text::Text;
use bag_tree::{Out, Refused};
use std::alloc::Global;

impl<D: Disks> Work<'_, D> {
    /// Checks the bag in a tar file, as the plan says, by this profile or without one. Gives the
    /// status where the whole report was written, or why the file makes no tree, and says on `err`
    /// what is wrong with the file.
    pub(crate) fn check_tar<O: Out, E: Out>(
        &self,
        profile: Option<&SummedProfile>,
        name: &str,
        visits: &mut Visits<D>,
        out: &mut O,
        err: &mut E,
    ) -> Result<u8, Halt>
        ensures { HasVisited (visits_of visits.old) (visits_of visits.new) (λ own.
            ChecksTar self.now.plan.now (option_copied profile.entry)
            (tar_in D.archived self.now.folders.now name.now) name.now
            (O.state out.old) (O.state out.new) own result) }
    {
        let archive = self.folders.open(self.alloc, name, visits)?;
        match TarTree::open(self.alloc, archive) {
            Ok(tree) => self.check_opened(tree, profile, name, visits, out, err),
            Err((archive, stop)) => {
                Ok(self.tell_unopened(archive, &stop, name, visits, out, err)?)
            }
        }
    }

    /// Checks the bag of a tree that a tar file made, and says on `err` why the system refused.
    fn check_opened<O: Out, E: Out>(
        &self,
        tree: TarTree<D::Archive>,
        profile: Option<&SummedProfile>,
        name: &str,
        visits: &mut Visits<D>,
        out: &mut O,
        err: &mut E,
    ) -> Result<u8, Halt>
        ensures { HasVisited (visits_of visits.old) (visits_of visits.new) (λ own.
            ChecksFolder self.now.plan.now (option_copied profile.entry)
            (state_of D.Archive.state tree) name.now
            (O.state out.old) (O.state out.new) own result) }
    {
        self.folders.enter_tree(name, visits);
        let (tree, checked) = check_tree(self.alloc, tree, self.plan, profile, name, out);
        self.say_tar_trouble(tree.archive(), name, err);
        self.folders.leave(tree, visits);
        whole_status(checked)
    }

    /// Writes why a tar file made no tree, and says on `err` what is wrong with it.
    fn tell_unopened<O: Out, E: Out>(
        &self,
        archive: D::Archive,
        stop: &TarStop,
        name: &str,
        visits: &mut Visits<D>,
        out: &mut O,
        err: &mut E,
    ) -> Result<u8, Refused>
        ensures { HasVisited (visits_of visits.old) (visits_of visits.new) (λ own.
            TellsUnopened (D.Archive.state archive) stop.now name.now
            (O.state out.old) (O.state out.new) own result) }
    {
        let mut archive = archive;
        let member = member_at(self.alloc, &mut archive, stop);
        let told = tell_no_tree(name, text_of(&member), stop.cause, out);
        self.say_tar_trouble(&archive, name, err);
        self.folders.shut(archive, visits);
        told
    }

    /// Says on `err` what is wrong with a tar file, as far as that is known.
    fn say_tar_trouble<E: Out>(&self, archive: &D::Archive, name: &str, err: &mut E) {
        let trouble = self.folders.tar_trouble(archive);
        say_file_trouble(self.alloc, said::PROGRAM, name, trouble, err);
    }
}

/// The name of the member at which an archive stops, where it has one and what stops it isn't its
/// device or memory.
fn member_at<B: Archive>(alloc: Global, archive: &mut B, stop: &TarStop) -> Option<Text>
    ensures same { SameArchive (B.state archive.old) (B.state archive.new) }
    ensures named { IsMemberAt stop.now.cause (B.state archive.old) (B.state archive.new)
        stop.now.at result }
{
    match stop.cause {
        TarFault::Device | TarFault::Memory => None,
        TarFault::CutOff
        | TarFault::Damaged
        | TarFault::Special
        | TarFault::Name
        | TarFault::Twice
        | TarFault::NoBase
        | TarFault::TooMany => read_name(alloc, archive, stop.at),
    }
}

/// The name of the member whose header is at a place, where it has one and that isn't refused.
fn read_name<B: Archive>(alloc: Global, archive: &mut B, at: u64) -> Option<Text>
    ensures same { SameArchive (B.state archive.old) (B.state archive.new) }
    ensures named { IsReadAgain (B.state archive.old) (B.state archive.new) at result }
{
    match name_at(alloc, archive, at) {
        Ok(name) => name,
        Err(_) => None,
    }
}

/// The text of a name; empty where there is none.
fn text_of(name: &Option<Text>) -> &str
    ensures { result.now ≡ unwrap_or name.now [] }
{
    match name {
        Some(name) => name.as_str(),
        None => "",
    }
}
