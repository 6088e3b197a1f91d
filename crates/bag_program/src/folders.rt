//! The folders that a program looks into.
ghost use Rattle.std.specs.Prelude.{◌≡◌, ◌≤◌, [], Some, IfOk, IsErrOf, OnOk, OnErr, vec_len};
ghost use Rattle.std.specs.Result.{result_map_both};
ghost use Rattle.bag_store.specs.FileTreeCalls.{disk_of};
ghost use Rattle.bag_program.specs.SystemFile.{MayBeUnread};
ghost use Rattle.bag_program.specs.Folders.{disks_of, reports_in, tar_in, tree_in, visits_of};
ghost use Rattle.bag_program.specs.Folders.{AddsEvent};
ghost use Rattle.bag_program.specs.Visits.{Asked, Closed, Entered, NotGiven, Left, Opened, Read, Shut};
ghost use Rattle.bag_program.specs.declared.read_fault.ReadFault.TheVariants.{Unread};

use crate::disks::Disks;
use crate::file_trouble::FileTrouble;
use crate::read_fault::ReadFault;
use crate::visits::Visits;
use bag_store::FileTree;
use bag_system::Trouble;
use bag_text::Text;
use bag_tree::Tree;
use std::alloc::{AllocError, Global};

/// The folders that disks reach, and the files beside them.
///
/// A function that borrows a `Folders` and no disks reaches a disk through it alone. So the
/// `Visits` that were made with it hold each folder that was looked into, with the state in which
/// its tree was left, each that couldn't be given, and each file that was read, with the answer.
#[derive(Drop)]
pub struct Folders<'d, D> {
    disks: &'d D,
}

impl<'d, D: Disks> Folders<'d, D> {
    /// The folders that these disks reach, of which none was looked into yet.
    pub fn of(disks: &'d D) -> (Folders<'d, D>, Visits<D>)
        ensures disks { disks_of result.0 ≡ disks.now }
        ensures visits { visits_of result.1 ≡ [] }
    {
        (Folders { disks }, Visits::none())
    }

    /// The tree of the files in a folder, at which it doesn't look yet.
    pub fn enter(
        &self,
        alloc: Global,
        name: &str,
        visits: &mut Visits<D>,
    ) -> Result<FileTree<D::Disk>, AllocError>
        ensures state { IfOk result (λ tree. ⟦<FileTree<D::Disk> as bag_tree::Tree>⟧.state tree
            ≡ tree_in D.below self.now name.now) }
        ensures base { IfOk result (λ tree. D.is_below (disk_of tree) name.now) }
        ensures entered { OnOk result (AddsEvent visits.old visits.new (Entered name.now)) }
        ensures refused { OnErr result (AddsEvent visits.old visits.new (NotGiven name.now)) }
    {
        match self.disks.disk(alloc, name) {
            Ok(disk) => {
                visits.note_of(&name);
                Ok(FileTree::over(alloc, disk))
            }
            Err(AllocError) => {
                note_not_given(name, visits);
                Err(AllocError)
            }
        }
    }

    /// The tar file at a path.
    pub fn open(
        &self,
        alloc: Global,
        path: &str,
        visits: &mut Visits<D>,
    ) -> Result<D::Archive, AllocError>
        ensures state { IfOk result (λ archive. D.Archive.state archive
            ≡ tar_in D.archived self.now path.now) }
        ensures opened { OnOk result (AddsEvent visits.old visits.new (Opened path.now)) }
        ensures refused { OnErr result (AddsEvent visits.old visits.new (NotGiven path.now)) }
    {
        match self.disks.archive(alloc, path) {
            Ok(archive) => {
                note_opened(path, visits);
                Ok(archive)
            }
            Err(AllocError) => {
                note_not_given(path, visits);
                Err(AllocError)
            }
        }
    }

    /// Why a tar file can't be read, for people to read, as far as that is known.
    pub fn tar_trouble<'t>(&self, archive: &'t D::Archive) -> Option<&'t FileTrouble> {
        self.disks.tar_trouble(archive)
    }

    /// Drops a tar file that made no tree, which is left as it is now.
    pub fn shut(&self, archive: D::Archive, visits: &mut Visits<D>)
        ensures { AddsEvent visits.old visits.new (Shut (D.Archive.state archive)) }
    {
        visits.note_of(&archive);
    }

    /// The reports at these paths, of which none is open. That they are asked for is noted first.
    pub fn reports(
        &self,
        alloc: Global,
        paths: &[Text],
        visits: &mut Visits<D>,
    ) -> Result<D::Reports, AllocError>
        ensures state { IfOk result (λ reports. D.Reports.state reports
            ≡ reports_in D.reported self.now paths.now) }
        ensures asked { AddsEvent visits.old visits.new (Asked paths.now) }
    {
        visits.note_of(&paths);
        self.disks.reports(alloc, paths)
    }

    /// Why a report couldn't be read, for people to read, as far as that is known.
    pub fn report_trouble<'r>(&self, reports: &'r D::Reports) -> Option<&'r FileTrouble> {
        self.disks.report_trouble(reports)
    }

    /// Drops reports, which are left as they are now.
    pub fn close(&self, reports: D::Reports, visits: &mut Visits<D>)
        ensures { AddsEvent visits.old visits.new (Closed (D.Reports.state reports)) }
    {
        visits.note_of(&reports);
    }

    /// Notes that the tree of this name is given.
    pub fn enter_tree(&self, name: &str, visits: &mut Visits<D>)
        ensures { AddsEvent visits.old visits.new (Entered name.now) }
    {
        visits.note_of(&name);
    }

    /// Drops a tree, which is left as it is now.
    pub fn leave<T: Tree + Drop>(&self, tree: T, visits: &mut Visits<D>)
        ensures { AddsEvent visits.old visits.new (Left (T.state tree)) }
    {
        visits.note_of(&tree);
    }

    /// Why the system refused last in a tree, for people to read, as far as that is known.
    pub fn trouble<'t>(&self, tree: &'t FileTree<D::Disk>) -> Option<&'t Trouble> {
        self.disks.trouble(tree.disk())
    }

    /// The bytes of the file at a path, all of them. A file of more than `most` bytes can't be
    /// read.
    ///
    /// The path is one of the system's, and leads from no folder.
    pub fn read_file(
        &self,
        alloc: Global,
        path: &str,
        most: u32,
        visits: &mut Visits<D>,
    ) -> Result<Vec<u8>, ReadFault>
        ensures whole { IfOk result (λ bytes.
            D.file (disks_of self.now) path.now (Some bytes.items)) }
        ensures within { IfOk result (λ bytes. vec_len bytes ≤ most) }
        ensures unread { IsErrOf result Unread →
            MayBeUnread (D.file (disks_of self.now) path.now) most }
        ensures read { AddsEvent visits.old visits.new
            (Read path.now (result_map_both (λ bytes. bytes.items) (λ fault. fault) result)) }
    {
        let answer = self.disks.read_file(alloc, path, most);
        visits.note_of(&(path, &answer));
        answer
    }
}

/// Notes that a tar file was given.
fn note_opened<D>(path: &str, visits: &mut Visits<D>)
    ensures { AddsEvent visits.old visits.new (Opened path.now) }
{
    visits.note_of(&path);
}

/// Notes that a folder was asked for and couldn't be given.
fn note_not_given<D>(name: &str, visits: &mut Visits<D>)
    ensures { AddsEvent visits.old visits.new (NotGiven name.now) }
{
    visits.note_of(&name);
}
