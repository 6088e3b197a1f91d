//! A tree of the files on a disk.
ghost use Rattle.std.specs.Prelude.{◌≡◌, true};
ghost use Rattle.bag_store.specs.Asking.{HasDurableFolders};

use crate::answered::Answered;
use crate::standing::has_folder_named;
use crate::{changing, replacing, writing};
use bag_disk::{Disk, Refusal, ReplaceDisk, WritableDisk, list_below, open_at};
use bag_system::SystemDisk;
use bag_tree::{Listing, ReplaceTree, Tree, TreeFault, WriteTree};
use std::alloc::{AllocError, Global};
use std::rt::Files;

/// The files below the base folder of a disk.
///
/// Its bag is what stands there, and it is honest where the disk is. A symbolic link, a socket, a
/// pipe or a device below the base folder is `Special`; none is followed or opened. The base folder
/// itself may be a symbolic link to a folder. `Device` is what the disk counted as its device's
/// refusal in this call, but for two causes: where the disk's answers contradict one another, since
/// it named a path twice, a listing is `Device`; and so is `move_in` to a path where a folder
/// stands in which it found no file, since it might be replaced.
///
/// A step that changes it is one call of the disk: a folder is made, or something is renamed, never
/// copied. It looks first, and replaces nothing that stood there then. Before `make_folder`,
/// `rename_folder`, `replace` and `remove` make their change they sync the base folder,
/// `rename_folder` also the folder that it renames, and so does the first `move_in` after one of
/// them: where the device refuses that, they are refused, and nothing is changed. What a disk calls
/// a wrong name, as one that is too long, is `Device` too. A refused `create` may leave a file of
/// some first bytes, which stays open until the next step or until the tree is dropped; so may a
/// refused `replace` at the name beside.
#[derive(Drop)]
pub struct FileTree<D: Disk> {
    alloc: Global,
    disk: D,
    answered: Answered,
    /// The names that folders were given in the base folder are durable.
    is_synced: bool,
    ghost durable: { is_synced ≡ true → HasDurableFolders (D.state disk) },
}

impl<D: Disk + Drop> FileTree<D> {
    ghost use Rattle.bag_store.specs.FileTree.{tree_state};
    ghost use Rattle.bag_store.specs.FileTreeCalls.{disk_of};

    /// The tree over a disk, at which it doesn't look yet.
    pub fn over(alloc: Global, disk: D) -> FileTree<D>
        ensures disk { disk_of result ≡ disk }
        ensures state { ⟦<FileTree<D> as Tree>⟧.state result ≡ tree_state (D.state disk) 0 }
    {
        FileTree {
            alloc,
            disk,
            answered: Answered::nothing(),
            is_synced: false,
        }
    }

    /// The disk that the tree stands over.
    pub fn disk(&self) -> &D
        ensures { result.now ≡ disk_of self.now }
    {
        &self.disk
    }
}

impl<D: Disk + Drop> Tree for FileTree<D> {
    ghost use Rattle.std.specs.Prelude.{◌<◌, IfErr, length};
    ghost use Rattle.bag_disk.specs.BagBelow.{bag_of_disk};
    ghost use Rattle.bag_disk.specs.FolderWalk.{Contradiction};
    ghost use Rattle.bag_tree.specs.TreeCalls.{ListCall, OpenCall, ReadCall};
    ghost use Rattle.bag_store.specs.FileTreeCalls.{ReportsDisk, ReportsDiskOnly, disk_of, state_of};

    ghost state = { state_of D.state };

    fn list(&mut self) -> Result<Listing, TreeFault>
        ensures call { ListCall (state_of D.state self.old) (state_of D.state self.new) result }
        ensures cause { IfErr result (ReportsDisk (Contradiction (D.state (disk_of self.old)))
            (D.state (disk_of self.old)) (D.state (disk_of self.new))) }
    {
        match list_below(&mut self.disk, self.alloc) {
            Ok(listing) => {
                self.answered.list(&listing);
                Ok(listing)
            }
            Err(unlisted) => Err(self.answered.refuse_list(unlisted)),
        }
    }

    fn open_file(&mut self, path: &str) -> Result<(), TreeFault>
        ensures call { OpenCall (state_of D.state self.old) (state_of D.state self.new) path.now
            result }
        ensures cause { IfErr result (
            ReportsDiskOnly (D.state (disk_of self.old)) (D.state (disk_of self.new))) }
    {
        self.disk.close();
        match open_at(&mut self.disk, path) {
            Ok(()) => {
                self.answered.open(path);
                Ok(())
            }
            Err(refusal) => Err(self.answered.refuse(refusal)),
        }
    }

    fn read(&mut self, buffer: &mut [u8]) -> Result<usize, TreeFault>
        requires { 0 < length buffer.old }
        ensures call { ReadCall (state_of D.state self.old) (state_of D.state self.new)
            (length buffer.old) buffer.new result }
        ensures cause { IfErr result (
            ReportsDiskOnly (D.state (disk_of self.old)) (D.state (disk_of self.new))) }
    {
        if !self.disk.is_open() {
            return Err(self.answered.note(TreeFault::NoneOpen));
        }
        match self.disk.read(buffer) {
            Ok(count) => {
                self.answered.read(&buffer[..count]);
                Ok(count)
            }
            Err(fault) => Err(self.answered.refuse(Refusal::at_known(fault))),
        }
    }

    ghost is_bag = { λ tree. bag_of_disk (D.state tree.disk).nodes (D.is_disk tree.disk) };
}

impl<D: WritableDisk + Drop> WriteTree for FileTree<D> {
    ghost use Rattle.std.specs.Prelude.{◌≢◌, IsTrue, IfErr};
    ghost use Rattle.bag_text.specs.Path.{is_base_name};
    ghost use Rattle.bag_tree.specs.ChangeCalls.{Creates, MakesFolder, MovesIn, RenamesFolder};
    ghost use Rattle.bag_store.specs.Changing.{HasFolderInTheWay};
    ghost use Rattle.bag_store.specs.FileTreeCalls.{AnswersTakenLast, ReportsDisk, ReportsDiskOnly};
    ghost use Rattle.bag_store.specs.FileTreeCalls.{disk_of, state_of};

    fn make_folder(&mut self, name: &str) -> Result<(), TreeFault>
        requires { IsTrue (is_base_name name.now) }
        ensures makes { MakesFolder name.now (state_of D.state self.old) (state_of D.state self.new)
            result }
        ensures cause { IfErr result (
            ReportsDiskOnly (D.state (disk_of self.old)) (D.state (disk_of self.new))) }
    {
        self.is_synced = false;
        let done = changing::make_folder(&mut self.disk, name);
        self.answered.to(done)
    }

    fn move_in(&mut self, top: &str, folder: &str) -> Result<(), TreeFault>
        requires top { IsTrue (is_base_name top.now) }
        requires folder { IsTrue (is_base_name folder.now) }
        requires two { top.now ≢ folder.now }
        ensures moves { MovesIn top.now folder.now
            (state_of D.state self.old) (state_of D.state self.new) result }
        ensures cause { IfErr result (ReportsDisk
            (HasFolderInTheWay (D.state (disk_of self.old)) top.now folder.now)
            (D.state (disk_of self.old)) (D.state (disk_of self.new))) }
    {
        match changing::move_in(&mut self.disk, self.alloc, self.is_synced, top, folder) {
            Ok(()) => {
                self.is_synced = true;
                self.answered.give();
                Ok(())
            }
            Err(refusal) => Err(self.answered.refuse(refusal)),
        }
    }

    fn rename_folder(&mut self, from: &str, to: &str) -> Result<(), TreeFault>
        requires from { IsTrue (is_base_name from.now) }
        requires to { IsTrue (is_base_name to.now) }
        ensures renames { RenamesFolder from.now to.now
            (state_of D.state self.old) (state_of D.state self.new) result }
        ensures cause { IfErr result (
            ReportsDiskOnly (D.state (disk_of self.old)) (D.state (disk_of self.new))) }
        ensures looks_last { IfErr result (
            AnswersTakenLast from.now (D.state (disk_of self.old)) (D.state (disk_of self.new))) }
    {
        self.is_synced = false;
        let done = changing::rename_folder(&mut self.disk, from, to);
        self.answered.to(done)
    }

    /// Makes a file in the base folder. It was synced when this answers Ok, and so was the base
    /// folder.
    fn create(&mut self, name: &str, bytes: &[u8]) -> Result<(), TreeFault>
        requires { IsTrue (is_base_name name.now) }
        ensures creates { Creates name.now bytes.now
            (state_of D.state self.old) (state_of D.state self.new) result }
        ensures cause { IfErr result (
            ReportsDiskOnly (D.state (disk_of self.old)) (D.state (disk_of self.new))) }
    {
        let done = writing::create(&mut self.disk, name, bytes);
        self.answered.to(done)
    }
}

impl<D: ReplaceDisk + Drop> ReplaceTree for FileTree<D> {
    ghost use Rattle.std.specs.Prelude.{◌≢◌, IsTrue, IfErr};
    ghost use Rattle.bag_text.specs.Path.{is_base_name};
    ghost use Rattle.bag_tree.specs.ReplaceCalls.{LooksForFolder, Removes, Replaces};
    ghost use Rattle.bag_store.specs.FileTreeCalls.{ReportsDiskOnly, disk_of, state_of};
    ghost use Rattle.bag_store.specs.Writing.{LooksFirst};

    /// Whether a folder has a name in the base folder. What is no file and no folder is `Special`.
    fn has_folder(&mut self, name: &str) -> Result<bool, TreeFault>
        requires { IsTrue (is_base_name name.now) }
        ensures looks { LooksForFolder name.now (state_of D.state self.old)
            (state_of D.state self.new) result }
        ensures cause { IfErr result (
            ReportsDiskOnly (D.state (disk_of self.old)) (D.state (disk_of self.new))) }
    {
        match has_folder_named(&mut self.disk, name) {
            Ok(is_there) => {
                self.answered.give();
                Ok(is_there)
            }
            Err(refusal) => Err(self.answered.refuse(refusal)),
        }
    }

    fn replace(&mut self, beside: &str, name: &str, bytes: &[u8]) -> Result<(), TreeFault>
        requires beside { IsTrue (is_base_name beside.now) }
        requires name { IsTrue (is_base_name name.now) }
        requires two { beside.now ≢ name.now }
        ensures replaces { Replaces beside.now name.now bytes.now
            (state_of D.state self.old) (state_of D.state self.new) result }
        ensures cause { IfErr result (
            ReportsDiskOnly (D.state (disk_of self.old)) (D.state (disk_of self.new))) }
        ensures looks_first { LooksFirst (D.state (disk_of self.old)) (D.state (disk_of self.new)) name.now }
    {
        self.is_synced = false;
        let done = replacing::replace(&mut self.disk, beside, name, bytes);
        self.answered.to(done)
    }

    fn remove(&mut self, name: &str) -> Result<(), TreeFault>
        requires { IsTrue (is_base_name name.now) }
        ensures removes { Removes name.now (state_of D.state self.old) (state_of D.state self.new)
            result }
        ensures cause { IfErr result (
            ReportsDiskOnly (D.state (disk_of self.old)) (D.state (disk_of self.new))) }
    {
        self.is_synced = false;
        let done = replacing::remove(&mut self.disk, name);
        self.answered.to(done)
    }
}

impl<R: Files + AllocGlobal + Clone + Drop> FileTree<SystemDisk<R>> {
    ghost use Rattle.std.specs.Prelude.{[], IfOk, false};
    ghost use Rattle.bag_system.specs.SystemDisk.{base_of, system_state};
    ghost use Rattle.bag_store.specs.FileTree.{tree_state};
    ghost use Rattle.bag_store.specs.FileTreeCalls.{disk_of};

    /// The tree below a base folder of the system's disk, at which it doesn't look yet.
    ///
    /// ```
    /// let tree = FileTree::at(rt.clone()?, alloc, "deposit")?;
    /// let (tree, outcome) = run(alloc, tree, None, request, &mut out);
    /// ```
    pub fn at(rt: R, alloc: Global, base: &str) -> Result<FileTree<SystemDisk<R>>, AllocError>
        ensures base { IfOk result (λ tree. base_of (disk_of tree) ≡ base.now) }
        ensures state { IfOk result (λ tree.
            ⟦<FileTree<SystemDisk<R>> as Tree>⟧.state tree ≡ tree_state (system_state [] false 0) 0) }
    {
        let disk = SystemDisk::new(rt, alloc, base)?;
        Ok(FileTree::over(alloc, disk))
    }
}
