//! Changes of a disk in memory, which its device notes.
use crate::memory_disk::MemoryDisk;
use crate::trail::{renamed, written};
use bag_disk::{DiskFault, Refusal, ReplaceDisk, WritableDisk};
use bag_text::Text;
use bag_tree::DeviceEvent;
use test_nodes::{Node, add_node, append, is_folder, moved_to, put_in_place, removed};

impl WritableDisk for MemoryDisk {
    ghost use Rattle.std.specs.Prelude.{◌≡◌, IfErr, IfOk, IsTrue, length};
    ghost use Rattle.bag_text.specs.Path.{is_path};
    ghost use Rattle.test_nodes.specs.Changing.{MayRefuseAdding, MayRefuseMoving, MayRefuseSync};
    ghost use Rattle.test_nodes.specs.Changing.{MayRefuseSyncFolder, MayRefuseWriting};
    ghost use Rattle.test_disk.specs.DiskCalls.{Creates, MakesFolderAt, Renames, Syncs};
    ghost use Rattle.test_disk.specs.DiskCalls.{SyncsFolder, Writes};
    ghost use Rattle.test_disk.specs.MemoryDisk.{barred_of, state_of, written_of};

    ghost written = { written_of };

    fn make_folder(&mut self, path: &str) -> Result<(), DiskFault>
        requires { IsTrue (is_path path.now) }
        ensures makes { MakesFolderAt (state_of self.old) (state_of self.new)
            (written_of self.old) (written_of self.new) path.now result }
        ensures barred { barred_of self.new ≡ barred_of self.old }
        ensures refused { IfErr result (MayRefuseAdding (state_of self.old).nodes path.now) }
    {
        let made = Text::from_str(self.alloc, path)?;
        self.trail.note(DeviceEvent::MakeFolder(made))?;
        match add_node(self.alloc, &mut self.nodes, path.as_bytes(), Node::Folder) {
            Ok(()) => {}
            Err(fault) => {
                self.trail.take_back();
                self.failures.refuse(Refusal::of_making(fault));
                return Err(fault);
            }
        }
        self.open = None;
        self.written = None;
        Ok(())
    }

    fn rename(&mut self, from: &str, to: &str) -> Result<(), DiskFault>
        ensures renames { Renames (state_of self.old) (state_of self.new)
            (written_of self.old) (written_of self.new) from.now to.now result }
        ensures barred { barred_of self.new ≡ barred_of self.old }
        ensures refused { IfErr result (MayRefuseMoving (state_of self.old).nodes from.now to.now) }
    {
        let moved = match moved_to(self.alloc, &self.nodes, from.as_bytes(), to.as_bytes()) {
            Ok(moved) => moved,
            Err(fault) => {
                self.failures.refuse(Refusal::at_known(fault));
                return Err(fault);
            }
        };
        self.trail.note(renamed(self.alloc, from, to)?)?;
        self.nodes = moved;
        self.open = None;
        self.written = None;
        Ok(())
    }

    fn create(&mut self, path: &str) -> Result<(), DiskFault>
        requires { IsTrue (is_path path.now) }
        ensures creates { Creates (state_of self.old) (state_of self.new)
            (written_of self.old) (written_of self.new) path.now result }
        ensures barred { barred_of self.new ≡ barred_of self.old }
        ensures refused { IfErr result (MayRefuseAdding (state_of self.old).nodes path.now) }
    {
        let written = Text::from_str(self.alloc, path)?;
        let made = Text::from_str(self.alloc, path)?;
        self.trail.note(DeviceEvent::Create(made))?;
        let file = Node::File(Vec::new(self.alloc));
        match add_node(self.alloc, &mut self.nodes, path.as_bytes(), file) {
            Ok(()) => {}
            Err(fault) => {
                self.trail.take_back();
                self.failures.refuse(Refusal::of_making(fault));
                return Err(fault);
            }
        }
        self.open = None;
        self.written = Some(written);
        Ok(())
    }

    fn write(&mut self, bytes: &[u8]) -> Result<usize, DiskFault>
        ensures writes { Writes (state_of self.old) (state_of self.new)
            (written_of self.old) (written_of self.new) bytes.now result }
        ensures barred { barred_of self.new ≡ barred_of self.old }
        ensures all { IfOk result (λ n. n ≡ length bytes.now) }
        ensures refused { IfErr result
            (MayRefuseWriting (state_of self.old).nodes (written_of self.old)) }
    {
        let Some(path) = &self.written else {
            self.failures.refuse(Refusal::Device);
            return Err(DiskFault::Device);
        };
        self.trail.note(written(self.alloc, path.as_str(), bytes)?)?;
        match append(self.alloc, &mut self.nodes, path.as_str().as_bytes(), bytes) {
            Ok(()) => {}
            Err(fault) => {
                self.trail.take_back();
                self.failures.refuse(Refusal::at_known(fault));
                return Err(fault);
            }
        }
        self.open = None;
        Ok(bytes.len())
    }

    fn sync(&mut self) -> Result<(), DiskFault>
        ensures syncs { Syncs (state_of self.old) (state_of self.new)
            (written_of self.old) (written_of self.new) result }
        ensures barred { barred_of self.new ≡ barred_of self.old }
        ensures refused { IfErr result (MayRefuseSync (written_of self.old)) }
    {
        let Some(path) = &self.written else {
            self.failures.refuse(Refusal::Device);
            return Err(DiskFault::Device);
        };
        let synced = Text::from_str(self.alloc, path.as_str())?;
        self.trail.note(DeviceEvent::Sync(synced))?;
        self.open = None;
        self.written = None;
        Ok(())
    }

    fn sync_folder(&mut self, folder: &str) -> Result<(), DiskFault>
        ensures syncs { SyncsFolder (state_of self.old) (state_of self.new)
            (written_of self.old) (written_of self.new) folder.now result }
        ensures barred { barred_of self.new ≡ barred_of self.old }
        ensures refused { IfErr result (MayRefuseSyncFolder (state_of self.old).nodes folder.now) }
    {
        if !folder.is_empty() && !is_folder(&self.nodes, folder.as_bytes()) {
            self.failures.refuse(Refusal::Device);
            return Err(DiskFault::NotFound);
        }
        let synced = Text::from_str(self.alloc, folder)?;
        self.trail.note(DeviceEvent::SyncFolder(synced))?;
        Ok(())
    }
}

impl ReplaceDisk for MemoryDisk {
    fn replace(&mut self, from: &str, to: &str) -> Result<(), DiskFault> {
        let put = match put_in_place(self.alloc, &self.nodes, from.as_bytes(), to.as_bytes()) {
            Ok(put) => put,
            Err(fault) => {
                self.failures.refuse(Refusal::at_known(fault));
                return Err(fault);
            }
        };
        self.trail.note(renamed(self.alloc, from, to)?)?;
        self.nodes = put;
        self.open = None;
        self.written = None;
        Ok(())
    }

    fn remove(&mut self, path: &str) -> Result<(), DiskFault> {
        let left = match removed(self.alloc, &self.nodes, path.as_bytes()) {
            Ok(left) => left,
            Err(fault) => {
                self.failures.refuse(Refusal::of_path(fault));
                return Err(fault);
            }
        };
        let gone = Text::from_str(self.alloc, path)?;
        self.trail.note(DeviceEvent::Remove(gone))?;
        self.nodes = left;
        self.open = None;
        self.written = None;
        Ok(())
    }
}
