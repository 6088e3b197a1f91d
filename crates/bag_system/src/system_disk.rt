//! The system's disk.
ghost use Rattle.std.specs.Prelude.{◌≡◌, ◌<◌, ◌≤◌, ◌++◌, ◌∷◌, [], IfOk, IsTrue, None, Ok, OnErr, OnOk};
ghost use Rattle.std.specs.Prelude.{is_some, false, length};
ghost use Rattle.std.specs.Fs.{dir_entry_name};
ghost use Rattle.bag_system.specs.SystemDisk.{base_of, state_of_system, synced_by, system_state};
ghost use Rattle.bag_system.specs.SystemDisk.{written_state};
ghost use Rattle.bag_disk.specs.DiskNodes.{OnlyLooks, OnlySyncs, empty_disk};
ghost use Rattle.bag_disk.specs.Refusal.{CountsAs, at_known};

use crate::base_folder::{BaseFolder, Located, Synced};
use crate::ownership::RemovedFiles;
use crate::system_fault::{SystemFault, answer_at};
use crate::trouble::{Refusals, Trouble};
use bag_disk::{Disk, DiskFault, Entry, ReplaceDisk, Subject, WritableDisk};
use bag_text::{Items, Text};
use std::alloc::{AllocError, Global};
use std::fs::{DirEntry, OpenFile, ReadDir};
use std::io::{self, ErrorKind, Read, Write};
use std::os::fd::AsFd;
use std::rt::Files;

/// The system's calls, below a base folder, of which nothing is promised. The base folder may be a
/// link to a folder.
#[derive(Drop)]
pub struct SystemDisk<R: Files> {
    rt: R,
    alloc: Global,
    base: BaseFolder,
    openings: Items<Text>,
    opened: Option<Located<R::File>>,
    written: Option<Located<R::File>>,
    synced: Synced,
    entered: Option<Located<ReadDir<R, Global>>>,
    /// What was named last.
    named: Option<DirEntry<R, Global>>,
    refusals: Refusals,
    removed: RemovedFiles,
}

/// The name of what stands in a folder.
fn name_of<R: Files>(alloc: Global, entry: &DirEntry<R, Global>) -> Result<Text, AllocError>
    ensures { IfOk result (λ name. name ≡ dir_entry_name entry.now) }
{
    Text::from_str(alloc, entry.file_name())
}

/// What a write of bytes answered: one that took none of some is refused.
fn written_of(answer: io::Result<usize>, bytes: &[u8]) -> io::Result<usize>
    ensures same { IfOk result (λ count. answer ≡ Ok count) }
    ensures some { IfOk result (λ count. 0 < length bytes.now → 0 < count) }
{
    let count = answer?;
    if has_written(count, bytes) {
        Ok(count)
    } else {
        Err(io::Error::from(ErrorKind::WriteZero))
    }
}

/// Whether `count` bytes are some of those that were to be written, where there were any.
fn has_written(count: usize, bytes: &[u8]) -> bool
    ensures { IsTrue result → 0 < length bytes.now → 0 < count }
{
    count > 0 || bytes.is_empty()
}

impl<F: Read> Located<F> {
    /// Reads the next bytes.
    fn read(&mut self, alloc: Global, buffer: &mut [u8]) -> Result<usize, SystemFault>
        ensures { IfOk result (λ count. count ≤ length buffer.old) }
    {
        let count = self.opened.read(buffer);
        answer_at(alloc, self.location.as_str(), count)
    }
}

impl<F: Write> Located<F> {
    /// Writes first bytes of these: where there are some, one at least.
    fn write(&mut self, alloc: Global, bytes: &[u8]) -> Result<usize, SystemFault>
        ensures within { IfOk result (λ count. count ≤ length bytes.now) }
        ensures some { IfOk result (λ count. 0 < length bytes.now → 0 < count) }
    {
        let count = written_of(self.opened.write(bytes), bytes);
        answer_at(alloc, self.location.as_str(), count)
    }
}

impl<R: Files> SystemDisk<R> {
    /// Closes the file that is being read and the one that is being written.
    fn close_all(&mut self)
        ensures openings { self.new.openings ≡ self.old.openings }
        ensures opened { self.new.opened ≡ None }
        ensures written { self.new.written ≡ None }
        ensures refusals { self.new.refusals ≡ self.old.refusals }
    {
        self.opened = None;
        self.written = None;
    }

    /// Why the system refused last, as far as that is known.
    pub fn trouble(&self) -> Option<&Trouble> {
        self.refusals.last()
    }

    /// Notes that a file was opened.
    fn note(&mut self, path: &str) -> Result<(), AllocError>
        ensures noted { OnOk result (self.new.openings ≡ self.old.openings ++ path.now ∷ []) }
        ensures refused { OnErr result (self.new.openings ≡ self.old.openings) }
        ensures same { self.new.opened ≡ self.old.opened }
        ensures refusals { self.new.refusals ≡ self.old.refusals }
    {
        self.openings.push(Text::from_str(self.alloc, path)?)
    }
}

impl<R: Files + AllocGlobal + Clone + Drop> Disk for SystemDisk<R> {
    ghost state = { state_of_system };

    fn entry_at(&mut self, path: &str) -> Result<Entry, DiskFault> {
        let found = self.base.entry(&self.rt, path);
        self.refusals.counted(Subject::Path, found)
    }

    fn named_entry(&mut self, path: &str) -> Result<Entry, DiskFault> {
        let found = match &self.named {
            Some(named) => self.base.entry_beside(&self.rt, named, path),
            None => self.base.entry(&self.rt, path),
        };
        self.refusals.counted(Subject::Known, found)
    }

    fn enter(&mut self, folder: &str) -> Result<(), DiskFault> {
        let entries = self.base.entries(&self.rt, folder);
        self.entered = Some(self.refusals.counted(Subject::Known, entries)?);
        Ok(())
    }

    fn next_name(&mut self) -> Result<Option<Text>, DiskFault> {
        let Some(entered) = &mut self.entered else {
            return self
                .refusals
                .counted(Subject::Name, Err(DiskFault::Device.into()));
        };
        match entered.opened.next() {
            None => Ok(None),
            Some(Ok(entry)) => {
                let name = name_of(self.alloc, &entry);
                self.named = Some(entry);
                self.refusals.failures.name(name?)
            }
            Some(Err(error)) => {
                let fault = SystemFault::at(self.alloc, entered.location.as_str(), error);
                self.refusals.counted(Subject::Name, Err(fault))
            }
        }
    }

    fn open(&mut self, path: &str) -> Result<(), DiskFault> {
        self.opened = None;
        let file = self.base.open(&self.rt, path);
        let file = self.refusals.counted(Subject::Path, file)?;
        self.note(path)?;
        self.opened = Some(file);
        Ok(())
    }

    fn is_open(&self) -> bool {
        self.opened.is_some()
    }

    fn close(&mut self) {
        self.opened = None;
    }

    fn read(&mut self, buffer: &mut [u8]) -> Result<usize, DiskFault> {
        let Some(file) = &mut self.opened else {
            return self
                .refusals
                .counted(Subject::Known, Err(DiskFault::Device.into()));
        };
        let count = file.read(self.alloc, buffer);
        self.refusals.counted(Subject::Known, count)
    }

    ghost is_disk = { λ _. empty_disk };
}

impl<R: Files + AllocGlobal + Clone + Drop> WritableDisk for SystemDisk<R>
where
    R::File: AsFd,
{
    ghost written = { λ disk. written_state (is_some disk.written) };

    fn make_folder(&mut self, path: &str) -> Result<(), DiskFault> {
        let made = self.base.make_folder(&self.rt, path);
        self.refusals.counted(Subject::Making, made)?;
        self.close_all();
        Ok(())
    }

    fn rename(&mut self, from: &str, to: &str) -> Result<(), DiskFault> {
        let renamed = self.base.rename(&self.rt, from, to);
        self.refusals.counted(Subject::Known, renamed)?;
        self.close_all();
        Ok(())
    }

    fn create(&mut self, path: &str) -> Result<(), DiskFault> {
        let file = self.base.create(&self.rt, path);
        let file = self.refusals.counted(Subject::Making, file)?;
        self.opened = None;
        self.written = Some(file);
        Ok(())
    }

    fn write(&mut self, bytes: &[u8]) -> Result<usize, DiskFault> {
        let Some(file) = &mut self.written else {
            return self
                .refusals
                .counted(Subject::Known, Err(DiskFault::Device.into()));
        };
        let count = file.write(self.alloc, bytes);
        let count = self.refusals.counted(Subject::Known, count)?;
        self.opened = None;
        Ok(count)
    }

    fn sync(&mut self) -> Result<(), DiskFault> {
        let Some(file) = &self.written else {
            return self
                .refusals
                .counted(Subject::Known, Err(DiskFault::Device.into()));
        };
        let synced = file.opened.sync_all();
        let synced = answer_at(self.alloc, file.location.as_str(), synced);
        self.refusals.counted(Subject::Known, synced)?;
        self.close_all();
        Ok(())
    }

    /// Where it is answered, the system was asked, and said that it synced the folder.
    fn sync_folder(&mut self, folder: &str) -> Result<(), DiskFault>
        ensures asked { OnOk result
            (synced_by self.new ≡ synced_by self.old ++ folder.now ++ 0 ∷ []) }
        ensures syncs { OnlySyncs (state_of_system self.old) (state_of_system self.new) }
        ensures same { OnErr result
            (OnlyLooks (state_of_system self.old) (state_of_system self.new)) }
        ensures same_file { is_some self.new.written ≡ is_some self.old.written }
        ensures failures { CountsAs
            at_known result (state_of_system self.old) (state_of_system self.new) }
    {
        let synced = self.base.sync(&self.rt, folder, &mut self.synced);
        self.refusals.counted(Subject::Known, synced)
    }
}

impl<R: Files + AllocGlobal + Clone + Drop> ReplaceDisk for SystemDisk<R>
where
    R::File: AsFd,
{
    fn replace(&mut self, from: &str, to: &str) -> Result<(), DiskFault> {
        let replaced = self.base.replace(&self.rt, from, to, &self.removed);
        self.refusals.counted(Subject::Known, replaced)?;
        self.close_all();
        Ok(())
    }

    fn remove(&mut self, path: &str) -> Result<(), DiskFault> {
        let removed = self.base.remove(&self.rt, path, &mut self.removed);
        self.refusals.counted(Subject::Path, removed)?;
        self.close_all();
        Ok(())
    }
}

impl<R: Files + AllocGlobal + Clone + Drop> SystemDisk<R> {
    /// The system's disk below a base folder, at which it doesn't look yet.
    pub fn new(rt: R, alloc: Global, base: &str) -> Result<SystemDisk<R>, AllocError>
        ensures base { IfOk result (λ disk. base_of disk ≡ base.now) }
        ensures state { IfOk result
            (λ disk. ⟦<SystemDisk<R> as Disk>⟧.state disk ≡ system_state [] false 0) }
    {
        Ok(SystemDisk {
            rt,
            alloc,
            base: BaseFolder::new(alloc, base)?,
            openings: Items::new(alloc),
            opened: None,
            written: None,
            synced: Synced::none(),
            entered: None,
            named: None,
            refusals: Refusals::none(),
            removed: RemovedFiles::none(alloc),
        })
    }
}
