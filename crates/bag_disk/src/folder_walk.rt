//! A walk over the folders of a disk.
ghost use Rattle.std.specs.Prelude.{◌≡◌, ◌<◌, ◌≤◌, ◌+◌, ◌∷◌, [], IfOk, IfErr, OnOk, IsTrue};
ghost use Rattle.std.specs.Prelude.{vec_len};
ghost use Rattle.bag_disk.specs.DiskNodes.{OnlyLooks};
ghost use Rattle.bag_disk.specs.FolderWalk.{FindsPath, HasPaths, IsFolderPath, ListsFolder};
ghost use Rattle.bag_disk.specs.FolderWalk.{ListsNames, MayRefuseFolder, MayRefuseNames};
ghost use Rattle.bag_disk.specs.FolderWalk.{MayRefusePath, files_with, folders_with, turns_left};
ghost use Rattle.bag_disk.specs.Location.{path_in};
ghost use Rattle.bag_disk.specs.declared.disk.Entry.TheVariants.{Other};
ghost use Rattle.bag_disk.specs.Refusal.{IsCounted, IsDueOnly, IsNoFailure};
ghost use Rattle.bag_disk.specs.declared.refusal.Refusal.TheVariants.{Special};
ghost use Rattle.bag_text.specs.Path.{is_path};

use crate::refusal::Refusal;
use crate::{Disk, Entry, path_in};
use bag_text::Text;
use bag_tree::FileEntry;
use std::alloc::{AllocError, Global};

/// How many files and folders a tree may have.
pub(crate) const MOST_ENTRIES: u32 = 16_777_216;

/// The files and folders that were found so far.
#[derive(Drop)]
pub(crate) struct FolderWalk {
    alloc: Global,
    pub(crate) files: Vec<FileEntry>,
    /// The folders that weren't listed yet.
    pub(crate) folders: Vec<Text>,
    pub(crate) listed: Vec<Text>,
    /// How many more files and folders can be found; with none left there are too many.
    room: u32,
}

impl FolderWalk {
    /// A walk that has the base folder to list.
    pub(crate) fn new(alloc: Global) -> Result<FolderWalk, AllocError>
        ensures files { IfOk result (λ walk. walk.files.items ≡ []) }
        ensures folders { IfOk result (λ walk. walk.folders.items ≡ [] ∷ []) }
        ensures listed { IfOk result (λ walk. walk.listed.items ≡ []) }
    {
        let mut folders = Vec::new(alloc);
        folders.push(Text::empty(alloc))?;
        Ok(FolderWalk {
            alloc,
            files: Vec::new(alloc),
            folders,
            listed: Vec::new(alloc),
            room: MOST_ENTRIES + 1,
        })
    }

    /// Adds what stands in one folder. Where there is too much, all that was found so far stands in
    /// the walk.
    pub(crate) fn list_folder<D: Disk>(&mut self, disk: &mut D, folder: Text) -> Result<(), Refusal>
        requires { IsFolderPath folder }
        ensures paths { OnOk result (HasPaths self.old → HasPaths self.new) }
        ensures looks { OnlyLooks (D.state disk.old) (D.state disk.new) }
        ensures walked { OnOk result (ListsFolder (D.state disk.old) self.old self.new folder) }
        ensures refused { IfErr result
            (MayRefuseFolder (D.state disk.old) self.old self.new folder) }
        ensures left { OnOk result (turns_left self.new ≤ turns_left self.old) }
        ensures failures { IsCounted result (D.state disk.old) (D.state disk.new) }
    {
        match disk.enter(folder.as_str()) {
            Ok(()) => {}
            Err(fault) => return Err(Refusal::at_known(fault)),
        }
        match self.list_names(disk, folder.as_str()) {
            Ok(()) => {
                self.listed.push(folder)?;
                Ok(())
            }
            Err(Refusal::TooMany) => {
                self.listed.push(folder)?;
                Err(Refusal::TooMany)
            }
            Err(refusal) => Err(refusal),
        }
    }

    /// Adds what stands at each name that is left of a folder.
    fn list_names<D: Disk>(&mut self, disk: &mut D, folder: &str) -> Result<(), Refusal>
        requires { IsFolderPath folder.now }
        ensures paths { OnOk result (HasPaths self.old → HasPaths self.new) }
        ensures looks { OnlyLooks (D.state disk.old) (D.state disk.new) }
        ensures walked { OnOk result (ListsNames (D.state disk.old) self.old self.new folder.now) }
        ensures refused { IfErr result
            (MayRefuseNames (D.state disk.old) self.old self.new folder.now) }
        ensures listed { self.new.listed.items ≡ self.old.listed.items }
        ensures left { OnOk result (turns_left self.new ≤ turns_left self.old) }
        ensures failures { IsCounted result (D.state disk.old) (D.state disk.new) }
    {
        while self.room > 0 {
            match disk.next_name() {
                Ok(Some(name)) => self.add(disk, folder, name.as_str())?,
                Ok(None) => return Ok(()),
                Err(fault) => return Err(Refusal::of_name(fault)),
            }
        }
        Err(Refusal::TooMany)
    }

    /// Adds what stands at a name of a folder.
    fn add<D: Disk>(&mut self, disk: &mut D, folder: &str, name: &str) -> Result<(), Refusal>
        requires has_room { 0 < self.old.room }
        requires folder { IsFolderPath folder.now }
        requires name { IsTrue (is_path name.now) }
        ensures paths { OnOk result (HasPaths self.old → HasPaths self.new) }
        ensures looks { OnlyLooks (D.state disk.old) (D.state disk.new) }
        ensures names { (D.state disk.new).names ≡ (D.state disk.old).names }
        ensures walked { OnOk result
            (FindsPath (D.state disk.old) self.old self.new (path_in folder.now name.now)) }
        ensures listed { self.new.listed.items ≡ self.old.listed.items }
        ensures refused { IfErr result
            (MayRefusePath (D.state disk.old) (path_in folder.now name.now)) }
        ensures left { OnOk result (turns_left self.new ≤ turns_left self.old) }
        ensures room { OnOk result (self.new.room + 1 ≡ self.old.room) }
        ensures failures { IsCounted result (D.state disk.old) (D.state disk.new) }
    {
        self.room -= 1;
        let path = path_in(self.alloc, folder, name)?;
        match disk.named_entry(path.as_str()) {
            Ok(entry) => self.put(path, entry),
            Err(fault) => Err(Refusal::at_known(fault)),
        }
    }

    /// Adds what stands at a path.
    fn put(&mut self, path: Text, entry: Entry) -> Result<(), Refusal>
        ensures files { OnOk result
            (self.new.files.items ≡ files_with self.old.files.items path entry) }
        ensures folders { OnOk result
            (self.new.folders.items ≡ folders_with self.old.folders.items path entry) }
        ensures listed { self.new.listed.items ≡ self.old.listed.items }
        ensures other { OnOk result (entry ≡ Other → ⊥) }
        ensures refused { IfErr result (IsDueOnly Special (entry ≡ Other)) }
        ensures quiet { IsNoFailure result }
        ensures left { OnOk result (vec_len self.new.folders ≤ vec_len self.old.folders + 1) }
        ensures room { self.new.room ≡ self.old.room }
    {
        match entry {
            Entry::File(size) => self.files.push(FileEntry { path, size })?,
            Entry::Folder => self.folders.push(path)?,
            Entry::Other => return Err(Refusal::Special),
        }
        Ok(())
    }
}
