//! The system's calls below a base folder.
ghost use Rattle.std.specs.Prelude.{◌≡◌, ◌++◌, ◌∷◌, [], IfOk, IsErrAnd, Ok, OnErr, OnOk};
ghost use Rattle.std.specs.Fs.{IsDir, IsFile, file_type, metadata_len};
ghost use Rattle.bag_disk.specs.Location.{location_below};
ghost use Rattle.bag_disk.specs.declared.disk.DiskFault.TheVariants.{NotFound};
ghost use Rattle.bag_disk.specs.declared.disk.Entry.TheVariants.{File, Folder, Other};

use crate::ownership::{Access, PRIVATE, RemovedFiles, give_owner, take_after};
use crate::system_fault::{SystemFault, answer_at};
use bag_disk::{Entry, is_location, location_below};
use bag_text::Text;
use bag_tree::Heard;
use std::alloc::{AllocError, Global};
use std::fs::{DirEntry, Metadata, OpenFile, OpenOptions, ReadDir};
use std::io::ErrorKind;
use std::os::fd::AsFd;
use std::os::unix::fs::{MetadataExt, OpenOptionsExt};
use std::rt::Files;
use std::{fs, io};

/// The mode that a new file has, but for what the process's mask takes away.
const USUAL: u32 = 0o666;

/// The file that each bag has. (RFC 8493, 2.1.1)
const DECLARATION: &str = "bagit.txt";

/// A base folder of the system. Each call takes a path below it, and is one call of the system's
/// where that path stands; what was made is then given an owner, a group and a mode.
#[derive(Drop)]
pub(crate) struct BaseFolder {
    alloc: Global,
    path: Text,
}

/// The folders that the system said it synced, one after another, each with a byte of zero after
/// it. Only clauses read them: it takes no memory.
#[derive(Drop)]
pub(crate) struct Synced {
    heard: Heard,
}

/// What the system opened, and where.
#[derive(Drop)]
pub(crate) struct Located<T> {
    pub(crate) opened: T,
    pub(crate) location: Text,
}

impl Synced {
    /// None was synced yet.
    pub(crate) fn none() -> Synced
        ensures { result.heard.bytes ≡ [] }
    {
        Synced {
            heard: Heard::new(),
        }
    }

    /// One more was synced.
    fn note(&mut self, folder: &str)
        ensures { self.new.heard.bytes ≡ self.old.heard.bytes ++ folder.now ++ 0 ∷ [] }
    {
        self.heard.note(folder.as_bytes());
        self.heard.note(&[0]);
    }
}

impl BaseFolder {
    /// The base folder at a path of the system's.
    pub(crate) fn new(alloc: Global, path: &str) -> Result<BaseFolder, AllocError>
        ensures { IfOk result (λ base. base.path ≡ path.now) }
    {
        Ok(BaseFolder {
            alloc,
            path: Text::from_str(alloc, path)?,
        })
    }

    /// What stands at a path, where no link at its end is followed.
    pub(crate) fn entry<R: Files>(&self, rt: &R, path: &str) -> Result<Entry, SystemFault> {
        let location = self.location(path)?;
        self.entry_in(rt, location.as_str())
    }

    /// The same. The path is often that of what was named last, which knows its location.
    pub(crate) fn entry_beside<R: Files>(
        &self,
        rt: &R,
        named: &DirEntry<R, Global>,
        path: &str,
    ) -> Result<Entry, SystemFault> {
        let location = named.path().as_str();
        if is_location(location, self.path.as_str(), path) {
            return self.entry_in(rt, location);
        }
        self.entry(rt, path)
    }

    /// What stands in a folder.
    pub(crate) fn entries<R: Files + AllocGlobal + Clone + Drop>(
        &self,
        rt: &R,
        folder: &str,
    ) -> Result<Located<ReadDir<R, Global>>, SystemFault> {
        let location = self.location(folder)?;
        let opened = self.answer(&location, fs::read_dir(rt, location.as_str()))?;
        Ok(Located { opened, location })
    }

    /// Opens the file or the folder at a path for reading.
    pub(crate) fn open<R: Files>(
        &self,
        rt: &R,
        path: &str,
    ) -> Result<Located<R::File>, SystemFault> {
        let location = self.location(path)?;
        let opened = self.answer(&location, fs::open(rt, location.as_str()))?;
        Ok(Located { opened, location })
    }

    /// Makes a folder at a path, with the base folder's owner, group and mode as far as the system
    /// lets it: no byte depends on them.
    pub(crate) fn make_folder<R: Files>(&self, rt: &R, path: &str) -> Result<(), SystemFault>
    where
        R::File: AsFd,
    {
        let location = self.location(path)?;
        self.answer(&location, fs::create_dir(rt, location.as_str()))?;
        if let Ok(folder) = open_folder(rt, location.as_str()) {
            if let Ok(base) = fs::metadata(rt, self.path.as_str()) {
                give_owner(&folder, &base);
                let _ = folder.set_permissions(base.permissions());
            }
        }
        Ok(())
    }

    /// Moves what stands at one path to another.
    pub(crate) fn rename<R: Files>(&self, rt: &R, from: &str, to: &str) -> Result<(), SystemFault> {
        let from = self.location(from)?;
        let to = self.location(to)?;
        self.answer(&to, fs::rename(rt, from.as_str(), to.as_str()))
    }

    /// Removes the file at a path, and notes what it was.
    pub(crate) fn remove<R: Files>(
        &self,
        rt: &R,
        path: &str,
        removed: &mut RemovedFiles,
    ) -> Result<(), SystemFault> {
        let location = self.location(path)?;
        let metadata = self.answer(&location, fs::symlink_metadata(rt, location.as_str()))?;
        removed.note(path, Access::of(&metadata))?;
        self.answer(&location, fs::remove_file(rt, location.as_str()))
    }

    /// Makes a file at a path, open for writing. It replaces none.
    ///
    /// One whose name begins with a dot is on its way to another name, by `replace`: nobody but
    /// this process's user may open it until then. Any other has the base folder's owner and group,
    /// as far as the system lets it.
    pub(crate) fn create<R: Files>(
        &self,
        rt: &R,
        path: &str,
    ) -> Result<Located<R::File>, SystemFault>
    where
        R::File: AsFd,
    {
        if path.starts_with('.') {
            return self.create_with(rt, path, PRIVATE);
        }
        let file = self.create_with(rt, path, USUAL)?;
        if let Ok(base) = fs::metadata(rt, self.path.as_str()) {
            give_owner(&file.opened, &base);
        }
        Ok(file)
    }

    /// Makes a file at a path, open for writing, with a mode. It replaces none.
    fn create_with<R: Files>(
        &self,
        rt: &R,
        path: &str,
        mode: u32,
    ) -> Result<Located<R::File>, SystemFault> {
        let location = self.location(path)?;
        let created = OpenOptions::new()
            .write(true)
            .create_new(true)
            .mode(mode)
            .open(rt, location.as_str());
        let opened = self.answer(&location, created)?;
        Ok(Located { opened, location })
    }

    /// Gives the file at one path another, in place of any file that has it. Before that it takes
    /// the owner, the group and the mode of the file that it replaces, or of the one that was
    /// removed there, or else of `bagit.txt`, and they are synced. Where there is none of these it
    /// keeps its own.
    pub(crate) fn replace<R: Files>(
        &self,
        rt: &R,
        from: &str,
        to: &str,
        removed: &RemovedFiles,
    ) -> Result<(), SystemFault>
    where
        R::File: AsFd,
    {
        if let Some(model) = self.model(rt, to, removed)? {
            let location = self.location(from)?;
            let begun = self.answer(&location, open_file(rt, location.as_str()))?;
            self.answer(&location, take_after(&begun, model))?;
        }
        self.rename(rt, from, to)
    }

    /// Who may open a file that is put at a path.
    fn model<R: Files>(
        &self,
        rt: &R,
        path: &str,
        removed: &RemovedFiles,
    ) -> Result<Option<Access>, SystemFault> {
        if let Some(access) = self.access(rt, path)? {
            return Ok(Some(access));
        }
        if let Some(access) = removed.find(path) {
            return Ok(Some(access));
        }
        self.access(rt, DECLARATION)
    }

    /// Who may open the file at a path, where one stands there.
    fn access<R: Files>(&self, rt: &R, path: &str) -> Result<Option<Access>, SystemFault> {
        let location = self.location(path)?;
        match fs::symlink_metadata(rt, location.as_str()) {
            Ok(metadata) if metadata.is_file() => Ok(Some(Access::of(&metadata))),
            Ok(_) => Ok(None),
            Err(error) if error.kind() == ErrorKind::NotFound => Ok(None),
            Err(error) => Err(SystemFault::at(self.alloc, location.as_str(), error)),
        }
    }

    /// Syncs a folder, so that the names in it are durable.
    pub(crate) fn sync<R: Files>(
        &self,
        rt: &R,
        folder: &str,
        synced: &mut Synced,
    ) -> Result<(), SystemFault>
        ensures noted { OnOk result
            (synced.new.heard.bytes ≡ synced.old.heard.bytes ++ folder.now ++ 0 ∷ []) }
        ensures refused { OnErr result (synced.new.heard.bytes ≡ synced.old.heard.bytes) }
    {
        let Located { opened, location } = self.open(rt, folder)?;
        self.answer(&location, opened.sync_all())?;
        synced.note(folder);
        Ok(())
    }

    /// What stands where this is for the system.
    fn entry_in<R: Files>(&self, rt: &R, location: &str) -> Result<Entry, SystemFault> {
        let metadata = answer_at(self.alloc, location, fs::symlink_metadata(rt, location))?;
        Ok(entry_of(&metadata))
    }

    /// What a call of the system answered at a location, its error as a fault.
    fn answer<T>(&self, location: &Text, answer: io::Result<T>) -> Result<T, SystemFault>
        ensures { IfOk result (λ given. answer ≡ Ok given) }
    {
        answer_at(self.alloc, location.as_str(), answer)
    }

    /// Where a path stands. Below an empty base folder nothing does.
    fn location(&self, path: &str) -> Result<Text, SystemFault>
        ensures nowhere { self.now.path ≡ []
            → IsErrAnd result (λ refused. refused.fault ≡ NotFound) }
        ensures location { IfOk result (λ text. text ≡ location_below self.now.path path.now) }
    {
        if self.path.is_empty() {
            return Err(SystemFault::nowhere(self.alloc));
        }
        Ok(location_below(self.alloc, self.path.as_str(), path)?)
    }
}

/// Opens the folder where this is for the system, and none that a link leads to.
fn open_folder<R: Files>(rt: &R, location: &str) -> io::Result<R::File> {
    let there = fs::symlink_metadata(rt, location)?;
    if there.is_dir() {
        open_seen(rt, location, &there)
    } else {
        Err(io::Error::from(ErrorKind::NotADirectory))
    }
}

/// Opens the regular file where this is for the system, and none that a link leads to.
fn open_file<R: Files>(rt: &R, location: &str) -> io::Result<R::File> {
    let there = fs::symlink_metadata(rt, location)?;
    if there.is_file() {
        open_seen(rt, location, &there)
    } else {
        Err(io::Error::from(ErrorKind::NotFound))
    }
}

/// Opens what was seen where this is for the system, and nothing that took its place.
fn open_seen<R: Files>(rt: &R, location: &str, seen: &Metadata) -> io::Result<R::File> {
    let opened = fs::open(rt, location)?;
    let found = opened.metadata()?;
    if (found.dev(), found.ino()) == (seen.dev(), seen.ino()) {
        Ok(opened)
    } else {
        Err(io::Error::from(ErrorKind::NotFound))
    }
}

/// What stands where metadata is of, which follows no link.
fn entry_of(metadata: &Metadata) -> Entry
    ensures file { IsFile (file_type metadata.now) → result ≡ File (metadata_len metadata.now) }
    ensures folder { IsDir (file_type metadata.now) → result ≡ Folder }
    ensures other { ¬ IsFile (file_type metadata.now) → ¬ IsDir (file_type metadata.now)
        → result ≡ Other }
{
    if metadata.is_file() {
        Entry::File(metadata.len())
    } else if metadata.is_dir() {
        Entry::Folder
    } else {
        Entry::Other
    }
}
