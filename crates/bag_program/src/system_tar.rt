//! A tar file of the system's.
ghost use Rattle.std.specs.Prelude.{◌≡◌, ◌≤◌, [], IfOk, length};
ghost use Rattle.bag_program.specs.SystemTar.{refused_times, system_tar_state};
ghost use Rattle.bag_archive.specs.SystemArchive.{no_bytes};

use crate::file_trouble::{FileTrouble, expect_file, packing_of};
use bag_archive::BLOCK;
use bag_tar::{Archive, AskedPlaces, SystemArchive, Unread};
use bag_tree::Heard;
use std::alloc::{AllocError, Global};
use std::rt::Files;

/// A tar file of the system's, of which nothing is promised but how often it refused. Where there
/// is none that can be read, it refuses each read.
#[derive(Drop)]
pub struct SystemTar<R: Files> {
    archive: Option<SystemArchive<R>>,
    /// Why there is none, or what stands there in its place, or why the system refused last, as far
    /// as that was seen.
    trouble: Option<FileTrouble>,
    /// A byte for each refusal, which only clauses read.
    refusals: Heard,
    asked: AskedPlaces,
}

impl<R: Files> SystemTar<R> {
    /// The tar file at a path. It fails only when out of memory.
    pub(crate) fn open(alloc: Global, rt: &R, path: &str) -> Result<SystemTar<R>, AllocError>
        ensures { IfOk result (λ tar. system_tar_state tar ≡ refused_times 0 []) }
    {
        let (archive, trouble) = match open_file(alloc, rt, path) {
            Ok(archive) => (Some(archive), None),
            Err(trouble) if trouble.is_memory() => return Err(AllocError),
            Err(trouble) => (None, Some(trouble)),
        };
        Ok(SystemTar {
            archive,
            trouble,
            refusals: Heard::new(),
            asked: AskedPlaces::nothing(),
        })
    }

    /// Why it can't be read, or what stands there in its place, or why the system refused last.
    pub(crate) fn trouble(&self) -> Option<&FileTrouble> {
        self.trouble.as_ref()
    }

    /// Reads from a place on, and looks at the first bytes of the file.
    fn read_file(&mut self, at: u64, buffer: &mut [u8]) -> Result<usize, Unread>
        ensures within { IfOk result (λ n. n ≤ length buffer.old) }
        ensures same { self.new.refusals ≡ self.old.refusals }
        ensures asked { self.new.asked ≡ self.old.asked }
    {
        if buffer.is_empty() {
            return Ok(0);
        }
        let Some(archive) = &mut self.archive else {
            return Err(Unread);
        };
        let Ok(count) = archive.read_at(at, buffer) else {
            if let Some(error) = archive.take_trouble() {
                self.trouble = Some(FileTrouble::of(error));
            }
            return Err(Unread);
        };
        if at == 0 {
            self.trouble = packing_of(buffer);
        } else if at >= BLOCK as u64 {
            // The first block was a header: a folder may be called as a packed file begins.
            self.trouble = None;
        }
        Ok(count)
    }
}

/// Opens the regular file at a path.
fn open_file<R: Files>(alloc: Global, rt: &R, path: &str) -> Result<SystemArchive<R>, FileTrouble> {
    expect_file(rt, path)?;
    match SystemArchive::open(alloc, rt, path) {
        Ok(archive) => Ok(archive),
        Err(error) => Err(FileTrouble::of(error)),
    }
}

impl<R: Files> Archive for SystemTar<R> {
    ghost state = { system_tar_state };

    fn read_at(&mut self, at: u64, buffer: &mut [u8]) -> Result<usize, Unread> {
        self.asked.note(at, buffer.len());
        match self.read_file(at, buffer) {
            Ok(count) => Ok(count),
            Err(Unread) => {
                self.refusals.note(&[0]);
                Err(Unread)
            }
        }
    }

    ghost are_bytes = { λ _. no_bytes };
}
