//! The tar files of a case, in memory.
ghost use Rattle.std.specs.Prelude.{◌≡◌, ◌≤◌, [], IfOk, length};
ghost use Rattle.bag_archive.specs.SystemArchive.{no_bytes};
ghost use Rattle.bag_program.specs.SystemTar.{refused_times};
ghost use Rattle.test_world.specs.CaseTar.{case_tar_state};

use bag_tar::{Archive, AskedPlaces, MemoryArchive, Unread};
use bag_tree::Heard;
use std::alloc::{AllocError, Global};

/// A tar file of a case, of which nothing is claimed. Where there is none, each read is refused.
#[derive(Drop)]
pub struct CaseTar {
    archive: Option<MemoryArchive>,
    refusals: Heard,
    asked: AskedPlaces,
}

impl CaseTar {
    /// The tar file of these bytes.
    pub(crate) fn of(alloc: Global, bytes: Option<&[u8]>) -> Result<CaseTar, AllocError>
        ensures { IfOk result (λ tar. case_tar_state tar ≡ refused_times 0 []) }
    {
        let archive = match bytes {
            Some(bytes) => Some(MemoryArchive::of(alloc, bytes)?),
            None => None,
        };
        Ok(CaseTar {
            archive,
            refusals: Heard::new(),
            asked: AskedPlaces::nothing(),
        })
    }

    fn read(&mut self, at: u64, buffer: &mut [u8]) -> Result<usize, Unread>
        ensures within { IfOk result (λ n. n ≤ length buffer.old) }
        ensures same { self.new.refusals ≡ self.old.refusals }
        ensures asked { self.new.asked ≡ self.old.asked }
    {
        if buffer.is_empty() {
            return Ok(0);
        }
        match &mut self.archive {
            Some(archive) => archive.read_at(at, buffer),
            None => Err(Unread),
        }
    }
}

impl Archive for CaseTar {
    ghost state = { case_tar_state };

    fn read_at(&mut self, at: u64, buffer: &mut [u8]) -> Result<usize, Unread> {
        self.asked.note(at, buffer.len());
        match self.read(at, buffer) {
            Ok(count) => Ok(count),
            Err(Unread) => {
                self.refusals.note(&[0]);
                Err(Unread)
            }
        }
    }

    ghost are_bytes = { λ _. no_bytes };
}
