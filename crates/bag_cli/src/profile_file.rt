//! Reads the profile of a file.
ghost use Rattle.std.specs.Prelude.{◌≡◌, IfOk};
ghost use Rattle.bag_tree.specs.Digest.{digest};
ghost use Rattle.bag_program.specs.Folders.{disks_of, visits_of};
ghost use Rattle.bag_cli.specs.ProfileFile.{ReadsProfile};

use crate::profile_refusal::ProfileRefusal;
use bag_profile::{Profile, ProfileFault};
use bag_program::{Disks, Folders, Visits};
use bag_tags::sums_of;
use bag_text::{Alg, AlgSet, Text};
use std::alloc::{AllocError, Global};

/// A file of more bytes isn't read.
pub const MOST_BYTES: u32 = 16_777_216;

/// A profile, and the SHA-256 of the bytes that it was read from, in lower-case hex.
#[derive(Drop)]
pub struct SummedProfile {
    pub profile: Profile,
    pub sum: Text,
}

/// Reads the profile of the file at a path, which is one of the system's, by one call.
pub fn read_profile<D: Disks>(
    alloc: Global,
    folders: &Folders<'_, D>,
    path: &str,
    visits: &mut Visits<D>,
) -> Result<SummedProfile, ProfileRefusal>
    ensures { ReadsProfile (D.file (disks_of folders.now) path.now) path.now
        (visits_of visits.old) (visits_of visits.new) result }
{
    let bytes = folders.read_file(alloc, path, MOST_BYTES, visits)?;
    let profile = Profile::read(alloc, &bytes)?;
    match sha256_of(alloc, &bytes) {
        Ok(sum) => Ok(SummedProfile { profile, sum }),
        Err(AllocError) => Err(ProfileRefusal::Refused(ProfileFault::Memory)),
    }
}

/// The SHA-256 of bytes, in lower-case hex. It fails only when out of memory.
fn sha256_of(alloc: Global, bytes: &[u8]) -> Result<Text, AllocError>
    ensures { IfOk result (λ sum. sum ≡ digest Alg.Sha256 bytes.now) }
{
    match sums_of(bytes, AlgSet::empty().with(Alg::Sha256)).hex(alloc, Alg::Sha256) {
        Ok(sum) => Ok(Text::from_string(sum)),
        Err(_) => Err(AllocError),
    }
}
