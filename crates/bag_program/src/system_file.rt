//! A file of the system's, whole.
ghost use Rattle.std.specs.Prelude.{◌≡◌, ◌<◌, ◌≤◌, IfOk, IfSome, MatchResult, vec_len};
ghost use Rattle.bag_program.specs.declared.read_fault.ReadFault.TheVariants.{Unread};

use crate::read_fault::{ReadFault, answer_of};
use std::alloc::Global;
use std::fs;
use std::io::Read;
use std::rt::Files;

/// Opens the regular file at a path, or where a link there leads. Anything else isn't opened: a
/// pipe may wait for its other end.
pub(crate) fn open_file<R: Files>(rt: &R, path: &str) -> Result<R::File, ReadFault> {
    let metadata = answer_of(fs::metadata(rt, path))?;
    if metadata.is_file() {
        answer_of(fs::open(rt, path))
    } else {
        Err(ReadFault::Unread)
    }
}

/// All bytes that a reader has left, where they are no more than the bound. It takes one byte above
/// the bound at most.
pub(crate) fn read_within<F: Read + Drop>(
    alloc: Global,
    file: F,
    most: u32,
) -> Result<Vec<u8>, ReadFault>
    ensures whole { IfOk result (λ bytes. IfSome (F.remaining file) (λ left. bytes.items ≡ left)) }
    ensures within { IfOk result (λ bytes. vec_len bytes ≤ most) }
{
    let mut bytes = Vec::new(alloc);
    answer_of(file.take(u64::from(most) + 1).read_to_end(&mut bytes))?;
    within_bound(bytes, most)
}

/// The bytes, where they are no more than the bound: more are refused, and so are no others.
fn within_bound(bytes: Vec<u8>, most: u32) -> Result<Vec<u8>, ReadFault>
    ensures { MatchResult result (λ whole. (whole ≡ bytes) × (vec_len bytes ≤ most))
        (λ fault. (fault ≡ Unread) × (most < vec_len bytes)) }
{
    if bytes.len() as u64 <= u64::from(most) {
        Ok(bytes)
    } else {
        Err(ReadFault::Unread)
    }
}
