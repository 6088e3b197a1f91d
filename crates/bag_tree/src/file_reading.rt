//! How a listed file is read, by whatever takes its bytes.
ghost use Rattle.std.specs.Prelude.{ℕ, ◌<◌, ◌++◌, [], List, OnOk, OnErr, length};
ghost use Rattle.bag_tree.specs.Whole.{ReadsFile};

use crate::{FileEntry, Tree, TreeFault};
use std::alloc::AllocError;

/// What takes the bytes of a file, piece by piece.
pub(crate) trait Taker {
    /// The second is the first after it has taken these bytes.
    ghost has_taken: { Self → Self → List ℕ → Type 0 };

    /// It may be out of memory.
    ghost may_refuse: { Type 0 };

    /// Takes the next bytes.
    fn take(&mut self, bytes: &[u8]) -> Result<(), AllocError>
        ensures taken { OnOk result ((start : Self) (front : List ℕ) → has_taken start self.old front
            → has_taken start self.new (front ++ bytes.now)) }
        ensures refused { OnErr result may_refuse };

    /// Before the first it has taken nothing.
    ghost starts: { (taker : Self) → has_taken taker taker [] };
}

/// Reads a listed file through a buffer to its end. It is opened once at most, and more or fewer
/// bytes than it was listed with are `Changed`.
pub(crate) fn read_file<T: Tree, S: Taker>(
    tree: &mut T,
    entry: &FileEntry,
    buffer: &mut [u8],
    taker: &mut S,
) -> Result<(), TreeFault>
    requires { 0 < length buffer.old }
    ensures { ReadsFile (S.has_taken taker.old taker.new) S.may_refuse
        (T.state tree.old) (T.state tree.new) entry.now result }
{
    tree.open_file(entry.path.as_str())?;
    let mut left = entry.size;
    loop {
        let count = tree.read(buffer)?;
        if count == 0 {
            break;
        }
        if left < count as u64 {
            return Err(TreeFault::Changed);
        }
        left -= count as u64;
        taker.take(&buffer[..count])?;
    }
    if left == 0 {
        Ok(())
    } else {
        Err(TreeFault::Changed)
    }
}
