//! A whole file.
ghost use Rattle.std.specs.Prelude.{◌≡◌, ◌≢◌, ◌<◌, ◌∷◌, ◌++◌, [], Some, IsTrue, IfOk, IfErr, OnOk};
ghost use Rattle.std.specs.Prelude.{vec_len, ⊤};
ghost use Rattle.bag_tree.specs.Bag.{file};
ghost use Rattle.bag_tree.specs.Tree.{Keeps, MayReportMemory, NothingFailed, IsRefusedAt};
ghost use Rattle.bag_tree.specs.FileReads.{OpensAtMost};
ghost use Rattle.bag_tree.specs.Whole.{MayRefuseWhole};
ghost use Rattle.bag_tree.specs.declared.tree_fault.TreeFault.TheVariants.{Memory};

use crate::file_reading::{Taker, read_file};
use crate::{FileEntry, Tree, TreeFault};
use std::alloc::{AllocError, Global};

/// How many bytes are read at once.
const PIECE_BYTES: u64 = 65_536;

/// The most bytes for which room is taken before they are read, as a listing may say more than is
/// there.
const MOST_ROOM: u64 = 67_108_864;

/// The bytes of a listed file, which is opened once at most. More or fewer bytes than it was listed
/// with are `Changed`.
pub fn read_whole<T: Tree>(
    alloc: Global,
    tree: &mut T,
    entry: &FileEntry,
) -> Result<Vec<u8>, TreeFault>
    ensures keeps { Keeps (T.state tree.old) (T.state tree.new) }
    ensures no_failure { OnOk result (NothingFailed (T.state tree.old) (T.state tree.new)) }
    ensures opens { OpensAtMost (T.state tree.old) (T.state tree.new) entry.now.path }
    ensures opened { OnOk result
        ((T.state tree.new).openings ≡ (T.state tree.old).openings ++ entry.now.path ∷ []) }
    ensures size { IfOk result (λ bytes. vec_len bytes ≡ entry.now.size) }
    ensures listed { (T.state tree.new).listed ≡ (T.state tree.old).listed }
    ensures gave { IfOk result (λ bytes.
        (T.state tree.new).gave
        ≡ (T.state tree.old).gave ++ (entry.now.path, bytes.items) ∷ []) }
    ensures whole { IfOk result (λ bytes.
        IsTrue (T.state tree.old).honest
        → file (T.state tree.old).bag entry.now.path ≡ Some bytes.items) }
    ensures refused { IfErr result
        (MayRefuseWhole (T.state tree.old) (T.state tree.new) entry.now) }
    ensures refused_at { IfErr result (λ fault.
        fault ≢ Memory → IsRefusedAt (T.state tree.old).openings entry.now.path
        (T.state tree.new)) }
    ensures out_of_memory { IfErr result (λ fault.
        fault ≡ Memory → MayReportMemory (T.state tree.old) (T.state tree.new)) }
{
    let mut buffer = Vec::new(alloc);
    buffer.resize(piece_len(entry.size), 0)?;
    let room = entry.size.min(MOST_ROOM);
    let mut bytes = Vec::with_capacity(alloc, room as usize)?;
    read_file(tree, entry, buffer.as_mut_slice(), &mut bytes)?;
    Ok(bytes)
}

/// How many bytes of a file of a size are read at once: one more than it has, where it is small,
/// which shows that it ends.
fn piece_len(size: u64) -> usize
    ensures { 0 < result }
{
    if size < PIECE_BYTES {
        size as usize + 1
    } else {
        PIECE_BYTES as usize
    }
}

impl Taker for Vec<u8> {
    ghost has_taken = { λ start now bytes. start.items ≡ [] → now.items ≡ bytes };

    ghost may_refuse = { ⊤ };

    ghost starts = { λ _ empty. empty };

    fn take(&mut self, bytes: &[u8]) -> Result<(), AllocError> {
        self.extend_from_slice(bytes)
    }
}
