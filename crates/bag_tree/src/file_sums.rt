//! The digests of a listed file.
ghost use Rattle.std.specs.Prelude.{◌≡◌, ◌≢◌, ◌<◌, ◌∷◌, ◌++◌, [], length, IfOk, IfErr, OnOk, OnErr};
ghost use Rattle.std.specs.Prelude.{List};
ghost use Rattle.bag_text.specs.declared.alg.Alg.{Alg};
ghost use Rattle.bag_tree.specs.Digests.{HaveTaken};
ghost use Rattle.bag_tree.specs.Tree.{Keeps, NothingFailed, IsRefusedAt};
ghost use Rattle.bag_tree.specs.FileReads.{OpensAtMost};
ghost use Rattle.bag_tree.specs.Whole.{MayRefuseWhole};
ghost use Rattle.bag_tree.specs.declared.answer.Answer.TheVariants.{Refused};
ghost use Rattle.bag_tree.specs.declared.tree_fault.TreeFault.TheVariants.{Changed};
ghost use Rattle.bag_tree.specs.FileSums.{AreSumsOfFile};

use crate::file_reading::{Taker, read_file};
use crate::{Digests, FileEntry, Sums, Tree, TreeFault};
use bag_text::AlgSet;
use std::alloc::AllocError;

/// The digests of a listed file by all algorithms of a set, in one pass (RFC 8493, 2.4).
///
/// The file is opened once at most, and no other; it is read through the buffer. The digests are of
/// the bytes that the reads gave. More or fewer bytes than it was listed with are `Changed`. No
/// memory is taken but by the tree itself.
pub fn digest_file<T: Tree>(
    tree: &mut T,
    entry: &FileEntry,
    algs: AlgSet,
    buffer: &mut [u8],
) -> Result<Sums, TreeFault>
    requires { 0 < length buffer.old }
    ensures keeps { Keeps (T.state tree.old) (T.state tree.new) }
    ensures no_failure { OnOk result (NothingFailed (T.state tree.old) (T.state tree.new)) }
    ensures opens { OpensAtMost (T.state tree.old) (T.state tree.new) entry.now.path }
    ensures opened { OnOk result
        ((T.state tree.new).openings ≡ (T.state tree.old).openings ++ entry.now.path ∷ []) }
    ensures sums { IfOk result
        (AreSumsOfFile (T.state tree.old) (T.state tree.new) entry.now algs) }
    ensures listed { (T.state tree.new).listed ≡ (T.state tree.old).listed }
    ensures refused { IfErr result
        (MayRefuseWhole (T.state tree.old) (T.state tree.new) entry.now) }
    ensures refused_at { OnErr result
        (IsRefusedAt (T.state tree.old).openings entry.now.path (T.state tree.new)) }
    ensures answered { IfErr result (λ fault.
        fault ≢ Changed → (T.state tree.new).last ≡ Refused fault) }
{
    let mut digests = Digests::new(algs);
    read_file(tree, entry, buffer, &mut digests)?;
    Ok(digests.finish())
}

impl Taker for Digests {
    ghost has_taken = { λ start now bytes. (asked : List Alg) → HaveTaken asked start []
        → HaveTaken asked now bytes };

    ghost may_refuse = { ⊥ };

    ghost starts = { λ _ _ begun. begun };

    fn take(&mut self, bytes: &[u8]) -> Result<(), AllocError> {
        self.update(bytes);
        Ok(())
    }
}
