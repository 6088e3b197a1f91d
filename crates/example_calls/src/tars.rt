//! A check of a bag in a tar file.
ghost use Rattle.std.specs.Prelude.{IfErr, IfOk, IsTrue};
ghost use Rattle.bag_tar.specs.Tar.{IsTarOf};
ghost use Rattle.bag_tar.specs.TarTree.{bag_of_tree};
ghost use Rattle.bag_tar.specs.Walk.{StopsAt};

use bag_store::Out;
use bag_tar::{Archive, TarStop, TarTree};
use bag_walk::{Request, run, status};
use std::alloc::Global;

/// Writes the report of the bag in a tar file, as of its folder, and gives its tree with the exit
/// status; or says why the file holds no bag, and at which byte that is seen.
pub fn check_tar<B: Archive + Drop, W: Out>(
    alloc: Global,
    archive: B,
    request: Request,
    out: &mut W,
) -> Result<(TarTree<B>, u8), TarStop>
    ensures bag { IfOk result (λ checked. IsTrue (B.state archive).honest
        → IsTarOf (B.state archive).bytes (bag_of_tree B.state checked.0)) }
    ensures at { IfErr result (λ stop. IsTrue (B.state archive).honest
        → StopsAt (B.state archive).bytes stop) }
{
    match TarTree::open(alloc, archive) {
        Ok(tree) => {
            let (tree, outcome) = run(alloc, tree, None, request, out);
            Ok((tree, status(&outcome)))
        }
        Err((_archive, stop)) => Err(stop),
    }
}
