//! A file whose digests are to be compared.
ghost use Rattle.std.specs.Prelude.{◌≡◌, Contains, length, IsTrue, IfOk, IfErr, OnOk, OnErr};
ghost use Rattle.std.specs.Option.{option_copied};
ghost use Rattle.bag_tree.specs.Tree.{Keeps, NothingFailed};
ghost use Rattle.bag_tree.specs.FileReads.{OpensAtMost};
ghost use Rattle.bag_stages.specs.Expected.{Expected};
ghost use Rattle.bag_report.specs.Report.{above};
ghost use Rattle.bag_sources.specs.ToSum.{faults_in, MayStopAtIt, MayStopAtItAnyway};
ghost use Rattle.bag_sources.specs.ToSum.{OpensIt, StopsAtIt};

use crate::above_cursor::above;
use bag_faults::Fault;
use bag_stages::{Packed, faults_by};
use bag_text::AlgSet;
use bag_tree::{FileEntry, Stop, Tree, digest_file};
use std::alloc::{AllocError, Global};

/// A listed file, and what manifests give for it, in the order of their algorithms.
#[derive(Debug, Drop)]
pub(crate) struct ToSum {
    pub file: FileEntry,
    pub expected: Packed,
}

/// The faults of a file that are above a cursor. It is opened once, and read once for all its
/// algorithms.
pub(crate) fn faults_of_file<T: Tree>(
    alloc: Global,
    tree: &mut T,
    to_sum: &ToSum,
    after: Option<&Fault>,
    buffer: &mut [u8],
) -> Result<Vec<Fault>, Stop>
    requires { length buffer.old ≡ 65536 }
    ensures keeps { Keeps (T.state tree.old) (T.state tree.new) }
    ensures no_failure { OnOk result (NothingFailed (T.state tree.old) (T.state tree.new)) }
    ensures opened { OnOk result (OpensIt to_sum.now (T.state tree.old) (T.state tree.new)) }
    ensures opens { OnErr result (
        OpensAtMost (T.state tree.old) (T.state tree.new) to_sum.now.file.path) }
    ensures refused { IfErr result (StopsAtIt to_sum.now (T.state tree.old) (T.state tree.new)) }
    ensures faults { IfOk result (λ faults. IsTrue (T.state tree.old).honest → faults.items
        ≡ above (option_copied after.entry) (faults_in (T.state tree.old).bag to_sum.now)) }
    ensures stop { IfErr result (MayStopAtIt to_sum.now (T.state tree.old) (T.state tree.new)) }
    ensures anyway { IfErr result (
        MayStopAtItAnyway to_sum.now (T.state tree.old) (T.state tree.new)) }
{
    // Copied before the file is read, so that its refusal isn't reported as out of memory.
    let Ok(path) = to_sum.file.path.copy(alloc) else {
        return Err(Stop::out_of_memory(alloc));
    };
    let algs = algs_of(&to_sum.expected);
    let sums = match digest_file(tree, &to_sum.file, algs, buffer) {
        Ok(sums) => sums,
        Err(cause) => return Err(Stop::of_file(alloc, cause, path)),
    };
    match faults_by(alloc, &to_sum.file.path, &to_sum.expected, &sums) {
        Ok(faults) => Ok(above(faults, after)),
        Err(AllocError) => Err(Stop::out_of_memory(alloc)),
    }
}

/// The algorithms by which digests are given.
fn algs_of(expected: &Packed) -> AlgSet
    ensures { (one : Expected) → Contains expected.now one → Contains result one.alg }
{
    let mut algs = AlgSet::empty();
    for (alg, _) in expected.iter() {
        algs = algs.with(alg);
    }
    algs
}
