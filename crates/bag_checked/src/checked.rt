//! Reading a file once, to compare the digests that it has and to compute those that it is to have.
ghost use Rattle.std.specs.Prelude.{◌≡◌, ◌<◌, ◌∷◌, [], ℕ, Contains, List, length};
ghost use Rattle.std.specs.Prelude.{IfOk, IfErr, MatchOption, OnOk};
ghost use Rattle.bag_faults.specs.declared.fault.Fault.{Fault as Found};
ghost use Rattle.bag_tree.specs.Tree.{Keeps};
ghost use Rattle.bag_text.specs.declared.alg.Alg.{Alg as Member};
ghost use Rattle.bag_stages.specs.Expected.{Expected};
ghost use Rattle.bag_stages.specs.SumFaults.{AreSumsBy, faults_of_bytes};
ghost use Rattle.bag_checked.specs.Checked.{DiffersFirst, IsChecked, IsCheckedAndKept, IsCheckedAs};
ghost use Rattle.bag_checked.specs.OneReading.{IsLeftUnchecked};

use bag_faults::Fault;
use bag_read::INFO;
use bag_stages::{Packed, faults_by};
use bag_tags::sums_of;
use bag_text::{AlgSet, Items, Text};
use bag_tree::{FileEntry, Stop, Sums, Tree, digest_file, read_whole};
use std::alloc::Global;

/// Why a bag, or a file of it, isn't known to be without a fault.
#[derive(Debug, Drop)]
pub enum Unchecked {
    /// The listing or a file was refused, or memory ran out.
    Stopped(Stop),
    /// It has this fault: of a file, another digest than is given. No digest of it was kept.
    Faulty(Fault),
}

/// The digests of a listed file by all algorithms of a set, where it has all those that manifests
/// give for it.
///
/// The file is opened once and read once. Over any tree the digests that are given are compared
/// with those of the very bytes of which the new ones are computed, so that damage that comes after
/// a check is never given a digest.
pub fn check_and_sum<T: Tree>(
    alloc: Global,
    tree: &mut T,
    file: &FileEntry,
    expected: &Packed,
    algs: AlgSet,
    buffer: &mut [u8],
) -> Result<Sums, Unchecked>
    requires { 0 < length buffer.old }
    ensures keeps { Keeps (T.state tree.old) (T.state tree.new) }
    ensures checked { IfOk result
        (IsChecked (T.state tree.old) (T.state tree.new) file.now expected.now algs) }
    ensures unchecked { IfErr result (IsLeftUnchecked
        file.now expected.now (T.state tree.old) (T.state tree.new)) }
{
    // Copied before the file is read, so that its refusal isn't reported as out of memory.
    let Ok(path) = file.path.copy(alloc) else {
        return Err(Unchecked::Stopped(Stop::out_of_memory(alloc)));
    };
    let asked = with_given(algs, expected);
    let sums = match digest_file(tree, file, asked, buffer) {
        Ok(sums) => sums,
        Err(cause) => return Err(Unchecked::Stopped(Stop::of_file(alloc, cause, path))),
    };
    compare(alloc, &file.path, expected, sums)
}

/// The digests of a listed file, as `check_and_sum` gives them; and of `bag-info.txt` the bytes of
/// which they are, so that what is written of them was compared.
pub(crate) fn check_or_keep<T: Tree>(
    alloc: Global,
    tree: &mut T,
    file: &FileEntry,
    expected: &Packed,
    algs: AlgSet,
    buffer: &mut [u8],
) -> Result<(Sums, Option<Items<u8>>), Unchecked>
    requires { 0 < length buffer.old }
    ensures keeps { Keeps (T.state tree.old) (T.state tree.new) }
    ensures checked { IfOk result (λ checked.
        IsCheckedAndKept (T.state tree.old) (T.state tree.new) file.now expected.now algs
        checked.0 checked.1) }
    ensures unchecked { IfErr result (IsLeftUnchecked
        file.now expected.now (T.state tree.old) (T.state tree.new)) }
{
    if file.path.as_str() == INFO {
        match check_and_keep(alloc, tree, file, expected, algs) {
            Ok((sums, bytes)) => Ok((sums, Some(Items::from_vec(bytes)))),
            Err(unchecked) => Err(unchecked),
        }
    } else {
        match check_and_sum(alloc, tree, file, expected, algs, buffer) {
            Ok(sums) => Ok((sums, None)),
            Err(unchecked) => Err(unchecked),
        }
    }
}

/// The digests of a listed file, as `check_and_sum` gives them, with the bytes of which they were
/// compared and computed, all in memory.
fn check_and_keep<T: Tree>(
    alloc: Global,
    tree: &mut T,
    file: &FileEntry,
    expected: &Packed,
    algs: AlgSet,
) -> Result<(Sums, Vec<u8>), Unchecked>
    ensures keeps { Keeps (T.state tree.old) (T.state tree.new) }
    ensures checked { IfOk result (λ kept.
        IsCheckedAs (T.state tree.old) (T.state tree.new) file.now expected.now algs
        kept.1.items kept.0) }
    ensures unchecked { IfErr result (IsLeftUnchecked
        file.now expected.now (T.state tree.old) (T.state tree.new)) }
{
    // Copied before the file is read, so that its refusal isn't reported as out of memory.
    let Ok(path) = file.path.copy(alloc) else {
        return Err(Unchecked::Stopped(Stop::out_of_memory(alloc)));
    };
    let bytes = match read_whole(alloc, tree, file) {
        Ok(bytes) => bytes,
        Err(cause) => return Err(Unchecked::Stopped(Stop::of_file(alloc, cause, path))),
    };
    let found = sums_of(&bytes, with_given(algs, expected));
    match compare(alloc, &file.path, expected, found) {
        Ok(sums) => Ok((sums, bytes)),
        Err(unchecked) => Err(unchecked),
    }
}

/// The digests of a file, where they are those that are expected.
fn compare(alloc: Global, path: &Text, expected: &Packed, sums: Sums) -> Result<Sums, Unchecked>
    ensures same { IfOk result (λ kept. kept ≡ sums) }
    ensures right { OnOk result ((content : List ℕ) → AreSumsBy expected.now content sums
        → faults_of_bytes path.now content expected.now ≡ []) }
    ensures differs { IfErr result (DiffersFirst path.now expected.now sums) }
{
    let Ok(faults) = faults_by(alloc, path, expected, &sums) else {
        return Err(Unchecked::Stopped(Stop::out_of_memory(alloc)));
    };
    match first_of(faults) {
        None => Ok(sums),
        Some(fault) => Err(Unchecked::Faulty(fault)),
    }
}

/// The first fault, if any.
pub(crate) fn first_of(faults: Vec<Fault>) -> Option<Fault>
    ensures { MatchOption result (faults.items ≡ [])
        (λ first. (rest : List Found) × (faults.items ≡ first ∷ rest)) }
{
    let mut faults = faults;
    if faults.is_empty() {
        None
    } else {
        Some(faults.remove(0))
    }
}

/// The set with the algorithms by which digests are given.
fn with_given(algs: AlgSet, expected: &Packed) -> AlgSet
    ensures given { (one : Expected) → Contains expected.now one → Contains result one.alg }
    ensures kept { (alg : Member) → Contains algs alg → Contains result alg }
{
    let mut all = algs;
    for (alg, _) in expected.iter() {
        all = all.with(alg);
    }
    all
}
