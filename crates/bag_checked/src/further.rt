//! The payload manifests of further algorithms, of a bag that has no fault.
ghost use Rattle.std.specs.Prelude.{◌≡◌, IfOk, IfErr, IsTrue, OnOk, filter, true};
ghost use Rattle.bag_text.specs.Path.{is_payload_path};
ghost use Rattle.bag_read.specs.declared.kind.Kind.TheVariants.{Payload};
ghost use Rattle.bag_stages.specs.Payload.{payload};
ghost use Rattle.bag_facts.specs.Facts.{rules_in};
ghost use Rattle.bag_tags.specs.Summed.{manifests_by};
ghost use Rattle.bag_tree.specs.Tree.{Keeps, NothingFailed};
ghost use Rattle.bag_report.specs.Valid.{HasNoFault};
ghost use Rattle.bag_checked.specs.NewManifests.{AreOfSameBytes, HasCheckedAll, IsRefusedFor};
ghost use Rattle.bag_checked.specs.NewManifests.{OpensRead, manifests_for};
ghost use Rattle.bag_checked.specs.InTurn.{OpensAllInTurn, OpensBeforeFiles};
ghost use Rattle.bag_checked.specs.Stops.{MayStopUnchecked};

use crate::Unchecked;
use crate::stages::check_stages;
use crate::summed::{check_files, no_memory};
use bag_facts::Facts;
use bag_faults::{Depth, Options};
use bag_read::Kind;
use bag_tags::{SummedFile, TagFile, manifests_by};
use bag_text::{AlgSet, Rules, is_payload};
use bag_tree::Tree;
use std::alloc::{AllocError, Global};

/// Everything is checked, but for names that clash.
pub const FULL: Options = Options {
    depth: Depth::Full,
    clashes: false,
};

/// The payload manifests of these algorithms, each with its name, of a bag that has no fault, written
/// by its rules (RFC 8493, 2.1.3 and 3). The bag stays as it is.
///
/// It is checked in full, but for names that clash. Its tag files are read first; then each file is
/// opened once, and the digests that manifests give for it are compared with those of the very bytes
/// of which the new ones are computed. So a file that was damaged is never given a digest, also
/// where the damage comes while the bag is read.
pub fn new_manifests<T: Tree>(
    alloc: Global,
    tree: &mut T,
    algs: AlgSet,
) -> Result<Vec<TagFile>, Unchecked>
    ensures keeps { Keeps (T.state tree.old) (T.state tree.new) }
    ensures no_failure { OnOk result ((T.state tree.new).failures ≡ (T.state tree.old).failures) }
    ensures opened { OnOk result
        (IsTrue (T.state tree.old).honest → OpensRead true (T.state tree.old) (T.state tree.new)) }
    ensures same_bytes { IfOk result (λ made.
        AreOfSameBytes algs (T.state tree.old) (T.state tree.new) made.items) }
    ensures valid { OnOk result
        (IsTrue (T.state tree.old).honest → HasNoFault (T.state tree.old).bag) }
    ensures manifests { IfOk result (λ made. IsTrue (T.state tree.old).honest
        → made.items ≡ manifests_for
        (rules_in (T.state tree.old).bag) algs (payload (T.state tree.old).bag)) }
    ensures refused { IfErr result (λ fault.
        IsTrue (T.state tree.old).honest → IsRefusedFor (T.state tree.old).bag fault) }
    ensures stopped { IfErr result (MayStopUnchecked (T.state tree.old) (T.state tree.new)) }
    ensures opens { OpensAllInTurn (T.state tree.old) (T.state tree.new) }
    ensures opens_before { IfErr result (OpensBeforeFiles (T.state tree.old) (T.state tree.new)) }
{
    let (rules, summed) = match check_bag(alloc, tree, algs) {
        Ok((rules, summed)) => (rules, payload_only(summed)),
        Err(unchecked) => return Err(unchecked),
    };
    match manifests(alloc, rules, algs, &summed) {
        Ok(made) => Ok(made),
        Err(AllocError) => Err(no_memory(alloc)),
    }
}

/// Those of the payload.
fn payload_only(summed: Vec<SummedFile>) -> Vec<SummedFile>
    ensures { result.items ≡ filter (λ one. is_payload_path one.path) summed.items }
{
    let mut summed = summed;
    summed.retain(|one| is_payload(one.path.as_str()));
    summed
}

/// Checks a bag in full, but for names that clash, and gives its rules and the digests of its files
/// in their order.
#[tactic(auto, using(crate::proofs::StopsOfBag::checking))]
fn check_bag<T: Tree>(
    alloc: Global,
    tree: &mut T,
    algs: AlgSet,
) -> Result<(Rules, Vec<SummedFile>), Unchecked>
    ensures keeps { Keeps (T.state tree.old) (T.state tree.new) }
    ensures no_failure { OnOk result (NothingFailed (T.state tree.old) (T.state tree.new)) }
    ensures checked { IfOk result (λ checked.
        HasCheckedAll checked.0 algs (T.state tree.old) (T.state tree.new) checked.1.items) }
    ensures refused { IfErr result (λ fault.
        IsTrue (T.state tree.old).honest → IsRefusedFor (T.state tree.old).bag fault) }
    ensures stopped { IfErr result (MayStopUnchecked (T.state tree.old) (T.state tree.new)) }
    ensures opens { OpensAllInTurn (T.state tree.old) (T.state tree.new) }
    ensures opens_before { IfErr result (OpensBeforeFiles (T.state tree.old) (T.state tree.new)) }
{
    let facts = match Facts::read(alloc, tree, FULL) {
        Ok(facts) => facts,
        Err(stop) => return Err(Unchecked::Stopped(stop)),
    };
    if let Err(unchecked) = check_stages(alloc, &facts) {
        return Err(unchecked);
    }
    match check_files(alloc, tree, &facts, algs, true) {
        Ok(checked) => Ok((facts.rules(), checked.summed)),
        Err(unchecked) => Err(unchecked),
    }
}

/// The payload manifests of algorithms that name these files.
fn manifests(
    alloc: Global,
    rules: Rules,
    algs: AlgSet,
    files: &[SummedFile],
) -> Result<Vec<TagFile>, AllocError>
    ensures { IfOk result (λ made. made.items ≡ manifests_by rules Payload algs files.now) }
{
    let members = algs.members(alloc)?;
    manifests_by(alloc, rules, Kind::Payload, &members, files)
}
