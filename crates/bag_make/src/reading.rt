//! Reading the folder, and planning the steps.
ghost use Rattle.std.specs.Prelude.{◌≡◌, ◌++◌, false, not, All, IsTrue};
ghost use Rattle.std.specs.Prelude.{IfOk, IfErr, OnOk, List, map};
ghost use Rattle.std.specs.List.Sorted.{IsStrictlySortedBy};
ghost use Rattle.bag_text.specs.Alg.{rank_cmp};
ghost use Rattle.bag_tree.specs.Bag.{Bag, files_of};
ghost use Rattle.bag_tree.specs.Listing.{IsListingOf, IsOrdered, entry_of_file};
ghost use Rattle.bag_tree.specs.Tree.{Keeps};
ghost use Rattle.bag_make.specs.Made.{new_payload};
ghost use Rattle.bag_make.specs.Plan as spec;
ghost use Rattle.bag_make.specs.ListedTops.{has_new};
ghost use Rattle.bag_make.specs.Reading.{OpensFolder};
ghost use Rattle.bag_make.specs.Reads.{IsRefusalOfStop, MayRefuseReading};
ghost use Rattle.bag_make.specs.StepsTaken.{IsStep};
ghost use Rattle.bag_tags.specs.Summed.{AreSummed, File};

use crate::MakeFault;
use crate::obstacle::is_in_the_way;
use crate::plan::plan;
use crate::step::Step;
use crate::summed::sum_files;
use crate::texts::tag_files;
use bag_tags::SummedFile;
use bag_text::{AlgSet, Text};
use bag_tree::{Listing, Stop, Tree, TreeFault};
use std::alloc::{AllocError, Global};

/// Reads the files of a folder, and plans the steps that make a bag of them.
pub(crate) fn read_and_plan<T: Tree>(
    alloc: Global,
    tree: &mut T,
    algs: AlgSet,
    info: &[(Text, Text)],
) -> Result<Vec<Step>, MakeFault>
    ensures keeps { Keeps (T.state tree.old) (T.state tree.new) }
    ensures no_failure { OnOk result ((T.state tree.new).failures ≡ (T.state tree.old).failures) }
    ensures plain { OnOk result
        (IsTrue (T.state tree.old).honest → IsTrue (T.state tree.old).plain) }
    ensures ascend { OnOk result (IsStrictlySortedBy rank_cmp algs) }
    ensures fit { IfOk result (λ steps. All IsStep steps.items) }
    ensures planned { IfOk result (λ steps. IsTrue (T.state tree.old).honest
        → (steps.items ≡ spec.steps (T.state tree.old).bag algs info.now)
        × (spec.is_in_the_way (T.state tree.old).bag ≡ false)) }
    ensures opened { OnOk result
        (IsTrue (T.state tree.old).honest
        → (T.state tree.new).openings
        ≡ (T.state tree.old).openings ++ map (λ e. e.0) (files_of (T.state tree.old).bag)) }
    ensures opens { OpensFolder (T.state tree.old) (T.state tree.new) }
    ensures refused { IfErr result (MayRefuseReading (T.state tree.old) (T.state tree.new)) }
{
    let listing = match tree.list() {
        Ok(listing) => listing,
        Err(cause) => return Err(stopped(Stop::without_path(alloc, cause))),
    };
    if is_in_the_way(&listing) {
        return Err(MakeFault::InTheWay);
    }
    let payload = match sum_files(alloc, tree, listing.files.as_slice(), algs) {
        Ok(payload) => payload,
        Err(stop) => return Err(stopped(stop)),
    };
    let steps = steps_of(alloc, &listing, &payload, algs, info)?;
    Ok(steps)
}

/// The refusal that a stop is. Out of memory is one of its own, the tree's too.
fn stopped(stop: Stop) -> MakeFault
    ensures { IsRefusalOfStop stop result }
{
    if stop.cause == TreeFault::Memory {
        MakeFault::Memory
    } else {
        MakeFault::ReadStopped(stop)
    }
}

/// The steps that make a bag of listed files with these digests.
fn steps_of(
    alloc: Global,
    listing: &Listing,
    payload: &[SummedFile],
    algs: AlgSet,
    info: &[(Text, Text)],
) -> Result<Vec<Step>, AllocError>
    ensures ascend { IsStrictlySortedBy rank_cmp algs }
    ensures fit { IfOk result (λ steps.
        (files : List File) → map entry_of_file files ≡ listing.now.files
        → AreSummed algs (new_payload files) payload.now
        → IsOrdered listing.now.files → IsTrue (not (has_new listing.now))
        → All IsStep steps.items) }
    ensures of_bag { IfOk result (λ steps.
        (bag : Bag) → IsOrdered listing.now.files → IsListingOf bag listing.now
        → AreSummed algs (new_payload (files_of bag)) payload.now
        → steps.items ≡ spec.steps bag algs info.now) }
{
    let tag_files = tag_files(alloc, listing.files.as_slice(), payload, algs, info)?;
    plan(alloc, listing, tag_files)
}
