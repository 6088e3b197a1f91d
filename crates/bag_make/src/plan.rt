//! The steps that make a bag, in order.
ghost use Rattle.std.specs.Prelude.{◌≡◌, ◌∷◌, ◌++◌, [], not, List, All, IsTrue, IfOk, OnOk, map};
ghost use Rattle.bag_text.specs.Path.{is_base_name};
ghost use Rattle.bag_text.specs.declared.alg.Alg.{Alg as AlgValue};
ghost use Rattle.bag_tree.specs.Bag.{Bag, files_of};
ghost use Rattle.bag_tree.specs.Listing.{IsListingOf, IsOrdered};
ghost use Rattle.bag_tags.specs.Distinct.{lent_texts};
ghost use Rattle.bag_tags.specs.Element.{NewElement};
ghost use Rattle.bag_make.specs.Made.{new_tag_files};
ghost use Rattle.bag_make.specs.Plan as spec;
ghost use Rattle.bag_make.specs.ListedTops as from_listing;
ghost use Rattle.bag_make.specs.ListedTops.{has_new};
ghost use Rattle.bag_make.specs.StepsTaken.{IsStep};
ghost use Rattle.bag_make.specs.declared.step.Step.TheVariants.{MakeFolder, MoveIn, Rename};

use crate::step::Step;
use crate::tops::tops;
use bag_tags::TagFile;
use bag_text::Text;
use bag_tree::Listing;
use std::alloc::{AllocError, Global};

/// The steps that move what is listed, and make these tag files.
pub(crate) fn plan(
    alloc: Global,
    listing: &Listing,
    tag_files: Vec<TagFile>,
) -> Result<Vec<Step>, AllocError>
    ensures steps { IfOk result (λ steps.
        steps.items ≡ spec.steps_for (from_listing.listed_tops listing.now) tag_files.items) }
    ensures of_bag { IfOk result (λ steps.
        (bag : Bag) (algs : List AlgValue) (info : List NewElement) → IsOrdered listing.now.files
        → IsListingOf bag listing.now
        → tag_files.items ≡ new_tag_files (files_of bag) algs info
        → steps.items ≡ spec.steps bag algs info) }
    ensures fit { IfOk result (λ steps.
        IsOrdered listing.now.files → IsTrue (not (has_new listing.now))
        → All (λ e. IsTrue (is_base_name e.0)) tag_files.items
        → All IsStep steps.items) }
{
    let names = tops(alloc, listing)?;
    let mut steps = moves(alloc, names.as_slice())?;
    push_files(&mut steps, tag_files)?;
    Ok(steps)
}

/// The steps that move these names.
fn moves(alloc: Global, tops: &[&str]) -> Result<Vec<Step>, AllocError>
    ensures { IfOk result (λ steps.
        steps.items ≡ MakeFolder ∷ map MoveIn (lent_texts tops.now) ++ Rename ∷ []) }
{
    let mut steps = Vec::new(alloc);
    steps.push(Step::MakeFolder)?;
    for top in tops {
        steps.push(Step::MoveIn(Text::from_str(alloc, top)?))?;
    }
    steps.push(Step::Rename)?;
    Ok(steps)
}

/// Adds the steps that make these tag files.
fn push_files(steps: &mut Vec<Step>, tag_files: Vec<TagFile>) -> Result<(), AllocError>
    ensures { OnOk result (steps.new.items ≡ steps.old.items ++ map spec.new_file tag_files.items) }
{
    for file in tag_files {
        steps.push(Step::Create(file.path, file.content))?;
    }
    Ok(())
}
