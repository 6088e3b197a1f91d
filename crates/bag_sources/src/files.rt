//! The files whose digests are to be compared.
ghost use Rattle.std.specs.Prelude.{◌≡◌, ◌≢◌, [], IfOk};
ghost use Rattle.std.specs.Option.{option_copied};
ghost use Rattle.bag_faults.specs.declared.options.Depth.TheVariants as depth_of;
ghost use Rattle.bag_sources.specs.FactsOf.{ForBagAtFull};
ghost use Rattle.bag_sources.specs.Files.{AreToSum, IsToSum};
ghost use Rattle.bag_sources.specs.Openings.{is_passed};
ghost use Rattle.bag_sources.specs.Parts.{files_within};

use crate::part::Bounds;
use crate::to_sum::ToSum;
use bag_facts::Facts;
use bag_faults::{Depth, Fault, Stage};
use bag_stages::{Places, expected_of};
use bag_text::Text;
use bag_tree::FileEntry;
use std::alloc::{AllocError, Global};

/// The listed files between two bounds that a manifest names, with what manifests give for them, in
/// path order: those that a cursor hasn't passed. There are none below the depth `Full`. No other
/// file is looked for in the manifests.
pub(crate) fn files_to_sum(
    alloc: Global,
    facts: &Facts,
    after: Option<&Fault>,
    bounds: &Bounds,
) -> Result<Vec<ToSum>, AllocError>
    ensures files { IfOk result (λ files. ForBagAtFull facts.now (λ bag.
        AreToSum bag (option_copied after.entry)
        (files_within bounds.now facts.now.listing.files) files.items)) }
    ensures none { IfOk result (λ files.
        facts.now.options.depth ≢ depth_of.Full → files.items ≡ []) }
{
    let mut files = Vec::new(alloc);
    if facts.options().depth != Depth::Full {
        return Ok(files);
    }
    let mut places = Places::new();
    for file in facts.files() {
        if !bounds.has_file(&file.path) {
            continue;
        }
        let Some(to_sum) = to_sum_of(alloc, facts, file, after, &mut places)? else {
            continue;
        };
        files.push(to_sum)?;
    }
    Ok(files)
}

/// A file, with what manifests give for it, where one names it and a cursor hasn't passed it.
fn to_sum_of(
    alloc: Global,
    facts: &Facts,
    file: &FileEntry,
    after: Option<&Fault>,
    places: &mut Places,
) -> Result<Option<ToSum>, AllocError>
    ensures { IfOk result (λ to_sum. ForBagAtFull facts.now (λ bag.
        IsToSum bag (option_copied after.entry) file.now to_sum)) }
{
    if is_passed(after, &file.path) {
        return Ok(None);
    }
    let expected = expected_of(alloc, facts, &file.path, places)?;
    if expected.is_empty() {
        return Ok(None);
    }
    Ok(Some(ToSum {
        file: copy_of_file(alloc, file)?,
        expected,
    }))
}

/// Whether a cursor is after all faults of digests that a file may have.
fn is_passed(after: Option<&Fault>, path: &Text) -> bool
    ensures { result ≡ is_passed (option_copied after.entry) path.now }
{
    match after {
        None => false,
        Some(cursor) => {
            let (stage, validity) = (cursor.stage(), Stage::Validity.number());
            stage > validity || stage == validity && *path < cursor.path
        }
    }
}

/// An equal entry.
fn copy_of_file(alloc: Global, file: &FileEntry) -> Result<FileEntry, AllocError>
    ensures { IfOk result (λ copy. copy ≡ file.now) }
{
    Ok(FileEntry {
        path: file.path.copy(alloc)?,
        size: file.size,
    })
}
