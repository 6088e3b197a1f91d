//! What is moved.
ghost use Rattle.std.specs.Prelude.{◌≡◌, IfOk, map};
ghost use Rattle.bag_text.specs.Path as spec;
ghost use Rattle.bag_tags.specs.Distinct.{lent_texts};
ghost use Rattle.bag_make.specs.ListedTops as from_listing;

use crate::step::DATA_FOLDER;
use bag_stages::in_order;
use bag_tree::{FileEntry, Listing};
use std::alloc::{AllocError, Global};

/// The names of the base folder that are moved: the first component of each path, and `data` where
/// that folder is there, in the order of their bytes, each once.
pub(crate) fn tops(alloc: Global, listing: &Listing) -> Result<Vec<&str>, AllocError>
    ensures { IfOk result (λ names. lent_texts names.items ≡ from_listing.listed_tops listing.now) }
{
    let mut names = first_components(alloc, listing.files.as_slice())?;
    if listing.has_data {
        names.push(DATA_FOLDER)?;
    }
    in_order(names)
}

fn first_components(alloc: Global, files: &[FileEntry]) -> Result<Vec<&str>, AllocError>
    ensures { IfOk result (λ names.
        lent_texts names.items ≡ map (λ entry. spec.first_component entry.path) files.now) }
{
    let mut names = Vec::with_capacity(alloc, files.len())?;
    for entry in files {
        names.push(first_component(entry.path.as_str()))?;
    }
    Ok(names)
}

fn first_component(path: &str) -> &str
    ensures { result.now ≡ spec.first_component path.now }
{
    let Some((first, _)) = path.split_once('/') else {
        return path;
    };
    first
}
