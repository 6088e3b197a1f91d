//! What stands in the way of the folder that is made.
ghost use Rattle.std.specs.Prelude.{◌≡◌};
ghost use Rattle.std.specs.List.{list_any};
ghost use Rattle.bag_tree.specs.Bag.{Bag};
ghost use Rattle.bag_tree.specs.Listing.{IsListingOf, IsOrdered};
ghost use Rattle.bag_tree.specs.Moved.{is_within};
ghost use Rattle.bag_make.specs.Plan as plan;
ghost use Rattle.bag_make.specs.ListedTops as from_listing;
ghost use Rattle.bag_make.specs.Steps.{new_folder};

use crate::step::NEW_FOLDER;
use bag_tree::{FileEntry, Listing};

/// What the paths of files in that folder begin with.
const NEW_PREFIX: &[u8] = b".bagit-new/";

/// Whether a listed file has the name of the folder that holds the files while they are moved, or
/// stands in it.
pub(crate) fn is_in_the_way(listing: &Listing) -> bool
    ensures listed { result ≡ from_listing.has_new listing.now }
    ensures of_bag { (bag : Bag) → IsOrdered listing.now.files → IsListingOf bag listing.now
        → result ≡ plan.is_in_the_way bag }
{
    has_new_path(listing.files.as_slice())
}

fn has_new_path(files: &[FileEntry]) -> bool
    ensures { result ≡ list_any (λ entry. is_within new_folder entry.path) files.now }
{
    files.iter().any(|entry| is_new(entry.path.as_str()))
}

fn is_new(path: &str) -> bool
    ensures { result ≡ is_within new_folder path.now }
{
    path == NEW_FOLDER || path.as_bytes().starts_with(NEW_PREFIX)
}
