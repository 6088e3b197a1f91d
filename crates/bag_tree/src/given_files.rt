//! What a tree gave.
ghost use Rattle.std.specs.Prelude.{◌≡◌, ◌++◌, ◌∷◌, [], None, Some};
ghost use Rattle.std.specs.Borrow.{ftrue};
ghost use Rattle.bag_tree.specs.FileReads.{gave_more};
ghost use Rattle.bag_tree.specs.GivenFiles.{WhatIsGiven};

use crate::Listing;
use std::fmt;
use std::marker::{Model, PhantomData};

/// What a tree gave: the last listing, and of each file that was opened the bytes that its reads
/// gave. Only clauses read them: it takes no memory.
#[derive(Drop)]
pub struct GivenFiles {
    marker: PhantomData<u8>,
    pub ghost what: { WhatIsGiven },
}

impl Model for GivenFiles {
    ghost also_owns = { λ _. ftrue };
}

impl GivenFiles {
    /// Nothing yet.
    pub fn nothing() -> GivenFiles
        ensures listed { result.what.listed ≡ None }
        ensures gave { result.what.gave ≡ [] }
    {
        GivenFiles::of()
    }

    /// Notes what a listing gave.
    pub fn note_listing(&mut self, listing: &Listing)
        ensures listed { self.new.what.listed ≡ Some listing.now }
        ensures gave { self.new.what.gave ≡ self.old.what.gave }
    {
        *self = self.after_listing(listing);
    }

    /// Notes that a file was opened.
    pub fn note_opening(&mut self, path: &str)
        ensures listed { self.new.what.listed ≡ self.old.what.listed }
        ensures gave { self.new.what.gave ≡ self.old.what.gave ++ (path.now, []) ∷ [] }
    {
        *self = self.after_bytes(path.as_bytes());
    }

    /// Notes that a read of the file that was opened last gave these bytes.
    pub fn note_read(&mut self, bytes: &[u8])
        ensures listed { self.new.what.listed ≡ self.old.what.listed }
        ensures gave { self.new.what.gave ≡ gave_more self.old.what.gave bytes.now }
    {
        *self = self.after_bytes(bytes);
    }

    /// What was given after a listing.
    fn after_listing(&self, _listing: &Listing) -> GivenFiles
        ghost given: { WhatIsGiven }
        ensures { result.what ≡ given }
    {
        GivenFiles::of()
    }

    /// What was given after a file of this path was opened, or these bytes were read.
    fn after_bytes(&self, _bytes: &[u8]) -> GivenFiles
        ghost given: { WhatIsGiven }
        ensures { result.what ≡ given }
    {
        GivenFiles::of()
    }

    /// What a clause names.
    fn of() -> GivenFiles
        ghost given: { WhatIsGiven }
        ensures { result.what ≡ given }
    {
        GivenFiles {
            marker: PhantomData,
        }
    }
}

impl fmt::Debug for GivenFiles {
    fn fmt<W: fmt::Write>(&self, f: &mut fmt::Formatter<W>) -> fmt::Result {
        f.write_str("GivenFiles")
    }
}
