//! A tree that lists something else than it has.
ghost use Rattle.std.specs.Prelude.{◌≡◌};
ghost use Rattle.std.specs.Option.{ForSome};
ghost use Rattle.std.proofs.Props.{props};
ghost use Rattle.bag_tree.specs.Listing.{IsOrdered};
ghost use Rattle.bag_memory.specs.MemoryView.{state_of_memory};
ghost use Rattle.bag_memory.specs.Skewed.{skewed};

use crate::MemoryTree;
use bag_tree::{Answer, GivenFiles, Listing, Tree, TreeFault};

/// A tree in memory that lists what it is told to, once. It is never honest.
#[derive(Debug, Drop)]
pub struct SkewTree {
    tree: MemoryTree,
    listing: Option<Listing>,
    own: Option<Answer>,
    /// What it listed itself.
    gave: GivenFiles,
    ghost listed: { ForSome listing (λ listing. IsOrdered listing.files) } by { Prim.hlevel props },
}

impl SkewTree {
    ghost use Rattle.std.specs.Prelude.{None};
    ghost use Rattle.bag_memory.specs.SkewTree.{memory_of, last_listing_of, listing_of, own_of};

    /// The tree in memory, of which the first `list` answers this listing, or `TooMany` where there
    /// is none; each later one is `TooMany`.
    pub fn new(tree: MemoryTree, listing: Option<Listing>) -> SkewTree
        requires { ForSome listing (λ listing. IsOrdered listing.files) }
        ensures state { ⟦<SkewTree as Tree>⟧.state result ≡ skewed (state_of_memory tree) None None }
        ensures memory { memory_of result ≡ state_of_memory tree }
        ensures listing { listing_of result ≡ listing }
        ensures listed { last_listing_of result ≡ None }
        ensures own { own_of result ≡ None }
    {
        SkewTree {
            tree,
            listing,
            own: None,
            gave: GivenFiles::nothing(),
        }
    }
}

impl Tree for SkewTree {
    ghost use Rattle.std.specs.Prelude.{◌<◌, IfOk, MatchResult, None, Some, length};
    ghost use Rattle.bag_tree.specs.declared.answer.Answer.TheVariants.{Given, Unlisted};
    ghost use Rattle.bag_tree.specs.declared.tree_fault.TreeFault.TheVariants.{TooMany};
    ghost use Rattle.bag_memory.specs.MemoryView.{memory_bag};
    ghost use Rattle.bag_memory.specs.MemoryLaw.{passing_is_bag};
    ghost use Rattle.bag_memory.specs.SkewTree.{memory_of, last_listing_of, listing_of, own_of};
    ghost use Rattle.bag_tree.specs.TreeCalls.{OpenCall, ReadCall};

    ghost state = { λ tree. skewed (state_of_memory tree.tree) tree.own tree.gave.what.listed };

    ghost is_bag = { λ tree. passing_is_bag (memory_bag tree.tree) tree.tree.passes };

    fn list(&mut self) -> Result<Listing, TreeFault>
        ensures answered { MatchResult result
            (λ listing. listing_of self.old ≡ Some listing)
            (λ fault. (listing_of self.old ≡ None) × (fault ≡ TooMany)) }
        ensures once { listing_of self.new ≡ None }
        ensures memory { memory_of self.new ≡ memory_of self.old }
        ensures ordered { IfOk result (λ listing. IsOrdered listing.files) }
        ensures listed { MatchResult result
            (λ listing. last_listing_of self.new ≡ Some listing)
            (λ _. last_listing_of self.new ≡ last_listing_of self.old) }
        ensures own { MatchResult result
            (λ _. own_of self.new ≡ Some Given)
            (λ fault. own_of self.new ≡ Some (Unlisted fault)) }
    {
        match self.listing.take() {
            Some(listing) => {
                self.gave.note_listing(&listing);
                self.own = Some(Answer::Given);
                Ok(listing)
            }
            None => {
                self.own = Some(Answer::Unlisted(TreeFault::TooMany));
                Err(TreeFault::TooMany)
            }
        }
    }

    fn open_file(&mut self, path: &str) -> Result<(), TreeFault>
        ensures memory { OpenCall (memory_of self.old) (memory_of self.new) path.now result }
        ensures listing { listing_of self.new ≡ listing_of self.old }
        ensures listed { last_listing_of self.new ≡ last_listing_of self.old }
        ensures own { own_of self.new ≡ None }
    {
        self.own = None;
        self.tree.open_file(path)
    }

    fn read(&mut self, buffer: &mut [u8]) -> Result<usize, TreeFault>
        requires { 0 < length buffer.old }
        ensures memory { ReadCall
            (memory_of self.old) (memory_of self.new) (length buffer.old) buffer.new result }
        ensures listing { listing_of self.new ≡ listing_of self.old }
        ensures listed { last_listing_of self.new ≡ last_listing_of self.old }
        ensures own { own_of self.new ≡ None }
    {
        self.own = None;
        self.tree.read(buffer)
    }
}
