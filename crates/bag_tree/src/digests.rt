//! Digests of bytes that come piece by piece.
ghost use Rattle.std.specs.Prelude.{◌≡◌, ℕ, List, [], ◌++◌};
ghost use Rattle.bag_text.specs.declared.alg.Alg.{Alg as AlgValue};
ghost use Rattle.bag_tree.specs.DigestsOf.{AreSumsOf};
ghost use Rattle.bag_tree.specs.Digests.{HaveTaken, HoldsWhere, IsHashWhere};

use crate::Sums;
use crate::hasher::{Hasher, MOST_BYTES};
use bag_text::{Alg, AlgSet};

/// The digests of bytes by all algorithms of a set, side by side (RFC 8493, 2.4). None of its calls
/// takes memory, and only the algorithms that were asked for are computed.
#[derive(Drop)]
pub struct Digests {
    hashers: [Option<Hasher>; Alg::ALL.len()],
}

impl Digests {
    /// The digests of no bytes yet.
    pub fn new(algs: AlgSet) -> Digests
        ensures { HaveTaken algs result [] }
    {
        Digests {
            hashers: Alg::ALL.map(|alg| hasher_where(algs, alg)),
        }
    }

    /// Takes the next bytes.
    pub fn update(&mut self, bytes: &[u8])
        ensures { (algs : List AlgValue) (message : List ℕ) → HaveTaken algs self.old message
            → HaveTaken algs self.new (message ++ bytes.now) }
    {
        for slot in &mut self.hashers {
            update_slot(slot, bytes);
        }
    }

    /// The digests of all bytes that were taken, joined in their order, however they were cut.
    pub fn finish(self) -> Sums
        ensures { (algs : List AlgValue) (message : List ℕ) → HaveTaken algs self message
            → AreSumsOf algs message result }
    {
        let Digests { hashers } = self;
        Sums::new(hashers.map(finish_slot))
    }
}

/// A hasher of the empty message, where the algorithm is asked for.
fn hasher_where(algs: AlgSet, alg: Alg) -> Option<Hasher>
    ensures { HoldsWhere algs alg [] result }
{
    if algs.has(alg) {
        Some(Hasher::new(alg))
    } else {
        None
    }
}

/// Takes the next bytes, where there is a hasher.
fn update_slot(slot: &mut Option<Hasher>, bytes: &[u8])
    ensures { (algs : List AlgValue) (alg : AlgValue) (message : List ℕ)
        → HoldsWhere algs alg message slot.old
        → HoldsWhere algs alg (message ++ bytes.now) slot.new }
{
    if let Some(hasher) = slot {
        hasher.update(bytes);
    }
}

/// The digest of what was taken, with zeros after it, where there is a hasher.
fn finish_slot(slot: Option<Hasher>) -> Option<[u8; MOST_BYTES]>
    ensures { (algs : List AlgValue) (alg : AlgValue) (message : List ℕ)
        → HoldsWhere algs alg message slot → IsHashWhere algs alg message result }
{
    slot.map(Hasher::finish)
}
