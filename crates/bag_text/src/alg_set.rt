//! Sets of checksum algorithms.
ghost use Rattle.std.specs.Prelude.{◌≡◌, ◌↔◌, ◌⊎◌, ◌-◌, ◌<◌, [], Contains, IfOk, IsTrue, length};
ghost use Rattle.std.specs.List.Sorted.{IsStrictlySortedBy};
ghost use Rattle.bag_text.specs.Alg.{algs, rank, rank_cmp};
ghost use Rattle.bag_text.specs.AlgList.{with_member};
ghost use Rattle.bag_text.specs.declared.alg.Alg.{Alg as Member};

use crate::Alg;
use std::alloc::{AllocError, Global};
use std::marker::Model;

const COUNT: usize = Alg::ALL.len();

/// A set of algorithms, which contracts see as the list of its members in their order.
#[derive(Clone, Copy, Debug)]
pub struct AlgSet {
    flags: [bool; COUNT],
}

impl Model for AlgSet {
    ghost use Rattle.std.specs.Prelude.{List};
    ghost use Rattle.bag_text.specs.declared.alg.Alg.{Alg};

    ghost Value = { List Alg };

    ghost use Rattle.bag_text.specs.AlgSet.{members, IsTable, table};
    ghost use Rattle.bag_text.specs.AlgTable.{table_of_members};

    ghost view = { members };

    ghost invariant = { IsTable };

    ghost inverse = { table };

    ghost inverse_ok = { table_of_members };
}

impl AlgSet {
    /// The set without a member.
    pub fn empty() -> AlgSet
        ensures { result ≡ [] }
    {
        AlgSet {
            flags: [false; COUNT],
        }
    }

    /// The set with one more member, which may be there already.
    pub fn with(self, alg: Alg) -> AlgSet
        ensures value { result ≡ with_member self alg }
        ensures members { (member : Member)
            → Contains result member ↔ (Contains self member ⊎ (member ≡ alg)) }
    {
        let mut set = self;
        set.flags[flag_index(alg)] = true;
        set
    }

    /// Whether the algorithm is a member.
    pub fn has(&self, alg: Alg) -> bool
        ensures { IsTrue result ↔ Contains self.now alg }
    {
        self.flags[flag_index(alg)]
    }

    /// Its members in their order.
    pub fn members(self, alloc: Global) -> Result<Vec<Alg>, AllocError>
        ensures items { IfOk result (λ members. members.items ≡ self) }
        ensures ascend { IsStrictlySortedBy rank_cmp self }
    {
        let flags = self.flags;
        let mut members = Vec::with_capacity(alloc, COUNT)?;
        for alg in Alg::ALL {
            if flags[flag_index(alg)] {
                members.push(alg)?;
            }
        }
        Ok(members)
    }

    /// Whether the set has no member.
    pub fn is_empty(&self) -> bool
        ensures { IsTrue result ↔ (self.now ≡ []) }
    {
        !self.flags.contains(&true)
    }
}

/// Where the flag of an algorithm stands.
fn flag_index(alg: Alg) -> usize
    ensures value { result ≡ rank alg - 1 }
    ensures within { result < length algs }
{
    alg as usize
}
