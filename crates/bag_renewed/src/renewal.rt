//! What a bag is to have after a renewal.
ghost use Rattle.std.specs.Prelude.{◌≡◌};
ghost use Rattle.bag_renewed.specs.Asked.{nothing};

use bag_text::{AlgSet, Items, Text};
use std::alloc::Global;

/// What is asked of the elements of `bag-info.txt`. Labels are compared ignoring ASCII case.
#[derive(Debug, Drop)]
pub struct ElementChanges {
    /// Elements that stand in place of all those with their labels, in their order.
    pub set: Items<(Text, Text)>,
    /// Elements that are added, but for one that stands there with its value. None may have a label
    /// that is set or unset.
    pub appended: Items<(Text, Text)>,
    /// Labels of which all old elements go, also where elements are set with one of them.
    pub unset: Items<Text>,
}

/// What a bag is to have after a renewal, beside what it has.
#[derive(Debug, Drop)]
pub struct Renewal {
    /// Algorithms whose manifests are to be there.
    pub added: AlgSet,
    /// Algorithms whose manifests are to go.
    pub dropped: AlgSet,
    /// They go also where no digest of the payload was compared. Else the payload is read before a
    /// payload manifest goes.
    pub unchecked: bool,
    /// What is asked of `bag-info.txt`.
    pub elements: ElementChanges,
    /// A bag of version 0.97 becomes one of 1.0. Else it stays one of 0.97.
    pub to_1_0: bool,
}

impl Renewal {
    /// That asks for nothing.
    pub fn nothing(alloc: Global) -> Renewal
        ensures { result ≡ nothing }
    {
        Renewal {
            added: AlgSet::empty(),
            dropped: AlgSet::empty(),
            unchecked: false,
            elements: ElementChanges {
                set: Items::new(alloc),
                appended: Items::new(alloc),
                unset: Items::new(alloc),
            },
            to_1_0: false,
        }
    }
}
