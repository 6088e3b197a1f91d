//! Laws of the definitions, each the contract of a function that does nothing.
ghost use Rattle.bag_disk.specs.Laws.{BagIsWhatStands};

pub use bag_memory::laws::one_call_is_refused;
pub use bag_tree::laws::listings_are_of_the_bag;

/// The bag below the base folder of a disk has the regular files that stand there, and the base
/// folder's folders.
pub fn bag_is_what_stands()
    ensures { BagIsWhatStands }
{}
