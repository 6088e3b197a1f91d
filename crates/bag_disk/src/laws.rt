//! Laws of the definitions, each the contract of a function that does nothing.
ghost use Rattle.bag_disk.specs.WritableDisk.{MovedNodesAreThere};

/// What is moved is there then, with all that was below it, and nothing else is moved.
pub fn moved_is_there()
    ensures { MovedNodesAreThere }
{}
