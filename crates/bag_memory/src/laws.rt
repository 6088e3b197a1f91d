//! Laws of the definitions, each the contract of a function that does nothing.
ghost use Rattle.bag_memory.specs.KthCall.{OneCallIsRefused};

/// Of a tree of which the call of a number is refused no other call is, and a failure is counted
/// once that one was made.
pub fn one_call_is_refused()
    ensures { OneCallIsRefused }
{}
