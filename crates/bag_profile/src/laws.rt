//! Laws of the definitions, each the contract of a function that does nothing.
ghost use Rattle.bag_profile.specs.Held.{ProfilesHoldTheirKeys, RulesHoldTheirKeys};
ghost use Rattle.bag_profile.specs.Laws.{MatchesArePieces, TextSetsAreLists};
ghost use Rattle.bag_profile.specs.Shape.{FirstFaultIsReported};

/// A name matches a pattern where it is what stands between the stars, with some text at each star.
pub fn matches_are_pieces()
    ensures { MatchesArePieces }
{}

/// A list that is read as a set is the ascending list of its texts.
pub fn text_sets_are_lists()
    ensures { TextSetsAreLists }
{}

/// A value is a profile where all keys have their shapes, and else its first fault is reported.
pub fn first_fault_is_reported()
    ensures { FirstFaultIsReported }
{}

/// A value that is a profile is one that holds at each key what stands there, and else the key's
/// default.
pub fn profiles_hold_their_keys()
    ensures profile { ProfilesHoldTheirKeys }
    ensures rules { RulesHoldTheirKeys }
{}
