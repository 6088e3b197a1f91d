//! Laws of the definitions, each the contract of a function that does nothing.
ghost use Rattle.bag_tags.specs.ReadAgain.{DeclarationIsReadAgain, InfoIsReadAgain};
ghost use Rattle.bag_tags.specs.ReadAgain.{LongInfoIsReadAgain, ManifestIsReadAgain, ReadInfoCanBeWritten};
ghost use Rattle.bag_tags.specs.ReadAgain.{InfoIsReadAgainBy, LongInfoIsReadAgainBy};
ghost use Rattle.bag_tags.specs.ReadAgain.{ManifestIsReadAgainBy};
ghost use Rattle.bag_tags.specs.PathSpelling.{SpelledPathsAreReadAgain};
ghost use Rattle.bag_tags.specs.PathSpelling.{UnspelledPathsHaveNoSpelling};

use bag_text::Rules;

/// The declaration that is written is read as version 1.0 and UTF-8, with no fault.
pub fn declaration_is_read_again()
    ensures { DeclarationIsReadAgain }
{}

/// The elements that are written are read again, each from a line of its own from line 1 on, and no
/// others, with no fault.
pub fn info_is_read_again()
    ensures { InfoIsReadAgain }
{}

/// The entries that are written are read again, each from a line of its own from line 1 on, and no
/// others, with no fault.
pub fn manifest_is_read_again()
    ensures { ManifestIsReadAgain }
{}

/// Elements whose values stand over several lines are read again, and no others, with no fault.
pub fn long_info_is_read_again()
    ensures { LongInfoIsReadAgain }
{}

/// An element that is read can be written again over several lines, but for a label that begins
/// with a byte order mark.
pub fn read_info_can_be_written()
    ensures { ReadInfoCanBeWritten }
{}

/// What is written for a path by the rules of a version spells it by them; and a path can't be
/// spelled only where no text spells it.
pub fn spelled_paths_are_read_again()
    ensures spelled { SpelledPathsAreReadAgain }
    ensures unspelled { UnspelledPathsHaveNoSpelling }
{}

/// The entries that are written by the rules of a version are read again by them, each from a line
/// of its own from line 1 on, and no others, with no fault.
pub fn manifest_is_read_again_by_its_rules()
    ensures { (rules : Rules) → ManifestIsReadAgainBy rules }
{}

/// The elements that are written are read again by the rules of either version, also those whose
/// values stand over several lines, and no others, with no fault.
pub fn info_is_read_again_by_either_version()
    ensures info { (rules : Rules) → InfoIsReadAgainBy rules }
    ensures long_info { (rules : Rules) → LongInfoIsReadAgainBy rules }
{}
