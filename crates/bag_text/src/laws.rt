//! Laws of the definitions, each the contract of a function that does nothing.
ghost use Rattle.bag_text.specs.Laws.{LinesAreTheOnlyCut, PathsAreJoinedComponents};
ghost use Rattle.bag_text.specs.Laws.{EscapedIsReadAgain, UnescapedIsSpelled, EachIsListed};
ghost use Rattle.bag_text.specs.Laws.{ListAscends, NameIsReadAgain, NamesTellApart, RanksTellApart};
ghost use Rattle.bag_text.specs.SortKey.{CommonFrontIsTheLongest};
ghost use Rattle.bag_text.specs.Trim.{TrimTakesOuterBlanks};
ghost use Rattle.std.specs.Prelude.{◌≡◌};
ghost use Rattle.bag_text.specs.Alg.{algs};

use crate::Alg;

/// A text is cut into its lines, and into no others.
pub fn lines_are_the_only_cut()
    ensures { LinesAreTheOnlyCut }
{}

/// A path is its components with a slash between each two.
pub fn paths_are_joined_components()
    ensures { PathsAreJoinedComponents }
{}

/// Each spelling spells one path, and what has a bad escape spells none.
pub fn unescaped_is_spelled()
    ensures { UnescapedIsSpelled }
{}

/// A path that is written is read again.
pub fn escaped_is_read_again()
    ensures { EscapedIsReadAgain }
{}

/// A text is blanks, what trimming leaves, and blanks; and what it leaves neither begins nor ends
/// with one.
pub fn trim_takes_outer_blanks()
    ensures { TrimTakesOuterBlanks }
{}

/// What both begin with is a front of both, and no longer one is.
pub fn common_front_is_the_longest()
    ensures { CommonFrontIsTheLongest }
{}

/// The list of all algorithms has each of them once, in the order of their ranks.
pub fn lists_all_algs()
    ensures value { Alg.ALL ≡ algs }
    ensures each { EachIsListed }
    ensures ascending { ListAscends }
{}

/// A name names its algorithm, and no two algorithms have one name or one rank.
pub fn tells_algs_apart()
    ensures again { NameIsReadAgain }
    ensures by_name { NamesTellApart }
    ensures by_rank { RanksTellApart }
{}
