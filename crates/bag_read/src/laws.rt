//! Laws of the definitions, each the contract of a function that does nothing.
ghost use Rattle.bag_read.specs.ManifestLine.{ManifestLinesReadAsTheirParts};
ghost use Rattle.bag_read.specs.ManifestLine.{ManifestLinesReadOrHaveOneReason};
ghost use Rattle.bag_read.specs.ManifestReasons.{FirstManifestReasonIsReported};
ghost use Rattle.bag_read.specs.Laws.{TagFilesStandInTheBase, TagPathsDiffer};
ghost use Rattle.bag_read.specs.Laws.{OxumsReadAsTheirParts};
ghost use Rattle.bag_read.specs.FetchLine.{FetchLinesReadAsTheirParts};
ghost use Rattle.bag_read.specs.FetchLine.{FetchLinesReadOrHaveOneReason};
ghost use Rattle.bag_read.specs.FetchReasons.{FirstFetchReasonIsReported};
ghost use Rattle.bag_read.specs.InfoPlaces.{ContinuationsAreBelow, EachLineHasOnePlace};
ghost use Rattle.bag_read.specs.InfoPlaces.{EachLineIsOfOneElement};
ghost use Rattle.bag_read.specs.InfoSplit.{LinesSplitAsTheirParts};
ghost use Rattle.bag_read.specs.DeclarationLine.{EncodingLinesReadAsTheirParts};
ghost use Rattle.bag_read.specs.DeclarationLine.{LinesDeclareOrAreFaulty};
ghost use Rattle.bag_read.specs.DeclarationLine.{VersionLinesReadAsTheirParts};

/// Of the tag files that the checks read no two have the same path.
pub fn tag_paths_differ()
    ensures { TagPathsDiffer }
{}

/// Each tag file stands in the base folder: its path is a path of one component.
pub fn tag_files_stand_in_the_base()
    ensures { TagFilesStandInTheBase }
{}

/// A line of a manifest reads just where it is of these parts: hex digits of either case, as many
/// as a digest of the algorithm has; blanks; and the spelling of a path, in front of which one `*`
/// and then one `./` may stand. It says that digest, in lower case, and that path.
///
/// The path is one that a manifest of this kind may name: a payload manifest those below `data/`, a
/// tag manifest others, but no tag manifest. This is said of each line by itself; whether its path
/// was named before is asked of the whole file.
pub fn manifest_lines_read_as_their_parts()
    ensures { ManifestLinesReadAsTheirParts }
{}

/// A line of a manifest that isn't blank reads in one way, or has one reason why it doesn't.
pub fn manifest_lines_read_or_have_one_reason()
    ensures { ManifestLinesReadOrHaveOneReason }
{}

/// The reason why a line of a manifest doesn't read holds of it, and none of those that stand
/// before it in their order.
pub fn first_manifest_reason_is_reported()
    ensures { FirstManifestReasonIsReported }
{}

/// A line of `bag-info.txt` that isn't blank is the first line of an element, or goes on with one,
/// or is wrong, or is passed over below a line that is wrong; it is just one of these, and of one
/// element at most. The lines that go on with an element are those of its value, in their order.
pub fn each_line_has_one_place()
    ensures place { EachLineHasOnePlace }
    ensures element { EachLineIsOfOneElement }
    ensures parts { ContinuationsAreBelow }
{}

/// The first line of an element splits just where it is a label, the first colon, and what may
/// follow it.
pub fn lines_split_as_their_parts()
    ensures { LinesSplitAsTheirParts }
{}

/// A value of `Payload-Oxum` reads just where it is two numbers of ASCII digits with a dot between
/// them; and it says these.
pub fn oxums_read_as_their_parts()
    ensures { OxumsReadAsTheirParts }
{}

/// A line of `fetch.txt` reads just where it is a URL, blanks, a length, blanks, and a spelling of
/// the path of a payload file; and it says these three.
pub fn fetch_lines_read_as_their_parts()
    ensures { FetchLinesReadAsTheirParts }
{}

/// A line of `fetch.txt` that isn't blank reads in one way, or has one reason why it doesn't.
pub fn fetch_lines_read_or_have_one_reason()
    ensures { FetchLinesReadOrHaveOneReason }
{}

/// The reason why a line of `fetch.txt` doesn't read holds of it, and none of those that stand
/// before it in their order.
pub fn first_fetch_reason_is_reported()
    ensures { FirstFetchReasonIsReported }
{}

/// Line 1 of the declaration declares a version just where it is its label and then digits, a dot
/// and digits.
pub fn version_lines_read_as_their_parts()
    ensures { VersionLinesReadAsTheirParts }
{}

/// Line 2 of the declaration declares an encoding just where it is its label and then a text
/// without a blank.
pub fn encoding_lines_read_as_their_parts()
    ensures { EncodingLinesReadAsTheirParts }
{}

/// Line 1 of the declaration declares just one version, or is fault 104 and declares none; and so
/// line 2 an encoding.
pub fn lines_declare_or_are_faulty()
    ensures { LinesDeclareOrAreFaulty }
{}
