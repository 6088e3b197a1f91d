//! A run over a part of a report.
ghost use Rattle.std.specs.Prelude.{◌≡◌, ◌<◌, ◌++◌, IsTrue, List, Some};
ghost use Rattle.std.specs.Option.{option_copied};
ghost use Rattle.bag_tree.specs.Tree.{Keeps, NothingFailed};
ghost use Rattle.bag_facts.specs.Wanted.{ForListing};
ghost use Rattle.bag_faults.specs.declared.fault.Fault.{Fault as FaultValue};
ghost use Rattle.bag_walk.specs.Ending.{limit_of};
ghost use Rattle.bag_walk.specs.PartRuns as spec;
ghost use Rattle.bag_walk.specs.PartRuns.{IsRunOfPart, LooksNoFurtherInPart, OpensInPart};
ghost use Rattle.bag_walk.specs.PartRuns.{PutsPartClosing, StopsInPartInTurn, WritesPart};
ghost use Rattle.bag_sources.specs.Parts.{listed_of};
ghost use Rattle.bag_tree.specs.Pieces.{Writes};
ghost use Rattle.bag_walk.specs.SegmentEnds.{IfUnread, IsRead, IsSegment};
ghost use Rattle.bag_walk.specs.Stops.{MayStop};
ghost use Rattle.bag_walk.specs.declared.segment.SegmentEnd.TheVariants as end_of;

use crate::closing::{put_count, put_unread};
use crate::segment::{LineBuffers, Segment, SegmentEnd};
use crate::segments::segment_of_walk;
use crate::{Listed, Request, Walk, said};
use bag_faults::{Fault, Part, put_line};
use bag_report::Profile;
use bag_tree::{Out, Refused, Stop, Tree, put_pieces};
use itoa::Buffer;
use std::alloc::Global;

const PART: &str = " part ";

const OF: &str = " of ";

const DONE_FILES: &str = " done, files: ";

const REST_FILES: &str = " rest done, files: ";

const BYTES: &str = ", bytes: ";

const CLASHES: &str = ", clashes";

const PROFILE: &str = ", profile: ";

/// How a run over a part ended, with the number of fault lines that it wrote. It is never the
/// verdict of a bag.
#[derive(Debug, Drop)]
pub enum PartOutcome {
    /// There was no cursor, and the end of the part was reached, whose bounds were found in these
    /// files.
    Done(u64, Listed),
    /// The end of the part was reached after a cursor.
    Rest(u64, Listed),
    /// The limit was reached, and nothing further was looked at.
    Stopped(u64),
    /// The tree or memory refused.
    Unread(u64, Stop),
    /// The output refused: it took this number of whole fault lines, and then a proper prefix of
    /// the next line.
    Unwritten(u64),
}

impl PartOutcome {
    /// How many fault lines were written.
    pub fn count(&self) -> u64
        ensures { result ≡ spec.part_count self.now }
    {
        match self {
            PartOutcome::Done(count, _)
            | PartOutcome::Rest(count, _)
            | PartOutcome::Stopped(count)
            | PartOutcome::Unread(count, _)
            | PartOutcome::Unwritten(count) => *count,
        }
    }

    /// The exit status of a run over a part: 3 where something was refused, and else 1. It is never
    /// 0, whose meaning is that a whole bag has no fault.
    pub fn status(&self) -> u8
        ensures { result ≡ spec.part_status self.now }
    {
        match self {
            PartOutcome::Done(_, _) | PartOutcome::Rest(_, _) | PartOutcome::Stopped(_) => 1,
            PartOutcome::Unread(_, _) | PartOutcome::Unwritten(_) => 3,
        }
    }
}

/// Writes the faults of one part of a report that the request asks for, one line each, and a closing
/// line. Of the files whose digests are compared it opens those of its part alone.
///
/// Each part is a run of its own, which needs nothing of the others: the bounds of the parts come
/// from the files of the bag and their sizes. The lines of all parts, one after the other, are the
/// lines of one run over an honest tree. A part judges the stages before that of digests only where
/// it is the first, and those after it where none follows that has a file; each lists the tree and
/// reads its tag files.
///
/// The closing line of a part that is done says what it was cut of, whether names that clash were
/// looked for, and `profile_sum`, which is to be the SHA-256 of the profile's bytes: parts that
/// differ in any of these aren't joined. It is written though the request is quiet, and takes no
/// memory.
pub fn run_part<T: Tree, W: Out>(
    alloc: Global,
    tree: T,
    profile: Option<&Profile>,
    profile_sum: Option<&str>,
    part: Part,
    request: Request,
    out: &mut W,
) -> (T, PartOutcome)
    ensures untouched { request.limit ≡ Some 0 → result.0 ≡ tree }
    ensures run { IsRunOfPart (T.state tree) (T.state result.0) (option_copied profile.entry)
        (option_copied profile_sum.entry) part request
        (W.state out.old) (W.state out.new) result.1 }
{
    let request = &request;
    let (tree, lines) = lines_of_part(alloc, tree, profile, part, request, out);
    let ending = part_outcome(request, lines);
    let outcome = close_part(request, profile_sum, part, ending, out);
    (tree, outcome)
}

/// The lines of a part, and the files that its bounds were found in. These are known where the end
/// was reached.
#[derive(Drop)]
pub(crate) struct PartLines {
    pub(crate) segment: Segment,
    pub(crate) listed: Listed,
}

/// Lines that weren't begun: no files are known.
fn not_begun(end: SegmentEnd) -> PartLines
    ensures { result.segment ≡ record { written = 0; end = end } }
{
    let segment = Segment { written: 0, end };
    let listed = Listed { files: 0, bytes: 0 };
    PartLines { segment, listed }
}

/// How many faults are written at the most.
fn limit_of(request: &Request) -> u64
    ensures { result ≡ limit_of request.now }
{
    request.limit.unwrap_or(u64::MAX)
}

/// Writes the lines of a part's faults, up to the limit.
pub(crate) fn lines_of_part<T: Tree, W: Out>(
    alloc: Global,
    tree: T,
    profile: Option<&Profile>,
    part: Part,
    request: &Request,
    out: &mut W,
) -> (T, PartLines)
    ensures keeps { Keeps (T.state tree) (T.state result.0) }
    ensures untouched { request.now.limit ≡ Some 0 → result.0 ≡ tree }
    ensures opens { OpensInPart (option_copied profile.entry) request.now part result.1.segment
        (T.state tree) (T.state result.0) }
    ensures stopped { StopsInPartInTurn (option_copied profile.entry) request.now part
        result.1.segment (T.state tree) (T.state result.0) }
    ensures unlooked { LooksNoFurtherInPart (option_copied profile.entry) request.now part
        (T.state tree) (T.state result.0) }
    ensures no_failure { IsRead result.1.segment.end
        → NothingFailed (T.state tree) (T.state result.0) }
    ensures plain { IsRead result.1.segment.end → 0 < limit_of request.now
        → IsTrue (T.state tree).honest → IsTrue (T.state tree).plain }
    ensures stop { IfUnread result.1.segment.end
        (MayStop request.now.options (T.state tree) (T.state result.0)) }
    ensures listed { result.1.segment.end ≡ end_of.AtEnd →
        ForListing (T.state tree) (λ files. result.1.listed ≡ listed_of files) }
    ensures unseen { (faults : List FaultValue) × IsSegment faults (limit_of request.now)
        (W.state out.old) (W.state out.new) result.1.segment }
    ensures of_one_bag { WritesPart (T.state tree) (option_copied profile.entry) request.now part
        (W.state out.old) (W.state out.new) result.1.segment }
{
    let limit = limit_of(request);
    if limit == 0 {
        return (tree, not_begun(SegmentEnd::Full));
    }
    let Ok(after) = Fault::copied(alloc, request.after.as_ref()) else {
        return (
            tree,
            not_begun(SegmentEnd::Unread(Stop::out_of_memory(alloc))),
        );
    };
    match Walk::start_part(alloc, tree, profile, request.options, after, part) {
        Ok((walk, listed)) => {
            let mut lines = LineBuffers::new(alloc);
            let (tree, segment) = segment_of_walk(alloc, walk, &mut lines, limit, out);
            (tree, PartLines { segment, listed })
        }
        Err((tree, stop)) => (tree, not_begun(SegmentEnd::Unread(stop))),
    }
}

/// How a run over a part ends whose lines ended so.
fn part_outcome(request: &Request, lines: PartLines) -> PartOutcome
    ensures { result ≡ spec.part_outcome request.now.after lines.listed
        lines.segment.written lines.segment.end }
{
    let PartLines { segment, listed } = lines;
    let Segment { written, end } = segment;
    match end {
        SegmentEnd::Full => PartOutcome::Stopped(written),
        SegmentEnd::AtEnd if request.after.is_some() => PartOutcome::Rest(written, listed),
        SegmentEnd::AtEnd => PartOutcome::Done(written, listed),
        SegmentEnd::Unread(stop) => PartOutcome::Unread(written, stop),
        SegmentEnd::Unwritten => PartOutcome::Unwritten(written),
    }
}

/// Writes the closing line, and answers how the run ended: so, or `Unwritten` with the same number
/// of fault lines. It takes no memory.
fn close_part<W: Out>(
    request: &Request,
    profile_sum: Option<&str>,
    part: Part,
    ending: PartOutcome,
    out: &mut W,
) -> PartOutcome
    ensures { PutsPartClosing request.now (option_copied profile_sum.entry) part ending
        (W.state out.old) (W.state out.new) result }
{
    match put_part_closing(request, profile_sum, part, &ending, out) {
        Ok(()) => ending,
        Err(Refused) => PartOutcome::Unwritten(ending.count()),
    }
}

fn put_part_closing<W: Out>(
    request: &Request,
    profile_sum: Option<&str>,
    part: Part,
    ending: &PartOutcome,
    out: &mut W,
) -> Result<(), Refused>
    ensures { Writes (W.state out.old) (W.state out.new)
        (spec.part_closing request.now (option_copied profile_sum.entry) part ending.now) result }
{
    let name = request.name.as_str();
    let clashes = request.options.clashes;
    match ending {
        PartOutcome::Done(count, listed) => {
            put_done_line(name, part, *listed, clashes, profile_sum, *count, out)
        }
        PartOutcome::Rest(count, listed) => {
            let how = REST_FILES;
            put_end(name, part, how, *listed, clashes, profile_sum, *count, out)
        }
        PartOutcome::Stopped(count) => put_count(name, said::STOPPED, *count, out),
        PartOutcome::Unread(count, stop) => put_unread(name, stop, *count, out),
        PartOutcome::Unwritten(_) => Ok(()),
    }
}

/// Hands the closing line of a part that is done to the output: of what files it was cut, whether
/// names that clash were looked for, the SHA-256 of a profile, and how many faults it has.
pub fn put_done_line<W: Out>(
    name: &str,
    part: Part,
    listed: Listed,
    clashes: bool,
    profile_sum: Option<&str>,
    count: u64,
    out: &mut W,
) -> Result<(), Refused>
    ensures { Writes (W.state out.old) (W.state out.new)
        (spec.done_line name.now part listed clashes (option_copied profile_sum.entry) count)
        result }
{
    let how = DONE_FILES;
    put_end(name, part, how, listed, clashes, profile_sum, count, out)
}

fn put_end<W: Out>(
    name: &str,
    part: Part,
    how: &str,
    listed: Listed,
    clashes: bool,
    profile_sum: Option<&str>,
    count: u64,
    out: &mut W,
) -> Result<(), Refused>
    ensures { Writes (W.state out.old) (W.state out.new) (spec.end_line how.now name.now part
        listed clashes (option_copied profile_sum.entry) count) result }
{
    let parts = part.of();
    let place = part.number() + 1;
    let mut number = Buffer::new();
    let mut of = Buffer::new();
    let pieces = [PART, number.format(place), OF, of.format(parts)];
    put_line(name, &pieces, out)?;
    put_cut(how, listed, clashes, profile_sum, count, out)
}

/// How a part ended, of what files it was cut, what was asked for, and the number of faults that
/// were written.
fn put_cut<W: Out>(
    how: &str,
    listed: Listed,
    clashes: bool,
    profile_sum: Option<&str>,
    count: u64,
    out: &mut W,
) -> Result<(), Refused>
    ensures { Writes (W.state out.old) (W.state out.new)
        (spec.cut_line how.now listed clashes (option_copied profile_sum.entry) count) result }
{
    let (profile, sum) = profile_words(profile_sum);
    let mut files = Buffer::new();
    let mut bytes = Buffer::new();
    let mut faults = Buffer::new();
    let pieces = [
        how,
        files.format(listed.files),
        BYTES,
        bytes.format(listed.bytes),
        clashes_words(clashes),
        profile,
        sum,
        said::FAULTS,
        faults.format(count),
        "\n",
    ];
    put_pieces(out, &pieces)
}

/// What is said where names that clash are looked for.
fn clashes_words<'a>(clashes: bool) -> &'a str
    ensures { result.now ≡ spec.clashes_words clashes }
{
    if clashes { CLASHES } else { "" }
}

/// What is said before the SHA-256 of a profile, and that, if there is one.
fn profile_words<'a>(profile_sum: Option<&'a str>) -> (&'a str, &'a str)
    ensures { result.0.now ++ result.1.now
        ≡ spec.profile_words (option_copied profile_sum.entry) }
{
    match profile_sum {
        Some(sum) => (PROFILE, sum),
        None => ("", ""),
    }
}
