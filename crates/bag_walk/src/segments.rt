//! A report in segments, each with a limit of its own.
ghost use Rattle.std.specs.Prelude.{◌≡◌, ◌<◌, ◌≤◌, ◌^◌, ℕ, List, sum, string_bytes};
ghost use Rattle.std.specs.Option.{option_copied};
ghost use Rattle.bag_tree.specs.Tree.{Keeps, NothingFailed};
ghost use Rattle.bag_faults.specs.declared.fault.Fault.{Fault as FaultValue};
ghost use Rattle.bag_walk.specs.SegmentEnds.{IfUnread, IsRead, IsSegment};
ghost use Rattle.bag_walk.specs.SegmentChain.{RunsInSegments};
ghost use Rattle.bag_walk.specs.SegmentOpenings.{AreCompared, OpensInSegment};
ghost use Rattle.bag_walk.specs.Stops.{MayStop};
ghost use Rattle.bag_walk.specs.Segments as spec;
ghost use Rattle.bag_walk.specs.Segments.{ForReportFrom};
ghost use Rattle.bag_walk.specs.WalkRuns.{WritesSegment};

use crate::segment::{LineBuffers, Segment, SegmentEnd, end_of_report, write_faults};
use crate::{InOrder, Outcome, Steps, Walk};
use bag_report::{Options, Profile};
use bag_sources::only_part;
use bag_tree::{Out, Stop, Tree};
use std::alloc::{AllocError, Global};

impl SegmentEnd {
    /// Whether no further segment follows.
    fn is_last(&self) -> bool
        ensures { result ≡ spec.is_last self.now }
    {
        match self {
            SegmentEnd::Full | SegmentEnd::Unread(_) => false,
            SegmentEnd::AtEnd | SegmentEnd::Unwritten => true,
        }
    }

    /// The outcome where all segments together wrote `written` faults.
    fn outcome(self, written: u64) -> Outcome
        ensures { result ≡ spec.outcome_at written self }
    {
        match self {
            SegmentEnd::Full => Outcome::Stopped(written),
            SegmentEnd::AtEnd => end_of_report(None, written),
            SegmentEnd::Unread(stop) => Outcome::Unread(written, stop),
            SegmentEnd::Unwritten => Outcome::Unwritten(written),
        }
    }
}

/// Writes a report in segments, one for each limit, and no closing line. The first begins at the
/// first fault, and each other after the last fault that was written.
///
/// It ends with the first segment that comes to the end of the report or whose output refuses. One
/// whose reading is refused is followed by the next. The outcome counts the lines of all segments;
/// the tree comes back. For a limit of 0 it isn't looked at.
///
/// Each segment goes on with the file of the last fault that was written, which it may open again,
/// and with none before it. So each file that payload manifests name is opened once at most, and
/// for each segment but the first at most one of them once more. A segment whose reading is refused
/// may have opened files without writing a line; the next opens these again.
pub fn run_segments<T: Tree, W: Out>(
    alloc: Global,
    tree: T,
    profile: Option<&Profile>,
    options: Options,
    limits: &[u64],
    out: &mut W,
) -> (T, Outcome)
    requires { sum limits.now < 2 ^ 64 }
    ensures keeps { Keeps (T.state tree) (T.state result.0) }
    ensures untouched { sum limits.now ≡ 0 → result.0 ≡ tree }
    ensures segments { RunsInSegments (T.state tree) (T.state result.0)
        (option_copied profile.entry) options limits.now
        (W.state out.old) (W.state out.new) result.1 }
{
    let mut tree = tree;
    let mut lines = LineBuffers::new(alloc);
    let mut written = 0;
    let mut outcome = Outcome::Stopped(0);
    for limit in limits {
        let (left, segment) = write_segment(alloc, tree, profile, options, &mut lines, *limit, out);
        tree = left;
        written += segment.written;
        let last = segment.end.is_last();
        outcome = segment.end.outcome(written);
        if last {
            return (tree, outcome);
        }
    }
    (tree, outcome)
}

/// Writes the lines of one segment: of the faults after the last line that was written, up to a
/// limit.
fn write_segment<T: Tree, W: Out>(
    alloc: Global,
    tree: T,
    profile: Option<&Profile>,
    options: Options,
    lines: &mut LineBuffers,
    limit: u64,
    out: &mut W,
) -> (T, Segment)
    ensures keeps { Keeps (T.state tree) (T.state result.0) }
    ensures no_failure { IsRead result.1.end → NothingFailed (T.state tree) (T.state result.0) }
    ensures bounded { result.1.written ≤ limit }
    ensures untouched { limit ≡ 0 → result.0 ≡ tree }
    ensures stop { IfUnread result.1.end (MayStop options (T.state tree) (T.state result.0)) }
    ensures unseen { (faults : List FaultValue) ×
        IsSegment faults limit (W.state out.old) (W.state out.new) result.1 }
    ensures segment { ForReportFrom (T.state tree) (option_copied profile.entry) options
        (string_bytes lines.old.last) (λ report n. spec.ContinuesReport report n limit
        (W.state out.old) (W.state out.new) (string_bytes lines.new.last) result.1) }
    ensures opens { ForReportFrom (T.state tree) (option_copied profile.entry) options
        (string_bytes lines.old.last) (λ report n.
        (compared : List (List ℕ)) → AreCompared options (T.state tree).bag compared
        → OpensInSegment compared report n result.1 (T.state tree) (T.state result.0)) }
{
    if limit == 0 {
        return (
            tree,
            Segment {
                written: 0,
                end: SegmentEnd::Full,
            },
        );
    }
    let Ok(after) = lines.last_fault(alloc) else {
        let end = SegmentEnd::Unread(Stop::out_of_memory(alloc));
        return (tree, Segment { written: 0, end });
    };
    match Walk::start_part(alloc, tree, profile, options, after, only_part()) {
        Ok((walk, _)) => segment_of_walk(alloc, walk, lines, limit, out),
        Err((tree, stop)) => {
            let end = SegmentEnd::Unread(stop);
            (tree, Segment { written: 0, end })
        }
    }
}

/// The segment of the faults that a walk has still to give.
pub(crate) fn segment_of_walk<T: Tree, S: InOrder<T> + Drop, W: Out>(
    alloc: Global,
    walk: Steps<T, S>,
    lines: &mut LineBuffers,
    limit: u64,
    out: &mut W,
) -> (T, Segment)
    ensures { WritesSegment T.Tree S.Source walk (T.state result.0) limit
        (W.state out.old) (W.state out.new)
        (string_bytes lines.old.last) (string_bytes lines.new.last) result.1 }
{
    let mut walk = walk;
    let segment = write_faults(alloc, &mut walk, lines, limit, out);
    (walk.into_tree(), segment)
}
