//! The lines of a report's faults, each written when its fault is found.
ghost use Rattle.std.specs.Prelude.{◌≡◌, List, [], string_bytes, IfOk, IsTrue, OnOk, Option};
ghost use Rattle.std.specs.Option.{option_copied};
ghost use Rattle.bag_tree.specs.Out.{OutState};
ghost use Rattle.bag_faults.specs.declared.fault.Fault.{Fault as FaultValue};
ghost use Rattle.bag_walk.specs.Closing.{count_of};
ghost use Rattle.bag_walk.specs.Ending.{limit_of, written_line, ended};
ghost use Rattle.bag_walk.specs.LastLine.{IsLastLine};
ghost use Rattle.bag_walk.specs.SegmentEnds.{ClosesSegment, IsSegment, StopsAt};
ghost use Rattle.bag_walk.specs.Stops.{IfRunUnread};
ghost use Rattle.bag_walk.specs.WalkRuns.{WritesSegment};
ghost use Rattle.bag_faults.specs.LineOf.{IsFault};
ghost use Rattle.bag_walk.specs.Writer.{Closes};

use crate::closing::put_closing;
use crate::{InOrder, Outcome, Request, Steps};
use bag_faults::Fault;
use bag_faults::laws::every_fault_is_one;
use bag_tree::{Out, Refused, Stop, Tree, put_all};
use std::alloc::{AllocError, Global};
use std::mem;

/// How a segment of a report ended.
#[derive(Drop)]
pub(crate) enum SegmentEnd {
    /// With as many faults as its limit.
    Full,
    /// At the end of the report, with fewer faults than its limit.
    AtEnd,
    /// The tree or memory refused.
    Unread(Stop),
    /// The output refused.
    Unwritten,
}

/// A segment of a report: how many lines were written, and how it ended.
#[derive(Drop)]
pub(crate) struct Segment {
    pub(crate) written: u64,
    pub(crate) end: SegmentEnd,
}

/// Writes a line for each fault that a walk has still to give, up to the limit. Each line is handed
/// to the output before the next fault is looked for.
///
/// Each line ends in LF, and is one write where the output takes it whole. Where memory for a line
/// runs out, the segment is `Unread` with a stop that names no file; where the output refuses,
/// nothing more is written. The last line that was written is kept.
pub(crate) fn write_faults<T: Tree, S: InOrder<T>, W: Out>(
    alloc: Global,
    walk: &mut Steps<T, S>,
    lines: &mut LineBuffers,
    limit: u64,
    out: &mut W,
) -> Segment
    ensures { WritesSegment T.Tree S.Source walk.old (T.state walk.new.tree) limit
        (W.state out.old) (W.state out.new)
        (string_bytes lines.old.last) (string_bytes lines.new.last) result }
{
    let mut written = 0;
    'given: while written < limit {
        match walk.step() {
            Ok(()) => {}
            Err(stop) => return Segment {
                written,
                end: SegmentEnd::Unread(stop),
            },
        }
        let Some(fault) = walk.shown() else {
            return Segment {
                written,
                end: SegmentEnd::AtEnd,
            };
        };
        let Ok(()) = lines.fill(fault) else {
            return Segment {
                written,
                end: SegmentEnd::Unread(Stop::out_of_memory(alloc)),
            };
        };
        if let Err(Refused) = put_all(out, lines.next.as_bytes()) {
            return Segment {
                written,
                end: SegmentEnd::Unwritten,
            };
        }
        lines.turn();
        written += 1;
    }
    Segment {
        written,
        end: SegmentEnd::Full,
    }
}

/// Writes the closing line of a run whose lines were written so.
pub(crate) fn close_segment<W: Out>(request: &Request, segment: Segment, out: &mut W) -> Outcome
    ensures closes { (faults : List FaultValue) (began : OutState)
        → IsSegment faults (limit_of request.now) began (W.state out.old) segment
        → ClosesSegment request.now faults segment began (W.state out.new) result }
    ensures count { count_of result ≡ segment.written }
    ensures stop { IfRunUnread result (StopsAt segment) }
{
    let Segment { written, end } = segment;
    match end {
        SegmentEnd::Full => close(request, Outcome::Stopped(written), out),
        SegmentEnd::AtEnd => close(request, end_of_report(request.after.as_ref(), written), out),
        SegmentEnd::Unread(stop) => close(request, Outcome::Unread(written, stop), out),
        SegmentEnd::Unwritten => Outcome::Unwritten(written),
    }
}

/// The line that was written last, none at first, and a buffer for the next. Each ends in LF.
#[derive(Drop)]
pub(crate) struct LineBuffers {
    pub(crate) last: String,
    pub(crate) next: String,
}

impl LineBuffers {
    /// Before the first line.
    pub(crate) fn new(alloc: Global) -> LineBuffers
        ensures { string_bytes result.last ≡ [] }
    {
        LineBuffers {
            last: String::new(alloc),
            next: String::new(alloc),
        }
    }

    /// Puts a fault's line with its end, an LF, in place of what the buffer held. It takes memory
    /// only where the line is longer than the buffer.
    pub(crate) fn fill(&mut self, fault: &Fault) -> Result<(), AllocError>
        ensures last { string_bytes self.new.last ≡ string_bytes self.old.last }
        ensures next { OnOk result (string_bytes self.new.next ≡ written_line fault.now) }
        ensures fault { IsFault fault.now }
    {
        every_fault_is_one(fault);
        self.next.clear();
        fault.append_line(&mut self.next)?;
        self.next.push_str("\n")
    }

    /// Makes the line in the buffer the last.
    pub(crate) fn turn(&mut self)
        ensures { string_bytes self.new.last ≡ string_bytes self.old.next }
    {
        mem::swap(&mut self.last, &mut self.next);
    }

    /// The fault whose line was written last, if one was. Fails only where memory runs out.
    pub(crate) fn last_fault(&self, alloc: Global) -> Result<Option<Fault>, AllocError>
        ensures { (last : Option FaultValue) → IsLastLine last (string_bytes self.now.last)
            → IfOk result (λ fault. fault ≡ last) }
    {
        let Some(line) = self.last.as_str().strip_suffix("\n") else {
            return Ok(None);
        };
        match Fault::from_line(alloc, line) {
            Ok(fault) => Ok(Some(fault)),
            Err(_) => Err(AllocError),
        }
    }
}

/// How a run ends that has shown all faults above a cursor, and has written `written` of them.
pub(crate) fn end_of_report(after: Option<&Fault>, written: u64) -> Outcome
    ensures { result ≡ ended (option_copied after.entry) written }
{
    match (after, written) {
        (Some(_), _) => Outcome::Rest(written),
        (None, 0) => Outcome::Clean,
        (None, _) => Outcome::Faults(written),
    }
}

/// Writes the closing line of an outcome, and answers how the run ended: so, or `Unwritten` with
/// the same number of fault lines. It takes no memory.
pub(crate) fn close<W: Out>(request: &Request, ending: Outcome, out: &mut W) -> Outcome
    ensures { Closes request.now ending (W.state out.old) (W.state out.new) result }
{
    match put_closing(request, &ending, out) {
        Ok(()) => ending,
        Err(Refused) => Outcome::Unwritten(ending.count()),
    }
}
