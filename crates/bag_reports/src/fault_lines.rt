//! The lines of faults at the front of a report.
ghost use Rattle.std.specs.Prelude.{◌≡◌, ◌↔◌, ◌++◌, ◌<◌, ◌^◌, codes, IfErr, IfOk, IsTrue, List, MatchOption};
ghost use Rattle.std.specs.Prelude.{◌∷◌, ◌⊎◌, MatchResult, OnOk, Some, length, true, ℕ};
ghost use Rattle.std.specs.Io.KnownBytes.{Appends};
ghost use Rattle.std.specs.List.{concat};
ghost use Rattle.std.specs.Option.{option_copied};
ghost use Rattle.bag_faults.specs.LineOf.{IsLineOf};
ghost use Rattle.bag_faults.specs.declared.fault.Fault.{Fault as FaultValue};
ghost use Rattle.bag_reports.specs.Reports.{ReadsOn};
ghost use Rattle.bag_reports.specs.Faults.{AreAfter, AreAhead, IsAfter, IsOther, LeavesLines, WritesFaults};
ghost use Rattle.bag_reports.specs.Head.{AreKeys, IsUnchecked, head_of};
ghost use Rattle.bag_reports.specs.Input.{HoldsAhead, MayRefuse};
ghost use Rattle.bag_tree.specs.Out.{IsCut};
ghost use Rattle.bag_walk.specs.Ending.{written};

use crate::head::first_line;
use crate::input::{Input, LINE_FEED};
use crate::numbers::plus;
use crate::refusal::Cause;
use crate::reports::Reports;
use bag_faults::{CursorFault, Fault};
use bag_tree::{Out, Refused, put_all};
use std::alloc::{AllocError, Global};
use std::str;

/// Hands the lines of the open report to the output, as long as they are lines of faults, each
/// after the one before it, and counts them. The line that is none is left, with its end.
pub(crate) fn write_faults<R: Reports, W: Out>(
    alloc: Global,
    input: &mut Input<R>,
    line: &mut Vec<u8>,
    last: &mut Option<Fault>,
    out: &mut W,
) -> Result<u64, Cause>
    ensures reads { OnOk result
        (ReadsOn (R.state input.old.reports) (R.state input.new.reports)) }
    ensures wrote { IfOk result (λ n. (faults : List FaultValue)
        × WritesFaults last.old last.new (W.state out.old) (W.state out.new) n faults
        × (input.new.passed.bytes
        ≡ input.old.passed.bytes ++ (concat (written faults) ++ line.new.items))) }
    ensures finds { (faults : List FaultValue) (front rest : List ℕ) → IsOther front
        → AreAhead (R.state input.old.reports) input.old.passed.bytes faults front rest
        → AreAfter last.old faults → length faults < 2 ^ 63
        → MatchResult result (λ n. WritesFaults last.old last.new
        (W.state out.old) (W.state out.new) n faults × (line.new.items ≡ front ++ codes "\n")
        × HoldsAhead (R.state input.new.reports) input.new.passed.bytes rest)
        (λ cause. MayRefuse cause (R.state input.new.reports) (W.state out.new)) }
    ensures left { IfErr result (λ cause.
        LeavesLines cause last.old (W.state out.old) (W.state out.new)) }
{
    'lines: for count in 0..u64::MAX {
        if !input.next_line(line)? {
            return Err(Cause::CutOff);
        }
        let found = fault_in(alloc, line.as_slice())?;
        line.push(LINE_FEED).map_err(AllocError::from)?;
        let Some(fault) = found else {
            return Ok(count);
        };
        if !is_after(last.as_ref(), &fault) {
            return Err(Cause::OutOfOrder);
        }
        if let Err(Refused) = put_all(out, line.as_slice()) {
            return Err(Cause::Output);
        }
        *last = Some(fault);
    }
    Err(Cause::NotAReport)
}

/// Passes the lines at the head of the open report that say which keys aren't checked, and hands
/// those of its faults to the output as `write_faults` does.
pub fn write_report<R: Reports, W: Out>(
    alloc: Global,
    input: &mut Input<R>,
    line: &mut Vec<u8>,
    last: &mut Option<Fault>,
    out: &mut W,
) -> Result<u64, Cause>
    ensures reads { OnOk result
        (ReadsOn (R.state input.old.reports) (R.state input.new.reports)) }
    ensures wrote { IfOk result (λ n. (faults : List FaultValue) × (keys : List (List ℕ))
        × AreKeys keys
        × WritesFaults last.old last.new (W.state out.old) (W.state out.new) n faults
        × (input.new.passed.bytes ≡ input.old.passed.bytes
        ++ (head_of keys ++ (concat (written faults) ++ line.new.items)))) }
    ensures finds { (keys : List (List ℕ)) (faults : List FaultValue) (front rest : List ℕ)
        → IsOther front → ¬ (IsUnchecked front) → AreKeys keys
        → HoldsAhead (R.state input.old.reports) input.old.passed.bytes
        (head_of keys ++ (concat (written faults) ++ (front ++ 10 ∷ rest)))
        → AreAfter last.old faults → length faults < 2 ^ 63
        → MatchResult result (λ n. WritesFaults last.old last.new
        (W.state out.old) (W.state out.new) n faults × (line.new.items ≡ front ++ codes "\n")
        × HoldsAhead (R.state input.new.reports) input.new.passed.bytes rest)
        (λ cause. MayRefuse cause (R.state input.new.reports) (W.state out.new)) }
    ensures left { IfErr result (λ cause.
        LeavesLines cause last.old (W.state out.old) (W.state out.new)) }
{
    if !first_line(input, line)? {
        return Err(Cause::CutOff);
    }
    let found = fault_in(alloc, line.as_slice())?;
    line.push(LINE_FEED).map_err(AllocError::from)?;
    let Some(fault) = found else {
        return Ok(0);
    };
    write_first(line.as_slice(), fault, last, out)?;
    let more = write_faults(alloc, input, line, last, out)?;
    let count = plus(1, more)?;
    Ok(count)
}

/// Hands the line of a fault to the output, with its end, if it stands after the last one.
fn write_first<W: Out>(
    line: &[u8],
    fault: Fault,
    last: &mut Option<Fault>,
    out: &mut W,
) -> Result<(), Cause>
    ensures wrote { OnOk result (IsAfter last.old fault × (last.new ≡ Some fault)
        × Appends (W.state out.old).taken (W.state out.new).taken line.now) }
    ensures refused { IfErr result (λ cause. ((cause ≡ Cause.OutOfOrder)
        × ¬ (IsAfter last.old fault) × (W.state out.new ≡ W.state out.old))
        ⊎ ((cause ≡ Cause.Output) × IsAfter last.old fault
        × ((W.state out.new).has_refused ≡ true)
        × IsCut (W.state out.old).taken (W.state out.new).taken line.now)) }
{
    if !is_after(last.as_ref(), &fault) {
        return Err(Cause::OutOfOrder);
    }
    if let Err(Refused) = put_all(out, line) {
        return Err(Cause::Output);
    }
    *last = Some(fault);
    Ok(())
}

/// The fault whose line this is, without its end, if it is one.
fn fault_in(alloc: Global, line: &[u8]) -> Result<Option<Fault>, AllocError>
    ensures { IfOk result (λ found. MatchOption found
        ((f : FaultValue) → ¬ (IsLineOf line.now f)) (IsLineOf line.now)) }
{
    let Ok(text) = str::from_utf8(line) else {
        return Ok(None);
    };
    match Fault::from_line(alloc, text) {
        Ok(fault) => Ok(Some(fault)),
        Err(CursorFault::NotALine) => Ok(None),
        Err(CursorFault::Memory) => Err(AllocError),
    }
}

/// Whether a fault stands after the last one, if there is one.
fn is_after(last: Option<&Fault>, fault: &Fault) -> bool
    ensures { IsTrue result ↔ IsAfter (option_copied last.entry) fault.now }
{
    match last {
        None => true,
        Some(last) => last < fault,
    }
}
