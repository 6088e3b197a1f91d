//! Reports of all parts, joined.
ghost use Rattle.std.specs.Prelude.{◌≡◌, ◌↔◌, IfErr, IfOk, IsTrue, MatchResult, None, OnOk, Option, true, vec_len};
ghost use Rattle.std.specs.Io.KnownBytes.{Appends};
ghost use Rattle.bag_faults.specs.declared.fault.Fault.{Fault as FaultValue};
ghost use Rattle.bag_walk.specs.Ending.{ended};
ghost use Rattle.bag_reports.specs.Faults.{LeavesLines, WritesFaults};
ghost use Rattle.bag_reports.specs.Input.{MayRefuse};
ghost use Rattle.bag_reports.specs.Reports.{ReportsState, all_given};
ghost use Rattle.bag_join.specs.Findings.{AreFindings, AreWhole, Findings, IsPlanFor, IsReportOf};
ghost use Rattle.bag_join.specs.Join.{IsJoined, IsLeft, IsSeenFirst, JoinsFirst, all_faults, full_closing};
ghost use Rattle.bag_tree.specs.Out.{IsCut, OutState};
ghost use Rattle.bag_tree.specs.Pieces.{Writes};

use crate::nowhere::Nowhere;
use crate::parts::write_parts;
use crate::plan::{Plan, plan_of};
use bag_faults::put_line;
use bag_reports::{Cause, Input, Refusal, Reports};
use bag_tree::{Out, Refused};
use bag_walk::{Outcome, said};
use itoa::Buffer;
use std::alloc::Global;

/// Joins the reports of all parts of a check into the report of one check, and hands it to the
/// output.
///
/// They are the whole reports of all parts, in any order, each once, of one bag and of the same
/// files, and their faults are in order; else it says which one isn't, and why, and hands nothing
/// to the output. If a report is changed between the last two times that it is read, some faults
/// may be handed to the output, but no closing line.
pub fn join<R: Reports, W: Out>(
    alloc: Global,
    reports: R,
    out: &mut W,
) -> (R, Result<Outcome, Refusal>)
    ensures joined { IfOk result.1 (IsJoined (all_given (R.state result.0))
        (W.state out.old) (W.state out.new)) }
    ensures untouched { IfErr result.1 (λ refusal. IsSeenFirst refusal.cause
        → W.state out.new ≡ W.state out.old) }
    ensures whole { (findings : Findings) → AreWhole findings (R.state reports)
        → MatchResult result.1 (IsReportOf findings (W.state out.old) (W.state out.new))
        (λ refusal. MayRefuse refusal.cause (R.state result.0) (W.state out.new)) }
    ensures left { IfErr result.1 (λ refusal.
        IsLeft refusal.cause (W.state out.old) (W.state out.new)) }
{
    match Input::new(alloc, reports) {
        Ok(mut input) => {
            let joined = join_input(alloc, &mut input, out);
            (input.into_reports(), joined)
        }
        Err(reports) => {
            let refusal = Refusal {
                number: 0,
                cause: Cause::Memory,
            };
            (reports, Err(refusal))
        }
    }
}

fn join_input<R: Reports, W: Out>(
    alloc: Global,
    input: &mut Input<R>,
    out: &mut W,
) -> Result<Outcome, Refusal>
    ensures joined { IfOk result (IsJoined (all_given (R.state input.new.reports))
        (W.state out.old) (W.state out.new)) }
    ensures untouched { IfErr result (λ refusal. IsSeenFirst refusal.cause
        → W.state out.new ≡ W.state out.old) }
    ensures whole { (findings : Findings) → AreWhole findings (R.state input.old.reports)
        → MatchResult result (IsReportOf findings (W.state out.old) (W.state out.new))
        (λ refusal. MayRefuse refusal.cause (R.state input.new.reports) (W.state out.new)) }
    ensures left { IfErr result (λ refusal.
        IsLeft refusal.cause (W.state out.old) (W.state out.new)) }
{
    let plan = plan_of(alloc, input)?;
    write_parts(alloc, input, &plan, &mut Nowhere)?;
    let count = write_again(alloc, input, &plan, out)?;
    let outcome = close(plan.subject.name.as_str(), count, out)?;
    Ok(outcome)
}

/// Hands the lines of all faults to the output, of reports that were whole before.
fn write_again<R: Reports, W: Out>(
    alloc: Global,
    input: &mut Input<R>,
    plan: &Plan,
    out: &mut W,
) -> Result<u64, Refusal>
    ensures joins { IfOk result (λ n. (last : Option FaultValue)
        × JoinsFirst plan.now.subject (vec_len plan.now.places)
        (R.state input.old.reports) (R.state input.new.reports) last
        (W.state out.old) (W.state out.new) (vec_len plan.now.places) n) }
    ensures late { IfErr result (λ refusal. ¬ (IsSeenFirst refusal.cause)) }
    ensures whole { (findings : Findings) → AreFindings findings
        → IsTrue (R.state input.old.reports).honest
        → IsPlanFor findings (R.state input.old.reports) plan.now
        → MatchResult result (λ n. (last : Option FaultValue)
        × WritesFaults None last (W.state out.old) (W.state out.new) n (all_faults findings.parts))
        (λ refusal. MayRefuse refusal.cause (R.state input.new.reports) (W.state out.new)) }
    ensures left { IfErr result (λ refusal.
        LeavesLines refusal.cause None (W.state out.old) (W.state out.new)) }
{
    match write_parts(alloc, input, plan, out) {
        Ok(count) => Ok(count),
        Err(refusal) => Err(after_looking(refusal)),
    }
}

/// Hands the closing line of one check to the output, and says how it ended.
fn close<W: Out>(name: &str, count: u64, out: &mut W) -> Result<Outcome, Refusal>
    ensures outcome { IfOk result (λ outcome. outcome ≡ ended None count) }
    ensures closes { OnOk result (Appends (W.state out.old).taken (W.state out.new).taken
        (full_closing name.now count)) }
    ensures late { IfErr result (λ refusal. ¬ (IsSeenFirst refusal.cause)) }
    ensures refused { IfErr result (λ refusal. (refusal.cause ≡ Cause.Output)
        × ((W.state out.new).has_refused ≡ true)
        × IsCut (W.state out.old).taken (W.state out.new).taken (full_closing name.now count)) }
{
    match put_closing(name, count, out) {
        Ok(()) => Ok(outcome_of(count)),
        Err(Refused) => Err(Refusal {
            number: 0,
            cause: Cause::Output,
        }),
    }
}

/// A refusal of reports that were whole before.
fn after_looking(refusal: Refusal) -> Refusal
    ensures late { ¬ (IsSeenFirst result.cause) }
    ensures kept { (reports : ReportsState) (out : OutState) → MayRefuse refusal.cause reports out
        → result.cause ≡ refusal.cause }
    ensures output { result.cause ≡ Cause.Output ↔ refusal.cause ≡ Cause.Output }
{
    let Refusal { number, cause } = refusal;
    let cause = match cause {
        Cause::Memory | Cause::Output | Cause::Unreadable => cause,
        Cause::NotAReport
        | Cause::CutOff
        | Cause::Stopped
        | Cause::Resumed
        | Cause::BagUnread
        | Cause::OtherBag
        | Cause::OtherFiles
        | Cause::OtherOptions
        | Cause::OtherNumber
        | Cause::Twice
        | Cause::Missing
        | Cause::OutOfOrder
        | Cause::OtherCount
        | Cause::Changed => Cause::Changed,
    };
    Refusal { number, cause }
}

/// How a check ends that finds so many faults.
fn outcome_of(count: u64) -> Outcome
    ensures { result ≡ ended None count }
{
    if count == 0 {
        Outcome::Clean
    } else {
        Outcome::Faults(count)
    }
}

/// Hands its closing line to the output.
fn put_closing<W: Out>(name: &str, count: u64, out: &mut W) -> Result<(), Refused>
    ensures { Writes (W.state out.old) (W.state out.new) (full_closing name.now count) result }
{
    if count == 0 {
        return put_line(name, &[said::VALID, "\n"], out);
    }
    let mut digits = Buffer::new();
    put_line(name, &[said::HAS_FAULTS, digits.format(count), "\n"], out)
}
