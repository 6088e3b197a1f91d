//! Reports of parts, written one after the other.
ghost use Rattle.std.specs.Prelude.{◌≡◌, ◌+◌, IfErr, IfOk, IsTrue, MatchResult, None};
ghost use Rattle.std.specs.Prelude.{OnOk, Option, vec_len, ℕ};
ghost use Rattle.bag_faults.specs.declared.fault.Fault.{Fault as FaultValue};
ghost use Rattle.bag_reports.specs.Faults.{LeavesLines, WritesFaults};
ghost use Rattle.bag_reports.specs.Input.{MayRefuse};
ghost use Rattle.bag_reports.specs.Reports.{SameReports};
ghost use Rattle.bag_join.specs.Findings.{AreFindings, Findings, IsPlanFor, IsTurnOf, faults_at};
ghost use Rattle.bag_join.specs.Join.{JoinsFirst, JoinsPart, all_faults};

use crate::plan::Plan;
use bag_faults::{Fault, Part};
use bag_reports::{Cause, Input, Refusal, Reports, is_done_line, plus, write_report};
use bag_tree::Out;
use std::alloc::Global;

/// Hands the lines of all faults to the output, part by part, and counts them. Each report has to
/// be whole, and end as the plan says.
pub(crate) fn write_parts<R: Reports, W: Out>(
    alloc: Global,
    input: &mut Input<R>,
    plan: &Plan,
    out: &mut W,
) -> Result<u64, Refusal>
    ensures joins { IfOk result (λ n. (last : Option FaultValue)
        × JoinsFirst plan.now.subject (vec_len plan.now.places)
        (R.state input.old.reports) (R.state input.new.reports) last
        (W.state out.old) (W.state out.new) (vec_len plan.now.places) n) }
    ensures same { OnOk result
        (SameReports (R.state input.old.reports) (R.state input.new.reports)) }
    ensures whole { (findings : Findings) → AreFindings findings
        → IsTrue (R.state input.old.reports).honest
        → IsPlanFor findings (R.state input.old.reports) plan.now
        → MatchResult result (λ n. (last : Option FaultValue)
        × WritesFaults None last (W.state out.old) (W.state out.new) n (all_faults findings.parts))
        (λ refusal. MayRefuse refusal.cause (R.state input.new.reports) (W.state out.new)) }
    ensures left { IfErr result (λ refusal.
        LeavesLines refusal.cause None (W.state out.old) (W.state out.new)) }
{
    let mut last = None;
    let mut total: u64 = 0;
    'parts: for (index, place) in plan.places.iter().enumerate() {
        let number = index as u64;
        let Some(report) = *place else {
            return Err(Refusal {
                number,
                cause: Cause::Missing,
            });
        };
        match write_next(alloc, input, plan, number, report, &mut last, total, out) {
            Ok(count) => total = count,
            Err(cause) => return Err(Refusal {
                number: report,
                cause,
            }),
        }
    }
    Ok(total)
}

/// Those of the part with this number, whose report this is, and adds to their count.
fn write_next<R: Reports, W: Out>(
    alloc: Global,
    input: &mut Input<R>,
    plan: &Plan,
    number: u64,
    report: u64,
    last: &mut Option<Fault>,
    total: u64,
    out: &mut W,
) -> Result<u64, Cause>
    ensures joins { IfOk result (λ sum. (n : ℕ) × (sum ≡ total + n)
        × JoinsPart plan.now.subject
        (record { number = number; of = vec_len plan.now.places })
        (R.state input.old.reports) (R.state input.new.reports) last.old last.new
        (W.state out.old) (W.state out.new) n) }
    ensures same { OnOk result
        (SameReports (R.state input.old.reports) (R.state input.new.reports)) }
    ensures whole { (findings : Findings)
        → IsTurnOf findings (R.state input.old.reports) plan.now number report total last.old
        → MatchResult result (λ sum. (n : ℕ) × (sum ≡ total + n) × WritesFaults last.old last.new
        (W.state out.old) (W.state out.new) n (faults_at findings number))
        (λ cause. MayRefuse cause (R.state input.new.reports) (W.state out.new)) }
    ensures left { IfErr result (λ cause.
        LeavesLines cause last.old (W.state out.old) (W.state out.new)) }
{
    input.open(report)?;
    let mut line = Vec::new(alloc);
    let count = write_report(alloc, input, &mut line, last, out)?;
    let Some(part) = Part::new(number, plan.places.len() as u64) else {
        return Err(Cause::Missing);
    };
    if !is_done_line(alloc, &plan.subject, part, count, line.as_slice())? {
        return Err(Cause::OtherCount);
    }
    input.expect_end()?;
    let sum = plus(total, count)?;
    Ok(sum)
}
