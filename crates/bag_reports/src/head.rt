//! The lines at the head of a file that holds a report.
ghost use Rattle.std.specs.Prelude.{◌≡◌, ◌↔◌, ◌++◌, ◌∷◌, IfErr, IfOk, IsTrue, List, OnOk, true, ℕ};
ghost use Rattle.bag_reports.specs.Head.{AreKeys, IsUnchecked, head_of, is_visible};
ghost use Rattle.std.specs.List.{list_all};
ghost use Rattle.bag_reports.specs.Input.{HasNoEnd, HoldsAhead, MayFail, ended_line};
ghost use Rattle.bag_reports.specs.Reports.{ReadsOn};

use crate::input::Input;
use crate::refusal::Cause;
use crate::reports::Reports;
use crate::said;

/// Passes the lines that say which keys of a profile aren't checked, puts the line after them,
/// without its end, in place of what the buffer held, and says whether it has an end. Of more lines
/// than can be counted there is no memory.
pub(crate) fn first_line<R: Reports>(
    input: &mut Input<R>,
    line: &mut Vec<u8>,
) -> Result<bool, Cause>
    ensures reads { OnOk result
        (ReadsOn (R.state input.old.reports) (R.state input.new.reports)) }
    ensures line { IfOk result (λ has_end. (keys : List (List ℕ)) × AreKeys keys
        × (input.new.passed.bytes
        ≡ input.old.passed.bytes ++ (head_of keys ++ ended_line line.new.items has_end))) }
    ensures first { (keys : List (List ℕ)) (front rest : List ℕ) → AreKeys keys → HasNoEnd front
        → ¬ (IsUnchecked front) → HoldsAhead (R.state input.old.reports) input.old.passed.bytes
        (head_of keys ++ (front ++ 10 ∷ rest))
        → IfOk result (λ has_end. (has_end ≡ true) × (line.new.items ≡ front)
        × HoldsAhead (R.state input.new.reports) input.new.passed.bytes rest) }
    ensures refused { IfErr result (λ cause. MayFail cause (R.state input.new.reports)) }
{
    'lines: for _ in 0..u64::MAX {
        if !input.next_line(line)? {
            return Ok(false);
        }
        if !is_unchecked(line.as_slice()) {
            return Ok(true);
        }
    }
    Err(Cause::Memory)
}

/// Whether a line, without its end, says that a key of a profile isn't checked.
fn is_unchecked(line: &[u8]) -> bool
    ensures { IsTrue result ↔ IsUnchecked line.now }
{
    match line.strip_prefix(said::UNCHECKED.as_bytes()) {
        Some(key) => is_key(key),
        None => false,
    }
}

fn is_key(key: &[u8]) -> bool
    ensures { result ≡ list_all is_visible key.now }
{
    key.iter().all(|byte| 32 < *byte && *byte < 127)
}
