//! Which report is of which part.
ghost use Rattle.std.specs.Prelude.{◌≡◌, ◌↔◌, ◌+◌, ◌<◌, ◌≤◌, ◌^◌, ◌++◌, IfErr, IfOk, IsTrue, List, MatchResult};
ghost use Rattle.std.specs.Prelude.{OnOk, codes, length, replicate, slice_get, slice_set, vec_len, ℕ};
ghost use Rattle.std.specs.Option.{option_copied};
ghost use Rattle.bag_reports.specs.DoneLine.{IsDoneLineOf};
ghost use Rattle.bag_reports.specs.Input.{AreLines, HasNoEnd, MayFail, ended_lines};
ghost use Rattle.bag_reports.specs.Reports.{SameReports};
ghost use Rattle.bag_reports.specs.declared.done_line.DoneLine.{DoneLine as DoneLineValue};
ghost use Rattle.bag_join.specs.Findings.{AreFindings, AreWhole, Findings, IsPlanFor, done_at, file_at};

use bag_reports::{Cause, DoneLine, Input, LINE_FEED, Refusal, Reports, Subject};
use bag_text::Text;
use bag_walk::Listed;
use std::alloc::{AllocError, Global};
use std::{mem, str};

/// What all closing lines say alike, and of each part which report is its own, if one is.
#[derive(Drop)]
pub(crate) struct Plan {
    pub(crate) subject: Subject,
    pub(crate) places: Vec<Option<u64>>,
}

/// Reads the closing lines of all reports. Of what stands before these nothing is looked at.
pub(crate) fn plan_of<R: Reports>(alloc: Global, input: &mut Input<R>) -> Result<Plan, Refusal>
    ensures some { IfOk result (λ plan. 0 < vec_len plan.places) }
    ensures most { IfOk result (λ plan. vec_len plan.places ≤ 65536) }
    ensures same { OnOk result
        (SameReports (R.state input.old.reports) (R.state input.new.reports)) }
    ensures whole { (findings : Findings) → AreWhole findings (R.state input.old.reports)
        → MatchResult result (IsPlanFor findings (R.state input.new.reports))
        (λ refusal. MayFail refusal.cause (R.state input.new.reports)) }
{
    let DoneLine {
        subject,
        part,
        count: _,
    } = closing_of(alloc, input, 0)?;
    let mut places = match no_places(alloc, part.of() as usize) {
        Ok(places) => places,
        Err(cause) => return Err(Refusal { number: 0, cause }),
    };
    'reports: for number in 0..input.count() {
        let said = closing_of(alloc, input, number)?;
        if let Err(cause) = take_place(&subject, &said, number, &mut places) {
            return Err(Refusal { number, cause });
        }
    }
    Ok(Plan { subject, places })
}

/// So many places, without reports.
fn no_places(alloc: Global, parts: usize) -> Result<Vec<Option<u64>>, Cause>
    ensures places { IfOk result (λ places. places.items ≡ replicate parts None) }
    ensures refused { IfErr result (λ cause. cause ≡ Cause.Memory) }
{
    let mut places = Vec::new(alloc);
    places.resize(parts, None)?;
    Ok(places)
}

/// Notes of which part a report is, if it goes with the first one.
fn take_place(
    subject: &Subject,
    said: &DoneLine,
    number: u64,
    places: &mut Vec<Option<u64>>,
) -> Result<(), Cause>
    ensures size { vec_len places.new ≡ vec_len places.old }
    ensures takes { said.now.subject ≡ subject.now → said.now.part.of ≡ vec_len places.old
        → slice_get places.old.items said.now.part.number ≡ Some None
        → MatchResult result (λ _. places.new.items
        ≡ slice_set places.old.items said.now.part.number (Some number)) (λ _. ⊥) }
{
    if said.subject.name != subject.name {
        return Err(Cause::OtherBag);
    }
    if said.part.of() != places.len() as u64 {
        return Err(Cause::OtherNumber);
    }
    if !are_same_files(said.subject.listed, subject.listed) {
        return Err(Cause::OtherFiles);
    }
    if !are_same_options(&said.subject, subject) {
        return Err(Cause::OtherOptions);
    }
    let place = &mut places[said.part.number() as usize];
    if place.is_some() {
        return Err(Cause::Twice);
    }
    *place = Some(number);
    Ok(())
}

fn are_same_files(one: Listed, other: Listed) -> bool
    ensures { IsTrue result ↔ (one ≡ other) }
{
    one.files == other.files && one.bytes == other.bytes
}

/// Whether both were checked with the same options and profile.
fn are_same_options(one: &Subject, other: &Subject) -> bool
    ensures { IsTrue result ↔ ((one.now.clashes ≡ other.now.clashes)
        × (one.now.profile ≡ other.now.profile)) }
{
    one.clashes == other.clashes && are_same_texts(one.profile.as_ref(), other.profile.as_ref())
}

fn are_same_texts(one: Option<&Text>, other: Option<&Text>) -> bool
    ensures { IsTrue result ↔ (option_copied one.entry ≡ option_copied other.entry) }
{
    match (one, other) {
        (Some(one), Some(other)) => one == other,
        (None, None) => true,
        (None, Some(_)) | (Some(_), None) => false,
    }
}

/// What the closing line of a report says.
fn closing_of<R: Reports>(
    alloc: Global,
    input: &mut Input<R>,
    number: u64,
) -> Result<DoneLine, Refusal>
    ensures same { OnOk result
        (SameReports (R.state input.old.reports) (R.state input.new.reports)) }
    ensures whole { (findings : Findings) (k : ℕ) → AreFindings findings → k < length findings.parts
        → IsTrue (R.state input.old.reports).honest → number < (R.state input.old.reports).count
        → slice_get (R.state input.old.reports).held number ≡ Some (file_at findings k)
        → MatchResult result (λ said. said ≡ done_at findings k)
        (λ refusal. MayFail refusal.cause (R.state input.new.reports)) }
{
    match read_closing(alloc, input, number) {
        Ok(said) => Ok(said),
        Err(cause) => Err(Refusal { number, cause }),
    }
}

fn read_closing<R: Reports>(
    alloc: Global,
    input: &mut Input<R>,
    number: u64,
) -> Result<DoneLine, Cause>
    ensures same { OnOk result
        (SameReports (R.state input.old.reports) (R.state input.new.reports)) }
    ensures whole { (findings : Findings) (k : ℕ) → AreFindings findings → k < length findings.parts
        → IsTrue (R.state input.old.reports).honest → number < (R.state input.old.reports).count
        → slice_get (R.state input.old.reports).held number ≡ Some (file_at findings k)
        → MatchResult result (λ said. said ≡ done_at findings k)
        (λ cause. MayFail cause (R.state input.new.reports)) }
{
    match last_line(alloc, input, number) {
        Ok(line) => said_in(alloc, line.as_slice()),
        Err(cause) => Err(cause),
    }
}

/// The last line of a report, with its end; nothing where the report is empty.
fn last_line<R: Reports>(alloc: Global, input: &mut Input<R>, number: u64) -> Result<Vec<u8>, Cause>
    ensures same { OnOk result
        (SameReports (R.state input.old.reports) (R.state input.new.reports)) }
    ensures last { (lines : List (List ℕ)) (front : List ℕ) → HasNoEnd front → AreLines lines
        → length lines + 2 < 2 ^ 64
        → IsTrue (R.state input.old.reports).honest → number < (R.state input.old.reports).count
        → slice_get (R.state input.old.reports).held number
        ≡ Some (ended_lines lines ++ (front ++ codes "\n"))
        → MatchResult result (λ last. last.items ≡ front ++ codes "\n")
        (λ cause. MayFail cause (R.state input.new.reports)) }
{
    input.open(number)?;
    let mut line = Vec::new(alloc);
    let mut last = Vec::new(alloc);
    'lines: for _ in 0..u64::MAX {
        if !input.next_line(&mut line)? {
            if line.is_empty() {
                return Ok(last);
            }
            return Err(Cause::CutOff);
        }
        line.push(LINE_FEED).map_err(AllocError::from)?;
        mem::swap(&mut line, &mut last);
    }
    Err(Cause::NotAReport)
}

/// What a closing line says, with its end, or why it isn't that of a part that is done.
fn said_in(alloc: Global, line: &[u8]) -> Result<DoneLine, Cause>
    ensures { (said : DoneLineValue) → IsDoneLineOf line.now said
        → MatchResult result (λ found. found ≡ said) (λ cause. cause ≡ Cause.Memory) }
{
    let Ok(text) = str::from_utf8(line) else {
        return Err(Cause::NotAReport);
    };
    match DoneLine::from_line(alloc, text)? {
        Some(said) => Ok(said),
        None => Err(why_not_done(text)),
    }
}

/// Why a line isn't the closing line of a part that is done.
fn why_not_done(line: &str) -> Cause {
    let Some((_, rest)) = line.split_once(' ') else {
        return Cause::NotAReport;
    };
    if rest.starts_with("stopped, faults: ") {
        Cause::Stopped
    } else if rest.starts_with("unread ") {
        Cause::BagUnread
    } else if rest.starts_with("part ") && rest.contains(" rest done, files: ") {
        Cause::Resumed
    } else {
        Cause::NotAReport
    }
}
