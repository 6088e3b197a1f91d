//! Reports, read line by line.
ghost use Rattle.std.specs.Prelude.{◌≡◌, ◌≢◌, ◌<◌, ◌++◌, ◌∷◌, [], IfErr, IfOk, IsTrue, List, MatchBool};
ghost use Rattle.std.specs.Prelude.{MatchOption, OnErr, OnOk, Some, false, slice_get, true, vec_len, ℕ};
ghost use Rattle.bag_reports.specs.Input.{HasNoEnd, HoldsAhead, IsAhead, IsPassed, MayFail, ended_line};
ghost use Rattle.bag_reports.specs.Reports.{Opens, ReadsOn, SameReports};

use crate::refusal::Cause;
use crate::reports::{Reports, Unreadable};
use bag_tree::Heard;
use std::alloc::{AllocError, Global};

/// What ends a line.
pub const LINE_FEED: u8 = b'\n';

/// How many bytes are read at once.
const PIECE_BYTES: usize = 65_536;

/// Reports, of which the open one is read through a buffer. What has passed of it is noted for
/// clauses alone.
#[derive(Drop)]
pub struct Input<R: Reports> {
    pub reports: R,
    buffer: Vec<u8>,
    at: usize,
    end: usize,
    pub passed: Heard,
    ghost ahead: { IsAhead (R.state reports).given passed.bytes buffer.items at end },
}

impl<R: Reports> Input<R> {
    /// Reports, of which none is read yet. They come back where memory runs out.
    pub fn new(alloc: Global, reports: R) -> Result<Input<R>, R>
        ensures { IfOk result (λ input. input.reports ≡ reports) }
    {
        let mut buffer = Vec::new(alloc);
        match buffer.resize(PIECE_BYTES, 0) {
            Ok(()) => Ok(Input::over(reports, buffer)),
            Err(AllocError) => Err(reports),
        }
    }

    /// Reports that have given these bytes, and a buffer of which nothing is used.
    fn over(reports: R, buffer: Vec<u8>) -> Input<R>
        ghost given: { List ℕ }
        requires some { 0 < vec_len buffer }
        requires all_passed { (R.state reports).given ≡ given }
        ensures { result.reports ≡ reports }
    {
        Input {
            reports,
            buffer,
            at: 0,
            end: 0,
            passed: Heard::new(),
        }
    }

    /// The reports, as they were left.
    pub fn into_reports(self) -> R
        ensures { result ≡ self.reports }
    {
        let Input {
            reports,
            buffer: _,
            at: _,
            end: _,
            passed: _,
        } = self;
        reports
    }

    /// How many reports there are.
    pub fn count(&self) -> u64
        ensures { result ≡ (R.state self.now.reports).count }
    {
        self.reports.count()
    }

    /// Opens a report from its beginning. A report that isn't there is missing.
    pub fn open(&mut self, number: u64) -> Result<(), Cause>
        ensures same { SameReports (R.state self.old.reports) (R.state self.new.reports) }
        ensures opened { OnOk result
            (Opens (R.state self.old.reports) (R.state self.new.reports) number) }
        ensures passed { OnOk result (self.new.passed.bytes ≡ []) }
        ensures ahead { OnOk result ((text : List ℕ) → IsTrue (R.state self.old.reports).honest
            → slice_get (R.state self.old.reports).held number ≡ Some text
            → HoldsAhead (R.state self.new.reports) self.new.passed.bytes text) }
        ensures refused { number < (R.state self.old.reports).count
            → IfErr result (λ cause. MayFail cause (R.state self.new.reports)) }
        ensures other { IfErr result (λ cause. cause ≢ Cause.Output) }
    {
        if self.reports.count() <= number {
            return Err(Cause::Missing);
        }
        self.reports.open(number)?;
        self.at = 0;
        self.end = 0;
        self.passed = Heard::new();
        Ok(())
    }

    /// Fills the buffer, of which all has passed, and says whether the report had more.
    fn refill(&mut self) -> Result<bool, Unreadable>
        requires { self.old.at ≡ self.old.end }
        ensures reads { ReadsOn (R.state self.old.reports) (R.state self.new.reports) }
        ensures passed { self.new.passed.bytes ≡ self.old.passed.bytes }
        ensures more { IfOk result (λ more. MatchBool more (self.new.at < self.new.end)
            (IsPassed (R.state self.new.reports) self.old.passed.bytes)) }
        ensures failed { OnErr result ((R.state self.new.reports).has_failed ≡ true) }
    {
        let count = self.reports.read(self.buffer.as_mut_slice())?;
        self.at = 0;
        self.end = count;
        Ok(count != 0)
    }

    /// Whether the open report has more.
    fn has_more(&mut self) -> Result<bool, Unreadable>
        ensures reads { ReadsOn (R.state self.old.reports) (R.state self.new.reports) }
        ensures passed { self.new.passed.bytes ≡ self.old.passed.bytes }
        ensures more { IfOk result (λ more. MatchBool more (self.new.at < self.new.end)
            (IsPassed (R.state self.new.reports) self.old.passed.bytes)) }
        ensures failed { OnErr result ((R.state self.new.reports).has_failed ≡ true) }
    {
        if self.at == self.end {
            self.refill()
        } else {
            Ok(true)
        }
    }

    /// The byte that is next in the buffer.
    fn pass(&mut self) -> u8
        requires { self.old.at < self.old.end }
        ensures reports { self.new.reports ≡ self.old.reports }
        ensures passed { self.new.passed.bytes ≡ self.old.passed.bytes ++ result ∷ [] }
    {
        let byte = self.buffer[self.at];
        self.at += 1;
        self.passed.note(&[byte]);
        byte
    }

    /// The next byte of the open report, or none at its end.
    fn next_byte(&mut self) -> Result<Option<u8>, Unreadable>
        ensures reads { ReadsOn (R.state self.old.reports) (R.state self.new.reports) }
        ensures next { IfOk result (λ next. MatchOption next
            ((self.new.passed.bytes ≡ self.old.passed.bytes)
            × IsPassed (R.state self.new.reports) self.old.passed.bytes)
            (λ byte. self.new.passed.bytes ≡ self.old.passed.bytes ++ byte ∷ [])) }
        ensures failed { OnErr result ((R.state self.new.reports).has_failed ≡ true) }
    {
        if !self.has_more()? {
            return Ok(None);
        }
        Ok(Some(self.pass()))
    }

    /// Puts the next line, without its end, in place of what the buffer held, or what stands after
    /// the last line; and says whether it has an end. Of a line that is too long to be counted there
    /// is no memory.
    pub fn next_line(&mut self, line: &mut Vec<u8>) -> Result<bool, Cause>
        ensures reads { OnOk result
            (ReadsOn (R.state self.old.reports) (R.state self.new.reports)) }
        ensures line { IfOk result (λ has_end. self.new.passed.bytes
            ≡ self.old.passed.bytes ++ ended_line line.new.items has_end) }
        ensures first { (front rest : List ℕ) → HasNoEnd front
            → HoldsAhead (R.state self.old.reports) self.old.passed.bytes (front ++ 10 ∷ rest)
            → IfOk result (λ has_end. (has_end ≡ true) × (line.new.items ≡ front)
            × HoldsAhead (R.state self.new.reports) self.new.passed.bytes rest) }
        ensures none { HoldsAhead (R.state self.old.reports) self.old.passed.bytes []
            → IfOk result (λ has_end. (has_end ≡ false) × (line.new.items ≡ [])) }
        ensures refused { IfErr result (λ cause. MayFail cause (R.state self.new.reports)) }
    {
        line.clear();
        'bytes: for _ in 0..u64::MAX {
            let Some(byte) = self.next_byte()? else {
                return Ok(false);
            };
            if byte == LINE_FEED {
                return Ok(true);
            }
            line.push(byte).map_err(AllocError::from)?;
        }
        Err(Cause::Memory)
    }

    /// Sees that the open report has come to its end.
    pub fn expect_end(&mut self) -> Result<(), Cause>
        ensures reads { OnOk result
            (ReadsOn (R.state self.old.reports) (R.state self.new.reports)) }
        ensures ended { OnOk result
            (IsPassed (R.state self.new.reports) self.old.passed.bytes) }
        ensures refused { IfErr result (λ cause.
            HoldsAhead (R.state self.old.reports) self.old.passed.bytes []
            → MayFail cause (R.state self.new.reports)) }
        ensures other { IfErr result (λ cause. cause ≢ Cause.Output) }
    {
        match self.next_byte()? {
            None => Ok(()),
            Some(_) => Err(Cause::OtherCount),
        }
    }
}
