//! Reports of parts, joined into the report of one check.
ghost use Rattle.std.specs.Prelude.{◌≡◌};
ghost use Rattle.bag_program.specs.Folders.{disks_of};
ghost use Rattle.bag_program.specs.Halt.{status_of};
ghost use Rattle.bag_program.specs.InTurn.{Does};
ghost use Rattle.bag_cli.specs.Joined.{AreJoined, join_status};

use crate::work::Work;
use bag_arguments::said::PROGRAM;
use bag_join::join;
use bag_program::{Disks, FileTrouble, Halt, Visits, put_trouble, say_on};
use bag_reports::{Cause, Refusal};
use bag_text::{Text, said};
use bag_tree::{Out, Refused, put_pieces};
use bag_walk::{Outcome, status};
use itoa::Buffer;
use std::alloc::{AllocError, Global};
use std::io::ErrorKind;

/// The exit status where reports aren't joined.
const NOT_JOINED: u8 = 3;

impl<D: Disks> Work<'_, D> {
    /// Joins the reports at the paths of the plan's words. Gives the status, and says on `err`
    /// which report isn't joined, and why.
    pub(crate) fn join_reports<O: Out, E: Out>(
        &self,
        visits: &mut Visits<D>,
        out: &mut O,
        err: &mut E,
    ) -> Result<u8, Halt>
        ensures { Does O.Out visits.old visits.new out.old out.new (status_of result)
            (AreJoined (D.reported (disks_of self.now.folders.now)) self.now.plan.now.directories) }
    {
        let paths = self.plan.directories.as_slice();
        let reports = self.folders.reports(self.alloc, paths, visits)?;
        let (reports, joined) = join(self.alloc, reports, out);
        let trouble = self.folders.report_trouble(&reports);
        let status = tell_joined(self.alloc, paths, &joined, trouble, err);
        self.folders.close(reports, visits);
        Ok(status)
    }
}

/// The status of reports that were joined, or weren't: which one isn't, and why, is said on `err`.
fn tell_joined<E: Out>(
    alloc: Global,
    paths: &[Text],
    joined: &Result<Outcome, Refusal>,
    trouble: Option<&FileTrouble>,
    err: &mut E,
) -> u8
    ensures { result ≡ join_status joined.now }
{
    match joined {
        Ok(outcome) => status(outcome),
        Err(refusal) => {
            say_refusal(alloc, paths, *refusal, trouble, err);
            NOT_JOINED
        }
    }
}

/// Says on `err` which report isn't joined, and why, in a line. If `err` refuses, that is reported
/// no further.
fn say_refusal<E: Out>(
    alloc: Global,
    paths: &[Text],
    refusal: Refusal,
    trouble: Option<&FileTrouble>,
    err: &mut E,
) {
    match why_refused(alloc, refusal.cause, trouble) {
        Ok(why) => {
            let _ = put_refusal(paths, refusal, why.as_str(), err);
        }
        Err(AllocError) => say_on(err, &[PROGRAM, said::OUT_OF_MEMORY, "\n"]),
    }
}

/// Why a report isn't joined, where it isn't that memory ran out.
fn why_refused(
    alloc: Global,
    cause: Cause,
    trouble: Option<&FileTrouble>,
) -> Result<String, AllocError> {
    match (cause, trouble) {
        (Cause::Memory, _) => Err(AllocError),
        (Cause::Unreadable, Some(FileTrouble::Refused(error)))
            if error.kind() == ErrorKind::OutOfMemory => Err(AllocError),
        (Cause::Unreadable, Some(trouble)) => format!(in alloc; "{trouble}"),
        _ => format!(in alloc; "{cause}"),
    }
}

/// Hands the line to the output.
fn put_refusal<E: Out>(
    paths: &[Text],
    refusal: Refusal,
    why: &str,
    err: &mut E,
) -> Result<(), Refused> {
    let Refusal { number, cause } = refusal;
    match cause {
        Cause::Output => put_pieces(err, &[PROGRAM, why, "\n"]),
        Cause::Missing => {
            let part = number.saturating_add(1);
            let mut digits = Buffer::new();
            let pieces = [PROGRAM, PART, digits.format(part), ": ", why, "\n"];
            put_pieces(err, &pieces)
        }
        _ => {
            let path = path_at(paths, number);
            put_trouble(PROGRAM, path, &[": ", why, "\n"], err)
        }
    }
}

/// Before the number of a part that is missing.
const PART: &str = "part ";

/// The path with this number, from 0.
fn path_at(paths: &[Text], number: u64) -> &str {
    match paths.get(number as usize) {
        Some(path) => path.as_str(),
        None => "",
    }
}
