//! The line that says how renewing a bag went. Writing it takes no memory.
ghost use Rattle.std.specs.Prelude.{◌≡◌};
ghost use Rattle.bag_renew_cli.specs.RenewalLine as spec;
ghost use Rattle.bag_tree.specs.Pieces.{Writes};

use crate::said::{
    CANT_BE_NAMED, FAULT, FETCH, IN_NO_MANIFEST, IN_THE_WAY, NOT_RENEWED, OUT_OF_DATE, PUT, READ,
    REMOVE, RENEWED,
};
use bag_faults::{Fault, put_line};
use bag_program::{put_done, put_not_done, put_refused};
use bag_renew::RenewFault;
use bag_tags::said::{BAD_VALUE, NO_ALGORITHM};
use bag_text::said::OUT_OF_MEMORY;
use bag_tree::{Out, Refused};

/// Hands the line about a bag of this name to the output, or nothing where the bag was renewed and
/// the renewal is quiet. The name and paths are written as fields of a line.
pub fn put_renewal<W: Out>(
    name: &str,
    renewed: &Result<(), RenewFault>,
    quiet: bool,
    out: &mut W,
) -> Result<(), Refused>
    ensures { Writes (W.state out.old) (W.state out.new)
        (spec.line name.now renewed.now quiet) result }
{
    match renewed {
        Ok(()) => put_done(name, RENEWED, quiet, out),
        Err(fault) => put_not_renewed(name, fault, out),
    }
}

/// The exit status of a renewal, or of what it would do: 1 where the bag has a fault, and 3 where
/// it isn't renewed for another reason.
pub fn renewal_status<T>(renewed: &Result<T, RenewFault>) -> u8
    ensures { result ≡ spec.renewal_status renewed.now }
{
    match renewed {
        Ok(_) => 0,
        Err(RenewFault::Faulty(_)) => 1,
        Err(_) => 3,
    }
}

pub(crate) fn put_not_renewed<W: Out>(
    name: &str,
    fault: &RenewFault,
    out: &mut W,
) -> Result<(), Refused>
    ensures { Writes (W.state out.old) (W.state out.new)
        (spec.not_renewed_line name.now (spec.reason fault.now)) result }
{
    match fault {
        RenewFault::Faulty(fault) => put_faulty(name, fault, out),
        RenewFault::BadValue => put_not_done(name, NOT_RENEWED, BAD_VALUE, out),
        RenewFault::NoAlgorithm => put_not_done(name, NOT_RENEWED, NO_ALGORITHM, out),
        RenewFault::InTheWay(path) => put_path(name, path.as_str(), IN_THE_WAY, out),
        RenewFault::Unnameable(path) => put_path(name, path.as_str(), CANT_BE_NAMED, out),
        RenewFault::Outdated(path) => put_path(name, path.as_str(), OUT_OF_DATE, out),
        RenewFault::Unlisted(path) => put_path(name, path.as_str(), IN_NO_MANIFEST, out),
        RenewFault::Fetch => put_not_done(name, NOT_RENEWED, FETCH, out),
        RenewFault::ReadStopped(stop) => {
            put_refused(name, NOT_RENEWED, READ, stop.path.as_str(), stop.cause, out)
        }
        RenewFault::Memory => put_not_done(name, NOT_RENEWED, OUT_OF_MEMORY, out),
        RenewFault::PutRefused(file, cause) => {
            put_refused(name, NOT_RENEWED, PUT, file.as_str(), *cause, out)
        }
        RenewFault::RemoveRefused(file, cause) => {
            put_refused(name, NOT_RENEWED, REMOVE, file.as_str(), *cause, out)
        }
    }
}

/// The line with a path, and what is said of it.
fn put_path<W: Out>(name: &str, path: &str, said: &str, out: &mut W) -> Result<(), Refused>
    ensures { Writes (W.state out.old) (W.state out.new)
        (spec.not_renewed_line name.now (spec.about_path path.now said.now)) result }
{
    put_line(name, &[NOT_RENEWED], out)?;
    put_line(path, &[said, "\n"], out)
}

/// The line with a fault's line.
fn put_faulty<W: Out>(name: &str, fault: &Fault, out: &mut W) -> Result<(), Refused>
    ensures { Writes (W.state out.old) (W.state out.new)
        (spec.not_renewed_line name.now (spec.faulty fault.now)) result }
{
    put_line(name, &[NOT_RENEWED, FAULT], out)?;
    fault.put(out)
}
