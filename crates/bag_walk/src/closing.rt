//! The line that ends a report. Writing it takes no memory.
ghost use Rattle.std.specs.Prelude.{◌≡◌, ◌++◌};
ghost use Rattle.bag_faults.specs.FaultLine.{field};
ghost use Rattle.bag_walk.specs.Closing as spec;
ghost use Rattle.bag_tree.specs.Pieces.{Writes};

use crate::{Outcome, Request, said};
use bag_faults::{Depth, put_line};
use bag_tree::{Out, Refused, Stop};
use itoa::Buffer;

/// Hands the closing line to the output.
pub(crate) fn put_closing<W: Out>(
    request: &Request,
    outcome: &Outcome,
    out: &mut W,
) -> Result<(), Refused>
    ensures { Writes (W.state out.old) (W.state out.new)
        (spec.closing request.now outcome.now) result }
{
    let name = request.name.as_str();
    match outcome {
        Outcome::Clean => {
            if request.quiet {
                Ok(())
            } else {
                put_line(name, &[verdict(request.options.depth), "\n"], out)
            }
        }
        Outcome::Faults(count) => put_count(name, said::HAS_FAULTS, *count, out),
        Outcome::Stopped(count) => put_count(name, said::STOPPED, *count, out),
        Outcome::Rest(count) => put_count(name, said::REST_DONE, *count, out),
        Outcome::Unread(count, stop) => put_unread(name, stop, *count, out),
        Outcome::Unwritten(_) => Ok(()),
    }
}

/// What is said of a bag without faults.
fn verdict(depth: Depth) -> &'static str
    ensures { result.now ≡ spec.verdict depth }
{
    match depth {
        Depth::Declaration => said::GOOD_DECLARATION,
        Depth::Fast => said::AGREES_WITH_OXUM,
        Depth::Complete => said::COMPLETE,
        Depth::Full => said::VALID,
    }
}

pub(crate) fn put_count<W: Out>(
    name: &str,
    text: &str,
    count: u64,
    out: &mut W,
) -> Result<(), Refused>
    ensures { Writes (W.state out.old) (W.state out.new)
        (spec.about_count name.now text.now count) result }
{
    let mut digits = Buffer::new();
    put_line(name, &[text, digits.format(count), "\n"], out)
}

pub(crate) fn put_unread<W: Out>(
    name: &str,
    stop: &Stop,
    count: u64,
    out: &mut W,
) -> Result<(), Refused>
    ensures { Writes (W.state out.old) (W.state out.new)
        (spec.unread_line name.now stop.now count) result }
{
    put_line(name, &[said::UNREAD], out)?;
    let mut digits = Buffer::new();
    put_line(
        stop.path.as_str(),
        &[
            " ",
            stop.cause.word(),
            said::FAULTS,
            digits.format(count),
            "\n",
        ],
        out,
    )
}
