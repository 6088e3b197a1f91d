//! The line that says why a tar file makes no tree. Writing it takes no memory.
ghost use Rattle.std.specs.Prelude.{◌≡◌};
ghost use Rattle.bag_cli.specs.TarChecked.{TellsNoTree};
ghost use Rattle.bag_cli.specs.TarLine as spec;
ghost use Rattle.bag_tree.specs.Pieces.{Writes};

use bag_faults::put_line;
use bag_tar::TarFault;
use bag_tree::{Out, Refused, said};
use bag_walk::said::UNREAD;

/// The causes that only tar files have.
const CUT_OFF: &str = "cut-off";

const DAMAGED: &str = "damaged";

const TWICE: &str = "twice";

const NO_BASE: &str = "no-base";

/// After a cause: nothing of the bag was compared.
const NO_FAULTS: &str = ", faults: 0\n";

/// The word of a cause.
fn word(cause: TarFault) -> &'static str
    ensures { result.now ≡ spec.tar_word cause }
{
    match cause {
        TarFault::Device => said::DEVICE,
        TarFault::Memory => said::MEMORY,
        TarFault::CutOff => CUT_OFF,
        TarFault::Damaged => DAMAGED,
        TarFault::Special => said::SPECIAL,
        TarFault::Name => said::NAME,
        TarFault::Twice => TWICE,
        TarFault::NoBase => NO_BASE,
        TarFault::TooMany => said::TOO_MANY,
    }
}

/// Hands the line about the tar file of this name to the output, and gives the exit status. The
/// name and that of the member, empty where it has none, are written as fields of a line.
pub(crate) fn tell_no_tree<W: Out>(
    name: &str,
    member: &str,
    cause: TarFault,
    out: &mut W,
) -> Result<u8, Refused>
    ensures { TellsNoTree name.now member.now cause (W.state out.old) (W.state out.new) result }
{
    put_no_tree(name, member, cause, out)?;
    Ok(3)
}

/// Hands the line to the output.
fn put_no_tree<W: Out>(
    name: &str,
    member: &str,
    cause: TarFault,
    out: &mut W,
) -> Result<(), Refused>
    ensures { Writes (W.state out.old) (W.state out.new)
        (spec.no_tree_line name.now member.now cause) result }
{
    put_line(name, &[UNREAD], out)?;
    put_line(member, &[" ", word(cause), NO_FAULTS], out)
}
