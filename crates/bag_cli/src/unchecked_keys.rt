//! Writes which keys of a profile aren't checked.
ghost use Rattle.bag_tree.specs.Pieces.{Writes};
ghost use Rattle.bag_cli.specs.Performed.{lines_before};
ghost use Rattle.bag_cli.specs.UncheckedKeys as spec;

use bag_faults::put_line;
use bag_profile::Profile;
use bag_reports::said;
use bag_tree::{Out, Refused, put_pieces};

/// Says which keys of a profile aren't checked, unless it is to be quiet.
pub(crate) fn say_unchecked<O: Out>(
    quiet: bool,
    profile: &Profile,
    out: &mut O,
) -> Result<(), Refused>
    ensures { Writes (O.state out.old) (O.state out.new) (lines_before quiet profile.now) result }
{
    if quiet {
        Ok(())
    } else {
        write_unchecked(profile, out)
    }
}

/// Hands the output a line for each key of the profile that isn't checked, in their order. It takes
/// no memory.
pub fn write_unchecked<O: Out>(profile: &Profile, out: &mut O) -> Result<(), Refused>
    ensures { Writes (O.state out.old) (O.state out.new)
        (spec.unchecked_lines profile.now.unchecked) result }
{
    for key in profile.unchecked() {
        put_unchecked(key.as_str(), out)?;
    }
    Ok(())
}

/// Hands the line of a key to the output.
fn put_unchecked<O: Out>(key: &str, out: &mut O) -> Result<(), Refused>
    ensures { Writes (O.state out.old) (O.state out.new) (spec.unchecked_line key.now) result }
{
    put_pieces(out, &[said::UNCHECKED])?;
    put_line(key, &["\n"], out)
}
