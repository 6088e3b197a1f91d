//! A whole run: the run over the part 1 of 1.
ghost use Rattle.std.specs.Prelude.{◌≡◌, Some};
ghost use Rattle.std.specs.Option.{option_copied};
ghost use Rattle.bag_walk.specs.WholeRun.{IsRunOver};

use crate::part_run::lines_of_part;
use crate::segment::close_segment;
use crate::{Outcome, Request};
use bag_report::Profile;
use bag_sources::only_part;
use bag_tree::{Out, Tree};
use std::alloc::Global;

/// Writes the faults of a tree's bag that the request asks for, one line each, and a closing line.
/// Without a profile stage 8 is skipped.
///
/// A fault's line is handed to the output before the next file is opened. Each line ends in LF, and
/// is one write where the output takes it whole; the closing line takes no memory. At depth `Full`
/// each file that a manifest names and that the cursor hasn't passed is opened once at most for its
/// digests, all its algorithms together, after the lines of stages 1 to 6 were written; where these
/// reach the limit, none is. The tree comes back, with the last file that was read open.
pub fn run<T: Tree, W: Out>(
    alloc: Global,
    tree: T,
    profile: Option<&Profile>,
    request: Request,
    out: &mut W,
) -> (T, Outcome)
    ensures untouched { request.limit ≡ Some 0 → result.0 ≡ tree }
    ensures run { IsRunOver (T.state tree) (T.state result.0)
        (option_copied profile.entry) request (W.state out.old) (W.state out.new) result.1 }
{
    let request = &request;
    let (tree, lines) = lines_of_part(alloc, tree, profile, only_part(), request, out);
    let outcome = close_segment(request, lines.segment, out);
    (tree, outcome)
}
