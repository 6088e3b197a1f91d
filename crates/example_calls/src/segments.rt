//! A report in segments.
ghost use Rattle.bag_tree.specs.Tree.{Keeps};

use bag_report::{Depth, Options};
use bag_store::{Out, Tree};
use bag_walk::{Outcome, run_segments};
use std::alloc::Global;

/// Writes a report in four segments of at most a thousand lines: a segment in which the device
/// fails costs itself alone, and the next goes on after the last line that was written.
pub fn check_in_segments<T: Tree, W: Out>(alloc: Global, tree: T, out: &mut W) -> (T, Outcome)
    ensures { Keeps (T.state tree) (T.state result.0) }
{
    let options = Options {
        depth: Depth::Full,
        clashes: false,
    };
    run_segments(alloc, tree, None, options, &[1000, 1000, 1000, 1000], out)
}
