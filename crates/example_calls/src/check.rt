//! A check by a profile, which goes on after an earlier report.
ghost use Rattle.std.specs.Prelude.{IfOk};
ghost use Rattle.bag_tree.specs.Tree.{Keeps};

use crate::NotDone;
use bag_report::{Depth, Fault, Options, Profile};
use bag_store::{Out, Tree};
use bag_text::Text;
use bag_walk::{Request, run, status};
use std::alloc::Global;

/// Writes the next hundred lines at the most of a report by a profile, after the line at which an
/// earlier one stopped, and gives the tree back with the exit status. The bag stays as it is.
pub fn check_by_profile<T: Tree + Drop, W: Out>(
    alloc: Global,
    tree: T,
    profile: &[u8],
    last: &str,
    out: &mut W,
) -> Result<(T, u8), NotDone>
    ensures { IfOk result (λ checked. Keeps (T.state tree) (T.state checked.0)) }
{
    let profile = Profile::read(alloc, profile)?;
    let request = Request {
        options: Options {
            depth: Depth::Full,
            clashes: false,
        },
        after: Some(Fault::from_line(alloc, last)?),
        limit: Some(100),
        quiet: false,
        name: Text::from_str(alloc, "deposit")?,
    };
    let (tree, outcome) = run(alloc, tree, Some(&profile), request, out);
    Ok((tree, status(&outcome)))
}
