//! One part of a check.
ghost use Rattle.std.specs.Prelude.{IfOk};
ghost use Rattle.bag_tree.specs.Tree.{Keeps};

use bag_report::{Depth, Options};
use bag_store::{Out, Tree};
use bag_text::Text;
use bag_walk::{Part, Request, run_part};
use std::alloc::{AllocError, Global};

/// Writes the lines of one part of a report and its closing line, and gives the tree back with the
/// exit status, which is never 0. The bag stays as it is.
pub fn check_part<T: Tree + Drop, W: Out>(
    alloc: Global,
    tree: T,
    part: Part,
    out: &mut W,
) -> Result<(T, u8), AllocError>
    ensures { IfOk result (λ checked. Keeps (T.state tree) (T.state checked.0)) }
{
    let request = Request {
        options: Options {
            depth: Depth::Full,
            clashes: false,
        },
        after: None,
        limit: None,
        quiet: false,
        name: Text::from_str(alloc, "deposit")?,
    };
    let (tree, outcome) = run_part(alloc, tree, None, None, part, request, out);
    Ok((tree, outcome.status()))
}
