//! The line that says what became of a folder: its name, as a field, and words. Writing it takes no
//! memory.
ghost use Rattle.bag_program.specs.EndedLine as spec;
ghost use Rattle.bag_tree.specs.Pieces.{Writes};

use bag_faults::put_line;
use bag_tree::{Out, Refused, TreeFault};

/// Hands the line that a folder of this name was done with to the output, in these words; nothing
/// where the program is quiet.
pub fn put_done<W: Out>(name: &str, words: &str, quiet: bool, out: &mut W) -> Result<(), Refused>
    ensures { Writes (W.state out.old) (W.state out.new) (spec.done_line name.now words.now quiet)
        result }
{
    if quiet {
        return Ok(());
    }
    put_line(name, &[words, "\n"], out)
}

/// Hands the line that it wasn't to the output, in these words, and why.
pub fn put_not_done<W: Out>(name: &str, words: &str, why: &str, out: &mut W) -> Result<(), Refused>
    ensures { Writes (W.state out.old) (W.state out.new)
        (spec.not_done_line name.now words.now why.now) result }
{
    put_line(name, &[words, why, "\n"], out)
}

/// The same where what it asked of a file was refused, for this cause. An empty path is the
/// listing, as in `Stop`.
pub fn put_refused<W: Out>(
    name: &str,
    words: &str,
    asked: &str,
    path: &str,
    cause: TreeFault,
    out: &mut W,
) -> Result<(), Refused>
    ensures { Writes (W.state out.old) (W.state out.new)
        (spec.not_done_line name.now words.now (spec.refusal asked.now path.now cause)) result }
{
    put_line(name, &[words, asked, " "], out)?;
    put_line(path, &[" ", cause.word(), "\n"], out)
}
