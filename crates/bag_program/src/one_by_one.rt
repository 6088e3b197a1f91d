//! What is done for names, one after the other.
ghost use Rattle.std.specs.Prelude.{◌≤◌, IfOk};
ghost use Rattle.bag_program.specs.Folders.{visits_of};
ghost use Rattle.bag_program.specs.Halt.{status_of};
ghost use Rattle.bag_program.specs.InTurn.{AreInTurn, Does, HasVisited, IsTurn, Last, Whole};

use crate::{Halt, Visits};
use bag_text::Text;
use bag_tree::Out;

/// What is done for a name of a plan, as for the others.
pub trait Turn<D> {
    /// What was done for a name where that was the last.
    ghost last: { Self → Last };

    /// What was done for a name where it has a status.
    ghost whole: { Self → Whole };

    /// Does it for a name. Gives the status.
    fn do_for<O: Out, E: Out>(
        &self,
        name: &str,
        visits: &mut Visits<D>,
        out: &mut O,
        err: &mut E,
    ) -> Result<u8, Halt>
        ensures status { IfOk result (λ n. n ≤ 3) }
        ensures done { HasVisited (visits_of visits.old) (visits_of visits.new)
            (λ own. IsTurn (last self.now) (whole self.now) name.now
            (O.state out.old) (O.state out.new) own result) };
}

/// Does it for these names, one after the other. Gives the greatest status.
pub fn in_turn<D, T: Turn<D>, O: Out, E: Out>(
    each: &T,
    names: &[Text],
    visits: &mut Visits<D>,
    out: &mut O,
    err: &mut E,
) -> Result<u8, Halt>
    ensures { Does O.Out visits.old visits.new out.old out.new (status_of result)
        (AreInTurn (T.last each.now) (T.whole each.now) names.now) }
{
    let mut greatest = 0;
    for name in names {
        let status = each.do_for(name.as_str(), visits, out, err)?;
        greatest = greatest.max(status);
    }
    Ok(greatest)
}
