//! Lists of faults, one behind the other.
ghost use Rattle.std.specs.Prelude.{◌≡◌, ◌++◌, IfOk};

use bag_faults::Fault;
use std::alloc::AllocError;

/// The first, and the others behind them. Takes no memory where one of them has none.
pub(crate) fn appended(first: Vec<Fault>, others: Vec<Fault>) -> Result<Vec<Fault>, AllocError>
    ensures { IfOk result (λ all. all.items ≡ first.items ++ others.items) }
{
    if first.is_empty() {
        return Ok(others);
    }
    let mut all = first;
    let mut others = others;
    all.append(&mut others)?;
    Ok(all)
}
