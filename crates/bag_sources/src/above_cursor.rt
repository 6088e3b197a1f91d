//! Of faults, those above a cursor.
ghost use Rattle.std.specs.Prelude.{◌≡◌};
ghost use Rattle.std.specs.Option.{option_copied};
ghost use Rattle.bag_report.specs.Report.{above};

use bag_faults::Fault;

/// Those of faults that are greater than a cursor; each is where there is none.
pub(crate) fn above(mut faults: Vec<Fault>, after: Option<&Fault>) -> Vec<Fault>
    ensures { result.items ≡ above (option_copied after.entry) faults.items }
{
    if let Some(cursor) = after {
        faults.retain(|fault| cursor.cmp(fault).is_lt());
    }
    faults
}
