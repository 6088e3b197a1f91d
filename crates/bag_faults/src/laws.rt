//! Laws of the definitions, each the contract of a function that gives nothing.
ghost use Rattle.bag_faults.specs.EarlierReports.{EarlierFaultsKeepTheirOrder};
ghost use Rattle.bag_faults.specs.EarlierReports.{EarlierLinesKeepTheirFaults};
ghost use Rattle.bag_faults.specs.Laws.{LinesTellFaultsApart, FaultsAreOrdered, OneOfThreeHolds};
ghost use Rattle.bag_faults.specs.Laws.{EqualFaultsAreOne, AscendingFaultsAreOne};

pub use crate::fault::every_fault_is_one;

/// The order of faults is total, and faults that tie are one fault.
pub fn faults_are_ordered()
    ensures { FaultsAreOrdered }
{}

/// Of two faults one is less, or they are one fault, and only one of these holds.
pub fn one_of_three_holds()
    ensures { OneOfThreeHolds }
{}

/// Faults that `==` finds equal are one fault, and no others are.
pub fn equal_faults_are_one()
    ensures { EqualFaultsAreOne }
{}

/// Two ascending lists of faults with the same members are one list.
pub fn ascending_faults_are_one()
    ensures { AscendingFaultsAreOne }
{}

/// Different faults have different lines.
pub fn lines_tell_faults_apart()
    ensures { LinesTellFaultsApart }
{}

/// In reports from before SHA-224 and SHA-384 were checked, faults stand in the order of today, and
/// a line means the fault that it means today: so such a line is a good place to go on after.
pub fn earlier_reports_hold()
    ensures order { EarlierFaultsKeepTheirOrder }
    ensures lines { EarlierLinesKeepTheirFaults }
{}
