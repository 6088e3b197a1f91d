//! Laws of the definitions, each the contract of a function that gives nothing.
ghost use Rattle.bag_report.specs.Laws.{ConformanceFaultsAreListed, EachBagHasAReport};
ghost use Rattle.bag_report.specs.Laws.{ConformanceFaultsAreOfStageEight, ReportIsOne};

pub use bag_faults::laws::{
    ascending_faults_are_one, equal_faults_are_one, every_fault_is_one, faults_are_ordered,
    lines_tell_faults_apart, one_of_three_holds,
};

/// A bag has one report.
pub fn a_bag_has_one_report()
    ensures { ReportIsOne }
{}

/// Every bag has a report, whatever is asked for.
pub fn each_bag_has_a_report()
    ensures { EachBagHasAReport }
{}

/// The faults of a bag and a profile are of the eighth stage.
pub fn conformance_faults_are_of_stage_eight()
    ensures { ConformanceFaultsAreOfStageEight }
{}

/// Every bag and every profile have a list of these faults.
pub fn conformance_faults_are_listed()
    ensures { ConformanceFaultsAreListed }
{}
