//! Laws of the definitions, each the contract of a function that does nothing.
ghost use Rattle.bag_join.specs.Laws.{ClosesAsOneCheck, FieldsAreKeys, PartsAreWhole};
ghost use Rattle.bag_join.specs.Laws.{PartsOfReportJoin, RunWritesJoined};

/// A key of a profile is written as `join` passes it over.
pub fn fields_are_keys()
    ensures { FieldsAreKeys }
{}

/// Parts of one report, joined, have its faults.
pub fn parts_of_report_join()
    ensures { PartsOfReportJoin }
{}

/// What is joined is closed as one check is.
pub fn closes_as_one_check()
    ensures { ClosesAsOneCheck }
{}

/// What runs wrote over all parts of one bag are whole reports, which are joined.
pub fn parts_are_whole()
    ensures { PartsAreWhole }
{}

/// One run over that bag writes just what they are joined into.
pub fn run_writes_joined()
    ensures { RunWritesJoined }
{}
