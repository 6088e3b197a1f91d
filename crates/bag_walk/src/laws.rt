//! Laws of the definitions, each the contract of a function that does nothing.
ghost use Rattle.bag_sources.specs.Cursor.{CursorCutsList};
ghost use Rattle.bag_walk.specs.PartRuns.{CursorCutsPart, DonePartIsWritten, OneListIsTold};
ghost use Rattle.bag_walk.specs.PartRuns.{PartsWriteReport, RunIsItsParts};
ghost use Rattle.bag_sources.specs.Parts.{OneListOfFiles, PartsAreEven, PartsJoin};
ghost use Rattle.bag_walk.specs.SegmentLaws.{AnswersReportUnread, ChainsAreSegments, SegmentsAddUp};
ghost use Rattle.bag_walk.specs.SegmentOpenings.{EachBagHasComparedFiles};
ghost use Rattle.bag_walk.specs.Segments.{SegmentsJoin};

/// A list of faults is what stands up to one of them, and what is above it.
pub fn cursor_cuts_list()
    ensures { CursorCutsList }
{}

/// A segment of n faults and one of m after it are the first n + m faults.
pub fn segments_join()
    ensures { SegmentsJoin }
{}

/// Segments that run one after the other, as `run_segments` promises, write the first faults of an
/// honest tree's report, lose a limit to the device only where it failed, and open few files again.
pub fn chains_are_segments()
    ensures { ChainsAreSegments }
{}

/// Where no limit is unread, segments come to what one with all their limits comes to.
pub fn segments_add_up()
    ensures { SegmentsAddUp }
{}

/// No limit is unread where as many faults were written as all limits allow.
pub fn answers_report_unread()
    ensures { AnswersReportUnread }
{}

/// Every bag has a list of the payload files whose digests are compared, whatever is asked for.
pub fn each_bag_has_compared_files()
    ensures { EachBagHasComparedFiles }
{}

/// The parts of a report, one after the other, are the report.
pub fn parts_join()
    ensures { PartsJoin }
{}

/// No part costs much more than its share.
pub fn parts_are_even()
    ensures { PartsAreEven }
{}

/// Whoever lists the files of a bag finds the same parts.
pub fn one_list_of_files()
    ensures { OneListOfFiles }
{}

/// The faults of a part are those up to one of them, and those that a run writes after that one.
pub fn cursor_cuts_part()
    ensures { CursorCutsPart }
{}

/// The output of a part that is done is the line of each of its faults, and its closing line.
pub fn done_part_is_written()
    ensures { DonePartIsWritten }
{}

/// Parts of one list of files tell the same number of files and of bytes.
pub fn one_list_is_told()
    ensures { OneListIsTold }
{}

/// What all parts write before their closing lines, one after the other, is what one run writes.
pub fn parts_write_report()
    ensures { PartsWriteReport }
{}

/// One run writes the lines that its parts write, one after the other, and closes with their count.
pub fn run_is_its_parts()
    ensures { RunIsItsParts }
{}
