//! Laws of the definitions, each the contract of a function that gives nothing.
ghost use Rattle.bag_cli.specs.Reported.{HonestDisksAreReported, HonestFoldersAreMade};
ghost use Rattle.bag_cli.specs.Reported.{NoPartEndsWithZero};
ghost use Rattle.bag_cli.specs.Honest.{HonestFoldersAreReported};
ghost use Rattle.bag_cli.specs.Joined.{HonestReportsAreJoined, VerdictsAreJoined};
ghost use Rattle.bag_cli.specs.TarReported.{HonestTarsAreReported, NoBagIsUnread};

use bag_tar::laws::an_archive_holds_one_bag;

/// Over an honest disk the check of one directory, by a profile or without one, writes the report
/// of the bag that stands there.
pub fn honest_disks_are_reported()
    ensures { HonestDisksAreReported }
{}

/// Over an honest tar file that holds a bag the check of that one, by a profile or without one,
/// writes the report of the bag.
pub fn honest_tars_are_reported()
    ensures { HonestTarsAreReported }
{
    an_archive_holds_one_bag();
}

/// The check of an honest tar file that holds no one bag ends with status 3, and says why.
pub fn no_bag_is_unread()
    ensures { NoBagIsUnread }
{}

/// Files that are the whole reports of all parts of one check are joined into the report of one
/// check.
pub fn honest_reports_are_joined()
    ensures { HonestReportsAreJoined }
{}

/// Where the status of joined reports tells of a bag, just the report of one check was written, of
/// which all parts were read.
pub fn verdicts_are_joined()
    ensures { VerdictsAreJoined }
{}

/// A check of a part of a bag ends with another status than 0, which is a whole check's alone.
pub fn no_part_ends_with_zero()
    ensures { NoPartEndsWithZero }
{}

/// Over an honest disk the making of one directory that ends with status 0 left there the bag of
/// the definition, which has no fault, and reported that.
pub fn honest_folders_are_made()
    ensures { HonestFoldersAreMade }
{
    honest_folders_are_reported();
}

/// Of an honest folder either the bag was made, and that is reported, or it wasn't, and that is
/// reported with its reason.
pub fn honest_folders_are_reported()
    ensures { HonestFoldersAreReported }
{}
