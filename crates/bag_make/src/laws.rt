//! Laws of the definitions, each the contract of a function that does nothing.
ghost use Rattle.bag_make.specs.Laws.{StepsMake, RefusesOneFile, MadeIsValid};
ghost use Rattle.bag_make.specs.Contents.{MadeHasTheseFiles, MadeHasTheseFolders, ManifestsAscend};
ghost use Rattle.bag_make.specs.Contents.{PayloadIsTheFolder};
ghost use Rattle.bag_make.specs.Remainder.{RemaindersLackNoPayload, NewBagsLackNoFile};

/// All steps together make the bag, of each folder in which nothing has the name of the folder that
/// is made for them.
pub fn all_steps_make_the_bag()
    ensures { StepsMake }
{}

/// A bag that is made has each file of the folder under `data/`, its tag files, and no other file.
pub fn a_made_bag_has_these_files()
    ensures { MadeHasTheseFiles }
{}

/// Of base folders it has `data` and those in which no file was, and no others.
pub fn a_made_bag_has_these_folders()
    ensures { MadeHasTheseFolders }
{}

/// Its payload is the files of the folder, in the same order, so that what it says of them is said
/// of its payload.
pub fn the_payload_is_the_folder()
    ensures { PayloadIsTheFolder }
{}

/// Each manifest names its files in the order of their paths, none twice.
pub fn manifests_ascend()
    ensures { ManifestsAscend }
{}

/// A bag that is made has no fault (RFC 8493, 3): checked in full, but for names that differ by
/// normal form alone, its report is empty. So it is for the files of every folder, every set of
/// algorithms that isn't empty, and all elements that can be written and aren't `Payload-Oxum`, as
/// long as the number of the files and their bytes together stay below 2^64.
pub fn a_made_bag_has_no_fault()
    ensures { MadeIsValid }
{}

/// The refusal of a file that was to be read is reported of one path alone: no other file can be
/// named for it.
pub fn a_refusal_tells_one_file()
    ensures { RefusesOneFile }
{}

/// What a refused making leaves is no bag without a fault that lacks a file of the payload: checked
/// in full, where its report is empty, all files of the folder are below `data/`, or those that
/// were below `data/` before are at their places, beside the `bagit.txt` that the folder had.
pub fn a_remainder_lacks_no_payload()
    ensures { RemaindersLackNoPayload }
{}

/// So a folder without a `bagit.txt`, or with one that has a fault, is a bag without a fault only
/// once all its files are below `data/`, be the making refused or cut off.
pub fn a_new_bag_lacks_no_file()
    ensures { NewBagsLackNoFile }
{}
