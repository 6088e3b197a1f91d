//! Laws of the definitions, each the contract of a function that does nothing.
ghost use Rattle.bag_tree.specs.Laws.{ListingsAreOfTheBag};
ghost use Rattle.std.specs.Prelude.{ℕ, List};
ghost use Rattle.bag_tree.specs.FileChanges.{ChangesAreDurable, CutsLeaveFirstChanges};
ghost use Rattle.bag_tree.specs.LeftOutSyncs as left_out;
ghost use Rattle.bag_tree.specs.MovesAll.{MovedIsThere};
ghost use Rattle.bag_tree.specs.Resumed.{DurableBagsAreDurableOnceSynced};
ghost use Rattle.bag_tree.specs.Resumed.{KilledChangesAreDurableOnceSynced};
ghost use Rattle.bag_tree.specs.Resumed.{ResumedChangesAreDurable, ResumedCutsLeaveFirstChanges};

/// A listing of a bag, in the order of its paths, has the files of the bag and their sizes, and
/// nothing else.
pub fn listings_are_of_the_bag()
    ensures { ListingsAreOfTheBag }
{}

/// A file that is moved stands at its new path then, and so do those below it, and no other is
/// moved.
pub fn moved_is_there()
    ensures { MovedIsThere (List ℕ) }
{}

/// Where a sync is left out a power cut may lose what was done, whatever else is synced.
pub fn what_is_not_synced_may_be_lost()
    ensures moves { left_out.MovesMayLose }
    ensures renames { left_out.RenamesMayBeUndone }
    ensures renamed_over { left_out.RenamesMayLose }
    ensures files { left_out.FilesMayBeMissing }
    ensures bytes { left_out.BytesMayBeAny }
    ensures new_file { left_out.SyncsAreOfTheNewFile }
    ensures new_folder { left_out.SyncsAreOfTheNewFolder }
    ensures refused { left_out.RefusedSyncsMayLose }
{}

/// Files that are put in place of others, or removed, one after another: a power cut at any moment,
/// also where the last of them was refused, leaves what the first of them made, for some number of
/// them, and perhaps a file that was begun beside the others. After all of them it leaves what they
/// make, and nothing else.
pub fn changes_of_files_are_made_in_order()
    ensures any_moment { CutsLeaveFirstChanges }
    ensures durable { ChangesAreDurable }
{}

/// The same holds of changes that begin where an earlier program was killed, since each of them
/// syncs the base folder first: the bag need only be durable once that is synced, but for the bytes
/// of the file that was begun beside the others. A cut before the first sync was answered leaves
/// what it could have left before the changes.
pub fn changes_of_files_go_on_where_others_were_killed()
    ensures premise { DurableBagsAreDurableOnceSynced }
    ensures killed { KilledChangesAreDurableOnceSynced }
    ensures any_moment { ResumedCutsLeaveFirstChanges }
    ensures durable { ResumedChangesAreDurable }
{}
