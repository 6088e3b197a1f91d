//! Laws of the definitions, each the contract of a function that does nothing.
ghost use Rattle.bag_changes.specs.Contents.{RenewedHasTheseFiles};
ghost use Rattle.bag_changes.specs.Valid.{GoodElementsAreGoodInfo, RenewedHasOldFaults, RenewedIsValid};
ghost use Rattle.bag_changes.specs.Telling.{BagsThatNameTheirFilesAreComplete};
ghost use Rattle.bag_changes.specs.Telling.{BagsThatTellTheirFilesAreValid, RenewedNames};
ghost use Rattle.bag_changes.specs.Telling.{WrittenManifestsTell};
ghost use Rattle.bag_renew.specs.Again.{CutBagsCanBeRenewed, ElementsAreRenewedOnce};
ghost use Rattle.bag_renew.specs.Again.{RenewingAgainMakesTheSame};
ghost use Rattle.bag_renew.specs.ElementLaws.{AppendedElementsAreLast, NewElementsStandBeforeOxum};
ghost use Rattle.bag_renew.specs.ElementLaws.{NewOxumIsLast, OxumIsThereOnce, OxumStandsInPlace};
ghost use Rattle.bag_renew.specs.ElementLaws.{SetElementsAreThere, SetElementsStandInPlace};
ghost use Rattle.bag_renew.specs.ElementLaws.{UnaskedElementsStay, UnsetElementsAreGone};
ghost use Rattle.bag_renew.specs.WrittenElements.{WrittenElementsAreRead};
ghost use Rattle.bag_renew.specs.OnTheWay.{EachBagOnTheWayHasOldFaults, EachBagOnTheWayIsValid};
ghost use Rattle.bag_renew.specs.OnTheWay.{EachCutBagHasOldFaults, EachCutBagIsValid};
ghost use Rattle.bag_changes.specs.Laws.{ChangesCanBeMade, ChangesKeepPayload};
ghost use Rattle.bag_changes.specs.Laws.{ChangesKeepPayloadList, ChangesRenew};

/// No change of a renewal touches a file of the payload, or any other file below a folder.
pub fn the_payload_stays()
    ensures files { ChangesKeepPayload }
    ensures payload { ChangesKeepPayloadList }
{}

/// Each change of a renewal can be made after those before it, so that a power cut leaves the bag
/// after the first of them (`bag_tree::laws::changes_of_files_are_made_in_order`).
pub fn all_changes_can_be_made()
    ensures { ChangesCanBeMade }
{}

/// All changes together make the renewed bag.
pub fn all_changes_renew_the_bag()
    ensures { ChangesRenew }
{}

/// The renewed bag has the payload, the tag files that stay and those that are written, and no
/// other file.
pub fn a_renewed_bag_has_these_files()
    ensures { RenewedHasTheseFiles }
{}

/// A bag each of whose manifests names what it is to name by the bag's rules has no fault of its
/// manifests, and is complete (RFC 8493, 3), whatever tool wrote it.
pub fn bags_that_name_their_files_are_complete()
    ensures { BagsThatNameTheirFilesAreComplete }
{}

/// Where they also give the digests, it is valid.
pub fn bags_that_tell_their_files_are_valid()
    ensures { BagsThatTellTheirFilesAreValid }
{}

/// A manifest that is written names just what it is to name, with the digests, by the rules of either
/// version.
pub fn written_manifests_tell()
    ensures { WrittenManifestsTell }
{}

/// Each manifest of the renewed bag names what it is to name, also one that is kept; those that are
/// written give the digests, and the payload is that of the old bag. A bag of version 0.97 stays one,
/// unless it is to become one of 1.0.
pub fn a_renewed_bag_names_its_files()
    ensures { RenewedNames }
{}

/// A renewal makes no fault: each fault of the renewed bag is damage of a payload file that the bag
/// had, by the manifest of an algorithm that is kept. So it is for every bag without other faults, of
/// which no path begins with a blank or a `*`, as long as an algorithm is left, manifests that name
/// the whole payload, and a good `bag-info.txt`. A bag of version 0.97 that becomes one of 1.0 is to
/// have no `fetch.txt`; and one that stays of 0.97 no path with `%0A` or `%0D` in it.
pub fn a_renewed_bag_has_old_faults()
    ensures { RenewedHasOldFaults }
{}

/// So the renewed bag of a bag without a fault has none (RFC 8493, 3).
pub fn a_renewed_bag_has_no_fault()
    ensures { RenewedIsValid }
{}

/// `bag-info.txt` is good where it is kept, and where the elements that are written can be.
pub fn good_elements_are_good_info()
    ensures { GoodElementsAreGoodInfo }
{}

/// A renewal makes no fault on its way: after any number of the changes each fault is damage of a
/// payload file that the bag had. So it is where no folder has the name of a tag file or of
/// `.bagit-begun`, and no tag manifest names `.bagit-begun`; and, of a bag of 0.97 that becomes one of
/// 1.0, no path has a `%`, which 1.0 spells otherwise. Until its `bagit.txt` is put, that is judged by
/// the rules of 0.97.
pub fn each_bag_on_the_way_has_old_faults()
    ensures { EachBagOnTheWayHasOldFaults }
{}

/// So each bag on the way from such a bag without a fault is a valid bag (RFC 8493, 3).
pub fn each_bag_on_the_way_is_valid()
    ensures { EachBagOnTheWayIsValid }
{}

/// The same holds of what a power cut at any moment leaves: the bag after the first of the changes,
/// and perhaps `.bagit-begun`.
pub fn each_cut_bag_has_old_faults()
    ensures { EachCutBagHasOldFaults }
{}

/// So a cut leaves a valid bag, where the bag had no fault.
pub fn each_cut_bag_is_valid()
    ensures { EachCutBagIsValid }
{}

/// Elements of `bag-info.txt` of which nothing is asked stay, in their order.
pub fn elements_that_are_unasked_stay()
    ensures { UnaskedElementsStay }
{}

/// With a label that is set there are just the elements that are set with it, each once. They stand
/// together: in the place of the first old one; where there was none, before `Payload-Oxum`.
pub fn elements_that_are_set_are_there()
    ensures there { SetElementsAreThere }
    ensures in_place { SetElementsStandInPlace }
    ensures new { NewElementsStandBeforeOxum }
{}

/// With a label that is unset, and not set, there is none.
pub fn elements_that_are_unset_are_gone()
    ensures { UnsetElementsAreGone }
{}

/// Elements that are appended are the last before `Payload-Oxum`, in their order, but for those
/// that stand there with their value; and they change no other.
pub fn elements_that_are_appended_are_last()
    ensures { AppendedElementsAreLast }
{}

/// `Payload-Oxum` is there once: in the place of the first old one; where there was none, last.
pub fn payload_oxum_is_there_once()
    ensures once { OxumIsThereOnce }
    ensures in_place { OxumStandsInPlace }
    ensures last { NewOxumIsLast }
{}

/// Of the `bag-info.txt` that is written a reader finds just the elements of which the laws above
/// speak, where they can be written.
pub fn written_elements_are_read()
    ensures { WrittenElementsAreRead }
{}

/// What is asked of elements, asked again, changes nothing, as long as it can be asked.
pub fn elements_are_renewed_once()
    ensures { ElementsAreRenewedOnce }
{}

/// What a power cut leaves of such a bag can be renewed by the same request, where the elements that
/// are written can be.
pub fn cut_bags_can_be_renewed()
    ensures { CutBagsCanBeRenewed }
{}

/// And that makes the same renewed bag, so that a renewal which was cut off is asked for again.
pub fn renewing_again_makes_the_same()
    ensures { RenewingAgainMakesTheSame }
{}
