//! Renewing a bag in place.
ghost use Rattle.std.specs.Prelude.{◌≡◌, ◌≤◌, ◌<◌, ◌-◌, All, IfErr, IfOk, OnOk, Some, length, slice_get, true};
ghost use Rattle.bag_tree.specs.ChangeFiles.{HasChanged, IsOfFile, LastsResumed};
ghost use Rattle.bag_tree.specs.ChangeFiles.{OutlastsResumedChanges};
ghost use Rattle.bag_tree.specs.Tree.{Keeps};
ghost use Rattle.bag_tree.specs.declared.file_change.FileChange.{FileChange as Change};
ghost use Rattle.bag_changes.specs.Openings.{OpensBefore, OpensForRenewal};
ghost use Rattle.bag_changes.specs.Reading.{MayRefuseReading};
ghost use Rattle.bag_renew.specs.Renew.{HasPlanned, HasStoppedAt, IsRenewal, told_as};
ghost use Rattle.bag_renewed.specs.Renewed.{begun_file};
ghost use Rattle.bag_renewed.specs.Request.{is_bad_request as is_bad};

use bag_changes::{BEGUN_FILE, RenewFault, changes_of, info_file, read_bag};
use bag_checked::CheckedFiles;
use bag_renewed::{Renewal, is_bad_request};
use bag_text::Items;
use bag_tree::{FileChange, RefusedChange, ReplaceTree, change_files};
use std::alloc::{AllocError, Global};

/// Renews a bag in place: one tag file after the other is put or removed, each whole and durable
/// before the next (RFC 8493, 2.1.1, 2.1.3, 2.2.1 and 2.2.2).
///
/// All is read first. A bag is refused with the first of its faults of the stages that open no
/// payload file; else for what stands in the way of a renewal, as a folder does that has the name of
/// a tag file; else for an element that can't be written; and else with the first file that has
/// another digest than a manifest gives. Where a payload manifest is written or dropped, each payload
/// file is opened once, and the digests of all manifests, also of those that go, are compared with
/// those of the very bytes of which the new ones are computed. Where none is written, and none
/// dropped but unchecked, no payload file is opened. The elements of `bag-info.txt` that stay are
/// those of the bytes that were compared.
///
/// The tag manifests are removed first, and put last; a file of the name `.bagit-begun`, which a
/// renewal that was cut off may leave, is removed. Each bag on the way has the payload, and after a
/// refusal, a kill or a power cut the same renewal, asked again, goes on: before it changes anything
/// it syncs the base folder, so that what the first one did there is durable.
pub fn renew<T: ReplaceTree>(
    alloc: Global,
    tree: &mut T,
    renewal: &Renewal,
) -> Result<(), RenewFault>
    ensures { IsRenewal renewal.now (T.state tree.old) (T.state tree.new) result }
{
    let changes = plan_renewal(alloc, tree, renewal)?;
    put_changes(tree, changes.into_vec())
}

/// The changes in which a bag would be renewed, in their order. The bag stays as it is.
pub fn plan_renewal<T: ReplaceTree>(
    alloc: Global,
    tree: &mut T,
    renewal: &Renewal,
) -> Result<Items<FileChange>, RenewFault>
    ensures keeps { Keeps (T.state tree.old) (T.state tree.new) }
    ensures untouched { is_bad renewal.now.elements ≡ true → tree.new ≡ tree.old }
    ensures planned { IfOk result (HasPlanned renewal.now (T.state tree.old) (T.state tree.new)) }
    ensures refused { IfErr result
        (MayRefuseReading renewal.now (T.state tree.old) (T.state tree.new)) }
    ensures opens { OpensForRenewal renewal.now (T.state tree.old) (T.state tree.new) }
    ensures opens_before { IfErr result (OpensBefore (T.state tree.old) (T.state tree.new)) }
{
    if is_bad_request(&renewal.elements) {
        return Err(RenewFault::BadValue);
    }
    let (facts, target, checked) = read_bag(alloc, tree, renewal)?;
    let CheckedFiles { summed, info } = checked;
    let info = match info_file(alloc, &facts, renewal, &target, info.as_slice()) {
        Ok(info) => info,
        Err(fault) => return Err(fault),
    };
    match changes_of(alloc, &facts, &target, summed, info) {
        Ok(changes) => Ok(Items::from_vec(changes)),
        Err(AllocError) => Err(RenewFault::Memory),
    }
}

/// Makes the changes, up to the first that is refused.
fn put_changes<T: ReplaceTree>(tree: &mut T, changes: Vec<FileChange>) -> Result<(), RenewFault>
    requires { All (IsOfFile begun_file) changes.items }
    ensures changed { OnOk result
        (HasChanged begun_file changes.items (T.state tree.old) (T.state tree.new)) }
    ensures stopped { IfErr result
        (HasStoppedAt changes.items (T.state tree.old) (T.state tree.new)) }
    ensures any_moment { OutlastsResumedChanges
        begun_file changes.items (T.state tree.old) (T.state tree.new) }
    ensures lasting { OnOk result
        (LastsResumed begun_file changes.items (T.state tree.old) (T.state tree.new)) }
{
    match change_files(tree, BEGUN_FILE, &changes) {
        Ok(()) => Ok(()),
        Err(refused) => Err(refused_change(changes, refused)),
    }
}

/// What a refused change is told as.
fn refused_change(changes: Vec<FileChange>, refused: RefusedChange) -> RenewFault
    requires first { 1 ≤ refused.place }
    requires within { refused.place - 1 < length changes.items }
    ensures { (change : Change) → slice_get changes.items (refused.place - 1) ≡ Some change
        → result ≡ told_as change refused.cause }
{
    let mut changes = changes;
    match changes.swap_remove(refused.place as usize - 1) {
        FileChange::Put(name, _) => RenewFault::PutRefused(name, refused.cause),
        FileChange::Remove(name) => RenewFault::RemoveRefused(name, refused.cause),
    }
}
