//! The files of a bag, each checked and summed in one reading.
ghost use Rattle.std.specs.Prelude.{◌≡◌, ◌<◌, ◌∷◌, [], length, IfOk, IfErr, OnErr};
ghost use Rattle.bag_tree.specs.FileReads.{OpensAtMost};
ghost use Rattle.bag_tree.specs.Tree.{Keeps};
ghost use Rattle.bag_checked.specs.InTurn.{OpensFirstToRead};
ghost use Rattle.bag_checked.specs.OneReading.{AreLeftUnchecked};
ghost use Rattle.bag_checked.specs.Summed.{AreGivenAndChecked, IsCheckedFile};
ghost use Rattle.bag_checked.specs.Summed.{IsGivenFor, IsNoMemory, is_to_read, to_read};

use crate::Unchecked;
use crate::checked::check_or_keep;
use bag_facts::Facts;
use bag_stages::{Packed, Places, expected_of};
use bag_tags::SummedFile;
use bag_text::{AlgSet, Items, Text, is_payload};
use bag_tree::{FileEntry, Stop, Tree};
use std::alloc::{AllocError, Global};

/// How many bytes are read at once.
const BUFFER_BYTES: usize = 65_536;

/// Files that were checked, each read once.
#[derive(Debug, Drop)]
pub struct CheckedFiles {
    /// Their digests, in their order.
    pub summed: Vec<SummedFile>,
    /// The bytes of `bag-info.txt` of which its digests were compared; none where it isn't there.
    pub info: Items<u8>,
}

/// That memory ran out.
pub(crate) fn no_memory(alloc: Global) -> Unchecked
    ensures { IsNoMemory result }
{
    Unchecked::Stopped(Stop::out_of_memory(alloc))
}

/// The digests of listed files in their order, where each file has those that manifests give for
/// it: of all of them, or of all but those of the payload. Each is opened once, and read through one
/// buffer: what is compared and what is computed are digests of the same bytes.
pub fn check_files<T: Tree>(
    alloc: Global,
    tree: &mut T,
    facts: &Facts,
    algs: AlgSet,
    with_payload: bool,
) -> Result<CheckedFiles, Unchecked>
    ensures keeps { Keeps (T.state tree.old) (T.state tree.new) }
    ensures opens { OpensFirstToRead
        with_payload facts.now.listing.files (T.state tree.old) (T.state tree.new) }
    ensures checked { IfOk result (λ checked.
        AreGivenAndChecked (T.state tree.old) (T.state tree.new) facts.now
        (to_read with_payload facts.now.listing.files) algs checked.summed.items checked.info) }
    ensures unchecked { IfErr result (AreLeftUnchecked facts.now
        (to_read with_payload facts.now.listing.files) (T.state tree.old) (T.state tree.new)) }
{
    let Ok(mut buffer) = Vec::from_elem(alloc, 0, BUFFER_BYTES) else {
        return Err(no_memory(alloc));
    };
    check_each(
        alloc,
        tree,
        facts,
        facts.files(),
        algs,
        with_payload,
        &mut buffer,
    )
}

/// The digests of listed files that are read, one file after another.
fn check_each<T: Tree>(
    alloc: Global,
    tree: &mut T,
    facts: &Facts,
    files: &[FileEntry],
    algs: AlgSet,
    with_payload: bool,
    buffer: &mut [u8],
) -> Result<CheckedFiles, Unchecked>
    requires { 0 < length buffer.old }
    ensures keeps { Keeps (T.state tree.old) (T.state tree.new) }
    ensures opens { OpensFirstToRead
        with_payload files.now (T.state tree.old) (T.state tree.new) }
    ensures checked { IfOk result (λ checked.
        AreGivenAndChecked (T.state tree.old) (T.state tree.new) facts.now
        (to_read with_payload files.now) algs checked.summed.items checked.info) }
    ensures unchecked { IfErr result (AreLeftUnchecked facts.now
        (to_read with_payload files.now) (T.state tree.old) (T.state tree.new)) }
{
    let mut places = Places::new();
    let mut summed = Vec::new(alloc);
    let mut info = Items::new(alloc);
    for entry in files {
        if !is_read(entry, with_payload) {
            continue;
        }
        let (one, kept) = match check_file(alloc, tree, facts, entry, algs, &mut places, buffer) {
            Ok(checked) => checked,
            Err(unchecked) => return Err(unchecked),
        };
        info = kept.unwrap_or(info);
        let Ok(()) = summed.push(one) else {
            return Err(no_memory(alloc));
        };
    }
    Ok(CheckedFiles { summed, info })
}

/// Whether a listed file is read: one that isn't of the payload always.
fn is_read(entry: &FileEntry, with_payload: bool) -> bool
    ensures { result ≡ is_to_read with_payload entry.now.path }
{
    with_payload || !is_payload(entry.path.as_str())
}

/// The digests of one listed file, where it has those that manifests give for it; and its bytes,
/// where it is `bag-info.txt`.
fn check_file<T: Tree>(
    alloc: Global,
    tree: &mut T,
    facts: &Facts,
    entry: &FileEntry,
    algs: AlgSet,
    places: &mut Places,
    buffer: &mut [u8],
) -> Result<(SummedFile, Option<Items<u8>>), Unchecked>
    requires { 0 < length buffer.old }
    ensures keeps { Keeps (T.state tree.old) (T.state tree.new) }
    ensures opens { OnErr result
        (OpensAtMost (T.state tree.old) (T.state tree.new) entry.now.path) }
    ensures checked { IfOk result (λ checked.
        IsCheckedFile (T.state tree.old) (T.state tree.new) facts.now entry.now algs
        checked.0 checked.1) }
    ensures unchecked { IfErr result (AreLeftUnchecked
        facts.now (entry.now ∷ []) (T.state tree.old) (T.state tree.new)) }
{
    let Ok(path) = entry.path.copy(alloc) else {
        return Err(no_memory(alloc));
    };
    let Ok(expected) = given_for(alloc, facts, &entry.path, places) else {
        return Err(no_memory(alloc));
    };
    match check_or_keep(alloc, tree, entry, &expected, algs, buffer) {
        Ok((sums, kept)) => Ok((SummedFile { path, sums }, kept)),
        Err(unchecked) => Err(unchecked),
    }
}

/// What manifests give for a path.
fn given_for(
    alloc: Global,
    facts: &Facts,
    path: &Text,
    places: &mut Places,
) -> Result<Packed, AllocError>
    ensures { IfOk result (IsGivenFor facts.now path.now) }
{
    expected_of(alloc, facts, path, places)
}
