//! What keeps a bag without faults from being renewed.
ghost use Rattle.std.specs.Prelude.{◌≡◌, ◌==◌, ◌&&◌, not, find, IfErr, IfOk, IsTrue};
ghost use Rattle.std.specs.Prelude.{MatchOption, OnOk};
ghost use Rattle.std.specs.List.{list_any};
ghost use Rattle.std.specs.Option.{option_copied};
ghost use Rattle.bag_text.specs.Path.{slash};
ghost use Rattle.bag_read.specs.ManifestName.{tag_path};
ghost use Rattle.bag_read.specs.declared.tag_name.TagName.TheVariants.{Fetch};
ghost use Rattle.bag_facts.specs.FactsOfBag.{IfBagRead, IsFactsOf};
ghost use Rattle.bag_tree.specs.Bag.{Bag, has_file};
ghost use Rattle.bag_tree.specs.Tree.{NothingFailed};
ghost use Rattle.bag_changes.specs.Folders.{OpensNothing};
ghost use Rattle.bag_changes.specs.Obstacles as spec;
ghost use Rattle.bag_changes.specs.Reserved.{IsOutOfTheWay};
ghost use Rattle.bag_renewed.specs.Target.{IfTarget, IsTargetFor, IsTargetOf};
ghost use Rattle.bag_renewed.specs.declared.renewal.Renewal.{Renewal as Asked};

use crate::RenewFault;
use crate::folders::check_folders;
use crate::unlisted::unlisted_path;
use bag_facts::Facts;
use bag_read::{Kind, is_manifest_name};
use bag_renewed::Target;
use bag_stages::is_named;
use bag_tags::is_unnameable as is_unnameable_by_rules;
use bag_text::{Rules, Text};
use bag_tree::{FileEntry, ReplaceTree};
use std::alloc::{AllocError, Global};

/// The name that a tag file has while it is written.
pub const BEGUN_FILE: &str = ".bagit-begun";

const PERCENT: u8 = b'%';

const SLASH: u8 = b'/';

/// What the name of a tag manifest begins and ends with.
const TAG_MANIFEST: &[u8] = b"tagmanifest-";

const TEXT: &[u8] = b".txt";

/// Whether nothing keeps a bag without faults from being renewed; else the first obstacle, in this
/// order: what it fetches, its algorithms, the name of a begun file, files that would be out of
/// date, folders with the name of a tag file or of a begun one, paths that no manifest can name, and
/// files of the payload that none would name. The facts are those read for more than the
/// declaration. Memory is taken for names only.
///
/// A folder is in the way of a tag file of its name, also where it holds no file and isn't listed:
/// the tree is asked for each name. No file is opened.
pub(crate) fn check_obstacles<T: ReplaceTree>(
    alloc: Global,
    tree: &mut T,
    facts: &Facts,
    target: &Target,
) -> Result<(), RenewFault>
    ensures still { OpensNothing (T.state tree.old) (T.state tree.new) }
    ensures no_failure { OnOk result (NothingFailed (T.state tree.old) (T.state tree.new)) }
    ensures free { OnOk result (IfTarget facts.now target.now spec.IsFreeToChange) }
    ensures way { OnOk result
        (IsTrue (T.state tree.old).honest → IsOutOfTheWay (T.state tree.old).bag) }
    ensures names { OnOk result (IfTarget facts.now target.now spec.CanNameFiles) }
    ensures obstacle { IfErr result (λ fault. (renewal : Asked)
        → IsTargetFor facts.now renewal target.now
        → spec.IsHindered facts.now renewal (T.state tree.old) (T.state tree.new) fault) }
{
    match obstacle_asked(alloc, facts, target) {
        Ok(None) => {}
        Ok(Some(fault)) => return Err(fault),
        Err(AllocError) => return Err(RenewFault::Memory),
    }
    if let Err(fault) = check_folders(alloc, tree) {
        return Err(fault);
    }
    match obstacle_listed(alloc, facts, target) {
        Ok(None) => Ok(()),
        Ok(Some(fault)) => Err(fault),
        Err(AllocError) => Err(RenewFault::Memory),
    }
}

/// The first obstacle that what is asked meets, if any: what the bag fetches, its algorithms, the
/// name of a begun file, and a file that would be out of date.
fn obstacle_asked(
    alloc: Global,
    facts: &Facts,
    target: &Target,
) -> Result<Option<RenewFault>, AllocError>
    ensures { IfOk result (λ found. IfTarget facts.now target.now (λ bag renewal.
        MatchOption found (spec.IsFreeToChange bag renewal) (spec.IsObstacle bag renewal))) }
{
    if has_old_fetch(facts, target) {
        return Ok(Some(RenewFault::Fetch));
    }
    if target.algs.is_empty() {
        return Ok(Some(RenewFault::NoAlgorithm));
    }
    let begun = Text::from_str(alloc, BEGUN_FILE)?;
    if is_named(facts, Kind::Tag, &begun) {
        return Ok(Some(RenewFault::InTheWay(begun)));
    }
    match outdated_path(alloc, facts)? {
        Some(path) => Ok(Some(RenewFault::Outdated(path))),
        None => Ok(None),
    }
}

/// The first obstacle that the names of the listed files are, if any: a path that no manifest can
/// name, and a file of the payload that none would name.
fn obstacle_listed(
    alloc: Global,
    facts: &Facts,
    target: &Target,
) -> Result<Option<RenewFault>, AllocError>
    ensures { IfOk result (λ found. IfTarget facts.now target.now (λ bag renewal.
        MatchOption found (spec.CanNameFiles bag renewal) (spec.IsObstacle bag renewal))) }
{
    if let Some(path) = unnameable_path(alloc, facts, target)? {
        return Ok(Some(RenewFault::Unnameable(path)));
    }
    match unlisted_path(alloc, facts, target)? {
        Some(path) => Ok(Some(RenewFault::Unlisted(path))),
        None => Ok(None),
    }
}

/// The first file that a renewal would leave out of date, in path order.
fn outdated_path(alloc: Global, facts: &Facts) -> Result<Option<Text>, AllocError>
    ensures { IfOk result (λ found. (bag : Bag) → IsFactsOf bag facts.now
        → found ≡ spec.first_outdated bag) }
{
    match first_outdated(facts.files()) {
        Some(entry) => Ok(Some(entry.path.copy(alloc)?)),
        None => Ok(None),
    }
}

/// The first of the files that has the name of a tag manifest, but for its algorithm.
fn first_outdated(files: &[FileEntry]) -> Option<&FileEntry>
    ensures { option_copied result
        ≡ find (λ entry. spec.is_other_tag_manifest entry.path) files.now }
{
    files
        .iter()
        .find(|entry| is_other_tag_manifest(entry.path.as_str()))
}

/// Whether a path is the name of a tag manifest, but for its algorithm, which no manifest's name can
/// have.
fn is_other_tag_manifest(path: &str) -> bool
    ensures { result ≡ spec.is_other_tag_manifest path.now }
{
    let bytes = path.as_bytes();
    bytes.starts_with(TAG_MANIFEST)
        && bytes.ends_with(TEXT)
        && !has_slash(path)
        && !is_manifest_name(Kind::Tag, path)
}

fn has_slash(path: &str) -> bool
    ensures { result ≡ list_any (λ c. c == slash) path.now }
{
    path.as_bytes().iter().any(|byte| *byte == SLASH)
}

/// Whether a bag is of version 0.97 and is to become one of 1.0, and has `fetch.txt`.
fn has_old_fetch(facts: &Facts, target: &Target) -> bool
    ensures { IfBagRead facts.now (λ bag.
        result ≡ (not target.now.keeps && has_file bag (tag_path Fetch))) }
{
    !target.keeps && facts.fetch_list().is_some()
}

/// The first path that no manifest of the renewed bag can name, in path order.
fn unnameable_path(
    alloc: Global,
    facts: &Facts,
    target: &Target,
) -> Result<Option<Text>, AllocError>
    ensures { IfOk result (λ found. (bag : Bag) (renewal : Asked) → IsFactsOf bag facts.now
        → IsTargetOf bag renewal target.now → found ≡ spec.first_unnameable bag renewal) }
{
    match first_unnameable(facts.files(), target.rules, target.keeps) {
        Some(entry) => Ok(Some(entry.path.copy(alloc)?)),
        None => Ok(None),
    }
}

/// The first of the files that no manifest can name by these rules. Of a bag that keeps what needs no
/// change, a path with a `%` is named as it was.
fn first_unnameable(files: &[FileEntry], rules: Rules, is_kept: bool) -> Option<&FileEntry>
    ensures { option_copied result
        ≡ find (λ entry. spec.is_unnameable_by rules is_kept entry.path) files.now }
{
    files
        .iter()
        .find(|entry| is_unnameable(rules, is_kept, entry.path.as_str()))
}

fn is_unnameable(rules: Rules, is_kept: bool, path: &str) -> bool
    ensures { result ≡ spec.is_unnameable_by rules is_kept path.now }
{
    is_unnameable_by_rules(rules, path) || (!is_kept && has_percent(path))
}

fn has_percent(path: &str) -> bool
    ensures { result ≡ spec.has_percent path.now }
{
    path.as_bytes().iter().any(|byte| *byte == PERCENT)
}
