//! The changes of what a tree in memory holds.
ghost use Rattle.std.specs.Prelude.{◌≡◌, ◌≢◌, true, false, IfErr, OnOk, OnErr, IsTrue};
ghost use Rattle.std.specs.FinMap as map;
ghost use Rattle.std.specs.FinSet as set;
ghost use Rattle.bag_text.specs.Path.{under};
ghost use Rattle.bag_memory.specs.MemoryTree.{bag_of_files, file_map, folder_set};
ghost use Rattle.bag_memory.specs.Changing.{IsChangeFault};
ghost use Rattle.bag_tree.specs.Moved as moving;
ghost use Rattle.bag_tree.specs.Steps as step;

use crate::file_map::{copy_of, insert_file};
use crate::folder_set::{insert_folder, take_back};
use crate::moved::{has_within, joined, moved};
use bag_text::{Items, Text};
use bag_tree::TreeFault;
use std::alloc::Global;
use std::collections::{BTreeMap, BTreeSet};

/// Whether there is a file or a folder of this name.
fn is_taken(files: &BTreeMap<Text, Items<u8>>, folders: &BTreeSet<Text>, name: &Text) -> bool
    ensures { result ≡ step.is_taken (bag_of_files files.now.entries folders.now.keys) name.now }
{
    has_file(files, name) || is_folder(folders, name)
}

fn has_file(files: &BTreeMap<Text, Items<u8>>, name: &Text) -> bool
    ensures { result ≡ map.contains_key (file_map files.now.entries) name.now }
{
    files.contains_key(name)
}

fn is_folder(folders: &BTreeSet<Text>, name: &Text) -> bool
    ensures { result ≡ set.contains (folder_set folders.now.keys) name.now }
{
    folders.contains(name)
}

/// Adds a folder, where nothing has its name.
pub(crate) fn add_folder(
    alloc: Global,
    files: &BTreeMap<Text, Items<u8>>,
    folders: &mut BTreeSet<Text>,
    name: &str,
) -> Result<(), TreeFault>
    ensures added { OnOk result
        (folder_set folders.new.keys ≡ set.insert (folder_set folders.old.keys) name.now) }
    ensures free { OnOk result
        (step.is_taken (bag_of_files files.now.entries folders.old.keys) name.now ≡ false) }
    ensures same { OnErr result (folder_set folders.new.keys ≡ folder_set folders.old.keys) }
    ensures refused { IfErr result (IsChangeFault ⊥
        (step.is_taken (bag_of_files files.now.entries folders.old.keys) name.now ≡ true)) }
{
    let key = Text::from_str(alloc, name)?;
    if is_taken(files, folders, &key) {
        return Err(TreeFault::Exists);
    }
    insert_folder(folders, key)?;
    Ok(())
}

/// Adds a file, where nothing has its name.
pub(crate) fn add_file(
    alloc: Global,
    files: &mut BTreeMap<Text, Items<u8>>,
    folders: &BTreeSet<Text>,
    name: &str,
    bytes: &[u8],
) -> Result<(), TreeFault>
    ensures added { OnOk result
        (file_map files.new.entries ≡ map.insert (file_map files.old.entries) name.now bytes.now) }
    ensures free { OnOk result
        (step.is_taken (bag_of_files files.old.entries folders.now.keys) name.now ≡ false) }
    ensures same { OnErr result (file_map files.new.entries ≡ file_map files.old.entries) }
    ensures refused { IfErr result (IsChangeFault ⊥
        (step.is_taken (bag_of_files files.old.entries folders.now.keys) name.now ≡ true)) }
{
    let key = Text::from_str(alloc, name)?;
    if is_taken(files, folders, &key) {
        return Err(TreeFault::Exists);
    }
    let content = copy_of(alloc, bytes)?;
    insert_file(files, key, content)?;
    Ok(())
}

/// Moves what has a name into a folder, where nothing has this name.
pub(crate) fn move_below(
    alloc: Global,
    files: &mut BTreeMap<Text, Items<u8>>,
    folders: &mut BTreeSet<Text>,
    top: &str,
    folder: &str,
) -> Result<(), TreeFault>
    ensures files { OnOk result (file_map files.new.entries
        ≡ moving.moved top.now (under folder.now top.now) (file_map files.old.entries)) }
    ensures folders { OnOk result
        (folder_set folders.new.keys ≡ set.remove (folder_set folders.old.keys) top.now) }
    ensures there { OnOk result
        (step.lacks_source (bag_of_files files.old.entries folders.old.keys) top.now folder.now
        ≡ false) }
    ensures free { OnOk result
        (step.has_within (bag_of_files files.old.entries folders.old.keys)
        (under folder.now top.now)
        ≡ false) }
    ensures same_files { OnErr result (file_map files.new.entries ≡ file_map files.old.entries) }
    ensures same_folders { OnErr result
        (folder_set folders.new.keys ≡ folder_set folders.old.keys) }
    ensures refused { IfErr result (IsChangeFault
        (step.lacks_source (bag_of_files files.old.entries folders.old.keys) top.now folder.now
        ≡ true)
        (step.has_within (bag_of_files files.old.entries folders.old.keys)
        (under folder.now top.now)
        ≡ true)) }
{
    let name = Text::from_str(alloc, top)?;
    if !(is_folder(folders, &Text::from_str(alloc, folder)?) && is_taken(files, folders, &name)) {
        return Err(TreeFault::NotFound);
    }
    let target = joined(alloc, folder, top)?;
    if has_within(files, target.as_str()) {
        return Err(TreeFault::Exists);
    }
    *files = moved(alloc, files, top, target.as_str())?;
    take_back(folders, Some(name));
    Ok(())
}

/// Gives a folder another name, where nothing has it.
pub(crate) fn rename_folder(
    alloc: Global,
    files: &mut BTreeMap<Text, Items<u8>>,
    folders: &mut BTreeSet<Text>,
    from: &str,
    to: &str,
) -> Result<(), TreeFault>
    ensures files { OnOk result
        (file_map files.new.entries ≡ moving.moved from.now to.now (file_map files.old.entries)) }
    ensures folders { OnOk result (folder_set folders.new.keys
        ≡ set.remove (set.insert (folder_set folders.old.keys) to.now) from.now) }
    ensures there { OnOk result
        (step.lacks_folder (bag_of_files files.old.entries folders.old.keys) from.now ≡ false) }
    ensures free { OnOk result
        (step.is_taken (bag_of_files files.old.entries folders.old.keys) to.now ≡ false) }
    ensures same_files { OnErr result (file_map files.new.entries ≡ file_map files.old.entries) }
    ensures same_folders { OnErr result
        (folder_set folders.new.keys ≡ folder_set folders.old.keys) }
    ensures refused { IfErr result (IsChangeFault
        (step.lacks_folder (bag_of_files files.old.entries folders.old.keys) from.now ≡ true)
        (step.is_taken (bag_of_files files.old.entries folders.old.keys) to.now ≡ true)) }
{
    let old_name = Text::from_str(alloc, from)?;
    let new_name = Text::from_str(alloc, to)?;
    if !is_folder(folders, &old_name) {
        return Err(TreeFault::NotFound);
    }
    if is_taken(files, folders, &new_name) {
        return Err(TreeFault::Exists);
    }
    let moved = moved(alloc, files, from, to)?;
    insert_folder(folders, new_name)?;
    take_back(folders, Some(old_name));
    *files = moved;
    Ok(())
}
