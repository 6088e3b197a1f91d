//! Files in memory that are moved.
ghost use Rattle.std.specs.Prelude.{◌≡◌, IfOk};
ghost use Rattle.std.specs.FinMap.{entries};
ghost use Rattle.std.specs.List.{list_any};
ghost use Rattle.bag_text.specs.Path.{under};
ghost use Rattle.bag_memory.specs.MemoryTree.{file_map};
ghost use Rattle.bag_tree.specs.Moved as moving;

use crate::file_map::{copy_of, insert_file};
use bag_text::{Items, Text};
use bag_tree::rest_within;
use std::alloc::{AllocError, Global};
use std::collections::BTreeMap;

/// The path of a name in a folder.
pub(crate) fn joined(alloc: Global, folder: &str, name: &str) -> Result<Text, AllocError>
    ensures { IfOk result (λ path. path ≡ under folder.now name.now) }
{
    let mut path = String::from_str(alloc, folder)?;
    path.push('/')?;
    path.push_str(name)?;
    Ok(Text::from_string(path))
}

/// Whether a file stands at a path or below it.
pub(crate) fn has_within(files: &BTreeMap<Text, Items<u8>>, top: &str) -> bool
    ensures { result ≡ list_any
        (λ e. moving.is_within top.now e.0) (entries (file_map files.now.entries)) }
{
    for (path, _) in files.iter() {
        if rest_within(top, path.as_str()).is_some() {
            return true;
        }
    }
    false
}

/// The files when `from` has become `to`, with all that is below it.
pub(crate) fn moved(
    alloc: Global,
    files: &BTreeMap<Text, Items<u8>>,
    from: &str,
    to: &str,
) -> Result<BTreeMap<Text, Items<u8>>, AllocError>
    ensures { IfOk result (λ moved.
        file_map moved.entries ≡ moving.moved from.now to.now (file_map files.now.entries)) }
{
    let mut moved = BTreeMap::new(alloc);
    for (path, bytes) in files.iter() {
        let place = renamed(alloc, from, to, path.as_str())?;
        insert_file(&mut moved, place, copy_of(alloc, bytes.as_slice())?)?;
    }
    Ok(moved)
}

/// The path of what stood at a path, when `from` has become `to`.
fn renamed(alloc: Global, from: &str, to: &str, path: &str) -> Result<Text, AllocError>
    ensures { IfOk result (λ place. place ≡ moving.renamed from.now to.now path.now) }
{
    let Some(rest) = rest_within(from, path) else {
        return Text::from_str(alloc, path);
    };
    let mut place = String::from_str(alloc, to)?;
    place.push_str(rest)?;
    Ok(Text::from_string(place))
}
