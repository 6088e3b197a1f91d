//! What a disk in memory holds, by its paths.
ghost use Rattle.std.specs.Prelude.{◌≡◌, IfOk, MatchOption, None, Some, map};
ghost use Rattle.bag_disk.specs.Disk.{is_folder_node};
ghost use Rattle.bag_disk.specs.DiskNodes.{entry_of_node, node};
ghost use Rattle.test_nodes.specs.Held.{below, name_in, names_in, node_of, nodes_of};

use bag_disk::Entry;
use bag_text::Items;
use std::alloc::{AllocError, Global};
use std::collections::BTreeMap;

/// Parts the components of a path.
pub(crate) const SLASH: u8 = b'/';

/// What stands at a path of a disk in memory.
#[derive(Drop)]
pub enum Node {
    /// A regular file with its bytes.
    File(Vec<u8>),
    Folder,
    /// Something else, as a link, a pipe, or what has a name that isn't UTF-8.
    Other,
}

impl Node {
    /// What is answered of it.
    pub fn entry(&self) -> Entry
        ensures { result ≡ entry_of_node (node_of self.now) }
    {
        match self {
            Node::File(bytes) => Entry::File(bytes.len() as u64),
            Node::Folder => Entry::Folder,
            Node::Other => Entry::Other,
        }
    }
}

impl Clone for Node {
    ghost is_clone = { λ node clone. node_of clone ≡ node_of node };

    fn clone(&self) -> Result<Node, AllocError> {
        match self {
            Node::File(bytes) => Ok(Node::File(bytes.clone()?)),
            Node::Folder => Ok(Node::Folder),
            Node::Other => Ok(Node::Other),
        }
    }
}

/// What stands at a path.
pub fn node_at<'a>(nodes: &'a BTreeMap<Vec<u8>, Node>, path: &[u8]) -> Option<&'a Node>
    ensures { MatchOption result (node (nodes_of nodes.now.entries) path.now ≡ None)
        (λ found. node (nodes_of nodes.now.entries) path.now ≡ Some (node_of found.now)) }
{
    nodes.get(path)
}

/// Whether a folder stands at a path.
pub fn is_folder(nodes: &BTreeMap<Vec<u8>, Node>, path: &[u8]) -> bool
    ensures { result ≡ is_folder_node (node (nodes_of nodes.now.entries) path.now) }
{
    match node_at(nodes, path) {
        Some(Node::Folder) => true,
        Some(Node::File(_)) | Some(Node::Other) | None => false,
    }
}

/// The names of what stands in a folder, where the empty folder is the base folder.
pub fn names_in(
    alloc: Global,
    nodes: &BTreeMap<Vec<u8>, Node>,
    folder: &[u8],
) -> Result<Items<Items<u8>>, AllocError>
    ensures { IfOk result (λ names. names ≡ names_in folder.now nodes.now.entries) }
{
    let mut names = Items::new(alloc);
    for (path, _) in nodes.iter() {
        if let Some(name) = name_in(folder, path.as_slice()) {
            names.push(Items::from_vec(name.to_vec(alloc)?))?;
        }
    }
    Ok(names)
}

/// The name that a path has in a folder, where it stands right in it.
fn name_in<'a>(folder: &[u8], path: &'a [u8]) -> Option<&'a [u8]>
    ensures { MatchOption result (name_in folder.now path.now ≡ None) (λ name.
        name_in folder.now path.now ≡ Some name.now) }
{
    let Some(name) = below(folder, path) else {
        return None;
    };
    if name.contains(&SLASH) {
        None
    } else {
        Some(name)
    }
}

/// What a path is below a folder, where it stands there.
fn below<'a>(folder: &[u8], path: &'a [u8]) -> Option<&'a [u8]>
    ensures { MatchOption result (below folder.now path.now ≡ None) (λ rest.
        below folder.now path.now ≡ Some rest.now) }
{
    if folder.is_empty() {
        return Some(path);
    }
    let Some(rest) = path.strip_prefix(folder) else {
        return None;
    };
    rest.strip_prefix(&[SLASH])
}
