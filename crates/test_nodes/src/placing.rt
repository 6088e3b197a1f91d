//! Whether what is held can stand on a disk.
ghost use Rattle.std.specs.Prelude.{◌≡◌, ◌↔◌, IsTrue, All, Some, true};
ghost use Rattle.bag_text.specs.Path as spec;
ghost use Rattle.bag_disk.specs.DiskNodes.{IsDisk, IsReachedByFolders, node};
ghost use Rattle.test_nodes.specs.Held.{node_of, nodes_of};
ghost use Rattle.test_nodes.specs.Placing.{IsPlaced, HasTextPath, are_bytes, has_bytes};

use crate::held::{Node, SLASH, is_folder};
use std::collections::BTreeMap;
use std::str;

/// Whether all that is held can stand on a disk.
pub fn are_placed(nodes: &BTreeMap<Vec<u8>, Node>) -> bool
    ensures { IsTrue result ↔ IsDisk (nodes_of nodes.now.entries) }
{
    are_all_placed(nodes)
}

/// Whether each node can stand at its path.
fn are_all_placed(nodes: &BTreeMap<Vec<u8>, Node>) -> bool
    ensures placed { IsTrue result
        ↔ All (λ e. IsPlaced (nodes_of nodes.now.entries) e.0.items (node_of e.1))
        nodes.now.entries }
    ensures found { All (λ e. node (nodes_of nodes.now.entries) e.0.items ≡ Some (node_of e.1))
        nodes.now.entries }
{
    nodes
        .iter()
        .all(|(path, node)| is_placed(nodes, path.as_slice(), node))
}

/// Whether a node can stand at a path.
fn is_placed(nodes: &BTreeMap<Vec<u8>, Node>, path: &[u8], node: &Node) -> bool
    ensures { IsTrue result ↔ IsPlaced (nodes_of nodes.now.entries) path.now (node_of node.now) }
{
    is_path(path) && is_named(path, node) && is_reached(nodes, path)
}

/// Whether a node may have such a name: that of a file and of a folder is in UTF-8.
fn is_named(path: &[u8], node: &Node) -> bool
    ensures named { IsTrue result ↔ HasTextPath path.now (node_of node.now) }
    ensures bytes { has_bytes (Some (node_of node.now)) ≡ true }
{
    match node {
        Node::File(bytes) => {
            are_bytes(bytes.as_slice());
            str::from_utf8(path).is_ok()
        }
        Node::Folder => str::from_utf8(path).is_ok(),
        Node::Other => true,
    }
}

/// Bytes are numbers below 256.
fn are_bytes(bytes: &[u8])
    ensures { are_bytes bytes.now ≡ true }
{}

/// Whether each folder on the way to a path is one.
pub(crate) fn is_reached(nodes: &BTreeMap<Vec<u8>, Node>, path: &[u8]) -> bool
    ensures { IsTrue result ↔ IsReachedByFolders (nodes_of nodes.now.entries) path.now }
{
    for end in 0..path.len() {
        if path[end] == SLASH && !is_folder(nodes, &path[..end]) {
            return false;
        }
    }
    true
}

/// Whether bytes are a path, though not in UTF-8 (RFC 8493, 2 and 5.1).
pub(crate) fn is_path(path: &[u8]) -> bool
    ensures { result ≡ spec.is_path path.now }
{
    path.split(|byte| *byte == SLASH).all(is_component)
}

fn is_component(part: &[u8]) -> bool
    ensures { result ≡ spec.is_component part.now }
{
    !part.is_empty() && part != b".".as_slice() && part != b"..".as_slice()
}
