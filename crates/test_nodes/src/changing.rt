//! Changes of what a disk in memory holds.
ghost use Rattle.std.specs.Prelude.{◌≡◌, ◌∷◌, ◌++◌, [], ℕ, IfErr, IfOk, IsErrOf, List, None};
ghost use Rattle.std.specs.Prelude.{OnErr, OnOk, Some};
ghost use Rattle.std.specs.FinMap as map;
ghost use Rattle.bag_text.specs.Path.{slash};
ghost use Rattle.bag_tree.specs.Moved as moving;
ghost use Rattle.bag_disk.specs.DiskNodes.{IsDisk, IsFileWith, IsReachedByFolders, node};
ghost use Rattle.bag_disk.specs.ReplaceDisk.{Removes, Replaces, without_node};
ghost use Rattle.bag_disk.specs.WritableDisk.{Appends, HasFileNode, Moves};
ghost use Rattle.bag_disk.specs.declared.disk.DiskFault.TheVariants.{NotFound};
ghost use Rattle.test_nodes.specs.Changing.{MayRefuseAdding, MayRefuseMoving, MayRefuseWriting};
ghost use Rattle.test_nodes.specs.Held.{node_of, nodes_of};

use crate::held::{Node, SLASH, is_folder, node_at};
use crate::placing::{are_placed, is_reached};
use bag_disk::DiskFault;
use std::alloc::{AllocError, Global};
use std::collections::BTreeMap;

/// Puts a node in place of what stood at a path.
fn put_node(
    nodes: &mut BTreeMap<Vec<u8>, Node>,
    path: Vec<u8>,
    node: Node,
) -> Result<(), AllocError>
    ensures put { OnOk result
        (nodes_of nodes.new.entries
        ≡ map.insert (nodes_of nodes.old.entries) path.items (node_of node)) }
    ensures refused { OnErr result (nodes_of nodes.new.entries ≡ nodes_of nodes.old.entries) }
{
    let _ = nodes.insert(path, node)?;
    Ok(())
}

/// Puts a node at a path at which nothing stands, in a folder that is there.
pub fn add_node(
    alloc: Global,
    nodes: &mut BTreeMap<Vec<u8>, Node>,
    path: &[u8],
    added: Node,
) -> Result<(), DiskFault>
    ensures reached { OnOk result (IsReachedByFolders (nodes_of nodes.old.entries) path.now) }
    ensures free { OnOk result (node (nodes_of nodes.old.entries) path.now ≡ None) }
    ensures added { OnOk result
        (nodes_of nodes.new.entries
        ≡ map.insert (nodes_of nodes.old.entries) path.now (node_of added)) }
    ensures same { OnErr result (nodes_of nodes.new.entries ≡ nodes_of nodes.old.entries) }
    ensures refused { IfErr result (MayRefuseAdding (nodes_of nodes.old.entries) path.now) }
{
    if !is_reached(nodes, path) {
        return Err(DiskFault::NotFound);
    }
    if node_at(nodes, path).is_some() {
        return Err(DiskFault::Exists);
    }
    put_node(nodes, path.to_vec(alloc)?, added)?;
    Ok(())
}

/// Puts bytes after those of the file at a path.
pub fn append(
    alloc: Global,
    nodes: &mut BTreeMap<Vec<u8>, Node>,
    path: &[u8],
    bytes: &[u8],
) -> Result<(), DiskFault>
    ensures appended { OnOk result
        (Appends (nodes_of nodes.old.entries) (nodes_of nodes.new.entries) path.now bytes.now) }
    ensures same { OnErr result (nodes_of nodes.new.entries ≡ nodes_of nodes.old.entries) }
    ensures refused { IfErr result (MayRefuseWriting (nodes_of nodes.old.entries) (Some path.now)) }
{
    let Some(Node::File(content)) = node_at(nodes, path) else {
        return Err(DiskFault::Device);
    };
    let mut longer = content.as_slice().to_vec(alloc)?;
    longer.extend_from_slice(bytes)?;
    put_node(nodes, path.to_vec(alloc)?, Node::File(longer))?;
    Ok(())
}

/// What is held when what stands at `from` has become `to`, a free place in a folder that is there.
pub fn moved_to(
    alloc: Global,
    nodes: &BTreeMap<Vec<u8>, Node>,
    from: &[u8],
    to: &[u8],
) -> Result<BTreeMap<Vec<u8>, Node>, DiskFault>
    ensures moved { IfOk result (λ moved.
        Moves (nodes_of nodes.now.entries) (nodes_of moved.entries) from.now to.now) }
    ensures disk { IfOk result (λ moved. IsDisk (nodes_of moved.entries)) }
    ensures free { OnOk result (node (nodes_of nodes.now.entries) to.now ≡ None) }
    ensures refused { IfErr result (MayRefuseMoving (nodes_of nodes.now.entries) from.now to.now) }
{
    if node_at(nodes, from).is_none() || !is_reached(nodes, to) {
        return Err(DiskFault::NotFound);
    }
    if node_at(nodes, to).is_some() {
        return Err(DiskFault::Exists);
    }
    let moved = moved(alloc, nodes, from, to)?;
    if !are_placed(&moved) {
        return Err(DiskFault::Device);
    }
    Ok(moved)
}

/// What is held without what stands at a path.
fn without(
    alloc: Global,
    nodes: &BTreeMap<Vec<u8>, Node>,
    path: &[u8],
) -> Result<BTreeMap<Vec<u8>, Node>, AllocError>
    ensures { IfOk result (λ left.
        nodes_of left.entries ≡ without_node (nodes_of nodes.now.entries) path.now) }
{
    let mut left = BTreeMap::new(alloc);
    for (at, node) in nodes.iter() {
        if at.as_slice() != path {
            put_node(&mut left, at.as_slice().to_vec(alloc)?, node.clone()?)?;
        }
    }
    Ok(left)
}

/// What is held when the file at `from` stands at `to`, in place of any file there.
pub fn put_in_place(
    alloc: Global,
    nodes: &BTreeMap<Vec<u8>, Node>,
    from: &[u8],
    to: &[u8],
) -> Result<BTreeMap<Vec<u8>, Node>, DiskFault>
    ensures there { OnOk result (HasFileNode (nodes_of nodes.now.entries) from.now) }
    ensures put { IfOk result (λ put. (bytes : List ℕ)
        → IsFileWith (nodes_of nodes.now.entries) from.now bytes
        → Replaces (nodes_of nodes.now.entries) (nodes_of put.entries) from.now to.now bytes) }
    ensures disk { IfOk result (λ put. IsDisk (nodes_of put.entries)) }
{
    let Some(Node::File(bytes)) = node_at(nodes, from) else {
        return Err(DiskFault::NotFound);
    };
    if is_folder(nodes, to) {
        return Err(DiskFault::Device);
    }
    let mut put = without(alloc, nodes, from)?;
    let bytes = bytes.as_slice().to_vec(alloc)?;
    put_node(&mut put, to.to_vec(alloc)?, Node::File(bytes))?;
    if !are_placed(&put) {
        return Err(DiskFault::Device);
    }
    Ok(put)
}

/// What is held without what is no folder at a path.
pub fn removed(
    alloc: Global,
    nodes: &BTreeMap<Vec<u8>, Node>,
    path: &[u8],
) -> Result<BTreeMap<Vec<u8>, Node>, DiskFault>
    ensures removed { IfOk result (λ left.
        Removes (nodes_of nodes.now.entries) (nodes_of left.entries) path.now) }
    ensures disk { IfOk result (λ left. IsDisk (nodes_of left.entries)) }
    ensures absent { IsErrOf result NotFound → node (nodes_of nodes.now.entries) path.now ≡ None }
{
    if node_at(nodes, path).is_none() {
        return Err(DiskFault::NotFound);
    }
    if is_folder(nodes, path) {
        return Err(DiskFault::Device);
    }
    let left = without(alloc, nodes, path)?;
    if !are_placed(&left) {
        return Err(DiskFault::Device);
    }
    Ok(left)
}

/// What is held when `from` has become `to`, with all that is below it.
fn moved(
    alloc: Global,
    nodes: &BTreeMap<Vec<u8>, Node>,
    from: &[u8],
    to: &[u8],
) -> Result<BTreeMap<Vec<u8>, Node>, AllocError>
    ensures { IfOk result (λ moved.
        nodes_of moved.entries ≡ moving.moved from.now to.now (nodes_of nodes.now.entries)) }
{
    let mut front = from.to_vec(alloc)?;
    front.push(SLASH)?;
    let mut moved = BTreeMap::new(alloc);
    for (path, node) in nodes.iter() {
        let place = renamed(alloc, from, front.as_slice(), to, path.as_slice())?;
        put_node(&mut moved, place, node.clone()?)?;
    }
    Ok(moved)
}

/// The path of what stood at a path, when `from`, of which the front is the path of what is below
/// it, has become `to`.
fn renamed(
    alloc: Global,
    from: &[u8],
    front: &[u8],
    to: &[u8],
    path: &[u8],
) -> Result<Vec<u8>, AllocError>
    requires { front.now ≡ from.now ++ slash ∷ [] }
    ensures { IfOk result (λ place. place.items ≡ moving.renamed from.now to.now path.now) }
{
    if path != from && !path.starts_with(front) {
        return path.to_vec(alloc);
    }
    let mut place = to.to_vec(alloc)?;
    place.extend_from_slice(path.get(from.len()..).unwrap_or(&[]))?;
    Ok(place)
}
