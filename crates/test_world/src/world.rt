//! What stands in the folder in which a case runs, in memory and on the disk.
use crate::on_disk;
use bag_store::{FailTree, Listing, MemoryTree, Tree, read_whole};
use bag_text::check_path;
use std::alloc::{AllocError, Global};
use std::cell::Cell;
use std::collections::BTreeMap;
use std::rc::Rc;
use std::{io, str};
use test_case_lines::{Mistake, Report, Word};
use test_disk::{MemoryDisk, Node};

/// What stands in the folder in which a case runs.
#[derive(Drop)]
pub struct World {
    alloc: Global,
    /// The folders, and the files beside them, by their names.
    top: BTreeMap<Vec<u8>, Node>,
    /// What stands in each of the folders, by its paths.
    folders: BTreeMap<String, BTreeMap<Vec<u8>, Node>>,
    /// The path of a file, and what it holds when it is opened, in place of what is listed.
    pub(crate) opened: Option<(String, Vec<u8>)>,
    /// Whether each of the folders can be a tree: it has no link, no path that isn't one in a bag,
    /// and an empty folder only right in it.
    has_trees: bool,
    /// Disks in memory of the folders, as they were when the last command began.
    pub(crate) disks: BTreeMap<String, MemoryDisk>,
    /// How many of their calls the last command made, where none was refused.
    pub(crate) calls: Rc<Cell<u64>>,
}

/// Notes the mistake of an answer of the system, where it is one.
fn note(answer: &io::Result<()>, report: &mut Report) {
    if let Err(error) = answer {
        report.text.fail(Mistake::of(error));
    }
}

impl World {
    /// Nothing stands there.
    pub fn new(alloc: Global) -> Result<World, AllocError> {
        let calls = Rc::new(alloc, Cell::new(0))?;
        Ok(World {
            alloc,
            top: BTreeMap::new(alloc),
            folders: BTreeMap::new(alloc),
            opened: None,
            has_trees: true,
            disks: BTreeMap::new(alloc),
            calls,
        })
    }

    /// Makes a folder anew.
    pub fn make_folder(&mut self, rt: &HostRuntime, name: &str, report: &mut Report) {
        note(&on_disk::make_folder(rt, name), report);
        self.hold_beside(name, Node::Folder, report);
        self.empty(name, report);
    }

    /// Puts something at a path, in memory and on the disk, with the folders that the path leads
    /// through.
    pub fn put(
        &mut self,
        rt: &HostRuntime,
        word: Word,
        path: &[u8],
        bytes: Vec<u8>,
        report: &mut Report,
    ) {
        match str::from_utf8(path) {
            Ok(path) => {
                note(&on_disk::put(rt, word, path, &bytes), report);
                self.put_in_memory(word, path, bytes, report);
            }
            Err(_) => report.text.fail(Mistake::Text),
        }
    }

    fn put_in_memory(&mut self, word: Word, path: &str, bytes: Vec<u8>, report: &mut Report) {
        match path.split_once('/') {
            Some(_) if word == Word::Opened => self.open_as(path, bytes, report),
            Some((folder, path)) => {
                self.has_trees &= is_of_tree(word, path);
                self.hold(folder, path, node_of(word, bytes), report);
            }
            None => self.hold_beside(path, node_of(word, bytes), report),
        }
    }

    /// Has a file that is there hold something else when it is opened. In a case one file can.
    fn open_as(&mut self, path: &str, bytes: Vec<u8>, report: &mut Report) {
        match String::from_str(self.alloc, path) {
            Ok(path) if self.file(path.as_str()).is_none() => report.text.fail(Mistake::Name),
            Ok(path) if self.opened.is_none() => self.opened = Some((path, bytes)),
            Ok(_) => report.text.fail(Mistake::Place),
            Err(_) => report.text.fail(Mistake::Memory),
        }
    }

    /// Has a folder or a file stand beside the others.
    fn hold_beside(&mut self, name: &str, node: Node, report: &mut Report) {
        if hold_node(self.alloc, &mut self.top, name.as_bytes(), node).is_err() {
            report.text.fail(Mistake::Memory);
        }
    }

    /// Has something stand at a path in a folder, and folders on its way.
    fn hold(&mut self, folder: &str, path: &str, node: Node, report: &mut Report) {
        match self.folders.get_mut(folder) {
            Some(nodes) => {
                if hold_with_parents(self.alloc, nodes, path.as_bytes(), node).is_err() {
                    report.text.fail(Mistake::Memory);
                }
            }
            None => report.text.fail(Mistake::Place),
        }
    }

    /// Has nothing stand in a folder.
    fn empty(&mut self, name: &str, report: &mut Report) {
        let is_empty = match String::from_str(self.alloc, name) {
            Ok(name) => self.folders.insert(name, BTreeMap::new(self.alloc)).is_ok(),
            Err(_) => false,
        };
        if !is_empty {
            report.text.fail(Mistake::Memory);
        }
    }

    /// Makes the disks of those folders that can be one.
    pub fn make_disks(&mut self) -> Result<(), AllocError> {
        self.disks.clear();
        for (name, nodes) in self.folders.iter() {
            put_disk(self.alloc, name.as_str(), nodes, &mut self.disks)?;
        }
        Ok(())
    }

    /// The bytes of the file at a path.
    pub fn file(&self, path: &str) -> Option<&[u8]> {
        let node = match path.split_once('/') {
            Some((folder, path)) => self.folders.get(folder)?.get(path.as_bytes()),
            None => self.top.get(path.as_bytes()),
        };
        match node {
            Some(Node::File(bytes)) => Some(bytes.as_slice()),
            _ => None,
        }
    }

    /// Whether a file holds something else when it is opened.
    pub fn has_opened(&self) -> bool {
        self.opened.is_some()
    }

    /// How many calls of its disks the last command made, where none was refused.
    pub fn call_count(&self) -> u64 {
        self.calls.get()
    }

    /// What stands in a folder, by its paths.
    pub fn nodes_in(&self, folder: &str) -> Option<&BTreeMap<Vec<u8>, Node>> {
        self.folders.get(folder)
    }

    /// Whether a folder can be a tree.
    pub fn has_tree(&self, name: &str) -> bool {
        self.has_trees && self.opened.is_none() && self.folders.contains_key(name)
    }

    /// The tree that holds what a folder does, where it can be one; the call of a number is
    /// refused, from 1, or none for 0.
    pub fn tree(&self, name: &str, call: u64) -> Result<FailTree<MemoryTree>, Mistake> {
        let mut tree = MemoryTree::new(self.alloc);
        match self.folders.get(name) {
            Some(nodes) if self.has_tree(name) => fill(&mut tree, nodes)?,
            Some(_) | None => return Err(Mistake::Name),
        }
        Ok(FailTree::new(tree, call))
    }

    /// Has a folder hold what a tree does, where that can be listed.
    pub fn keep<T: Tree>(&mut self, name: &str, tree: &mut T, report: &mut Report) {
        if let Ok(listing) = tree.list() {
            self.empty(name, report);
            self.hold_files(name, tree, &listing, report);
        }
    }

    fn hold_files<T: Tree>(
        &mut self,
        name: &str,
        tree: &mut T,
        listing: &Listing,
        report: &mut Report,
    ) {
        if listing.has_data {
            self.hold(name, "data", Node::Folder, report);
        }
        for entry in listing.files.as_slice() {
            match read_whole(self.alloc, tree, entry) {
                Ok(bytes) => self.hold(name, entry.path.as_str(), Node::File(bytes), report),
                Err(_) => report.text.fail(Mistake::Memory),
            }
        }
    }

    /// Removes all that stands there.
    pub fn remove(&mut self, rt: &HostRuntime, report: &mut Report) {
        for (name, node) in self.top.iter() {
            note(&on_disk::remove(rt, name, node), report);
        }
        self.top.clear();
        self.folders.clear();
        self.opened = None;
        self.has_trees = true;
    }
}

/// Whether what a line puts at a path in a folder can stand in a tree: a folder can where no file
/// has to stand in it.
fn is_of_tree(word: Word, path: &str) -> bool {
    match word {
        Word::File => check_path(path).is_ok(),
        Word::Folder => matches!(path, "data" | ".bagit-new"),
        _ => false,
    }
}

/// What a line puts somewhere.
fn node_of(word: Word, bytes: Vec<u8>) -> Node {
    match word {
        Word::File | Word::Beside => Node::File(bytes),
        Word::Folder => Node::Folder,
        _ => Node::Other,
    }
}

/// Has something stand at a path.
fn hold_node(
    alloc: Global,
    nodes: &mut BTreeMap<Vec<u8>, Node>,
    path: &[u8],
    node: Node,
) -> Result<(), AllocError> {
    let _ = nodes.insert(path.to_vec(alloc)?, node)?;
    Ok(())
}

/// Has something stand at a path, and folders on its way.
fn hold_with_parents(
    alloc: Global,
    nodes: &mut BTreeMap<Vec<u8>, Node>,
    path: &[u8],
    node: Node,
) -> Result<(), AllocError> {
    for (at, byte) in path.iter().enumerate() {
        if *byte == b'/' {
            hold_node(alloc, nodes, path.get(..at).unwrap_or(&[]), Node::Folder)?;
        }
    }
    hold_node(alloc, nodes, path, node)
}

/// Puts the disk of a folder that holds this among disks, where it can be one.
fn put_disk(
    alloc: Global,
    name: &str,
    nodes: &BTreeMap<Vec<u8>, Node>,
    disks: &mut BTreeMap<String, MemoryDisk>,
) -> Result<(), AllocError> {
    let name = String::from_str(alloc, name)?;
    if let Some(disk) = MemoryDisk::holding(alloc, nodes.clone()?) {
        let _ = disks.insert(name, disk)?;
    }
    Ok(())
}

/// Puts what stands in a folder into a tree.
fn fill(tree: &mut MemoryTree, nodes: &BTreeMap<Vec<u8>, Node>) -> Result<(), AllocError> {
    for (path, node) in nodes.iter() {
        put_in_tree(tree, path, node)?;
    }
    Ok(())
}

/// Puts what stands at a path into a tree.
fn put_in_tree(tree: &mut MemoryTree, path: &[u8], node: &Node) -> Result<(), AllocError> {
    match (node, str::from_utf8(path).unwrap_or("")) {
        (Node::File(bytes), path) if check_path(path).is_ok() => tree.put_file(path, bytes),
        (Node::Folder, "data") => tree.put_folder("data"),
        (Node::Folder, ".bagit-new") => tree.put_folder(".bagit-new"),
        _ => Ok(()),
    }
}
