//! A disk in memory.
ghost use Rattle.test_nodes.specs.Held.{nodes_of};
ghost use Rattle.test_nodes.specs.Placing.{PassesAsDisk};

use crate::reading::read_at;
use crate::swap::Swap;
use crate::trail::Trail;
use bag_disk::{Disk, DiskFault, Entry, Failures, Refusal};
use bag_text::{Items, Text};
use bag_tree::DeviceEvent;
use std::alloc::{AllocError, Global};
use std::collections::BTreeMap;
use std::str;
use test_nodes::{Node, are_placed, names_in, node_at};

/// A disk in memory, below its base folder. It is honest until a file is swapped. It notes what its
/// device did.
#[derive(Drop)]
pub struct MemoryDisk {
    pub(crate) alloc: Global,
    pub(crate) nodes: BTreeMap<Vec<u8>, Node>,
    barred: Items<Text>,
    swap: Option<Swap>,
    openings: Items<Text>,
    pub(crate) open: Option<Items<u8>>,
    at: usize,
    names: Items<Items<u8>>,
    named: usize,
    pub(crate) written: Option<Text>,
    /// What its device did.
    pub(crate) trail: Trail,
    pub(crate) failures: Failures,
    ghost passes: { PassesAsDisk (nodes_of nodes.entries) },
}

impl MemoryDisk {
    ghost use Rattle.std.specs.Prelude.{◌≡◌, ◌++◌, ◌∷◌, [], IfOk, MatchOption, OnOk, OnErr};
    ghost use Rattle.bag_disk.specs.DiskNodes.{IsDisk};
    ghost use Rattle.test_disk.specs.MemoryDisk.{fresh, not_honest, barred_of, state_of};

    /// A disk that holds this at these paths; none where that can't stand on a disk: a key isn't a
    /// path, the folders on its way aren't there, or a file or a folder has a name that isn't
    /// UTF-8.
    pub fn holding(alloc: Global, nodes: BTreeMap<Vec<u8>, Node>) -> Option<MemoryDisk>
        ensures disk { MatchOption result (¬ (IsDisk (nodes_of nodes.entries))) (λ disk.
            state_of disk ≡ fresh (nodes_of nodes.entries)) }
        ensures open { MatchOption result (¬ (IsDisk (nodes_of nodes.entries))) (λ disk.
            barred_of disk ≡ []) }
    {
        if !are_placed(&nodes) {
            return None;
        }
        Some(MemoryDisk::with_nodes(alloc, nodes))
    }

    /// A disk on which nothing stands.
    pub fn empty(alloc: Global) -> MemoryDisk
        ensures disk { state_of result ≡ fresh (nodes_of []) }
        ensures open { barred_of result ≡ [] }
    {
        MemoryDisk::with_nodes(alloc, BTreeMap::new(alloc))
    }

    fn with_nodes(alloc: Global, nodes: BTreeMap<Vec<u8>, Node>) -> MemoryDisk
        requires { IsDisk (nodes_of nodes.entries) }
        ensures disk { state_of result ≡ fresh (nodes_of nodes.entries) }
        ensures open { barred_of result ≡ [] }
    {
        MemoryDisk {
            alloc,
            nodes,
            barred: Items::new(alloc),
            swap: None,
            openings: Items::new(alloc),
            open: None,
            at: 0,
            names: Items::new(alloc),
            named: 0,
            written: None,
            trail: Trail::new(alloc),
            failures: Failures::none(),
        }
    }

    /// A disk that holds the same. None of its folders is barred, no file of it is swapped, nothing
    /// is open, and its device did nothing.
    pub fn fresh_copy(&self, alloc: Global) -> Result<MemoryDisk, AllocError>
        ensures disk { IfOk result (λ disk. state_of disk ≡ fresh (state_of self.now).nodes) }
        ensures open { IfOk result (λ disk. barred_of disk ≡ []) }
    {
        Ok(MemoryDisk::with_nodes(alloc, self.nodes.clone()?))
    }

    /// From now on the folder may not be read: entering it answers `Device`. The empty path is the
    /// base folder.
    pub fn bar(&mut self, folder: Text) -> Result<(), AllocError>
        ensures same { state_of self.new ≡ state_of self.old }
        ensures barred { OnOk result (barred_of self.new ≡ barred_of self.old ++ folder ∷ []) }
        ensures refused { OnErr result (barred_of self.new ≡ barred_of self.old) }
    {
        self.barred.push(folder)
    }

    /// From now on the file at the path, where there is one, holds these bytes when it is opened,
    /// and no other file is swapped. What is listed stays, so the disk isn't honest any more.
    pub fn swap(&mut self, path: Text, bytes: Vec<u8>)
        ensures state { state_of self.new ≡ not_honest (state_of self.old) }
        ensures barred { barred_of self.new ≡ barred_of self.old }
    {
        self.swap = Some(Swap { path, bytes });
    }

    /// The paths that were opened, in the order of the calls.
    pub fn openings(&self) -> &[Text]
        ensures { result.now ≡ (state_of self.now).openings }
    {
        self.openings.as_slice()
    }

    /// What its device did, in the order of the calls that were answered.
    pub fn trail(&self) -> &[DeviceEvent]
        ensures { result.now ≡ (state_of self.now).trail }
    {
        self.trail.as_slice()
    }
}

impl MemoryDisk {
    ghost use Rattle.std.specs.Prelude.{◌≡◌, IfErr, IfOk, IsErrOf, None, Some};
    ghost use Rattle.bag_disk.specs.DiskNodes.{node};
    ghost use Rattle.bag_disk.specs.declared.disk.DiskFault.TheVariants.{NotFound};
    ghost use Rattle.test_disk.specs.MemoryDisk.{MayRefuse, bytes_with, content_of, is_barred};

    /// Whether a folder may not be read.
    fn is_barred(&self, folder: &str) -> bool
        ensures { result ≡ is_barred self.now folder.now }
    {
        self.barred.iter().any(|path| path.as_str() == folder)
    }

    /// A copy of what a file holds when it is opened.
    fn content(&self, path: &str) -> Result<Items<u8>, DiskFault>
        ensures content { IfOk result (λ content. content_of self.now path.now ≡ Some content) }
        ensures absent { IsErrOf result NotFound
            → node (nodes_of self.now.nodes.entries) path.now ≡ None }
        ensures refused { IfErr result (MayRefuse (content_of self.now path.now ≡ None)) }
    {
        match node_at(&self.nodes, path.as_bytes()) {
            Some(Node::File(bytes)) => Ok(self.copy_with_swap(path, bytes.as_slice())?),
            Some(Node::Folder) | Some(Node::Other) => Err(DiskFault::Device),
            None => Err(DiskFault::NotFound),
        }
    }

    /// A copy of a file's bytes, or of those that are swapped for them.
    fn copy_with_swap(&self, path: &str, bytes: &[u8]) -> Result<Items<u8>, AllocError>
        ensures { IfOk result (λ copy. copy ≡ bytes_with self.now.swap path.now bytes.now) }
    {
        let held = match &self.swap {
            Some(swap) => swap.in_place_of(path, bytes),
            None => bytes,
        };
        Ok(Items::from_vec(held.to_vec(self.alloc)?))
    }
}

impl Disk for MemoryDisk {
    ghost use Rattle.std.specs.Prelude.{◌≡◌, IfErr, IsTrue, None, OnOk};
    ghost use Rattle.bag_disk.specs.DiskNodes.{node};
    ghost use Rattle.test_disk.specs.DiskCalls.{Enters, LooksAt, LooksAtNamed, NamesNext, Opens};
    ghost use Rattle.test_disk.specs.MemoryDisk.{IsEntry, MayRefuse, barred_of, content_of};
    ghost use Rattle.test_disk.specs.MemoryDisk.{is_barred, state_of};
    ghost use Rattle.test_nodes.specs.PlacingLaw.{passing_is_disk};

    ghost state = { state_of };

    ghost is_disk = { λ disk. passing_is_disk (nodes_of disk.nodes.entries) disk.passes };

    fn entry_at(&mut self, path: &str) -> Result<Entry, DiskFault>
        ensures looks { LooksAt (state_of self.old) (state_of self.new) path.now result }
        ensures barred { barred_of self.new ≡ barred_of self.old }
        ensures exact { IsEntry (node (state_of self.old).nodes path.now) result }
    {
        match node_at(&self.nodes, path.as_bytes()) {
            Some(node) => Ok(node.entry()),
            None => Err(DiskFault::NotFound),
        }
    }

    fn named_entry(&mut self, path: &str) -> Result<Entry, DiskFault>
        ensures looks { LooksAtNamed (state_of self.old) (state_of self.new) path.now result }
        ensures barred { barred_of self.new ≡ barred_of self.old }
        ensures exact { IsEntry (node (state_of self.old).nodes path.now) result }
    {
        match node_at(&self.nodes, path.as_bytes()) {
            Some(node) => Ok(node.entry()),
            None => {
                self.failures.refuse(Refusal::Device);
                Err(DiskFault::NotFound)
            }
        }
    }

    fn enter(&mut self, folder: &str) -> Result<(), DiskFault>
        ensures enters { Enters (state_of self.old) (state_of self.new) folder.now result }
        ensures barred { barred_of self.new ≡ barred_of self.old }
        ensures shut { OnOk result (IsTrue (is_barred self.old folder.now) → ⊥) }
        ensures refused { IfErr result (MayRefuse (IsTrue (is_barred self.old folder.now))) }
    {
        if self.is_barred(folder) {
            self.failures.refuse(Refusal::Device);
            return Err(DiskFault::Device);
        }
        self.names = names_in(self.alloc, &self.nodes, folder.as_bytes())?;
        self.named = 0;
        Ok(())
    }

    fn next_name(&mut self) -> Result<Option<Text>, DiskFault>
        ensures names { NamesNext (state_of self.old) (state_of self.new) result }
        ensures barred { barred_of self.new ≡ barred_of self.old }
    {
        let Some(name) = self.names.as_slice().get(self.named) else {
            return Ok(None);
        };
        let Ok(text) = str::from_utf8(name.as_slice()) else {
            return Err(DiskFault::Name);
        };
        let text = Text::from_str(self.alloc, text)?;
        let named = self.failures.name(text)?;
        self.named += 1;
        Ok(named)
    }

    fn open(&mut self, path: &str) -> Result<(), DiskFault>
        ensures opens { Opens (state_of self.old) (state_of self.new) path.now result }
        ensures barred { barred_of self.new ≡ barred_of self.old }
        ensures content { OnOk result ((state_of self.new).rest ≡ content_of self.old path.now) }
        ensures refused { IfErr result (MayRefuse (content_of self.old path.now ≡ None)) }
    {
        self.open = None;
        let content = match self.content(path) {
            Ok(content) => content,
            Err(fault) => {
                self.failures.refuse(Refusal::of_path(fault));
                return Err(fault);
            }
        };
        self.openings.push(Text::from_str(self.alloc, path)?)?;
        self.open = Some(content);
        self.at = 0;
        Ok(())
    }

    fn is_open(&self) -> bool {
        self.open.is_some()
    }

    fn close(&mut self) {
        self.open = None;
    }

    fn read(&mut self, buffer: &mut [u8]) -> Result<usize, DiskFault> {
        let Some(content) = &self.open else {
            self.failures.refuse(Refusal::Device);
            return Err(DiskFault::Device);
        };
        let count = read_at(content.as_slice(), self.at, buffer);
        self.at += count;
        Ok(count)
    }
}
