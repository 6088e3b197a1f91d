//! Trees over disks that no disk is: what they name stands twice, or at no path, or is too much.
ghost use Rattle.bag_system.specs.SystemDisk.{system_state};
ghost use Rattle.bag_disk.specs.DiskNodes.{empty_disk};
ghost use Rattle.bag_disk.specs.Failures.{failures_counted};

use crate::held::{ends, listed};
use crate::steps::count_listed;
use bag_disk::Failures;
use bag_store::{Disk, DiskFault, Entry, FileTree, TreeFault};
use bag_text::{Items, Text};
use std::alloc::Global;

/// A disk that says of each path but one that an empty file stands there.
#[derive(Drop)]
struct MadeUp {
    alloc: Global,
    /// What its base folder names, in this order.
    names: &'static [&'static str],
    /// The path of a folder, which names nothing.
    folder: &'static str,
    /// How much its base folder names where it names more: numbers of eight digits.
    count: usize,
    in_base: bool,
    named: usize,
    openings: Items<Text>,
    has_open: bool,
    failures: Failures,
}

impl MadeUp {
    fn tree(
        alloc: Global,
        names: &'static [&'static str],
        folder: &'static str,
        count: usize,
    ) -> FileTree<MadeUp> {
        let disk = MadeUp {
            alloc,
            names,
            folder,
            count,
            in_base: false,
            named: 0,
            openings: Items::new(alloc),
            has_open: false,
            failures: Failures::none(),
        };
        FileTree::over(alloc, disk)
    }

    /// What it says of a path.
    fn entry_of(&self, path: &str) -> Entry {
        if path == self.folder {
            Entry::Folder
        } else {
            Entry::File(0)
        }
    }
}

impl Disk for MadeUp {
    ghost state = { λ disk.
        system_state disk.openings disk.has_open (failures_counted disk.failures) };

    ghost is_disk = { λ _. empty_disk };

    fn entry_at(&mut self, path: &str) -> Result<Entry, DiskFault> {
        Ok(self.entry_of(path))
    }

    fn named_entry(&mut self, path: &str) -> Result<Entry, DiskFault> {
        Ok(self.entry_of(path))
    }

    fn enter(&mut self, folder: &str) -> Result<(), DiskFault> {
        self.in_base = folder.is_empty();
        self.named = 0;
        Ok(())
    }

    fn next_name(&mut self) -> Result<Option<Text>, DiskFault> {
        let number = self.named;
        if !self.in_base || (number >= self.names.len() && number >= self.count) {
            return Ok(None);
        }
        self.named = number.saturating_add(1);
        let name = match self.names.get(number) {
            Some(name) => Text::from_str(self.alloc, *name)?,
            None => Text::from_string(format!(in self.alloc; "{number:08}")?),
        };
        self.failures.name(name)
    }

    fn open(&mut self, path: &str) -> Result<(), DiskFault> {
        self.has_open = false;
        self.openings.push(Text::from_str(self.alloc, path)?)?;
        self.has_open = true;
        Ok(())
    }

    fn is_open(&self) -> bool {
        self.has_open
    }

    fn close(&mut self) {
        self.has_open = false;
    }

    fn read(&mut self, _buffer: &mut [u8]) -> Result<usize, DiskFault> {
        Ok(0)
    }
}

/// What the base folder names, a name twice or one that is no path, and which of these is a folder.
const ODD: &[(&[&str], &str)] = &[(&["a", "b", "a"], "b"), (&["a", ".", ".."], "..")];

#[test]
fn lists_nothing_where_a_name_is_given_twice_or_is_no_path(rt: HostRuntime) {
    for &(names, folder) in ODD {
        let mut tree = MadeUp::tree(rt.alloc(), names, folder, 0);
        let found = listed(&rt, rt.alloc(), &mut tree);
        assert!(rt; found.as_str() == "device", "{folder}: {found}");
    }
}

#[test]
fn opens_nothing_beside_the_base_folder(rt: HostRuntime) {
    for path in ["../b", "", "b/"] {
        let mut tree = MadeUp::tree(rt.alloc(), &[], "b", 0);
        let wanted = Err(TreeFault::NotFound);
        let is_refused = ends(&rt, rt.alloc(), &mut tree, (path, 0), wanted);
        assert!(rt; is_refused, "{path}");
    }
}

/// How many files and folders a tree may have.
const MOST_ENTRIES: usize = 16_777_216;

#[test]
fn one_more_is_too_many(rt: HostRuntime) {
    let mut tree = MadeUp::tree(rt.alloc(), &[], "", MOST_ENTRIES + 1);
    assert!(rt; count_listed(&mut tree) == Err(TreeFault::TooMany));
}

#[test]
fn that_many_are_listed(rt: HostRuntime) {
    let mut tree = MadeUp::tree(rt.alloc(), &[], "", MOST_ENTRIES);
    assert!(rt; count_listed(&mut tree) == Ok(MOST_ENTRIES));
}
