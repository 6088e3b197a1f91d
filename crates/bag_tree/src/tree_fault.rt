//! Why a tree refused a call.
ghost use Rattle.std.specs.Prelude.{◌≡◌, Some, []};
ghost use Rattle.bag_tree.specs.declared.tree_fault.TreeFault.TheVariants.{Memory};
ghost use Rattle.bag_tree.specs.Stop.{IsOutOfMemory, IsRefusalOf};
ghost use Rattle.bag_tree.specs.Tree as spec;

use crate::said;
use bag_text::Text;
use std::alloc::{AllocError, AllocFailed, Global};
use std::fmt;
use thiserror::Error;

/// Why a tree refused a call.
#[derive(Clone, Copy, Debug, PartialEq, Eq)]
pub enum TreeFault {
    /// The system refused: a folder, a file or a read.
    Device,
    /// A symbolic link, a socket, a pipe or a device stands in the tree.
    Special,
    /// A name isn't UTF-8.
    Name,
    /// There is no such file.
    NotFound,
    /// There are more than 16,777,216 files and folders.
    TooMany,
    /// A file has more or fewer bytes than were listed.
    Changed,
    /// A read without an open file.
    NoneOpen,
    /// Memory ran out.
    Memory,
    /// What was to be made is there.
    Exists,
}

impl TreeFault {
    /// The word for this cause in the closing lines: ASCII, in lower case, with hyphens.
    pub fn word(self) -> &'static str
        ensures { result.now ≡ spec.cause_word self }
    {
        match self {
            TreeFault::Device => said::DEVICE,
            TreeFault::Special => said::SPECIAL,
            TreeFault::Name => said::NAME,
            TreeFault::NotFound => said::NOT_FOUND,
            TreeFault::TooMany => said::TOO_MANY,
            TreeFault::Changed => said::CHANGED,
            TreeFault::NoneOpen => said::NONE_OPEN,
            TreeFault::Memory => said::MEMORY,
            TreeFault::Exists => said::EXISTS,
        }
    }
}

impl fmt::Display for TreeFault {
    ghost output = { λ fault. Some (spec.cause_word fault) };

    fn fmt<W: fmt::Write>(&self, f: &mut fmt::Formatter<W>) -> fmt::Result {
        f.write_str(self.word())
    }
}

impl std::error::Error for TreeFault {}

impl From<AllocError> for TreeFault {
    ghost from_gives = { λ _ e. e ≡ Memory };

    fn from(_: AllocError) -> Self {
        TreeFault::Memory
    }
}

impl<T: Drop> From<AllocFailed<T>> for TreeFault {
    ghost from_gives = { λ _ e. e ≡ Memory };

    fn from(_: AllocFailed<T>) -> Self {
        TreeFault::Memory
    }
}

/// A refusal, and the file that it is about. The path is empty for a listing and when out of
/// memory.
#[derive(Debug, Drop, Error)]
#[error("{path} {cause}")]
pub struct Stop {
    pub cause: TreeFault,
    /// Of the file that was refused; empty where it is none.
    pub path: Text,
}

impl Stop {
    /// A refusal that is about no file.
    pub fn without_path(alloc: Global, cause: TreeFault) -> Stop
        ensures cause { result.cause ≡ cause }
        ensures path { result.path ≡ [] }
    {
        Stop {
            cause,
            path: Text::empty(alloc),
        }
    }

    /// Where memory ran out.
    pub fn out_of_memory(alloc: Global) -> Stop
        ensures { IsOutOfMemory result }
    {
        Stop::without_path(alloc, TreeFault::Memory)
    }

    /// The refusal of the file at this path. Out of memory names no file.
    ///
    /// It takes no memory: whoever copies the path before the file is read reports no other refusal
    /// of it as out of memory.
    pub fn of_file(alloc: Global, cause: TreeFault, path: Text) -> Stop
        ensures { IsRefusalOf cause path result }
    {
        if cause == TreeFault::Memory {
            Stop::out_of_memory(alloc)
        } else {
            Stop { cause, path }
        }
    }
}
