//! Reads the tag files of a listing.
ghost use Rattle.std.specs.Prelude.{◌≡◌, ◌≢◌, ◌++◌, [], IsTrue, IsUtf8, IfOk, IfErr, OnOk, OnErr};
ghost use Rattle.std.specs.Prelude.{MatchOption, Contains, map};
ghost use Rattle.bag_read.specs.ManifestName.{tag_path};
ghost use Rattle.bag_tree.specs.Listing.{IsOrdered};
ghost use Rattle.bag_tree.specs.Tree.{Keeps, NothingFailed, IsRefusedAt};
ghost use Rattle.bag_tree.specs.FileReads.{IsEntryOf, OpensAtMost};
ghost use Rattle.bag_facts.specs.TagReader.{AreBytes, AreFilesOfBag, PathsAreTexts, IsWhole};
ghost use Rattle.bag_facts.specs.TagReader.{ReadsWanted, StopsReading, given_of, read_path, OpensFirst};
ghost use Rattle.bag_facts.specs.Wanted.{IsWanted, AreWanted, OpensUpTo};
ghost use Rattle.bag_faults.specs.Options.{Wants};
ghost use Rattle.bag_facts.specs.declared.tag_reader.TagBytes.{TagBytes};

use bag_faults::Options;
use bag_read::TagName;
use bag_tree::{FileEntry, Stop, Tree, read_whole};
use std::alloc::Global;

/// The bytes of a tag file that is there.
#[derive(Drop)]
pub(crate) struct TagBytes {
    pub(crate) name: TagName,
    pub(crate) bytes: Vec<u8>,
}

impl TagBytes {
    /// The bytes that were read of a tag file.
    fn new(name: TagName, bytes: Vec<u8>) -> TagBytes
        ensures name { result.name ≡ name }
        ensures bytes { result.bytes ≡ bytes }
        ensures are_bytes { AreBytes bytes.items }
    {
        TagBytes { name, bytes }
    }
}

/// Reads each wanted tag file among the listed files whole, in their order.
pub(crate) fn read_tag_files<T: Tree>(
    alloc: Global,
    tree: &mut T,
    files: &[FileEntry],
    options: Options,
) -> Result<Vec<TagBytes>, Stop>
    requires { IsOrdered files.now }
    ensures keeps { Keeps (T.state tree.old) (T.state tree.new) }
    ensures no_failure { OnOk result (NothingFailed (T.state tree.old) (T.state tree.new)) }
    ensures opened { IfOk result (λ read.
        (T.state tree.new).openings ≡ (T.state tree.old).openings ++ map read_path read.items) }
    ensures listed { OnOk result ((T.state tree.new).listed ≡ (T.state tree.old).listed) }
    ensures gave { IfOk result (λ read.
        (T.state tree.new).gave ≡ (T.state tree.old).gave ++ map given_of read.items) }
    ensures texts { OnOk result (PathsAreTexts files.now) }
    ensures wanted { IfOk result (λ read. AreWanted options files.now (map read_path read.items)) }
    ensures whole { IfOk result (λ read.
        (file : TagBytes) → Contains read.items file → IsWhole files.now (T.state tree.old) file) }
    ensures opened_first { OnErr result
        (OpensFirst options files.now (T.state tree.old) (T.state tree.new)) }
    ensures refused { IfErr result (λ stop.
        stop.path ≢ [] → OpensUpTo options files.now stop.path (T.state tree.old)
        (T.state tree.new)) }
    ensures stop { IfErr result (λ stop.
        (IsTrue (T.state tree.old).honest → AreFilesOfBag (T.state tree.old).bag files.now)
        → StopsReading options (T.state tree.old) (T.state tree.new) stop) }
{
    let mut read = Vec::new(alloc);
    for entry in files {
        let Some(file) = read_wanted(alloc, tree, entry, options)? else {
            continue;
        };
        if read.push(file).is_err() {
            return Err(Stop::out_of_memory(alloc));
        }
    }
    Ok(read)
}

/// Reads a listed file whole, where it is a wanted tag file.
fn read_wanted<T: Tree>(
    alloc: Global,
    tree: &mut T,
    entry: &FileEntry,
    options: Options,
) -> Result<Option<TagBytes>, Stop>
    ensures keeps { Keeps (T.state tree.old) (T.state tree.new) }
    ensures no_failure { OnOk result (NothingFailed (T.state tree.old) (T.state tree.new)) }
    ensures listed { OnOk result ((T.state tree.new).listed ≡ (T.state tree.old).listed) }
    ensures text { OnOk result (IsUtf8 entry.now.path) }
    ensures read { IfOk result
        (ReadsWanted options entry.now (T.state tree.old) (T.state tree.new)) }
    ensures opens { OnErr result
        (IsWanted options entry.now.path
        × OpensAtMost (T.state tree.old) (T.state tree.new) entry.now.path) }
    ensures refused { IfErr result (λ stop. stop.path ≢ [] → stop.path ≡ entry.now.path) }
    ensures refused_at { IfErr result (λ stop.
        stop.path ≢ [] → IsRefusedAt (T.state tree.old).openings entry.now.path
        (T.state tree.new)) }
    ensures stop { IfErr result (λ stop.
        (IsTrue (T.state tree.old).honest → IsEntryOf (T.state tree.old).bag entry.now)
        → StopsReading options (T.state tree.old) (T.state tree.new) stop) }
{
    let Some(name) = wanted_at(options, entry.path.as_str()) else {
        return Ok(None);
    };
    // Copied before the file is read, so that its refusal isn't reported as out of memory.
    let Ok(path) = entry.path.copy(alloc) else {
        return Err(Stop::out_of_memory(alloc));
    };
    match read_whole(alloc, tree, entry) {
        Ok(bytes) => Ok(Some(TagBytes::new(name, bytes))),
        Err(cause) => Err(Stop::of_file(alloc, cause, path)),
    }
}

/// The wanted tag file that stands at a path.
fn wanted_at(options: Options, path: &str) -> Option<TagName>
    ensures { MatchOption result (¬ (IsWanted options path.now)) (λ name.
        (tag_path name ≡ path.now) × Wants options name) }
{
    let Some(name) = TagName::at(path) else {
        return None;
    };
    if options.wants(name) {
        Some(name)
    } else {
        None
    }
}
