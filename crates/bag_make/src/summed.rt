//! The digests that manifests are to give.
ghost use Rattle.std.specs.Prelude.{◌≡◌, ◌<◌, ◌++◌, ◌∷◌, [], length, IfOk, IfErr, OnOk, OnErr};
ghost use Rattle.bag_text.specs.Path.{under};
ghost use Rattle.bag_tree.specs.Tree.{Keeps, NothingFailed};
ghost use Rattle.bag_tree.specs.FileReads.{OpensAtMost};
ghost use Rattle.bag_facts.specs.StopsAmong.{StopsAmong};
ghost use Rattle.bag_facts.specs.Wanted.{OpensFirstOf, paths_of};
ghost use Rattle.bag_make.specs.Made.{data_folder};
ghost use Rattle.bag_make.specs.Summing.{IsSummedEntry, SumsFiles};
ghost use Rattle.bag_tags.specs.declared.summed.SummedFile.{SummedFile as Digested};

use bag_tags::SummedFile;
use bag_text::{AlgSet, Text};
use bag_tree::{FileEntry, Stop, Sums, Tree, digest_file};
use std::alloc::{AllocError, Global};

/// How many bytes are read at once.
const BUFFER_BYTES: usize = 65_536;

/// What the paths of the payload begin with.
const DATA_PREFIX: &str = "data/";

/// The digests of listed files in their order, with their paths in the payload. Each file is opened
/// once for all algorithms, and read through one buffer.
pub(crate) fn sum_files<T: Tree>(
    alloc: Global,
    tree: &mut T,
    files: &[FileEntry],
    algs: AlgSet,
) -> Result<Vec<SummedFile>, Stop>
    ensures keeps { Keeps (T.state tree.old) (T.state tree.new) }
    ensures opens { OpensFirstOf (paths_of files.now) (T.state tree.old) (T.state tree.new) }
    ensures summed { IfOk result (λ summed.
        SumsFiles files.now algs (T.state tree.old) (T.state tree.new) summed.items) }
    ensures stop { IfErr result (StopsAmong files.now (T.state tree.old) (T.state tree.new)) }
{
    let Ok(mut buffer) = Vec::from_elem(alloc, 0, BUFFER_BYTES) else {
        return Err(Stop::out_of_memory(alloc));
    };
    sum_each(alloc, tree, files, algs, &mut buffer)
}

/// The digests of listed files, one file after another.
fn sum_each<T: Tree>(
    alloc: Global,
    tree: &mut T,
    files: &[FileEntry],
    algs: AlgSet,
    buffer: &mut [u8],
) -> Result<Vec<SummedFile>, Stop>
    requires { 0 < length buffer.old }
    ensures keeps { Keeps (T.state tree.old) (T.state tree.new) }
    ensures opens { OpensFirstOf (paths_of files.now) (T.state tree.old) (T.state tree.new) }
    ensures summed { IfOk result (λ summed.
        SumsFiles files.now algs (T.state tree.old) (T.state tree.new) summed.items) }
    ensures stop { IfErr result (StopsAmong files.now (T.state tree.old) (T.state tree.new)) }
{
    let mut summed = Vec::new(alloc);
    for entry in files {
        append_summed(alloc, tree, entry, algs, buffer, &mut summed)?;
    }
    Ok(summed)
}

/// Adds the digests of one listed file.
fn append_summed<T: Tree>(
    alloc: Global,
    tree: &mut T,
    entry: &FileEntry,
    algs: AlgSet,
    buffer: &mut [u8],
    summed: &mut Vec<SummedFile>,
) -> Result<(), Stop>
    requires { 0 < length buffer.old }
    ensures keeps { Keeps (T.state tree.old) (T.state tree.new) }
    ensures no_failure { OnOk result (NothingFailed (T.state tree.old) (T.state tree.new)) }
    ensures opened { OnOk result
        ((T.state tree.new).openings ≡ (T.state tree.old).openings ++ entry.now.path ∷ []) }
    ensures opens { OnErr result
        (OpensAtMost (T.state tree.old) (T.state tree.new) entry.now.path) }
    ensures summed { OnOk result
        ((one : Digested) × (summed.new.items ≡ summed.old.items ++ one ∷ [])
        × IsSummedEntry (T.state tree.old) entry.now algs one) }
    ensures stop { IfErr result
        (StopsAmong (entry.now ∷ []) (T.state tree.old) (T.state tree.new)) }
{
    // Copied before the file is read, so that its refusal isn't reported as out of memory.
    let Ok(path) = entry.path.copy(alloc) else {
        return Err(Stop::out_of_memory(alloc));
    };
    let sums = match digest_file(tree, entry, algs, buffer) {
        Ok(sums) => sums,
        Err(cause) => return Err(Stop::of_file(alloc, cause, path)),
    };
    push_summed(alloc, summed, entry.path.as_str(), sums).map_err(|_| Stop::out_of_memory(alloc))
}

/// Adds the digests of a file that has this path in the folder.
fn push_summed(
    alloc: Global,
    summed: &mut Vec<SummedFile>,
    path: &str,
    sums: Sums,
) -> Result<(), AllocError>
    ensures { OnOk result
        (summed.new.items
        ≡ summed.old.items ++ record { path = under data_folder path.now; sums = sums } ∷ []) }
{
    let path = Text::from_string(format!(in alloc; "{DATA_PREFIX}{path}")?);
    summed.push(SummedFile { path, sums })?;
    Ok(())
}
