//! Files with their digests, and the manifests that name them.
ghost use Rattle.std.specs.Prelude.{◌≡◌, ◌++◌, ◌∷◌, [], IfOk, OnOk, map, string_bytes};
ghost use Rattle.bag_text.specs.Lines.{line_feed};
ghost use Rattle.bag_tree.specs.DigestsOf.{AreSumsOf};
ghost use Rattle.bag_tags.specs.Entry as entry;
ghost use Rattle.bag_tags.specs.Summed as spec;

use crate::TagFile;
use crate::manifest::push_entry_by;
use bag_read::{Kind, TagName};
use bag_text::{Alg, AlgSet, Items, Rules, Text};
use bag_tree::{Digests, Sums};
use std::alloc::{AllocError, Global};

/// A file that a manifest is to name, with its digests.
#[derive(Debug, Drop)]
pub struct SummedFile {
    /// The path that the manifest is to give.
    pub path: Text,
    /// The digests of its bytes.
    pub sums: Sums,
}

/// The digests of tag files, in their order. Fails only where memory runs out.
pub fn sum_texts(
    alloc: Global,
    files: &[TagFile],
    algs: AlgSet,
) -> Result<Vec<SummedFile>, AllocError>
    ensures { IfOk result (λ summed. spec.AreSummed algs files.now summed.items) }
{
    let mut summed = Vec::with_capacity(alloc, files.len())?;
    for file in files {
        summed.push(sum_text(alloc, file, algs)?)?;
    }
    Ok(summed)
}

/// The digests of a tag file. Fails only where memory runs out.
pub fn sum_text(alloc: Global, file: &TagFile, algs: AlgSet) -> Result<SummedFile, AllocError>
    ensures { IfOk result (spec.HasItsSums algs file.now) }
{
    Ok(SummedFile {
        path: file.path.copy(alloc)?,
        sums: sums_of(file.content.as_slice(), algs),
    })
}

/// The digests of bytes.
pub fn sums_of(bytes: &[u8], algs: AlgSet) -> Sums
    ensures { AreSumsOf algs bytes.now result }
{
    let mut digests = Digests::new(algs);
    digests.update(bytes);
    digests.finish()
}

/// The manifests of a kind that name these files, one for each algorithm, each with its name
/// (RFC 8493, 2.1.3 and 2.2.1). Digests that weren't asked for are left empty. Fails only where
/// memory runs out.
pub fn manifests_of(
    alloc: Global,
    kind: Kind,
    algs: &[Alg],
    files: &[SummedFile],
) -> Result<Vec<TagFile>, AllocError>
    ensures { IfOk result (λ made. made.items ≡ spec.manifests_of kind algs.now files.now) }
{
    manifests_by(alloc, Rules::V10, kind, algs, files)
}

/// The same by the rules of a version, which spell the paths. One that `is_unnameable` by them
/// isn't read again.
pub fn manifests_by(
    alloc: Global,
    rules: Rules,
    kind: Kind,
    algs: &[Alg],
    files: &[SummedFile],
) -> Result<Vec<TagFile>, AllocError>
    ensures { IfOk result (λ made. made.items ≡ spec.manifests_by rules kind algs.now files.now) }
{
    let mut manifests = Vec::new(alloc);
    for alg in algs {
        let path = TagName::Manifest(kind, *alg).path(alloc)?;
        let content = manifest(alloc, rules, *alg, files)?;
        manifests.push(TagFile { path, content })?;
    }
    Ok(manifests)
}

/// The manifest of an algorithm that names these files.
fn manifest(
    alloc: Global,
    rules: Rules,
    alg: Alg,
    files: &[SummedFile],
) -> Result<Items<u8>, AllocError>
    ensures { IfOk result (λ bytes.
        bytes ≡ entry.manifest_text_by rules (map (spec.summed_entry alg) files.now)) }
{
    let mut text = String::new(alloc);
    for file in files {
        push_file(alloc, rules, &mut text, alg, file)?;
    }
    Ok(Items::from_vec(text.into_bytes()))
}

/// Adds the line of a file, whose digests are asked of the algorithm.
fn push_file(
    alloc: Global,
    rules: Rules,
    text: &mut String,
    alg: Alg,
    file: &SummedFile,
) -> Result<(), AllocError>
    ensures { OnOk result
        (string_bytes text.new
        ≡ string_bytes text.old ++ entry.entry_line_by rules (spec.summed_entry alg file.now)
        ++ line_feed ∷ []) }
{
    match file.sums.hex(alloc, alg) {
        Ok(digest) => push_entry_by(alloc, rules, text, digest.as_str(), file.path.as_str()),
        Err(_) => Err(AllocError),
    }
}
