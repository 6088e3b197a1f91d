//! What tag manifests name.
ghost use Rattle.std.specs.Prelude.{◌≡◌, ◌++◌, List, IfOk, bytes_eq, filter, map};
ghost use Rattle.std.specs.List.{list_any};
ghost use Rattle.bag_text.specs.Path.{is_payload_path};
ghost use Rattle.bag_read.specs.ManifestName.{tag_path};
ghost use Rattle.bag_text.specs.declared.alg.Alg.{Alg as Member};
ghost use Rattle.bag_tags.specs.Summed.{File};
ghost use Rattle.bag_changes.specs.Composing as spec;
ghost use Rattle.bag_renewed.specs.Renewed as renewed;
ghost use Rattle.bag_checked.specs.Summed.{AreSummedBy};

use crate::obstacles::BEGUN_FILE;
use bag_read::{DECLARATION, INFO, Kind, TagName, is_manifest_name};
use bag_tags::{SummedFile, TagFile, sum_texts};
use bag_text::{AlgSet, Text, is_payload};
use bag_tree::Sums;
use std::alloc::{AllocError, Global};
use std::collections::BTreeMap;

/// The files of the payload, and the tag files whose bytes stay, of files with their digests.
pub(crate) fn parted(
    alloc: Global,
    summed: Vec<SummedFile>,
    kept: &[TagName],
) -> Result<(Vec<SummedFile>, Vec<SummedFile>), AllocError>
    ensures payload { IfOk result (λ parts.
        parts.0.items ≡ filter (spec.of_path is_payload_path) summed.items) }
    ensures tags { IfOk result (λ parts. parts.1.items
        ≡ filter (spec.of_path (spec.keeps_bytes kept.now))
        (filter (spec.of_path spec.is_tag_path) summed.items)) }
{
    let (payload, mut tags) = parts(alloc, summed)?;
    tags.retain(|one| keeps_bytes(kept, one.path.as_str()));
    Ok((payload, tags))
}

/// The files of the payload, and the others.
fn parts(
    alloc: Global,
    summed: Vec<SummedFile>,
) -> Result<(Vec<SummedFile>, Vec<SummedFile>), AllocError>
    ensures payload { IfOk result (λ parts.
        parts.0.items ≡ filter (spec.of_path is_payload_path) summed.items) }
    ensures tags { IfOk result (λ parts.
        parts.1.items ≡ filter (spec.of_path spec.is_tag_path) summed.items) }
{
    summed
        .into_iter()
        .partition(alloc, |one| is_payload(one.path.as_str()))
}

/// Whether the file at a path keeps its bytes, where these tag files are kept.
fn keeps_bytes(kept: &[TagName], path: &str) -> bool
    ensures { result ≡ spec.keeps_bytes kept.now path.now }
{
    stays(path) || is_among(kept, path)
}

/// Whether one of these tag files stands at a path.
fn is_among(names: &[TagName], path: &str) -> bool
    ensures { result ≡ list_any (λ name. bytes_eq (tag_path name) path.now) names.now }
{
    names.iter().any(|name| is_at(*name, path))
}

/// Whether a tag file stands at a path.
fn is_at(name: TagName, path: &str) -> bool
    ensures { result ≡ bytes_eq (tag_path name) path.now }
{
    match TagName::at(path) {
        Some(found) => found == name,
        None => false,
    }
}

/// Whether a path is one of a tag file whose name no renewal writes or leaves out.
fn stays(path: &str) -> bool
    ensures { result ≡ renewed.stays path.now }
{
    !is_payload(path)
        && path != DECLARATION
        && path != INFO
        && !is_manifest_name(Kind::Payload, path)
        && !is_manifest_name(Kind::Tag, path)
        && path != BEGUN_FILE
}

/// What tag manifests name, in the order of their paths: the files that stay, and these texts.
pub(crate) fn named_tag_files(
    alloc: Global,
    tags: Vec<SummedFile>,
    first: &[TagFile],
    last: &[TagFile],
    algs: AlgSet,
) -> Result<Vec<SummedFile>, AllocError>
    ensures { IfOk result (λ named. (files : List File) → AreSummedBy algs files tags.items
        → spec.AreInPathOrder algs (files ++ (first.now ++ last.now)) named.items) }
{
    let mut files = tags;
    files.append(&mut sum_texts(alloc, first, algs)?)?;
    files.append(&mut sum_texts(alloc, last, algs)?)?;
    in_path_order(alloc, files)
}

/// The files in the order of their paths.
fn in_path_order(alloc: Global, files: Vec<SummedFile>) -> Result<Vec<SummedFile>, AllocError>
    ensures { IfOk result (λ ordered. (algs : List Member) (of : List File)
        → AreSummedBy algs of files.items → spec.AreInPathOrder algs of ordered.items) }
{
    let mut files = files;
    let mut by_path = BTreeMap::new(alloc);
    while let Some(one) = files.pop() {
        let _ = by_path.insert(one.path, one.sums)?;
    }
    listed(alloc, by_path)
}

fn listed(alloc: Global, by_path: BTreeMap<Text, Sums>) -> Result<Vec<SummedFile>, AllocError>
    ensures { IfOk result (λ files. files.items ≡ map spec.summed_of by_path.entries) }
{
    let mut files = Vec::with_capacity(alloc, by_path.len())?;
    for (path, sums) in by_path {
        files.push(SummedFile { path, sums })?;
    }
    Ok(files)
}
