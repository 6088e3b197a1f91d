//! The names of a bag's payload.
ghost use Rattle.std.specs.Prelude.{◌≡◌, ◌⊎◌, ◌↔◌, ◌++◌, ℕ, List, Contains, IfOk, OnOk};
ghost use Rattle.std.specs.List.{filter};
ghost use Rattle.bag_text.specs.Order.{IsListOf};
ghost use Rattle.bag_text.specs.Path.{is_payload_path};
ghost use Rattle.bag_text.specs.Text.{text_cmp};
ghost use Rattle.bag_read.specs.declared.kind.Kind.TheVariants.{Payload};
ghost use Rattle.bag_facts.specs.FactsOfBag.{IfBagRead};
ghost use Rattle.bag_facts.specs.TagFacts.{entry_paths};
ghost use Rattle.bag_facts.specs.Wanted.{paths_of};
ghost use Rattle.bag_stages.specs.TagFiles.{Names};
ghost use Rattle.bag_stages.specs.CompletenessStage.{IsPayloadName};
ghost use Rattle.bag_stages.specs.Names.{texts_of};

use bag_facts::Facts;
use bag_read::{Kind, ManifestEntry};
use bag_text::{Alg, is_payload};
use bag_tree::FileEntry;
use std::alloc::{AllocError, Global};

/// The paths of the payload's files, and those that payload manifests name, in no order, and some
/// of them more than once.
pub(crate) fn payload_names(alloc: Global, facts: &Facts) -> Result<Vec<&str>, AllocError>
    ensures { IfOk result (λ names. IfBagRead facts.now (λ bag.
        (path : List ℕ) → Contains (texts_of names.items) path ↔ IsPayloadName bag path)) }
{
    let mut names = payload_files(alloc, facts.files())?;
    for alg in Alg::ALL {
        push_named(&mut names, facts, alg)?;
    }
    Ok(names)
}

/// The names in the order of their bytes, each once.
pub fn in_order(mut names: Vec<&str>) -> Result<Vec<&str>, AllocError>
    ensures { IfOk result (λ sorted.
        IsListOf text_cmp (Contains (texts_of names.entry.items)) (texts_of sorted.items)) }
{
    names.sort()?;
    names.dedup();
    Ok(names)
}

/// The paths of those files that are of the payload.
fn payload_files(alloc: Global, files: &[FileEntry]) -> Result<Vec<&str>, AllocError>
    ensures { IfOk result (λ names.
        texts_of names.items ≡ filter is_payload_path (paths_of files.now)) }
{
    let mut names = Vec::new(alloc);
    for entry in files {
        let path = entry.path.as_str();
        if is_payload(path) {
            names.push(path)?;
        }
    }
    Ok(names)
}

/// Adds the paths that the payload manifest of an algorithm names, where it is there.
fn push_named<'a>(names: &mut Vec<&'a str>, facts: &'a Facts, alg: Alg) -> Result<(), AllocError>
    ensures { OnOk result (IfBagRead facts.now (λ bag.
        (path : List ℕ) → Contains (texts_of names.new.items) path
        ↔ (Contains (texts_of names.old.items) path ⊎ Names bag Payload alg path))) }
{
    match facts.manifest(Kind::Payload, alg) {
        Some(manifest) => push_paths(names, manifest.entries.as_slice()),
        None => Ok(()),
    }
}

/// Adds the paths of entries.
fn push_paths<'a>(names: &mut Vec<&'a str>, entries: &'a [ManifestEntry]) -> Result<(), AllocError>
    ensures { OnOk result
        (texts_of names.new.items ≡ texts_of names.old.items ++ entry_paths entries.now) }
{
    for entry in entries {
        names.push(entry.path.as_str())?;
    }
    Ok(())
}
