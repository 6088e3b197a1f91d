//! Which tag files are kept, and the texts of those that are put.
ghost use Rattle.std.specs.Prelude.{◌≡◌, ◌++◌, ◌∷◌, [], IfOk, OnOk, map, if◌then◌else◌};
ghost use Rattle.bag_read.specs.ManifestName.{tag_path};
ghost use Rattle.bag_read.specs.declared.kind.Kind.TheVariants as kind;
ghost use Rattle.bag_read.specs.declared.tag_name.TagName.TheVariants as tag;
ghost use Rattle.bag_tags.specs.Summed.{manifests_by};
ghost use Rattle.bag_changes.specs.Changes as changes;
ghost use Rattle.bag_changes.specs.Composing as spec;
ghost use Rattle.bag_renewed.specs.Renewed.{with_path};
ghost use Rattle.bag_renewed.specs.Target.{OfTarget};

use bag_read::{Kind, TagName};
use bag_renewed::Target;
use bag_tags::{SummedFile, TagFile, declaration_file, manifests_by};
use bag_text::{Alg, Items};
use std::alloc::{AllocError, Global};

/// The tag files whose names a renewal writes, and that are kept.
pub(crate) fn kept_names(alloc: Global, target: &Target) -> Result<Vec<TagName>, AllocError>
    ensures { IfOk result (λ names. OfTarget target.now (λ bag renewal.
        names.items ≡ spec.kept_names bag renewal)) }
{
    let algs = target.kept.members(alloc)?;
    let mut names = manifest_names(alloc, &algs)?;
    push_where(&mut names, TagName::Info, !target.writes_info)?;
    push_where(&mut names, TagName::Declaration, target.keeps_declaration)?;
    Ok(names)
}

/// The payload manifests of algorithms.
fn manifest_names(alloc: Global, algs: &[Alg]) -> Result<Vec<TagName>, AllocError>
    ensures { IfOk result (λ names. names.items ≡ map (tag.Manifest kind.Payload) algs.now) }
{
    algs.iter()
        .map(|alg| TagName::Manifest(Kind::Payload, *alg))
        .collect(alloc)
}

/// The texts of the files that are put before manifests are dropped, with their names: the metadata
/// and the payload manifests that aren't kept, which name these files.
pub(crate) fn first_files(
    alloc: Global,
    target: &Target,
    payload: &[SummedFile],
    info: Option<Items<u8>>,
) -> Result<Vec<TagFile>, AllocError>
    ensures texts { IfOk result (λ made. made.items
        ≡ with_path (tag_path tag.Info) info
        ++ manifests_by target.now.rules kind.Payload target.now.written payload.now) }
    ensures files { IfOk result (λ made. spec.AreOfFiles (map changes.put made.items)) }
{
    let algs = target.written.members(alloc)?;
    let mut files = info_file(alloc, info)?;
    let mut manifests = manifests_by(alloc, target.rules, Kind::Payload, &algs, payload)?;
    files.append(&mut manifests)?;
    Ok(files)
}

/// The text of `bag-info.txt` with its name, where it is put.
fn info_file(alloc: Global, info: Option<Items<u8>>) -> Result<Vec<TagFile>, AllocError>
    ensures { IfOk result (λ made. made.items ≡ with_path (tag_path tag.Info) info) }
{
    let mut files = Vec::new(alloc);
    if let Some(content) = info {
        let path = TagName::Info.path(alloc)?;
        files.push(TagFile { path, content })?;
    }
    Ok(files)
}

/// The text of the declaration with its name, where it isn't kept.
pub(crate) fn last_files(alloc: Global, target: &Target) -> Result<Vec<TagFile>, AllocError>
    ensures texts { IfOk result (λ made. OfTarget target.now (λ bag renewal.
        made.items ≡ changes.last_files bag renewal)) }
    ensures files { IfOk result (λ made. spec.AreOfFiles (map changes.put made.items)) }
{
    let mut files = Vec::new(alloc);
    let file = declaration_file(alloc)?;
    push_where(&mut files, file, !target.keeps_declaration)?;
    Ok(files)
}

/// Puts an item at the end, where something is so.
pub(crate) fn push_where<T: Drop>(
    items: &mut Vec<T>,
    item: T,
    is_so: bool,
) -> Result<(), AllocError>
    ensures { OnOk result
        (items.new.items ≡ items.old.items ++ (if is_so then item ∷ [] else [])) }
{
    if is_so {
        items.push(item)?;
    }
    Ok(())
}
