//! The changes that renew a bag, composed of what was read of it.
ghost use Rattle.std.specs.Prelude.{◌≡◌, ◌++◌, IfOk, List, OnOk, map};
ghost use Rattle.bag_changes.specs.Changes.{put};
ghost use Rattle.bag_changes.specs.Composed.{IsComposed, PutsFiles};
ghost use Rattle.bag_changes.specs.Composing.{AreOfFiles, tag_manifests_of};
ghost use Rattle.bag_changes.specs.Planned.{changes_from};
ghost use Rattle.bag_renewed.specs.Renewed.{new_algs};
ghost use Rattle.bag_tags.specs.Summed.{File};
ghost use Rattle.bag_checked.specs.Summed.{AreSummedBy};
ghost use Rattle.bag_renewed.specs.Target.{IfTarget, OfTarget};

use crate::named::{named_tag_files, parted};
use crate::removing::{dropped, opened};
use crate::tag_files::{first_files, kept_names, last_files};
use bag_facts::Facts;
use bag_read::Kind;
use bag_renewed::Target;
use bag_tags::{SummedFile, TagFile, manifests_by};
use bag_text::{Alg, Items, Rules};
use bag_tree::FileChange;
use std::alloc::{AllocError, Global};

/// What the changes are composed of.
#[derive(Debug, Drop)]
pub(crate) struct Composed {
    /// The files that are put before manifests are dropped: the metadata and payload manifests.
    pub first: Vec<TagFile>,
    /// Those that are put after that: the declaration, where it isn't kept.
    pub last: Vec<TagFile>,
    /// The digests of the files that tag manifests name.
    pub named: Vec<SummedFile>,
}

/// The changes that renew a bag (RFC 8493, 2.1.1, 2.1.3, 2.2.1 and 2.2.2), in their order. Given are
/// the digests of the files that were read, and the text of `bag-info.txt` where that is written.
pub fn changes_of(
    alloc: Global,
    facts: &Facts,
    target: &Target,
    summed: Vec<SummedFile>,
    info: Option<Items<u8>>,
) -> Result<Vec<FileChange>, AllocError>
    ensures changes { IfOk result (λ made. IfTarget facts.now target.now (λ bag renewal.
        (files : List File) → AreSummedBy (new_algs bag renewal) files summed.items
        → made.items ≡ changes_from bag renewal files info)) }
    ensures files { IfOk result (λ made. AreOfFiles made.items) }
{
    let rules = target.rules;
    let algs = target.algs.members(alloc)?;
    let Composed { first, last, named } = compose(alloc, target, summed, info)?;
    let mut changes = opened(alloc, facts)?;
    append(&mut changes, puts(alloc, first)?)?;
    append(&mut changes, dropped(alloc, target)?)?;
    append(&mut changes, puts(alloc, last)?)?;
    append(&mut changes, tag_manifests(alloc, rules, &algs, &named)?)?;
    Ok(changes)
}

/// The files that are put, and the digests of those that tag manifests name.
fn compose(
    alloc: Global,
    target: &Target,
    summed: Vec<SummedFile>,
    info: Option<Items<u8>>,
) -> Result<Composed, AllocError>
    ensures composed { IfOk result (λ composed. OfTarget target.now (λ bag renewal.
        (files : List File) → AreSummedBy (new_algs bag renewal) files summed.items
        → IsComposed bag renewal files info composed)) }
    ensures files { IfOk result PutsFiles }
{
    let kept = kept_names(alloc, target)?;
    let (payload, tags) = parted(alloc, summed, &kept)?;
    let first = first_files(alloc, target, &payload, info)?;
    let last = last_files(alloc, target)?;
    let named = named_tag_files(alloc, tags, &first, &last, target.algs)?;
    Ok(Composed { first, last, named })
}

/// Puts changes behind others.
fn append(changes: &mut Vec<FileChange>, more: Vec<FileChange>) -> Result<(), AllocError>
    ensures { OnOk result (changes.new.items ≡ changes.old.items ++ more.items) }
{
    let mut more = more;
    changes.append(&mut more)
}

/// The changes that put files.
fn puts(alloc: Global, files: Vec<TagFile>) -> Result<Vec<FileChange>, AllocError>
    ensures { IfOk result (λ made. made.items ≡ map put files.items) }
{
    let mut changes = Vec::with_capacity(alloc, files.len())?;
    for file in files {
        changes.push(FileChange::Put(file.path, file.content))?;
    }
    Ok(changes)
}

/// The changes that put tag manifests, each of which names these files by these rules (RFC 8493,
/// 2.2.1).
fn tag_manifests(
    alloc: Global,
    rules: Rules,
    algs: &[Alg],
    files: &[SummedFile],
) -> Result<Vec<FileChange>, AllocError>
    ensures { IfOk result (λ made. made.items ≡ tag_manifests_of rules algs.now files.now) }
{
    puts(alloc, manifests_by(alloc, rules, Kind::Tag, algs, files)?)
}
