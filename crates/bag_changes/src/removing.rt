//! The changes that remove files.
ghost use Rattle.std.specs.Prelude.{◌≡◌, ◌++◌, IfOk};
ghost use Rattle.bag_facts.specs.FactsOfBag.{IfBagRead};
ghost use Rattle.bag_changes.specs.Changes as spec;
ghost use Rattle.bag_changes.specs.Composing.{AreOfFiles};
ghost use Rattle.bag_renewed.specs.Target.{OfTarget};
ghost use Rattle.bag_renewed.specs.declared.renewal.Renewal.{Renewal as Asked};

use crate::obstacles::BEGUN_FILE;
use crate::tag_files::push_where;
use bag_facts::Facts;
use bag_read::{Kind, TagName};
use bag_renewed::{Target, algs_there};
use bag_text::{Alg, Text};
use bag_tree::FileChange;
use std::alloc::{AllocError, Global};

/// The first changes: the tag manifests are removed, and a file that an earlier renewal has begun.
pub(crate) fn opened(alloc: Global, facts: &Facts) -> Result<Vec<FileChange>, AllocError>
    ensures changes { IfOk result (λ made. IfBagRead facts.now (λ bag. (renewal : Asked)
        → made.items ≡ spec.opening bag renewal ++ spec.clearing bag renewal)) }
    ensures files { IfOk result (λ made. AreOfFiles made.items) }
{
    let there = algs_there(facts, Kind::Tag).members(alloc)?;
    let mut changes = removals(alloc, Kind::Tag, &there)?;
    let begun = FileChange::Remove(Text::from_str(alloc, BEGUN_FILE)?);
    push_where(&mut changes, begun, facts.has_file(BEGUN_FILE))?;
    Ok(changes)
}

/// The payload manifests of algorithms that are dropped are removed.
pub(crate) fn dropped(alloc: Global, target: &Target) -> Result<Vec<FileChange>, AllocError>
    ensures changes { IfOk result (λ made. OfTarget target.now (λ bag renewal.
        made.items ≡ spec.dropping bag renewal)) }
    ensures files { IfOk result (λ made. AreOfFiles made.items) }
{
    let gone = target.dropped.members(alloc)?;
    removals(alloc, Kind::Payload, &gone)
}

/// The manifests of these algorithms are removed.
fn removals(alloc: Global, kind: Kind, algs: &[Alg]) -> Result<Vec<FileChange>, AllocError>
    ensures { IfOk result (λ made. made.items ≡ spec.removals_of kind algs.now) }
{
    let mut changes = Vec::with_capacity(alloc, algs.len())?;
    for alg in algs {
        changes.push(FileChange::Remove(TagName::Manifest(kind, *alg).path(alloc)?))?;
    }
    Ok(changes)
}
