//! Files of the payload that no payload manifest of the renewed bag would name.
ghost use Rattle.std.specs.Prelude.{◌≡◌, ◌||◌, IfOk, MatchOption, Some, find};
ghost use Rattle.std.specs.Option.{option_copied};
ghost use Rattle.bag_facts.specs.Facts.{rules_in};
ghost use Rattle.bag_facts.specs.FactsOfBag.{IsByV097};
ghost use Rattle.bag_changes.specs.Obstacles as spec;
ghost use Rattle.bag_renewed.specs.Renewed as renewed;
ghost use Rattle.bag_renewed.specs.Target.{IfTarget};
ghost use Rattle.bag_changes.specs.Telling.{AreStillListed};

use bag_facts::Facts;
use bag_read::Kind;
use bag_renewed::{Target, has, has_some};
use bag_stages::is_named_by;
use bag_text::{Alg, Rules, Text, is_payload};
use bag_tree::FileEntry;
use std::alloc::{AllocError, Global};

/// The first file of the payload, in path order, that no payload manifest of the renewed bag would
/// name. The rules of 0.97 let a manifest name a part of the payload; so where one is dropped, the
/// others may leave out what it named.
pub(crate) fn unlisted_path(
    alloc: Global,
    facts: &Facts,
    target: &Target,
) -> Result<Option<Text>, AllocError>
    ensures { IfOk result (λ found. IfTarget facts.now target.now (λ bag renewal.
        MatchOption found (AreStillListed bag renewal)
        (λ path. IsByV097 bag × (spec.first_unlisted bag renewal ≡ Some path)))) }
{
    if names_all(facts, target) {
        return Ok(None);
    }
    match first_unlisted(facts, target) {
        Some(entry) => Ok(Some(entry.path.copy(alloc)?)),
        None => Ok(None),
    }
}

/// Whether some payload manifest of the renewed bag names the whole payload: by the rules of 1.0 each
/// does, and so does one that is written.
fn names_all(facts: &Facts, target: &Target) -> bool
    ensures { IfTarget facts.now target.now (λ bag renewal. result
        ≡ (renewed.is_v10 (rules_in bag) || renewed.writes_payload_manifest bag renewal)) }
{
    match facts.rules() {
        Rules::V10 => true,
        Rules::V097 => has_some(target.written),
    }
}

/// The first file of the payload that no payload manifest names which is kept.
fn first_unlisted<'a>(facts: &'a Facts, target: &Target) -> Option<&'a FileEntry>
    ensures { IfTarget facts.now target.now (λ bag renewal. option_copied result
        ≡ find (λ entry. spec.is_unlisted bag renewal entry.path) facts.now.listing.files) }
{
    facts
        .files()
        .iter()
        .find(|entry| is_unlisted(facts, target, &entry.path))
}

#[tactic(auto, unfolding(crate::specs::Obstacles::is_unlisted))]
fn is_unlisted(facts: &Facts, target: &Target, path: &Text) -> bool
    ensures { IfTarget facts.now target.now (λ bag renewal.
        result ≡ spec.is_unlisted bag renewal path.now) }
{
    is_payload(path.as_str()) && !is_named_by_kept(facts, target, path)
}

/// Whether a payload manifest that is kept names a path.
fn is_named_by_kept(facts: &Facts, target: &Target, path: &Text) -> bool
    ensures { IfTarget facts.now target.now (λ bag renewal.
        result ≡ spec.is_named_by_kept bag renewal path.now) }
{
    Alg::ALL
        .iter()
        .any(|alg| keeps_naming(facts, target, *alg, path))
}

/// Whether the payload manifest of an algorithm is kept, and names a path.
#[tactic(auto, unfolding(crate::specs::Obstacles::keeps_naming))]
fn keeps_naming(facts: &Facts, target: &Target, alg: Alg, path: &Text) -> bool
    ensures { IfTarget facts.now target.now (λ bag renewal.
        result ≡ spec.keeps_naming bag renewal path.now alg) }
{
    has(target.kept, alg) && is_named_by(facts, Kind::Payload, alg, path)
}
