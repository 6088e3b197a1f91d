//! Sets of algorithms, and those of the manifests that a bag has.
ghost use Rattle.std.specs.Prelude.{◌≡◌, Bool};
ghost use Rattle.bag_text.specs.AlgList.{has_member};
ghost use Rattle.bag_text.specs.declared.alg.Alg.{Alg as AlgValue};
ghost use Rattle.bag_read.specs.ManifestName.{tag_path};
ghost use Rattle.bag_read.specs.declared.tag_name.TagName.TheVariants.{Manifest};
ghost use Rattle.bag_facts.specs.FactsOfBag.{IfBagRead};
ghost use Rattle.bag_tree.specs.Bag.{has_file};
ghost use Rattle.bag_renewed.specs.Renewed.{algs_where};
ghost use Rattle.bag_renewed.specs.Target as spec;
ghost use Rattle.bag_renewed.specs.Target.{Tells, in_either, in_first};

use bag_facts::Facts;
use bag_read::Kind;
use bag_text::{Alg, AlgSet};

/// The algorithms of which a bag has a manifest of this kind.
pub fn algs_there(facts: &Facts, kind: Kind) -> AlgSet
    ensures { IfBagRead facts.now (λ bag.
        result ≡ algs_where (λ alg. has_file bag (tag_path (Manifest kind alg)))) }
{
    passing(|alg| has_manifest(facts, kind, alg))
}

/// The members of two sets.
pub(crate) fn members_of_either(some: AlgSet, more: AlgSet) -> AlgSet
    ensures { result ≡ in_either some more }
{
    passing(|alg| has(some, alg) || has(more, alg))
}

/// The members of the first of two sets that the other hasn't.
pub(crate) fn members_of_first(set: AlgSet, other: AlgSet) -> AlgSet
    ensures { result ≡ in_first set other }
{
    passing(|alg| has(set, alg) && !has(other, alg))
}

/// The algorithms that pass a test.
pub fn passing<F: Fn(Alg) -> bool>(test: F) -> AlgSet
    requires { F.IsAlwaysCallable test }
    ensures { (passes : AlgValue → Bool) → Tells (F.post test) passes
        → result ≡ algs_where passes }
{
    let mut algs = AlgSet::empty();
    for alg in Alg::ALL {
        if test(alg) {
            algs = algs.with(alg);
        }
    }
    algs
}

/// Whether a bag has a manifest. It was read then, so that no listing is gone through.
fn has_manifest(facts: &Facts, kind: Kind, alg: Alg) -> bool
    ensures { IfBagRead facts.now (λ bag.
        result ≡ has_file bag (tag_path (Manifest kind alg))) }
{
    facts.manifest(kind, alg).is_some()
}

/// Whether an algorithm is a member of a set.
#[tactic(auto, using(crate::proofs::AlgsMade::is_member))]
pub fn has(set: AlgSet, alg: Alg) -> bool
    ensures { result ≡ has_member set alg }
{
    set.has(alg)
}

/// Whether a set has a member.
#[tactic(auto, using(crate::proofs::AlgsMade::has_some_by))]
pub fn has_some(set: AlgSet) -> bool
    ensures { result ≡ spec.has_some set }
{
    !set.is_empty()
}
