//! Whether manifests name a path.
ghost use Rattle.std.specs.Prelude.{◌↔◌, IsTrue};
ghost use Rattle.bag_text.specs.declared.alg.Alg.{Alg as AlgValue};
ghost use Rattle.bag_facts.specs.FactsOfBag.{IfBagRead};
ghost use Rattle.bag_stages.specs.TagFiles.{Names};

use bag_facts::Facts;
use bag_read::Kind;
use bag_text::{Alg, Text};

/// Whether some manifest of a kind names a path, of facts read for more than the declaration. Takes
/// no memory.
pub fn is_named(facts: &Facts, kind: Kind, path: &Text) -> bool
    ensures named { IfBagRead facts.now (λ bag.
        IsTrue result → (alg : AlgValue) × Names bag kind alg path.now) }
    ensures unnamed { IfBagRead facts.now (λ bag.
        ((alg : AlgValue) × Names bag kind alg path.now) → IsTrue result) }
{
    Alg::ALL
        .iter()
        .any(|alg| is_named_by(facts, kind, *alg, path))
}

/// Whether the manifest of a kind and an algorithm names a path, of facts read for more than the
/// declaration.
pub fn is_named_by(facts: &Facts, kind: Kind, alg: Alg, path: &Text) -> bool
    ensures { IfBagRead facts.now (λ bag. IsTrue result ↔ Names bag kind alg path.now) }
{
    match facts.manifest(kind, alg) {
        Some(manifest) => manifest.names(path),
        None => false,
    }
}
