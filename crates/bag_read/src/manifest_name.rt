//! The names of manifests (RFC 8493, 2.1.3 and 2.2.1).
ghost use Rattle.std.specs.Prelude.{◌≡◌, ◌≢◌, ◌||◌, ℕ, List, MatchOption, IsTrue};
ghost use Rattle.std.specs.Char.{is_ascii_digit, is_ascii_lowercase};
ghost use Rattle.std.specs.List.{list_all};
ghost use Rattle.std.specs.Option.{is_some};
ghost use Rattle.bag_read.specs.ManifestName as spec;

use crate::Kind;
use crate::line_fault::{after_prefix, before_suffix};

/// What a manifest's name ends with.
pub(crate) const SUFFIX: &str = ".txt";

/// The text ALG of `manifest-ALG.txt` (RFC 8493, 2.1.3), or for tag manifests of
/// `tagmanifest-ALG.txt` (2.2.1), where the name has that form: ALG is one or more of the
/// characters `a` to `z` and `0` to `9`. It may be an algorithm that isn't known here. `None` for
/// any other name.
pub fn manifest_alg(kind: Kind, name: &str) -> Option<&str>
    ensures alg { MatchOption result
        ((alg : List ℕ) → IsTrue (spec.is_alg_text alg) → name.now ≢ spec.manifest_name kind alg)
        (λ alg. IsTrue (spec.is_alg_text alg.now) × (name.now ≡ spec.manifest_name kind alg.now)) }
{
    let Some(rest) = after_prefix(name, prefix(kind)) else {
        return None;
    };
    let Some(alg) = before_suffix(rest, SUFFIX) else {
        return None;
    };
    if is_alg_text(alg) { Some(alg) } else { None }
}

/// Whether a name is that of a manifest of this kind, of any algorithm (RFC 8493, 2.1.3 and 2.2.1).
pub fn is_manifest_name(kind: Kind, name: &str) -> bool
    ensures { result ≡ spec.is_manifest_name kind name.now }
{
    manifest_alg(kind, name).is_some()
}

/// What the name of a manifest of this kind begins with.
pub(crate) fn prefix(kind: Kind) -> &'static str
    ensures { result.now ≡ spec.prefix kind }
{
    match kind {
        Kind::Payload => "manifest-",
        Kind::Tag => "tagmanifest-",
    }
}

/// One or more of `a` to `z` and `0` to `9`.
fn is_alg_text(text: &str) -> bool
    ensures { result ≡ spec.is_alg_text text.now }
{
    !text.is_empty() && has_alg_characters_only(text)
}

fn has_alg_characters_only(text: &str) -> bool
    ensures { result ≡ list_all (λ c. is_ascii_lowercase c || is_ascii_digit c) text.now }
{
    text.as_bytes()
        .iter()
        .all(|b| b.is_ascii_lowercase() || b.is_ascii_digit())
}
