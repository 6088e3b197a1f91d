//! Entries that can't be written to a manifest (RFC 8493, 2.1.3 and 2.2.1).
ghost use Rattle.std.specs.Prelude.{◌≡◌};
ghost use Rattle.std.specs.List.{list_all};
ghost use Rattle.bag_tags.specs.Writable as spec;

use crate::spelling::is_unnameable;
use bag_read::{Kind, is_manifest_name};
use bag_text::{Alg, Rules, Text, check_path, is_payload};

/// Whether a digest and its path would not be read again as they are, by the rules of a version.
pub(crate) fn is_bad_entry(rules: Rules, kind: Kind, alg: Alg, entry: &(Text, Text)) -> bool
    ensures { result ≡ spec.is_bad_entry_by rules kind alg entry.now }
{
    is_bad_digest(alg, entry.0.as_str()) || is_bad_path(rules, kind, entry.1.as_str())
}

/// A text that isn't lower-case hex of the algorithm's length.
fn is_bad_digest(alg: Alg, digest: &str) -> bool
    ensures { result ≡ spec.is_bad_digest alg digest.now }
{
    digest.len() != alg.hex_len() || !is_lower_hex(digest)
}

fn is_lower_hex(text: &str) -> bool
    ensures { result ≡ list_all spec.is_lower_hex_digit text.now }
{
    text.as_bytes().iter().all(|byte| byte.is_ascii_hexdigit() && !byte.is_ascii_uppercase())
}

/// A text that a manifest of this kind may not name, or that none names by these rules.
fn is_bad_path(rules: Rules, kind: Kind, path: &str) -> bool
    ensures { result ≡ spec.is_bad_path_by rules kind path.now }
{
    !may_name(kind, path) || is_unnameable(rules, path)
}

/// Whether a manifest of this kind may name a path.
fn may_name(kind: Kind, path: &str) -> bool
    ensures { result ≡ spec.may_name kind path.now }
{
    match kind {
        Kind::Payload => is_payload(path),
        Kind::Tag => check_path(path).is_ok()
            && !is_payload(path)
            && !is_manifest_name(Kind::Tag, path),
    }
}
