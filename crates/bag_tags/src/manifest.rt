//! Manifests (RFC 8493, 2.1.3 and 2.2.1).
ghost use Rattle.std.specs.Prelude.{◌≡◌, IfOk, OnErr, OnOk, IsErrOf, IsTrue, string_bytes};
ghost use Rattle.std.specs.List.{list_any};
ghost use Rattle.bag_tags.specs.Entry as spec;
ghost use Rattle.bag_tags.specs.Writable as writable;
ghost use Rattle.bag_tags.specs.Line.{AddsLine, AddsPartOfLine};

use crate::WriteFault;
use crate::distinct::are_paths_distinct;
use crate::entry::is_bad_entry;
use crate::line::push_line;
use crate::spelling::spell_path;
use bag_read::Kind;
use bag_text::{Alg, Rules, Text};
use std::alloc::{AllocError, Global};

/// What stands between a digest and its path.
const SEPARATOR: &str = "  ";

/// The bytes of a manifest of an algorithm with these digests and the paths that they are of, in
/// this order: a line for each with the digest, two spaces, and the path, in which LF, CR and `%`
/// are escaped (RFC 8493, 2.1.3 and 2.2.1). `BadValue` where a digest isn't lower-case hex of the
/// algorithm's length, where a text isn't a path that a manifest of this kind may name, where a
/// path begins with `*`, a space or a tab, and where it stands earlier in the list. All but the
/// last is found before memory is taken. Takes time n log n in the number of entries.
pub fn write_manifest(
    alloc: Global,
    kind: Kind,
    alg: Alg,
    entries: &[(Text, Text)],
) -> Result<Vec<u8>, WriteFault>
    ensures text { IfOk result (λ bytes. writable.CanWrite kind alg entries.now
        × (bytes.items ≡ spec.manifest_text entries.now)) }
    ensures bad { IsErrOf result WriteFault.BadValue → ¬ (writable.CanWrite kind alg entries.now) }
    ensures bad_entry { IsTrue (list_any (writable.is_bad_entry kind alg) entries.now)
        → IsErrOf result WriteFault.BadValue }
{
    write_manifest_by(alloc, Rules::V10, kind, alg, entries)
}

/// The same by the rules of a version, which spell the paths. By those of 0.97 LF and CR alone are
/// escaped, and `BadValue` comes also where a path has `%0A` or `%0D` in it, in either case, since
/// it would be read as the end of a line.
pub fn write_manifest_by(
    alloc: Global,
    rules: Rules,
    kind: Kind,
    alg: Alg,
    entries: &[(Text, Text)],
) -> Result<Vec<u8>, WriteFault>
    ensures text { IfOk result (λ bytes. writable.CanWriteBy rules kind alg entries.now
        × (bytes.items ≡ spec.manifest_text_by rules entries.now)) }
    ensures bad { IsErrOf result WriteFault.BadValue
        → ¬ (writable.CanWriteBy rules kind alg entries.now) }
    ensures bad_entry { IsTrue (list_any (writable.is_bad_entry_by rules kind alg) entries.now)
        → IsErrOf result WriteFault.BadValue }
{
    if has_bad_entry(rules, kind, alg, entries) || !are_paths_distinct(alloc, entries)? {
        return Err(WriteFault::BadValue);
    }
    let text = manifest_text(alloc, rules, entries)?;
    Ok(text.into_bytes())
}

fn has_bad_entry(rules: Rules, kind: Kind, alg: Alg, entries: &[(Text, Text)]) -> bool
    ensures { result ≡ list_any (writable.is_bad_entry_by rules kind alg) entries.now }
{
    entries
        .iter()
        .any(|entry| is_bad_entry(rules, kind, alg, entry))
}

fn manifest_text(
    alloc: Global,
    rules: Rules,
    entries: &[(Text, Text)],
) -> Result<String, AllocError>
    ensures { IfOk result (λ text. string_bytes text ≡ spec.manifest_text_by rules entries.now) }
{
    let mut text = String::new(alloc);
    for entry in entries {
        push_entry_by(alloc, rules, &mut text, entry.0.as_str(), entry.1.as_str())?;
    }
    Ok(text)
}

/// Adds the line of a digest and the path that it is of: the digest, two spaces, and the path, in
/// which LF, CR and `%` are escaped (RFC 8493, 2.1.3 and 2.2.1). It doesn't ask whether they are
/// read again. Where memory runs out, a part of the line may stand there.
pub fn push_entry(
    alloc: Global,
    text: &mut String,
    digest: &str,
    path: &str,
) -> Result<(), AllocError>
    ensures written { OnOk result (AddsLine
        (spec.entry_line (digest.now, path.now)) (string_bytes text.old) (string_bytes text.new)) }
    ensures refused { OnErr result (AddsPartOfLine
        (spec.entry_line (digest.now, path.now)) (string_bytes text.old) (string_bytes text.new)) }
{
    push_entry_by(alloc, Rules::V10, text, digest, path)
}

/// The same by the rules of a version, which spell the path: by those of 0.97 LF and CR alone are
/// escaped, and a path that `is_unnameable` by them isn't read again.
pub(crate) fn push_entry_by(
    alloc: Global,
    rules: Rules,
    text: &mut String,
    digest: &str,
    path: &str,
) -> Result<(), AllocError>
    ensures written { OnOk result (AddsLine (spec.entry_line_by rules (digest.now, path.now))
        (string_bytes text.old) (string_bytes text.new)) }
    ensures refused { OnErr result (AddsPartOfLine (spec.entry_line_by rules (digest.now, path.now))
        (string_bytes text.old) (string_bytes text.new)) }
{
    let spelled = spell_path(alloc, rules, path)?;
    push_line(text, digest, SEPARATOR, spelled.as_str())
}
