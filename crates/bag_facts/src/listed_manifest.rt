//! Whether manifests are listed.
ghost use Rattle.std.specs.Prelude.{◌≡◌, bytes_eq};
ghost use Rattle.std.specs.List.{list_any};
ghost use Rattle.bag_read.specs.ManifestName.{tag_path};
ghost use Rattle.bag_read.specs.declared.tag_name.TagName.TheVariants.{Manifest};

use bag_read::{Kind, TagName};
use bag_text::Alg;
use bag_tree::FileEntry;

/// Whether a manifest is among files.
pub(crate) fn has_manifest(files: &[FileEntry], kind: Kind, alg: Alg) -> bool
    ensures { result
        ≡ list_any (λ file. bytes_eq file.path (tag_path (Manifest kind alg))) files.now }
{
    files
        .iter()
        .any(|file| is_manifest(file.path.as_str(), kind, alg))
}

/// Whether a manifest stands at a path.
fn is_manifest(path: &str, kind: Kind, alg: Alg) -> bool
    ensures { result ≡ bytes_eq path.now (tag_path (Manifest kind alg)) }
{
    match TagName::at(path) {
        Some(name) => name == TagName::Manifest(kind, alg),
        None => false,
    }
}
