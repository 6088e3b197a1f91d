//! The tag files that the checks read, by their names.
ghost use Rattle.std.specs.Prelude.{◌≡◌, ◌≢◌, IfOk, IsTrue, MatchOption, Some, slice_get};
ghost use Rattle.std.specs.Str.{byte};
ghost use Rattle.bag_text.specs.declared.alg.Alg.{Alg};
ghost use Rattle.bag_read.specs.ManifestName.{tag_path};
ghost use Rattle.bag_read.specs.declared.tag_name.TagName.{TagName};
ghost use Rattle.bag_read.specs.declared.tag_name.TagName.TheVariants.{Manifest};

use crate::manifest_name::{SUFFIX, prefix};
use crate::{Kind, manifest_alg};
use bag_text::{Alg, Text};
use std::alloc::{AllocError, Global};
use std::fmt;

/// The name of the declaration (RFC 8493, 2.1.1).
pub const DECLARATION: &str = "bagit.txt";

/// The name of the metadata (RFC 8493, 2.2.2).
pub const INFO: &str = "bag-info.txt";

const FETCH: &str = "fetch.txt";

/// A tag file that the checks read (RFC 8493, 2.1 and 2.2).
#[derive(Clone, Copy, Debug, PartialEq, Eq)]
pub enum TagName {
    /// `bagit.txt` (2.1.1).
    Declaration,
    /// `bag-info.txt` (2.2.2).
    Info,
    /// `fetch.txt` (2.2.3).
    Fetch,
    /// A manifest of this kind and algorithm (2.1.3 and 2.2.1).
    Manifest(Kind, Alg),
}

impl TagName {
    /// The tag file that stands at this path of a bag, or `None` where it is none of these.
    pub fn at(path: &str) -> Option<TagName>
        ensures { MatchOption result ((name : TagName) → tag_path name ≢ path.now) (λ name.
            tag_path name ≡ path.now) }
    {
        if begins_as_payload(path) {
            None
        } else if path == DECLARATION {
            Some(TagName::Declaration)
        } else if path == INFO {
            Some(TagName::Info)
        } else if path == FETCH {
            Some(TagName::Fetch)
        } else {
            manifest_at(Kind::Payload, path).or(manifest_at(Kind::Tag, path))
        }
    }

    /// Its path in a bag: a name in the base folder, UTF-8.
    pub fn path(self, alloc: Global) -> Result<Text, AllocError>
        ensures { IfOk result (λ path. path ≡ tag_path self) }
    {
        Ok(Text::from_string(self.to_string(alloc)?))
    }
}

impl fmt::Display for TagName {
    ghost output = { λ name. Some (tag_path name) };

    fn fmt<W: fmt::Write>(&self, f: &mut fmt::Formatter<W>) -> fmt::Result {
        match self {
            TagName::Declaration => write!(f, "{DECLARATION}"),
            TagName::Info => write!(f, "{INFO}"),
            TagName::Fetch => write!(f, "{FETCH}"),
            TagName::Manifest(kind, alg) => write!(f, "{}{}{SUFFIX}", prefix(*kind), alg.name()),
        }
    }
}

/// Whether a path begins with a `d`, as that of no tag file does, but that of each payload file.
fn begins_as_payload(path: &str) -> bool
    ensures { IsTrue result → slice_get path.now 0 ≡ Some (byte "d") }
{
    match path.as_bytes().first() {
        Some(first) => *first == b'd',
        None => false,
    }
}

/// The manifest of this kind that stands at a path.
fn manifest_at(kind: Kind, path: &str) -> Option<TagName>
    ensures { MatchOption result ((alg : Alg) → tag_path (Manifest kind alg) ≢ path.now) (λ name.
        tag_path name ≡ path.now) }
{
    let alg = Alg::from_name(manifest_alg(kind, path)?)?;
    Some(TagName::Manifest(kind, alg))
}
