//! What is known of one tag file: the declaration, the metadata, the list of files to fetch, or a
//! manifest.
ghost use Rattle.std.specs.Prelude.{◌≡◌, IfOk, ◌↔◌, IsTrue, Contains, MatchOption, Any};
ghost use Rattle.std.specs.Option.{option_copied};
ghost use Rattle.std.specs.List.Sorted.{IsPermutation, IsSortedByKey};
ghost use Rattle.bag_facts.specs.TagFacts.{name_of, text_test, IsParsed, entry_paths, AreByPath};
ghost use Rattle.bag_facts.specs.TagFacts.{IsManifestOf, IsFetchListOf, IsMetadataOf};
ghost use Rattle.std.specs.Ordering.{nat_cmp, on};
ghost use Rattle.bag_read.specs.LineFault.{AreFaults};
ghost use Rattle.bag_read.specs.Manifest.{IsEntry, IsManifestFault};
ghost use Rattle.bag_text.specs.Lines.{lines_of_file};
ghost use Rattle.bag_text.specs.Order.{IsListOf};
ghost use Rattle.bag_text.specs.Text.{text_cmp};
ghost use Rattle.bag_text.specs.declared.code.Code.TheVariants.{NotUtf8};

use crate::tag_reader::TagBytes;
use bag_entries::Pool;
use bag_read::{
    Declaration, Element, FetchEntry, Kind, LineFault, ManifestEntry, Parsed, TagName,
    read_declaration, read_fetch, read_info, read_manifest_among,
};
use bag_text::{Alg, Code, Items, Rules, Text, sort_by_path};
use std::alloc::{AllocError, Global};

/// What is known of a tag file that was read.
#[derive(Debug, Drop)]
pub enum TagFacts {
    /// `bagit.txt` (RFC 8493, 2.1.1).
    Declaration(Declaration),
    /// `bag-info.txt` (RFC 8493, 2.2.2).
    Info(Metadata),
    /// `fetch.txt` (RFC 8493, 2.2.3).
    Fetch(FetchList),
    /// A manifest of a supported algorithm (RFC 8493, 2.1.3 and 2.2.1).
    Manifest(Manifest),
}

impl TagFacts {
    /// What the bytes of a tag file say by the rules.
    pub(crate) fn parse(
        alloc: Global,
        known: &Pool,
        rules: Rules,
        file: TagBytes,
    ) -> Result<TagFacts, AllocError>
        ensures { IfOk result (IsParsed rules file) }
    {
        let TagBytes { name, bytes } = file;
        match name {
            TagName::Declaration => {
                Ok(TagFacts::Declaration(read_declaration(alloc, bytes.as_slice())?))
            }
            TagName::Info => Ok(TagFacts::Info(Metadata::parse(alloc, rules, bytes.as_slice())?)),
            TagName::Fetch => {
                Ok(TagFacts::Fetch(FetchList::parse(alloc, rules, bytes.as_slice())?))
            }
            TagName::Manifest(kind, alg) => {
                Ok(TagFacts::Manifest(Manifest::parse(alloc, known, rules, kind, alg, bytes)?))
            }
        }
    }

    /// The tag file that it is.
    pub fn name(&self) -> TagName
        ensures { result ≡ name_of self.now }
    {
        match self {
            TagFacts::Declaration(_) => TagName::Declaration,
            TagFacts::Info(_) => TagName::Info,
            TagFacts::Fetch(_) => TagName::Fetch,
            TagFacts::Manifest(manifest) => TagName::Manifest(manifest.kind, manifest.alg),
        }
    }

    /// Whether it is UTF-8; `None` for the declaration, whose faults say that.
    pub fn is_text(&self) -> Option<bool>
        ensures { result ≡ text_test self.now }
    {
        match self {
            TagFacts::Declaration(_) => None,
            TagFacts::Info(metadata) => Some(metadata.is_text),
            TagFacts::Fetch(list) => Some(list.is_text),
            TagFacts::Manifest(manifest) => Some(manifest.is_text),
        }
    }
}

/// What is known of one manifest.
#[derive(Debug, Drop)]
pub struct Manifest {
    pub kind: Kind,
    pub alg: Alg,
    /// Whether it is UTF-8.
    pub is_text: bool,
    /// Its entries, in the order of their paths by bytes.
    pub entries: Items<ManifestEntry>,
    /// The faults of its lines, in line order; the one fault of a manifest that isn't UTF-8.
    pub faults: Items<LineFault>,
}

impl Manifest {
    /// What the bytes of a manifest say by the rules. They go before its entries are sorted.
    pub(crate) fn parse(
        alloc: Global,
        known: &Pool,
        rules: Rules,
        kind: Kind,
        alg: Alg,
        bytes: Vec<u8>,
    ) -> Result<Manifest, AllocError>
        ensures kind { IfOk result (λ manifest. manifest.kind ≡ kind) }
        ensures alg { IfOk result (λ manifest. manifest.alg ≡ alg) }
        ensures says { IfOk result (IsManifestOf rules bytes.items) }
    {
        let Parsed { items, faults } = read_manifest_among(
            alloc,
            known,
            rules,
            kind,
            alg,
            bytes.as_slice(),
        )?;
        drop(bytes);
        Ok(Manifest {
            kind,
            alg,
            is_text: is_text(faults.as_slice()),
            entries: sorted_by_path(alloc, items)?,
            faults,
        })
    }

    /// Whether it names a path, found in time log n of its entries.
    pub fn names(&self, path: &Text) -> bool
        ensures { AreByPath self.now.entries
            → IsTrue result ↔ Contains (entry_paths self.now.entries) path.now }
    {
        entry_at(self.entries.as_slice(), path).is_some()
    }
}

/// The entry of a path among entries in the order of their paths, found in time log n of these.
pub(crate) fn entry_at<'a>(entries: &'a [ManifestEntry], path: &Text) -> Option<&'a ManifestEntry>
    ensures { AreByPath entries.now
        → MatchOption (option_copied result) (¬ (Contains (entry_paths entries.now) path.now))
        (λ entry. Contains entries.now entry × (entry.path ≡ path.now)) }
{
    let Ok(place) = entries.binary_search_by(|entry| entry.path.cmp(path)) else {
        return None;
    };
    entries.get(place)
}

/// Entries in the order of their paths.
fn sorted_by_path(
    alloc: Global,
    entries: Items<ManifestEntry>,
) -> Result<Items<ManifestEntry>, AllocError>
    ensures sorted { IfOk result (IsSortedByKey (λ entry. entry.path) text_cmp) }
    ensures permutation { IfOk result (IsPermutation entries) }
{
    let mut entries = entries.into_vec();
    sort_by_path(alloc, &mut entries)?;
    Ok(Items::from_vec(entries))
}

/// What is known of `fetch.txt` (RFC 8493, 2.2.3).
#[derive(Debug, Drop)]
pub struct FetchList {
    /// Whether it is UTF-8.
    pub is_text: bool,
    /// Its entries, in line order.
    pub entries: Items<FetchEntry>,
    /// The faults of its lines, in line order; the one fault of a file that isn't UTF-8.
    pub faults: Items<LineFault>,
}

impl FetchList {
    /// What the bytes of `fetch.txt` say by the rules.
    pub(crate) fn parse(alloc: Global, rules: Rules, bytes: &[u8]) -> Result<FetchList, AllocError>
        ensures { IfOk result (IsFetchListOf rules bytes.now) }
    {
        let Parsed { items, faults } = read_fetch(alloc, rules, bytes)?;
        Ok(FetchList {
            is_text: is_text(faults.as_slice()),
            entries: items,
            faults,
        })
    }
}

/// What is known of `bag-info.txt` (RFC 8493, 2.2.2).
#[derive(Debug, Drop)]
pub struct Metadata {
    /// Whether it is UTF-8.
    pub is_text: bool,
    /// Its elements, in line order.
    pub elements: Items<Element>,
    /// The faults of its lines, in line order; the one fault of a file that isn't UTF-8.
    pub faults: Items<LineFault>,
}

impl Metadata {
    /// What the bytes of `bag-info.txt` say by the rules.
    pub(crate) fn parse(alloc: Global, rules: Rules, bytes: &[u8]) -> Result<Metadata, AllocError>
        ensures { IfOk result (IsMetadataOf rules bytes.now) }
    {
        let Parsed { items, faults } = read_info(alloc, rules, bytes)?;
        Ok(Metadata {
            is_text: is_text(faults.as_slice()),
            elements: items,
            faults,
        })
    }
}

/// Whether a tag file with these faults is UTF-8: one that isn't has a fault which says so.
pub(crate) fn is_text(faults: &[LineFault]) -> bool
    ensures { IsTrue result ↔ ¬ (Any (λ fault. fault.code ≡ NotUtf8) faults.now) }
{
    !faults.iter().any(|fault| fault.code == Code::NotUtf8)
}
