//! Stage 2: the parts of a bag.
ghost use Rattle.std.specs.Prelude.{◌≡◌, ◌≢◌, ◌∷◌, ◌++◌, ◌↔◌, ℕ, List, [], IsTrue, IfOk};
ghost use Rattle.std.specs.Prelude.{MatchOption, Some, false, if◌then◌else◌};
ghost use Rattle.std.specs.List.Sorted.{IsStrictlySortedBy};
ghost use Rattle.bag_text.specs.Order.{IsListOf};
ghost use Rattle.bag_text.specs.Only.{IsOnly};
ghost use Rattle.bag_text.specs.Text.{text_cmp};
ghost use Rattle.bag_text.specs.declared.code.Code.TheVariants.{NoPayloadFolder, NoPayloadManifest};
ghost use Rattle.bag_read.specs.ManifestName.{is_alg_text, manifest_name};
ghost use Rattle.bag_read.specs.declared.kind.Kind.{Kind};
ghost use Rattle.bag_tree.specs.Bag.{Bag};
ghost use Rattle.bag_faults.specs.FaultAt.{of_bag};
ghost use Rattle.bag_faults.specs.FaultOrder.{fault_cmp};
ghost use Rattle.bag_facts.specs.TagFacts.{name_of, text_test};
ghost use Rattle.bag_facts.specs.Wanted.{paths_of};
ghost use Rattle.bag_stages.specs.FileFaults.{AreTagsOf, ListsPayloadManifest, HasTextless};
ghost use Rattle.bag_stages.specs.FileFaults.{IsUnsupported, IsFileFault, IsFaultAmong};
ghost use Rattle.bag_stages.specs.PartsStage.{IsOfParts};
ghost use Rattle.bag_stages.specs.TagFiles.{HasNoText};
ghost use Rattle.bag_stages.specs.Found.{AreFaultsOf};

use bag_facts::{Facts, TagFacts};
use bag_faults::Fault;
use bag_read::{Kind, TagName, manifest_alg};
use bag_text::{Alg, Code, Text};
use bag_tree::FileEntry;
use std::alloc::{AllocError, Global};

/// The faults of the bag's parts (RFC 8493, 2.1, 2.3 and 2.4), of facts read for more than the
/// declaration. Fails only where memory runs out.
pub fn parts_faults(alloc: Global, facts: &Facts) -> Result<Vec<Fault>, AllocError>
    ensures { IfOk result (λ faults. AreFaultsOf facts.now IsOfParts faults.items) }
{
    let files = facts.files();
    let mut faults = missing_parts(alloc, facts.listing.has_data, has_payload_manifest(files))?;
    let mut of_files = file_faults(alloc, files, facts.tags.as_slice())?;
    faults.append(&mut of_files)?;
    Ok(faults)
}

/// What a bag needs, and isn't there: the payload folder, a payload manifest.
fn missing_parts(
    alloc: Global,
    has_data: bool,
    has_manifest: bool,
) -> Result<Vec<Fault>, AllocError>
    ensures { IfOk result (λ faults. faults.items ≡
        (if has_data then [] else of_bag NoPayloadFolder ∷ [])
        ++ (if has_manifest then [] else of_bag NoPayloadManifest ∷ [])) }
{
    let mut faults = Vec::new(alloc);
    if !has_data {
        faults.push(Fault::of_bag(alloc, Code::NoPayloadFolder))?;
    }
    if !has_manifest {
        faults.push(Fault::of_bag(alloc, Code::NoPayloadManifest))?;
    }
    Ok(faults)
}

/// Whether a payload manifest is listed, of any algorithm.
fn has_payload_manifest(files: &[FileEntry]) -> bool
    ensures listed { IsTrue result → ListsPayloadManifest files.now }
    ensures not_listed { ListsPayloadManifest files.now → IsTrue result }
{
    files.iter().any(|entry| manifest_alg(Kind::Payload, entry.path.as_str()).is_some())
}

/// The faults of listed files.
fn file_faults(
    alloc: Global,
    files: &[FileEntry],
    tags: &[TagFacts],
) -> Result<Vec<Fault>, AllocError>
    ensures { IfOk result (λ faults. (bag : Bag) → AreTagsOf bag tags.now
        → IsStrictlySortedBy text_cmp (paths_of files.now)
        → IsListOf fault_cmp (IsFaultAmong bag (paths_of files.now)) faults.items) }
{
    let mut faults = Vec::new(alloc);
    for entry in files {
        if let Some(fault) = file_fault(alloc, tags, &entry.path)? {
            faults.push(fault)?;
        }
    }
    Ok(faults)
}

/// The fault of a listed file, if it has one: a manifest whose algorithm isn't supported isn't
/// read, and so a file has one at most.
fn file_fault(alloc: Global, tags: &[TagFacts], path: &Text) -> Result<Option<Fault>, AllocError>
    ensures { IfOk result (λ fault. (bag : Bag) → AreTagsOf bag tags.now
        → IsOnly (λ f. (f.path ≡ path.now) × IsFileFault bag f) fault) }
{
    if let Some(alg) = unsupported(path.as_str()) {
        let detail = Text::from_str(alloc, alg)?;
        let fault = Fault::about(alloc, Code::AlgorithmUnsupported, path)?;
        return Ok(Some(fault.with(detail)));
    }
    if has_no_text(tags, path.as_str()) {
        return Ok(Some(Fault::about(alloc, Code::NotUtf8, path)?));
    }
    Ok(None)
}

/// Whether a path is that of a tag file that was read, and isn't UTF-8.
fn has_no_text(tags: &[TagFacts], path: &str) -> bool
    ensures { (bag : Bag) → AreTagsOf bag tags.now → IsTrue result ↔ HasNoText bag path.now }
{
    match TagName::at(path) {
        None => false,
        Some(name) => is_textless(tags, name),
    }
}

/// Whether a tag file was read, and isn't UTF-8.
fn is_textless(tags: &[TagFacts], name: TagName) -> bool
    ensures found { IsTrue result → HasTextless tags.now name }
    ensures none { HasTextless tags.now name → IsTrue result }
{
    tags.iter().any(|tag| lacks_text(tag, name))
}

/// Whether this was read of a tag file, and isn't UTF-8.
fn lacks_text(tag: &TagFacts, name: TagName) -> bool
    ensures { IsTrue result ↔ ((name_of tag.now ≡ name) × (text_test tag.now ≡ Some false)) }
{
    tag.name() == name && tag.is_text() == Some(false)
}

/// The text of the algorithm in the name of a manifest, where the algorithm isn't supported.
fn unsupported(path: &str) -> Option<&str>
    ensures { MatchOption result
        ((alg : List ℕ) → ¬ (IsUnsupported path.now alg))
        (λ alg. IsUnsupported path.now alg.now) }
{
    let Some(alg) = alg_text(path) else {
        return None;
    };
    match Alg::from_name(alg) {
        None => Some(alg),
        Some(_) => None,
    }
}

/// The text of the algorithm in the name of a manifest.
fn alg_text(path: &str) -> Option<&str>
    ensures { MatchOption result
        ((kind : Kind) (alg : List ℕ) → IsTrue (is_alg_text alg)
        → path.now ≢ manifest_name kind alg)
        (λ alg. (kind : Kind) × IsTrue (is_alg_text alg.now)
        × (path.now ≡ manifest_name kind alg.now)) }
{
    if let Some(alg) = manifest_alg(Kind::Payload, path) {
        return Some(alg);
    }
    manifest_alg(Kind::Tag, path)
}
