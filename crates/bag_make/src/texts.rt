//! The tag files that are made.
ghost use Rattle.std.specs.Prelude.{◌≡◌, ◌∷◌, ◌++◌, List, IfOk, map};
ghost use Rattle.std.specs.List.Sorted.{IsStrictlySortedBy};
ghost use Rattle.bag_text.specs.Alg.{rank_cmp};
ghost use Rattle.bag_read.specs.Oxum.{oxum_text};
ghost use Rattle.bag_tree.specs.Listing.{entry_of_file};
ghost use Rattle.bag_tags.specs.Summed.{AreSummed, File};
ghost use Rattle.bag_make.specs.Made as bag;
ghost use Rattle.bag_make.specs.Made.{new_payload};
ghost use Rattle.bag_make.specs.Texts.{info_of, size_of};

use bag_read::{Kind, TagName};
use bag_tags::{
    OXUM_LABEL, SummedFile, TagFile, declaration_file, manifests_of, oxum_value, sum_text,
    sum_texts, write_info,
};
use bag_text::{AlgSet, Items, Text};
use bag_tree::FileEntry;
use std::alloc::{AllocError, Global};

/// The tag files of the bag whose payload these listed files are, with these digests, in the order
/// in which they are written.
pub(crate) fn tag_files(
    alloc: Global,
    listed: &[FileEntry],
    payload: &[SummedFile],
    algs: AlgSet,
    info: &[(Text, Text)],
) -> Result<Vec<TagFile>, AllocError>
    ensures ascend { IsStrictlySortedBy rank_cmp algs }
    ensures files { IfOk result (λ made.
        (files : List File) → map entry_of_file files ≡ listed.now
        → AreSummed algs (new_payload files) payload.now
        → made.items ≡ bag.new_tag_files files algs info.now) }
{
    let members = algs.members(alloc)?;
    let declaration = declaration_file(alloc)?;
    let info = info_file(alloc, listed, info)?;
    let payload_manifests = manifests_of(alloc, Kind::Payload, &members, payload)?;
    let named = named_in_path_order(alloc, &info, &declaration, &payload_manifests, algs)?;
    let tag_manifests = manifests_of(alloc, Kind::Tag, &members, &named)?;
    in_writing_order(alloc, declaration, info, payload_manifests, tag_manifests)
}

/// The tag files that tag manifests name, with their digests, in path order: `bag-info.txt` comes
/// before `bagit.txt`.
fn named_in_path_order(
    alloc: Global,
    info: &TagFile,
    declaration: &TagFile,
    payload_manifests: &[TagFile],
    algs: AlgSet,
) -> Result<Vec<SummedFile>, AllocError>
    ensures { IfOk result (λ named.
        AreSummed algs (info.now ∷ declaration.now ∷ payload_manifests.now) named.items) }
{
    let mut named = Vec::new(alloc);
    named.push(sum_text(alloc, info, algs)?)?;
    named.push(sum_text(alloc, declaration, algs)?)?;
    named.append(&mut sum_texts(alloc, payload_manifests, algs)?)?;
    Ok(named)
}

/// The tag files in the order in which they are written: `bagit.txt` is the first.
fn in_writing_order(
    alloc: Global,
    declaration: TagFile,
    info: TagFile,
    mut payload_manifests: Vec<TagFile>,
    mut tag_manifests: Vec<TagFile>,
) -> Result<Vec<TagFile>, AllocError>
    ensures { IfOk result (λ files. files.items
        ≡ declaration ∷ info ∷ payload_manifests.items ++ tag_manifests.items) }
{
    let mut files = vec![in alloc; declaration, info]?;
    files.append(&mut payload_manifests)?;
    files.append(&mut tag_manifests)?;
    Ok(files)
}

/// `bag-info.txt` with these elements and, last, the size of the payload (RFC 8493, 2.2.2).
fn info_file(
    alloc: Global,
    listed: &[FileEntry],
    info: &[(Text, Text)],
) -> Result<TagFile, AllocError>
    ensures { IfOk result (λ file. file ≡ info_of listed.now info.now) }
{
    let mut elements = copies(alloc, info)?;
    elements.push((Text::from_str(alloc, OXUM_LABEL)?, oxum(alloc, listed)?))?;
    let path = TagName::Info.path(alloc)?;
    // The elements were asked, so that only memory can be wanting.
    match write_info(alloc, &elements) {
        Ok(bytes) => Ok(TagFile {
            path,
            content: Items::from_vec(bytes),
        }),
        Err(_) => Err(AllocError),
    }
}

fn copies(alloc: Global, elements: &[(Text, Text)]) -> Result<Vec<(Text, Text)>, AllocError>
    ensures { IfOk result (λ copies. copies.items ≡ elements.now) }
{
    let mut copies = Vec::new(alloc);
    for element in elements {
        copies.push((element.0.copy(alloc)?, element.1.copy(alloc)?))?;
    }
    Ok(copies)
}

/// The value of `Payload-Oxum`: how many bytes the files have, a dot, and how many they are.
fn oxum(alloc: Global, listed: &[FileEntry]) -> Result<Text, AllocError>
    ensures { IfOk result (λ text. text ≡ oxum_text (size_of listed.now)) }
{
    oxum_value(alloc, octets(listed), listed.len() as u64)
}

/// How many bytes the files have together. Sizes that each fit 64 bits need not fit them together.
fn octets(listed: &[FileEntry]) -> u128
    ensures { result ≡ (size_of listed.now).octets }
{
    let mut octets: u128 = 0;
    for entry in listed {
        octets += u128::from(entry.size);
    }
    octets
}
