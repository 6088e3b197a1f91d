//! Stage 3: the metadata.
ghost use Rattle.std.specs.Prelude.{◌≡◌, IfOk};
ghost use Rattle.bag_text.specs.Order.{IsListOf};
ghost use Rattle.bag_tree.specs.Bag.{Bag};
ghost use Rattle.bag_faults.specs.FaultOrder.{fault_cmp};
ghost use Rattle.bag_facts.specs.FactsOfBag.{IsSaidOfTagFile};
ghost use Rattle.bag_facts.specs.declared.tag_facts.TagFacts.TheVariants as known;
ghost use Rattle.bag_stages.specs.MetadataStage.{IsOfMetadata, bag_info_txt};
ghost use Rattle.bag_stages.specs.Payload.{oxum};
ghost use Rattle.bag_stages.specs.PayloadSize.{listed_oxum};
ghost use Rattle.bag_stages.specs.Found.{AreFaultsOf};

use crate::oxum_faults::{no_oxum, oxum_faults};
use crate::tag_file::line_faults;
use bag_facts::{Facts, Metadata};
use bag_faults::Fault;
use bag_read::TagName;
use bag_text::Text;
use bag_tree::FileEntry;
use std::alloc::{AllocError, Global};

/// The faults of `bag-info.txt` and of the payload's size in it (RFC 8493, 2.2.2), of facts read
/// for more than the declaration. That no `Payload-Oxum` is there is one of them. Fails only where
/// memory runs out.
pub fn metadata_faults(alloc: Global, facts: &Facts) -> Result<Vec<Fault>, AllocError>
    ensures { IfOk result (λ faults. AreFaultsOf facts.now IsOfMetadata faults.items) }
{
    let path = TagName::Info.path(alloc)?;
    match facts.metadata() {
        Some(metadata) => faults_of(alloc, &path, metadata, facts.files()),
        None => no_oxum(alloc, &path),
    }
}

/// The faults of metadata that is there: those of its elements and of its lines stand in line
/// order.
fn faults_of(
    alloc: Global,
    path: &Text,
    metadata: &Metadata,
    files: &[FileEntry],
) -> Result<Vec<Fault>, AllocError>
    ensures { IfOk result (λ faults. (bag : Bag) → path.now ≡ bag_info_txt
        → listed_oxum files.now ≡ oxum bag → IsSaidOfTagFile bag (known.Info metadata.now)
        → IsListOf fault_cmp (IsOfMetadata bag) faults.items) }
{
    let mut faults = oxum_faults(alloc, path, metadata.elements.as_slice(), files)?;
    let mut of_lines = line_faults(
        alloc,
        path,
        None,
        metadata.is_text,
        metadata.faults.as_slice(),
    )?;
    faults.append(&mut of_lines)?;
    faults.sort_unstable();
    Ok(faults)
}
