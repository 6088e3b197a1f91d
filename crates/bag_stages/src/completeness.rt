//! Stage 6: completeness, and clashes of names.
ghost use Rattle.std.specs.Prelude.{IfOk};
ghost use Rattle.bag_stages.specs.ClashStage.{IsSoughtClash};
ghost use Rattle.bag_stages.specs.CompletenessFaults.{IsIncomplete, IsSoughtInStageSix};
ghost use Rattle.bag_stages.specs.Found.{AreFaultsOf, AreEachOnceOf};

use crate::appended::appended;
use crate::clashes::clash_faults;
use crate::left_out::left_out_by_all;
use crate::missing::missing_tag_files;
use crate::payload_named::payload_faults;
use bag_facts::Facts;
use bag_faults::Fault;
use std::alloc::{AllocError, Global};

/// The faults of completeness (RFC 8493, 3), of facts read for more than the declaration, and where
/// the options ask for them the clashes of names. Fails only where memory runs out.
pub fn completeness_faults(alloc: Global, facts: &Facts) -> Result<Vec<Fault>, AllocError>
    ensures { IfOk result (λ faults.
        AreFaultsOf facts.now (IsSoughtInStageSix facts.now.options.clashes) faults.items) }
{
    let of_files = faults_of_files(alloc, facts)?;
    let of_names = clashes_if_set(alloc, facts)?;
    let mut faults = appended(of_files, of_names)?;
    // The lists one behind the other ascend each, and the sort merges such runs.
    faults.sort()?;
    Ok(faults)
}

/// The faults that files are missing or aren't listed, one manifest after another, and last those
/// of all payload manifests.
fn faults_of_files(alloc: Global, facts: &Facts) -> Result<Vec<Fault>, AllocError>
    ensures { IfOk result (λ faults. AreEachOnceOf facts.now IsIncomplete faults.items) }
{
    let of_payload = payload_faults(alloc, facts)?;
    let of_tags = missing_tag_files(alloc, facts)?;
    let of_manifests = appended(of_payload, of_tags)?;
    let of_all = left_out_by_all(alloc, facts)?;
    appended(of_manifests, of_all)
}

/// The clashes of names where the options ask for them, and else none, in the order of their paths.
/// The facts are read for more than the declaration. Fails only where memory runs out.
fn clashes_if_set(alloc: Global, facts: &Facts) -> Result<Vec<Fault>, AllocError>
    ensures { IfOk result (λ faults.
        AreFaultsOf facts.now (IsSoughtClash facts.now.options.clashes) faults.items) }
{
    let is_asked = facts.options().clashes;
    if is_asked {
        clash_faults(alloc, facts)
    } else {
        Ok(Vec::new(alloc))
    }
}
