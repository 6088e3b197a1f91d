//! Faults of the lines of one tag file.
ghost use Rattle.std.specs.Prelude.{◌≡◌, [], IfOk, map, if◌then◌else◌};
ghost use Rattle.bag_stages.specs.FaultPlaces.{in_file};

use bag_faults::Fault;
use bag_read::LineFault;
use bag_text::{Alg, Text};
use std::alloc::{AllocError, Global};

/// The faults of a tag file's lines as faults of the bag, in their order.
pub(crate) fn faults_in_file(
    alloc: Global,
    path: &Text,
    alg: Option<Alg>,
    faults: &[LineFault],
) -> Result<Vec<Fault>, AllocError>
    ensures { IfOk result (λ all. all.items ≡ map (in_file path.now alg) faults.now) }
{
    let mut all = Vec::with_capacity(alloc, faults.len())?;
    for fault in faults {
        all.push(fault_in_file(alloc, path, alg, fault)?)?;
    }
    Ok(all)
}

/// The faults of the lines of a tag file, which has none where it isn't UTF-8.
pub(crate) fn line_faults(
    alloc: Global,
    path: &Text,
    alg: Option<Alg>,
    is_text: bool,
    faults: &[LineFault],
) -> Result<Vec<Fault>, AllocError>
    ensures { IfOk result (λ all.
        all.items ≡ (if is_text then map (in_file path.now alg) faults.now else [])) }
{
    if !is_text {
        return Ok(Vec::new(alloc));
    }
    faults_in_file(alloc, path, alg, faults)
}

/// A fault of a tag file's line as a fault of the bag.
fn fault_in_file(
    alloc: Global,
    path: &Text,
    alg: Option<Alg>,
    fault: &LineFault,
) -> Result<Fault, AllocError>
    ensures { IfOk result (λ one. one ≡ in_file path.now alg fault.now) }
{
    let detail = fault.detail.copy(alloc)?;
    let of_file = Fault::about(alloc, fault.code, path)?;
    Ok(of_file.of(alg).at(fault.line).with(detail))
}
