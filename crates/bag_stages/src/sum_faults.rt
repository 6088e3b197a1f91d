//! Stage 7: digests that differ.
ghost use Rattle.std.specs.Prelude.{◌≡◌, ℕ, List, Some, IfOk};
ghost use Rattle.bag_tree.specs.Digest.{digest};
ghost use Rattle.bag_tree.specs.DigestsOf.{sum_at};
ghost use Rattle.bag_stages.specs.Expected.{given};
ghost use Rattle.bag_stages.specs.SumFaults.{differing, differing_code, faults_of_bytes};
ghost use Rattle.bag_stages.specs.SumFaults.{sum_differs, AreSumsBy};
ghost use Rattle.bag_stages.specs.ValidityStage.{expected_and_found};

use crate::Packed;
use crate::expected::kind_of;
use bag_faults::Fault;
use bag_read::Kind;
use bag_text::{Alg, Code, Text};
use bag_tree::{HexFault, Sums};
use std::alloc::{AllocError, Global};

/// The faults of a file whose digests are these: one for each that is another than what a manifest
/// gives, in the order in which they are expected. A digest that is right takes no memory. Fails
/// only where memory runs out.
pub fn faults_by(
    alloc: Global,
    path: &Text,
    expected: &Packed,
    sums: &Sums,
) -> Result<Vec<Fault>, AllocError>
    ensures { IfOk result (λ faults. (content : List ℕ) → AreSumsBy expected.now content sums.now
        → faults.items ≡ faults_of_bytes path.now content expected.now) }
{
    let mut faults = Vec::new(alloc);
    for (alg, digest) in expected.iter() {
        let Some(fault) = fault_by(alloc, path, alg, digest, sums)? else {
            continue;
        };
        faults.push(fault)?;
    }
    Ok(faults)
}

/// The fault of a file whose digest isn't the one that is expected; none where it is, or where it
/// wasn't asked for.
fn fault_by(
    alloc: Global,
    path: &Text,
    alg: Alg,
    expected: &[u8],
    sums: &Sums,
) -> Result<Option<Fault>, AllocError>
    ensures { IfOk result (λ fault. (content : List ℕ)
        → sum_at sums.now alg ≡ Some (digest alg content)
        → fault ≡ differing path.now content (given alg expected.now)) }
{
    if sums.is_digest(alg, expected) {
        return Ok(None);
    }
    match sums.hex(alloc, alg) {
        Ok(found) => Ok(Some(sum_differs(alloc, path, alg, expected, found.as_str())?)),
        Err(HexFault::NotAsked) => Ok(None),
        Err(HexFault::Memory) => Err(AllocError),
    }
}

/// The fault of a file whose digest was found to be another than the one that is expected.
fn sum_differs(
    alloc: Global,
    path: &Text,
    alg: Alg,
    expected: &[u8],
    found: &str,
) -> Result<Fault, AllocError>
    ensures { IfOk result (λ fault.
        fault ≡ sum_differs path.now (given alg expected.now) found.now) }
{
    let expected = hex::encode(alloc, expected)?;
    let code = differing_code(kind_of(path.as_str()));
    let detail = expected_and_found(alloc, expected.as_str(), found)?;
    let fault = Fault::about(alloc, code, path)?;
    Ok(fault.of(Some(alg)).with(detail))
}

/// What a file is whose digest isn't the one that a manifest of a kind gives.
fn differing_code(kind: Kind) -> Code
    ensures { result ≡ differing_code kind }
{
    match kind {
        Kind::Payload => Code::PayloadSumDiffers,
        Kind::Tag => Code::TagSumDiffers,
    }
}

/// The digest that was expected, a colon, and the digest that was found.
fn expected_and_found(alloc: Global, expected: &str, found: &str) -> Result<Text, AllocError>
    ensures { IfOk result (λ text. text ≡ expected_and_found expected.now found.now) }
{
    let length = expected.len().saturating_add(found.len()).saturating_add(1);
    let mut text = String::with_capacity(alloc, length)?;
    text.push_str(expected)?;
    text.push(':')?;
    text.push_str(found)?;
    Ok(Text::from_string(text))
}
