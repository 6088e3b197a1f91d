//! Digests that are done, and how they are spelled.
ghost use Rattle.std.specs.Prelude.{◌≡◌, ◌≤◌, ◌↔◌, length, Some, None, MatchOption, IsTrue, IfOk};
ghost use Rattle.std.specs.Prelude.{IsErrOf, string_bytes};
ghost use Rattle.hex.specs.Hex.{encode_lower};
ghost use Rattle.bag_tree.specs.DigestsOf.{sum_at};
ghost use Rattle.bag_tree.specs.Sums.{hex_digests};
ghost use Rattle.bag_tree.specs.declared.sums.HexFault.TheVariants.{NotAsked};

use crate::hasher::MOST_BYTES;
use bag_text::{Alg, said};
use std::alloc::{AllocError, Global};
use std::marker::Model;
use thiserror::Error;

/// Why a digest isn't spelled.
#[derive(Clone, Copy, Debug, PartialEq, Eq, Error)]
pub enum HexFault {
    /// The algorithm wasn't asked for.
    #[error("the algorithm wasn't asked for")]
    NotAsked,
    /// Memory ran out.
    #[error("{why}", why = said::OUT_OF_MEMORY)]
    Memory,
}

impl From<AllocError> for HexFault {
    ghost use Rattle.bag_tree.specs.declared.sums.HexFault.TheVariants.{Memory};

    ghost from_gives = { λ _ e. e ≡ Memory };

    fn from(_: AllocError) -> Self {
        HexFault::Memory
    }
}

/// The digests of bytes by the algorithms that were asked for. Contracts see them as a list with a
/// place for each algorithm, in their order: its digest in lower-case hex, or nothing.
#[derive(Debug, Drop)]
pub struct Sums {
    digests: [Option<[u8; MOST_BYTES]>; Alg::ALL.len()],
}

impl Model for Sums {
    ghost use Rattle.std.specs.Prelude.{List, Option, ℕ};
    ghost use Rattle.bag_tree.specs.Sums.{hex_digests};

    ghost Value = { List (Option (List ℕ)) };

    ghost view = { hex_digests };
}

impl Sums {
    /// Digests by the algorithms in their order, each with zeros after it.
    pub(crate) fn new(digests: [Option<[u8; MOST_BYTES]>; Alg::ALL.len()]) -> Sums
        ensures { result ≡ hex_digests (record { digests = digests }) }
    {
        Sums { digests }
    }

    /// The digest by this algorithm, in lower-case hex (RFC 8493, 2.4).
    pub fn hex(&self, alloc: Global, alg: Alg) -> Result<String, HexFault>
        ensures text { IfOk result (λ text. sum_at self.now alg ≡ Some (string_bytes text)) }
        ensures not_asked { IsErrOf result NotAsked ↔ (sum_at self.now alg ≡ None) }
    {
        match self.bytes(alg) {
            Some(bytes) => Ok(hex::encode(alloc, bytes)?),
            None => Err(HexFault::NotAsked),
        }
    }

    /// Whether the algorithm was asked for, and the text is its digest in lower-case hex. It takes
    /// no memory, so that a digest that is right costs none.
    pub fn is_spelled(&self, alg: Alg, text: &str) -> bool
        ensures { IsTrue result ↔ (sum_at self.now alg ≡ Some text.now) }
    {
        match self.bytes(alg) {
            Some(bytes) => is_hex(bytes, text.as_bytes()),
            None => false,
        }
    }

    /// Whether the algorithm was asked for, and its digest is these bytes.
    pub fn is_digest(&self, alg: Alg, bytes: &[u8]) -> bool
        ensures { IsTrue result ↔ (sum_at self.now alg ≡ Some (encode_lower bytes.now)) }
    {
        match self.bytes(alg) {
            Some(found) => are_same(found, bytes),
            None => false,
        }
    }

    /// The digest by this algorithm.
    fn bytes(&self, alg: Alg) -> Option<&[u8]>
        ensures { MatchOption result (sum_at self.now alg ≡ None) (λ bytes.
            (length bytes.now ≤ 64) × (sum_at self.now alg ≡ Some (encode_lower bytes.now))) }
    {
        let digest = self.digests[usize::from(alg.rank()) - 1].as_ref()?;
        Some(&digest[..alg.hex_len() / 2])
    }
}

/// Whether both are spelled in one way.
fn are_same(found: &[u8], bytes: &[u8]) -> bool
    ensures { IsTrue result ↔ (encode_lower found.now ≡ encode_lower bytes.now) }
{
    found == bytes
}

/// Whether the text is the bytes in lower-case hex.
fn is_hex(bytes: &[u8], text: &[u8]) -> bool
    requires { length bytes.now ≤ 64 }
    ensures { IsTrue result ↔ (encode_lower bytes.now ≡ text.now) }
{
    let mut buffer = [0; 2 * MOST_BYTES];
    let digits = &mut buffer[..2 * bytes.len()];
    match hex::encode_to_slice(bytes, digits) {
        Ok(()) => &*digits == text,
        Err(_) => false,
    }
}
