//! A hash function in the midst of a message. Each algorithm stands in this file alone.
ghost use Rattle.std.specs.Prelude.{◌≡◌, ℕ, List, [], ◌++◌, ◌≤◌, length, take};
ghost use Rattle.bag_text.specs.declared.alg.Alg.{Alg as AlgValue};
ghost use Rattle.bag_tree.specs.Digest.{hash};
ghost use Rattle.bag_tree.specs.DigestsOf.{hash_len};
ghost use Rattle.bag_tree.specs.Hasher.{HoldsMessage};

use bag_text::Alg;
use md5::Md5;
use sha1::Sha1;
use sha2::{Sha224, Sha256, Sha384, Sha512};

/// How many bytes the longest digest has.
pub(crate) const MOST_BYTES: usize = 64;

/// A hash function that takes its message piece by piece.
#[derive(Drop)]
pub(crate) enum Hasher {
    Md5(Md5),
    Sha1(Sha1),
    Sha224(Sha224),
    Sha256(Sha256),
    Sha384(Sha384),
    Sha512(Sha512),
}

impl Hasher {
    /// A hasher of the empty message.
    pub(crate) fn new(alg: Alg) -> Hasher
        ensures { HoldsMessage alg result [] }
    {
        match alg {
            Alg::Md5 => Hasher::Md5(md5::Digest::new()),
            Alg::Sha1 => Hasher::Sha1(Sha1::new()),
            Alg::Sha224 => Hasher::Sha224(sha2::Digest::new()),
            Alg::Sha256 => Hasher::Sha256(sha2::Digest::new()),
            Alg::Sha384 => Hasher::Sha384(sha2::Digest::new()),
            Alg::Sha512 => Hasher::Sha512(sha2::Digest::new()),
        }
    }

    /// Puts bytes at the end of the message.
    pub(crate) fn update(&mut self, bytes: &[u8])
        ensures { (alg : AlgValue) (message : List ℕ) → HoldsMessage alg self.old message
            → HoldsMessage alg self.new (message ++ bytes.now) }
    {
        match self {
            Hasher::Md5(hasher) => md5::Digest::update(hasher, bytes),
            Hasher::Sha1(hasher) => hasher.update(bytes),
            Hasher::Sha224(hasher) => sha2::Digest::update(hasher, bytes),
            Hasher::Sha256(hasher) => sha2::Digest::update(hasher, bytes),
            Hasher::Sha384(hasher) => sha2::Digest::update(hasher, bytes),
            Hasher::Sha512(hasher) => sha2::Digest::update(hasher, bytes),
        }
    }

    /// The digest of the message, with zeros after it.
    pub(crate) fn finish(self) -> [u8; MOST_BYTES]
        ensures { (alg : AlgValue) (message : List ℕ) → HoldsMessage alg self message
            → take (hash_len alg) result ≡ hash alg message }
    {
        match self {
            Hasher::Md5(hasher) => padded(&md5::Digest::finalize(hasher)),
            Hasher::Sha1(hasher) => padded(&hasher.finalize()),
            Hasher::Sha224(hasher) => padded(&sha2::Digest::finalize(hasher)),
            Hasher::Sha256(hasher) => padded(&sha2::Digest::finalize(hasher)),
            Hasher::Sha384(hasher) => padded(&sha2::Digest::finalize(hasher)),
            Hasher::Sha512(hasher) => padded(&sha2::Digest::finalize(hasher)),
        }
    }
}

/// The bytes, with zeros after them.
fn padded(bytes: &[u8]) -> [u8; MOST_BYTES]
    requires { length bytes.now ≤ 64 }
    ensures { take (length bytes.now) result ≡ bytes.now }
{
    let mut result = [0; MOST_BYTES];
    result[..bytes.len()].copy_from_slice(bytes);
    result
}
