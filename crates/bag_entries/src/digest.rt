//! Digests that manifests give (RFC 8493, 2.4).
ghost use Rattle.std.specs.Prelude.{◌≡◌, ◌*◌, ◌<◌, true, length, slice_index, IfOk};
ghost use Rattle.std.specs.Char.{is_ascii_hexdigit, to_ascii_lowercase};
ghost use Rattle.std.specs.List.{list_all};
ghost use Rattle.std.specs.Str.{str_to_ascii_lowercase};
ghost use Rattle.hex.specs.Hex.{encode_lower, lower_digits};
ghost use Rattle.bag_text.specs.Alg.{hex_len};

use bag_text::{Alg, Text};
use std::alloc::{AllocError, Global};
use std::marker::Model;

/// A digest that a manifest gives, seen by contracts as its text in lower-case hex. It takes as
/// much memory as its algorithm needs, and one of more than 32 bytes has memory of its own.
#[derive(Debug, Drop)]
pub struct Digest {
    spelled: Spelled,
}

/// The bytes that a digest spells, by its algorithm.
#[derive(Debug, Drop)]
enum Spelled {
    Md5([u8; 16]),
    Sha1([u8; 20]),
    Sha224([u8; 28]),
    Sha256([u8; 32]),
    Sha384(Box<[u8; 48]>),
    Sha512(Box<[u8; 64]>),
}

impl Model for Digest {
    ghost use Rattle.std.specs.Prelude.{ℕ, List};
    ghost use Rattle.hex.specs.Hex.{encode_lower};
    ghost use Rattle.bag_entries.specs.Spelled.{spelled_bytes};

    ghost Value = { List ℕ };

    ghost view = { λ digest. encode_lower (spelled_bytes digest.spelled) };
}

impl Digest {
    /// The digest of an algorithm that hex digits of either case spell.
    pub fn of_digits(alloc: Global, alg: Alg, digits: &[u8]) -> Result<Digest, AllocError>
        requires digits { list_all is_ascii_hexdigit digits.now ≡ true }
        requires len { length digits.now ≡ hex_len alg }
        ensures { IfOk result (λ digest. digest ≡ str_to_ascii_lowercase digits.now) }
    {
        let spelled = match alg {
            Alg::Md5 => Spelled::Md5(bytes_of(digits)),
            Alg::Sha1 => Spelled::Sha1(bytes_of(digits)),
            Alg::Sha224 => Spelled::Sha224(bytes_of(digits)),
            Alg::Sha256 => Spelled::Sha256(bytes_of(digits)),
            Alg::Sha384 => Spelled::Sha384(Box::new(alloc, bytes_of(digits))?),
            Alg::Sha512 => Spelled::Sha512(Box::new(alloc, bytes_of(digits))?),
        };
        Ok(Digest { spelled })
    }

    /// The bytes that it spells.
    pub fn bytes(&self) -> &[u8]
        ensures { encode_lower result.now ≡ self.now }
    {
        match &self.spelled {
            Spelled::Md5(bytes) => bytes,
            Spelled::Sha1(bytes) => bytes,
            Spelled::Sha224(bytes) => bytes,
            Spelled::Sha256(bytes) => bytes,
            Spelled::Sha384(bytes) => &**bytes,
            Spelled::Sha512(bytes) => &**bytes,
        }
    }

    /// Its text.
    pub fn to_text(&self, alloc: Global) -> Result<Text, AllocError>
        ensures { IfOk result (λ text. text ≡ self.now) }
    {
        Ok(Text::from_string(hex::encode(alloc, self.bytes())?))
    }
}

/// The bytes that so many pairs of hex digits of either case spell.
fn bytes_of<const COUNT: usize>(digits: &[u8]) -> [u8; COUNT]
    requires digits { list_all is_ascii_hexdigit digits.now ≡ true }
    requires pairs { length digits.now ≡ 2 * COUNT }
    ensures { encode_lower result ≡ str_to_ascii_lowercase digits.now }
{
    let mut bytes = [0; COUNT];
    read_pairs(digits, &mut bytes);
    bytes
}

/// Reads the bytes that pairs of hex digits of either case spell.
fn read_pairs(digits: &[u8], bytes: &mut [u8])
    requires digits { list_all is_ascii_hexdigit digits.now ≡ true }
    requires pairs { length digits.now ≡ 2 * length bytes.old }
    ensures { encode_lower bytes.new ≡ str_to_ascii_lowercase digits.now }
{
    for k in 0..bytes.len() {
        bytes[k] = value(digits[2 * k]) * 16 + value(digits[2 * k + 1]);
    }
}

/// The value of a hex digit. It takes no branch, as none could be predicted in a digest.
fn value(digit: u8) -> u8
    requires { is_ascii_hexdigit digit ≡ true }
    ensures small { result < 16 }
    ensures digit { slice_index lower_digits result ≡ to_ascii_lowercase digit }
{
    digit % 16 + 9 * (digit / 64)
}
