//! The value of `Payload-Oxum` (RFC 8493, 2.2.2).
ghost use Rattle.std.specs.Prelude.{◌≡◌};
ghost use Rattle.bag_read.specs.Oxum as spec;
ghost use Rattle.bag_read.specs.LineParts as parts;

use crate::line_fault::is_digits;

/// The label of the element that gives the payload's size.
pub const OXUM_LABEL: &str = "Payload-Oxum";

/// How many bytes the payload has, and how many files.
#[derive(Clone, Copy, Debug, PartialEq, Eq)]
pub struct Oxum {
    /// Bytes of all payload files.
    pub octets: u64,
    /// Payload files.
    pub streams: u64,
}

/// What a value of `Payload-Oxum` says, where it reads: two numbers in ASCII digits, each below 2
/// to the 64, with a dot between them (RFC 8493, 2.2.2). Leading zeros are read; a sign or a blank
/// is not.
pub fn oxum_of(value: &str) -> Option<Oxum>
    ensures { result ≡ spec.oxum_of value.now }
{
    let Some((octets, streams)) = value.split_once('.') else {
        return None;
    };
    match (number_of(octets), number_of(streams)) {
        (Some(octets), Some(streams)) => Some(Oxum { octets, streams }),
        (None, _) | (_, None) => None,
    }
}

/// The number that a text writes in ASCII digits alone, where it is below 2 to the 64. Leading zeros
/// are read; a sign or a blank is not.
pub fn number_of(text: &str) -> Option<u64>
    ensures { result ≡ parts.number_of text.now }
{
    if !is_digits(text) {
        return None;
    }
    match text.parse::<u64>() {
        Ok(number) => Some(number),
        Err(_) => None,
    }
}
