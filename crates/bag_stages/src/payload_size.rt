//! The size of the payload.
ghost use Rattle.std.specs.Prelude.{◌≡◌};
ghost use Rattle.bag_stages.specs.PayloadSize.{listed_oxum};

use bag_text::is_payload;
use bag_tree::FileEntry;
use std::marker::Model;

/// How many bytes a payload has, and how many files. The sum of sizes that each fit 64 bits need
/// not fit them.
#[derive(Drop)]
pub struct PayloadSize {
    /// Bytes of all payload files.
    pub octets: u128,
    /// Payload files.
    pub streams: u64,
}

impl Model for PayloadSize {
    ghost use Rattle.bag_read.specs.declared.oxum.Oxum.{Oxum};

    ghost Value = { Oxum };

    ghost view = { λ size. record { octets = size.octets; streams = size.streams } };
}

impl PayloadSize {
    /// The size of the payload among listed files (RFC 8493, 2.2.2), in one pass.
    pub fn of(files: &[FileEntry]) -> PayloadSize
        ensures { result ≡ listed_oxum files.now }
    {
        let mut octets: u128 = 0;
        let mut streams: u64 = 0;
        for entry in files {
            if is_payload(entry.path.as_str()) {
                octets += u128::from(entry.size);
                streams += 1;
            }
        }
        PayloadSize { octets, streams }
    }
}
