//! An output that keeps nothing.
ghost use Rattle.std.specs.Prelude.{None, false};

use bag_tree::{Out, Refused};

/// Takes all, and keeps nothing: for reports that are only looked at.
#[derive(Drop)]
pub(crate) struct Nowhere;

impl Out for Nowhere {
    ghost state = { λ _. record { taken = None; has_refused = false } };

    fn put(&mut self, bytes: &[u8]) -> Result<usize, Refused> {
        Ok(bytes.len())
    }
}
