//! What takes the output.
ghost use Rattle.std.specs.Prelude.{◌≡◌, ◌<◌, true, false, length, IfOk, OnOk, OnErr};
ghost use Rattle.std.specs.Io.KnownBytes.{Keeps};
ghost use Rattle.bag_tree.specs.Out.{OutState};
ghost use Rattle.bag_tree.specs.Heard.{Takes};

use crate::said;
use thiserror::Error;

/// The bytes weren't taken.
#[derive(Clone, Copy, Debug, PartialEq, Eq, Error)]
#[error("{why}", why = said::OUTPUT_REFUSED)]
pub struct Refused;

/// What takes the output of a run, piece by piece. After a refusal it takes nothing more.
pub trait Out {
    /// What the output means: the bytes that it took, where that is known, and whether it has
    /// refused.
    ghost state: { Self → OutState };

    /// Takes some first bytes, at least one, or refuses from now on.
    fn put(&mut self, bytes: &[u8]) -> Result<usize, Refused>
        requires { 0 < length bytes.now }
        ensures took { IfOk result (Takes (state self.old) (state self.new) bytes.now) }
        ensures ready { OnOk result
            (((state self.old).has_refused ≡ false) × ((state self.new).has_refused ≡ false)) }
        ensures refused { OnErr result
            (Keeps (state self.old).taken (state self.new).taken
            × ((state self.new).has_refused ≡ true)) };
}
