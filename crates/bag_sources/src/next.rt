//! The next fault of a walk, lent.
ghost use Rattle.std.specs.Prelude.{◌≡◌, ⊤, IfErr, IfOk};
ghost use Rattle.std.specs.Borrow.{sem, follows_so};
ghost use Rattle.std.specs.Option.{option_copied};
ghost use mathlib.Core.Option.{none};
ghost use Rattle.bag_sources.specs.Steps.{shown, went, LendsLeast, LendsNext, MayStopNext};
ghost use Rattle.bag_sources.specs.contracts.steps.Steps.{the_row};

use crate::{InOrder, Steps};
use bag_faults::Fault;
use bag_tree::{Stop, Tree};

impl<T: Tree, S: InOrder<T>> Steps<T, S> {
    /// The least fault of the report above its position, which becomes the position; none where
    /// none is above it. After a refusal the position is the same. The walk after the call is as
    /// `go_on` leaves it.
    ///
    /// A caller whose proof needs the walk after the call makes the two calls that this one makes,
    /// `go_on` and `shown`: where a result may own memory, as a `Stop` owns its path, the checker
    /// doesn't hand on the clause `after`.
    pub fn next(&mut self) -> Result<Option<&Fault>, Stop>
        ensures* after { sem 𝓛 (follows_so (the_row T.row S.row) (the_row T.row S.row)
            self.entry.ghost_name none (λ _ _. ⊤)
            (λ new. LendsNext T.Tree S.Source self.old new result)) }
        ensures given { LendsLeast T.Tree S.Source self.old result }
        ensures stop { IfErr result (MayStopNext T.Tree S.Source self.old) }
    {
        let gone = self.go_on();
        self.answer(gone)
    }

    /// The fault at which it stands, unless it was refused.
    fn answer(&self, gone: Result<(), Stop>) -> Result<Option<&Fault>, Stop>
        ensures went { went result ≡ gone }
        ensures given { IfOk result (λ given. option_copied given ≡ shown S.Source self.now) }
    {
        gone?;
        Ok(self.shown())
    }
}
