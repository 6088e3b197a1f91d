//! Stage 7: the digests of files, one file at a time.
ghost use Rattle.std.specs.Prelude.{◌≡◌, ◌≢◌, ⊤, ◌++◌, [], length, vec_len, IfOk, IfErr};
ghost use Rattle.std.specs.Option.{option_copied};
ghost use Rattle.bag_faults.specs.declared.options.Depth.TheVariants as depth_of;
ghost use Rattle.bag_stages.specs.ValidityStage.{IsOfValidity};
ghost use Rattle.bag_sources.specs.Completeness.{AreAbove};
ghost use Rattle.bag_sources.specs.FactsOf.{ForBagAtFull, ForBagOf};
ghost use Rattle.bag_sources.specs.Filling.{first_of};
ghost use Rattle.bag_sources.specs.ToSum.{faults_of_files, paths_to_sum};
ghost use Rattle.bag_sources.specs.StartPart.{AreSummedWithin, IsWithin};
ghost use Rattle.bag_sources.specs.Validity.{AreSummedAhead, IsOfBag};
ghost use Rattle.bag_sources.specs.Validity.{FindsFaults, GoesThrough, StopsAtFile};
ghost use Rattle.bag_sources.specs.Shown.{first_shown};

use crate::files::files_to_sum;
use crate::part::Bounds;
use crate::queue::Queue;
use crate::to_sum::{ToSum, faults_of_file};
use crate::{InOrder, Source};
use bag_facts::Facts;
use bag_faults::Fault;
use bag_tree::{Stop, Tree};
use std::alloc::{AllocError, Global};

/// How many bytes are read at once.
const BUFFER_BYTES: usize = 65_536;

/// The faults of files whose digests aren't those that manifests give, above a cursor. A file is
/// opened when the faults of those before it were taken, once for all its algorithms.
#[derive(Debug, Drop)]
pub struct Validity {
    alloc: Global,
    after: Option<Fault>,
    pending: Queue<ToSum>,
    found: Queue<Fault>,
    buffer: Vec<u8>,
    ghost has_room: { vec_len buffer ≡ 65536 },
}

impl Validity {
    /// The faults above a cursor of the files that are listed and that a manifest names; none below
    /// the depth `Full`. No file is opened yet.
    pub fn new(alloc: Global, facts: &Facts, after: Option<&Fault>) -> Result<Validity, AllocError>
        ensures of { IfOk result (λ s. ForBagOf facts.now (λ bag.
            IsOfBag bag s.after s.pending s.found)) }
        ensures faults { IfOk result (λ s. ForBagAtFull facts.now (λ bag.
            AreAbove (option_copied after.entry) (IsOfValidity bag)
            (s.found ++ faults_of_files bag s.after s.pending))) }
        ensures todo { IfOk result (λ s. ForBagAtFull facts.now (λ bag.
            AreSummedAhead bag (option_copied after.entry) (paths_to_sum s.pending))) }
        ensures none { IfOk result (λ s. facts.now.options.depth ≢ depth_of.Full
            → (s.pending ≡ []) × (s.found ≡ [])) }
        ensures fresh { IfOk result (λ s. s.found ≡ []) }
    {
        Validity::within(alloc, facts, after, &Bounds::whole())
    }

    /// The same of those of the files that stand between two bounds.
    pub(crate) fn within(
        alloc: Global,
        facts: &Facts,
        after: Option<&Fault>,
        bounds: &Bounds,
    ) -> Result<Validity, AllocError>
        ensures of { IfOk result (λ s. ForBagOf facts.now (λ bag.
            IsOfBag bag s.after s.pending s.found)) }
        ensures faults { IfOk result (λ s. ForBagAtFull facts.now (λ bag.
            AreAbove (option_copied after.entry) (IsWithin bounds.now (IsOfValidity bag))
            (s.found ++ faults_of_files bag s.after s.pending))) }
        ensures todo { IfOk result (λ s. ForBagAtFull facts.now (λ bag. AreSummedWithin
            bag (option_copied after.entry) bounds.now (paths_to_sum s.pending))) }
        ensures none { IfOk result (λ s. facts.now.options.depth ≢ depth_of.Full
            → (s.pending ≡ []) × (s.found ≡ [])) }
        ensures fresh { IfOk result (λ s. s.found ≡ []) }
    {
        Ok(Validity {
            alloc,
            after: Fault::copied(alloc, after)?,
            pending: Queue::new(files_to_sum(alloc, facts, after, bounds)?),
            found: Queue::new(Vec::new(alloc)),
            buffer: Vec::from_elem(alloc, 0, BUFFER_BYTES)?,
        })
    }
}

impl<T: Tree> Source<T> for Validity {
    ghost is_of = { λ bag s. IsOfBag bag s.after s.pending s.found };

    ghost remaining = { λ bag s. s.found ++ faults_of_files bag s.after s.pending };

    ghost todo = { λ s. paths_to_sum s.pending };

    ghost found = { λ s. first_of s.found };

    ghost in_order = { ⊤ };

    ghost is_first = { λ bag s fault h e.
        first_shown s.found (faults_of_files bag s.after s.pending) fault e };

    ghost ascends = { λ bag s h. h.ascends };

    fn fill(&mut self, tree: &mut T) -> Result<(), Stop> {
        if !self.found.is_empty() {
            return Ok(());
        }
        let faults = next_faults(
            self.alloc,
            tree,
            &mut self.pending,
            self.after.as_ref(),
            self.buffer.as_mut_slice(),
        )?;
        self.found = Queue::new(faults);
        Ok(())
    }

    fn peek(&self) -> Option<&Fault> {
        self.found.first()
    }

    fn advance(&mut self) {
        self.found.leave_first();
    }
}

impl<T: Tree> InOrder<T> for Validity {
    ghost is_in_order = { tt };
}

/// The faults above a cursor of the first file that has some, and none where no file has. Goes on
/// with the files after it.
fn next_faults<T: Tree>(
    alloc: Global,
    tree: &mut T,
    pending: &mut Queue<ToSum>,
    after: Option<&Fault>,
    buffer: &mut [u8],
) -> Result<Vec<Fault>, Stop>
    requires { length buffer.old ≡ 65536 }
    ensures goes { GoesThrough (option_copied after.entry) pending.old pending.new
        (T.state tree.old) (T.state tree.new) }
    ensures finds { IfOk result (λ faults. FindsFaults (option_copied after.entry)
        pending.old pending.new (T.state tree.old) (T.state tree.new) faults.items) }
    ensures stops { IfErr result (StopsAtFile (option_copied after.entry)
        pending.old pending.new (T.state tree.old) (T.state tree.new)) }
{
    while let Some(file) = pending.first() {
        let faults = match faults_of_file(alloc, tree, file, after, buffer) {
            Ok(faults) => faults,
            Err(stop) => return Err(stop),
        };
        pending.leave_first();
        if !faults.is_empty() {
            return Ok(faults);
        }
    }
    Ok(Vec::new(alloc))
}
