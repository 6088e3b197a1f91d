//! A walk over the faults of a source, one at a time, and how one over a tree's bag begins.
ghost use Rattle.std.specs.Prelude.{◌≡◌, ◌≢◌, [], false, IfErr, IfOk, OnErr, OnOk};
ghost use Rattle.std.specs.Option.{option_copied};
ghost use Rattle.bag_tree.specs.Bag.{Bag};
ghost use Rattle.bag_tree.specs.Tree.{Keeps, NothingFailed};
ghost use Rattle.bag_facts.specs.FactsOfBag.{IsFactsOf};
ghost use Rattle.bag_faults.specs.Options.{reaches};
ghost use Rattle.bag_faults.specs.Stage.{stage_number};
ghost use Rattle.bag_facts.specs.Wanted.{ForListing, OpensWanted};
ghost use Rattle.bag_faults.specs.declared.stage.Stage.TheVariants as stage_of;
ghost use Rattle.bag_sources.specs.Completeness.{IsStageAbove};
ghost use Rattle.bag_sources.specs.FactsOf.{ForCheckOf};
ghost use Rattle.bag_sources.specs.Start.{state_after, AreAheadBefore};
ghost use Rattle.bag_sources.specs.Start.{IsNotStarted, Starts};
ghost use Rattle.bag_sources.specs.Parts.{bounds_of, listed_of};
ghost use Rattle.bag_sources.specs.StartPart.{state_after_part, AreEarlyWithin, AreSourcesWithin};
ghost use Rattle.bag_sources.specs.StartPart.{IsStageWithin, StartsPart};
ghost use Rattle.bag_sources.specs.Steps.{left, shown, to_open, GivesFirst, GoesOn, IsDone};
ghost use Rattle.bag_sources.specs.Steps.{IsStoppedInTurn, MayReopenLast, MayStopHere, MayStopOverAny};
ghost use Rattle.bag_sources.specs.Steps.{WalkOpensNoFileEarly, OpensNext, StopsBeforeRemaining};

use crate::above_cursor::above;
use crate::part::{Bounds, Listed, only_part};
use crate::{Fixed, InOrder, Source, Then, Validity};
use bag_facts::Facts;
use bag_faults::{BEFORE_DIGESTS, Fault, Options, Part, Stage};
use bag_profile::Profile;
use bag_report::faults_of_stage;
use bag_tree::{Stop, Tree};
use std::alloc::{AllocError, Global};

/// A walk over the faults of a source: a tree, and a source of faults of its bag, whose first fault
/// may have been given.
#[derive(Debug, Drop)]
pub struct Steps<T, S> {
    tree: T,
    source: S,
    is_shown: bool,
}

impl<T: Tree, S: InOrder<T>> Steps<T, S> {
    /// A walk that has given nothing yet.
    pub fn new(tree: T, source: S) -> Steps<T, S>
        ensures { result ≡ record { tree = tree; source = source; is_shown = false } }
    {
        Steps {
            tree,
            source,
            is_shown: false,
        }
    }

    /// Goes to the next fault. After a refusal it shows none, and the next step gives what this one
    /// would have given.
    pub fn step(&mut self) -> Result<(), Stop>
        ensures keeps { Keeps (T.state self.old.tree) (T.state self.new.tree) }
        ensures no_failure { OnOk result (
            NothingFailed (T.state self.old.tree) (T.state self.new.tree)) }
        ensures opens { OnOk result (OpensNext T.Tree S.Source self.old self.new) }
        ensures again { OnErr result (MayReopenLast T.Tree S.Source self.old self.new) }
        ensures reached { IfErr result (IsStoppedInTurn T.Tree S.Source self.old self.new) }
        ensures waits { IfErr result (StopsBeforeRemaining T.Tree S.Source self.old) }
        ensures ended { OnOk result (IsDone S.Source self.new) }
        ensures next { GivesFirst T.Tree S.Source self.old self.new result }
        ensures none_early { WalkOpensNoFileEarly T.Tree S.Source self.old self.new }
        ensures stop { IfErr result (MayStopHere T.Tree S.Source self.old self.new) }
        ensures anyway { IfErr result (MayStopOverAny T.Tree S.Source self.old self.new) }
    {
        self.leave();
        self.source.fill(&mut self.tree)?;
        self.is_shown = true;
        Ok(())
    }

    /// Takes away the fault that was given.
    fn leave(&mut self)
        ensures tree { self.new.tree ≡ self.old.tree }
        ensures shown { self.new.is_shown ≡ false }
        ensures todo { to_open S.Source self.new ≡ to_open S.Source self.old }
        ensures left { (bag : Bag) → S.is_of bag self.old.source → S.is_of bag self.new.source
            × (S.remaining bag self.new.source ≡ left S.Source bag self.old) }
    {
        if self.is_shown {
            self.is_shown = false;
            if self.source.peek().is_some() {
                self.source.advance();
            }
        }
    }

    /// The fault that the last step gave; none before the first, after a refusal and at the end.
    pub fn shown(&self) -> Option<&Fault>
        ensures { option_copied result ≡ shown S.Source self.now }
    {
        if self.is_shown {
            self.source.peek()
        } else {
            None
        }
    }

    /// The tree, as the walk left it. Takes no memory.
    pub fn into_tree(self) -> T
    where
        S: Drop,
        ensures { result ≡ self.tree }
    {
        let Steps {
            tree,
            source,
            is_shown,
        } = self;
        tree
    }
}

impl<T: Tree, S: InOrder<T>> Steps<T, S> {
    /// Goes to the least fault of the report above its position, which becomes the position. After
    /// a refusal the position is the same. It opens files from the front of those still to be
    /// opened, each once; a file before which a fault stands that was still to be given waits on.
    pub fn go_on(&mut self) -> Result<(), Stop>
        ensures { GoesOn T.Tree S.Source self.old self.new result }
    {
        self.step()
    }
}

/// Faults of the stages before that of digests, those of files, and those of the stages after them.
pub type Sources = Then<Fixed, Then<Validity, Fixed>>;

/// A walk over the faults of a bag.
pub type Walk<T> = Steps<T, Sources>;

impl<T: Tree> Walk<T> {
    /// Reads the tag files of a tree's bag, for a walk over the faults of its report that are
    /// greater than a cursor, or over all without one. Without a profile stage 8 is skipped.
    ///
    /// Each tag file is opened once at most, and no other file. The files whose digests are to be
    /// compared are opened by the steps of the walk, none below the depth `Full`; memory for
    /// reading them is taken here. After a refusal the tree comes back.
    pub fn start(
        alloc: Global,
        tree: T,
        profile: Option<&Profile>,
        options: Options,
        after: Option<Fault>,
    ) -> Result<Walk<T>, (T, Stop)>
        ensures keeps { Keeps (T.state tree) (state_after T.Tree result) }
        ensures opens { OpensWanted options (T.state tree) (state_after T.Tree result) }
        ensures started { IfOk result (Starts T.Tree ⟦<Sources as Source<T>>⟧
            (T.state tree) (option_copied profile.entry) options after) }
        ensures refused { IfErr result (IsNotStarted T.Tree options (T.state tree)) }
    {
        match Self::start_part(alloc, tree, profile, options, after, only_part()) {
            Ok((walk, _)) => Ok(walk),
            Err(refused) => Err(refused),
        }
    }

    /// The same for a part of the report: of its faults above a cursor those that stand between the
    /// bounds of the part, which all parts find alike in the files of an honest tree. It tells of
    /// what files they were found. Nothing of another part is looked for, and of the files whose
    /// digests are to be compared those of the part alone are opened.
    pub fn start_part(
        alloc: Global,
        tree: T,
        profile: Option<&Profile>,
        options: Options,
        after: Option<Fault>,
        part: Part,
    ) -> Result<(Walk<T>, Listed), (T, Stop)>
        ensures keeps { Keeps (T.state tree) (state_after_part T.Tree result) }
        ensures opens { OpensWanted options (T.state tree) (state_after_part T.Tree result) }
        ensures started { IfOk result (λ begun. StartsPart T.Tree ⟦<Sources as Source<T>>⟧
            (T.state tree) (option_copied profile.entry) options after part begun.0) }
        ensures listed { IfOk result (λ begun.
            ForListing (T.state tree) (λ files. begun.1 ≡ listed_of files)) }
        ensures refused { IfErr result (IsNotStarted T.Tree options (T.state tree)) }
    {
        let mut tree = tree;
        let facts = match Facts::read(alloc, &mut tree, options) {
            Ok(facts) => facts,
            Err(stop) => return Err((tree, stop)),
        };
        let listed = Listed::of(facts.files());
        match Self::sources_of_part(alloc, &facts, profile, after.as_ref(), part) {
            Ok(sources) => Ok((Steps::new(tree, sources), listed)),
            Err(AllocError) => Err((tree, Stop::out_of_memory(alloc))),
        }
    }

    /// The sources of the faults of a part above a cursor.
    fn sources_of_part(
        alloc: Global,
        facts: &Facts,
        profile: Option<&Profile>,
        after: Option<&Fault>,
        part: Part,
    ) -> Result<Sources, AllocError>
        requires { (bag : Bag) × IsFactsOf bag facts.now }
        ensures { IfOk result (AreSourcesWithin ⟦<Sources as Source<T>>⟧ facts.now
            (option_copied profile.entry) (option_copied after.entry)
            (bounds_of facts.now.listing.files part)) }
    {
        let bounds = Bounds::of(alloc, facts.files(), part)?;
        Self::sources_within(alloc, facts, profile, after, &bounds)
    }

    /// The sources of those between two bounds.
    fn sources_within(
        alloc: Global,
        facts: &Facts,
        profile: Option<&Profile>,
        after: Option<&Fault>,
        bounds: &Bounds,
    ) -> Result<Sources, AllocError>
        requires { (bag : Bag) × IsFactsOf bag facts.now }
        ensures { IfOk result (AreSourcesWithin ⟦<Sources as Source<T>>⟧ facts.now
            (option_copied profile.entry) (option_copied after.entry) bounds.now) }
    {
        let early = early_within(alloc, facts, profile, after, bounds)?;
        let validity = Validity::within(alloc, facts, after, bounds)?;
        let late = late_within(alloc, facts, profile, after, bounds)?;
        Ok(Then::new(Fixed::new(early), Then::new(validity, Fixed::new(late))))
    }
}

/// The faults above a cursor of the stages before that of digests, in their order, where they stand
/// between two bounds. Judges none where they don't.
fn early_within(
    alloc: Global,
    facts: &Facts,
    profile: Option<&Profile>,
    after: Option<&Fault>,
    bounds: &Bounds,
) -> Result<Vec<Fault>, AllocError>
    ensures { IfOk result (λ faults. ForCheckOf facts.now (option_copied profile.entry) (λ check.
        AreEarlyWithin check (option_copied after.entry) bounds.now faults.items)) }
{
    if bounds.has_early() {
        return early_above(alloc, facts, profile, after);
    }
    Ok(Vec::new(alloc))
}

/// Those of the eighth stage, where they stand between two bounds. Judges none where they don't.
fn late_within(
    alloc: Global,
    facts: &Facts,
    profile: Option<&Profile>,
    after: Option<&Fault>,
    bounds: &Bounds,
) -> Result<Vec<Fault>, AllocError>
    ensures { IfOk result (λ faults. ForCheckOf facts.now (option_copied profile.entry) (λ check.
        IsStageWithin check 8 (option_copied after.entry) bounds.now faults.items)) }
{
    if bounds.has_late() {
        return stage_above(alloc, facts, profile, Stage::Conformance, after);
    }
    Ok(Vec::new(alloc))
}

/// The faults above a cursor of the stages before that of digests, in their order.
fn early_above(
    alloc: Global,
    facts: &Facts,
    profile: Option<&Profile>,
    after: Option<&Fault>,
) -> Result<Vec<Fault>, AllocError>
    ensures { IfOk result (λ faults. ForCheckOf facts.now (option_copied profile.entry) (λ check.
        AreAheadBefore check 7 (option_copied after.entry) faults.items)) }
{
    let mut faults = Vec::new(alloc);
    for stage in BEFORE_DIGESTS {
        let mut of_stage = stage_above(alloc, facts, profile, stage, after)?;
        faults.append(&mut of_stage)?;
    }
    Ok(faults)
}

/// The faults above a cursor of a stage other than that of digests, in their order.
pub(crate) fn stage_above(
    alloc: Global,
    facts: &Facts,
    profile: Option<&Profile>,
    stage: Stage,
    after: Option<&Fault>,
) -> Result<Vec<Fault>, AllocError>
    requires { stage ≢ stage_of.Validity }
    ensures faults { IfOk result (λ faults. ForCheckOf facts.now (option_copied profile.entry)
        (λ check. IsStageAbove check (stage_number stage) (option_copied after.entry)
        faults.items)) }
    ensures none { IfOk result (λ faults.
        reaches facts.now.options.depth (stage_number stage) ≡ false → faults.items ≡ []) }
{
    Ok(above(faults_of_stage(alloc, facts, profile, stage)?, after))
}
