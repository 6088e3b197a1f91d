//! Two sources at once.
ghost use Rattle.std.specs.Prelude.{◌≡◌, ◌++◌, [], None, false, IfErr, OnOk, OnErr, if◌then◌else◌};
ghost use Rattle.std.specs.Option.{option_copied};
ghost use Rattle.bag_tree.specs.Tree.{Keeps, NothingFailed};
ghost use Rattle.bag_sources.specs.Filled.{awaits_second, is_both};
ghost use Rattle.bag_sources.specs.declared.merge.Filled.TheVariants.{Neither};
ghost use Rattle.bag_sources.specs.Merge.{fronts, least_of, union};
ghost use Rattle.bag_sources.specs.Source.{ForEachSeen, IsOfHonest};
ghost use Rattle.bag_sources.specs.Filling.{first_of, Where, MayStopAnyway, MayStopFilling};
ghost use Rattle.bag_sources.specs.Union.{first_of_merged, union_ascends};

use crate::{InOrder, Quiet, Source};
use bag_faults::Fault;
use bag_tree::{Stop, Tree};
use std::cmp::Ordering;

/// Which of two sources have been filled since a fault was taken.
#[derive(Debug, Clone, Copy)]
enum Filled {
    Neither,
    First,
    Both,
}

impl Filled {
    /// Whether the first alone was.
    fn awaits_second(self) -> bool
        ensures { result ≡ awaits_second self }
    {
        match self {
            Filled::First => true,
            Filled::Neither | Filled::Both => false,
        }
    }
}

/// The faults of two sources in their order, and equal ones once.
///
/// Both are filled before a fault is shown, so one of them may open files that stand after that
/// fault. A merge of two sources that open no file opens none.
#[derive(Debug, Drop)]
pub struct Merge<A, B> {
    first: A,
    second: B,
    filled: Filled,
}

impl<A, B> Merge<A, B> {
    /// The faults of both. Takes no memory.
    pub fn new(first: A, second: B) -> Merge<A, B>
        ensures { result ≡ record { first = first; second = second; filled = Neither } }
    {
        Merge {
            first,
            second,
            filled: Filled::Neither,
        }
    }
}

impl<T: Tree, A: Source<T>, B: Source<T>> Source<T> for Merge<A, B> {
    ghost is_of = { λ bag s. A.is_of bag s.first × B.is_of bag s.second
        × Where (is_both s.filled) ((A.found s.first ≡ first_of (A.remaining bag s.first))
        × (B.found s.second ≡ first_of (B.remaining bag s.second)))
        × Where (awaits_second s.filled) (A.found s.first ≡ first_of (A.remaining bag s.first)) };

    ghost remaining = { λ bag s. union (A.remaining bag s.first) (B.remaining bag s.second) };

    ghost todo = { λ s. if awaits_second s.filled
        then B.todo s.second ++ A.todo s.first else A.todo s.first ++ B.todo s.second };

    ghost found = { λ s.
        if is_both s.filled then least_of (A.found s.first) (B.found s.second) else None };

    ghost in_order = { A.in_order × B.in_order
        × ((a : A) → A.todo a ≡ []) × ((b : B) → B.todo b ≡ []) };

    ghost is_first = { λ bag s f h e. first_of_merged (is_both s.filled)
        (A.found s.first) (B.found s.second) (A.remaining bag s.first) (B.remaining bag s.second) f
        (A.ascends bag s.first h.0) (B.ascends bag s.second h.1) h.2 e };

    ghost ascends = { λ bag s h.
        union_ascends (A.remaining bag s.first) (B.remaining bag s.second) };

    fn fill(&mut self, tree: &mut T) -> Result<(), Stop> {
        match fill_unless(self.filled.awaits_second(), &mut self.first, tree) {
            Ok(()) => self.filled = Filled::First,
            Err(stop) => {
                self.filled = Filled::Neither;
                return Err(stop);
            }
        }
        self.second.fill(tree)?;
        self.filled = Filled::Both;
        Ok(())
    }

    fn peek(&self) -> Option<&Fault> {
        match self.filled {
            Filled::Both => match order(self.first.peek(), self.second.peek()) {
                Ordering::Greater => self.second.peek(),
                _ => self.first.peek(),
            },
            Filled::Neither | Filled::First => None,
        }
    }

    fn advance(&mut self) {
        self.filled = Filled::Neither;
        match order(self.first.peek(), self.second.peek()) {
            Ordering::Less => self.first.advance(),
            Ordering::Greater => self.second.advance(),
            Ordering::Equal => {
                self.first.advance();
                self.second.advance();
            }
        }
    }
}

/// Fills a source, unless it was filled.
fn fill_unless<T: Tree, S: Source<T>>(
    is_filled: bool,
    source: &mut S,
    tree: &mut T,
) -> Result<(), Stop>
    ensures keeps { Keeps (T.state tree.old) (T.state tree.new) }
    ensures no_failure { OnOk result (NothingFailed (T.state tree.old) (T.state tree.new)) }
    ensures quiet { S.in_order → S.todo source.old ≡ [] →
        ((T.state tree.new).openings ≡ (T.state tree.old).openings) }
    ensures same { ForEachSeen S.is_of S.todo (T.state tree.old) source.old (λ bag.
        S.is_of bag source.new × (S.remaining bag source.new ≡ S.remaining bag source.old)) }
    ensures first { OnOk result (ForEachSeen S.is_of S.todo (T.state tree.old) source.old (λ bag.
        Where is_filled (S.found source.old ≡ first_of (S.remaining bag source.old))
        → S.found source.new ≡ first_of (S.remaining bag source.new))) }
    ensures stop { IfErr result (λ stop. IsOfHonest S.is_of (T.state tree.old) source.old →
        MayStopFilling (S.todo source.new) (T.state tree.old) (T.state tree.new) stop) }
    ensures anyway { IfErr result (
        MayStopAnyway (S.todo source.new) (T.state tree.old) (T.state tree.new)) }
{
    if is_filled {
        return Ok(());
    }
    source.fill(tree)
}

/// Which of two faults comes first: one that is there before one that isn't.
fn order(first: Option<&Fault>, second: Option<&Fault>) -> Ordering
    ensures { result ≡ fronts (option_copied first.entry) (option_copied second.entry) }
{
    match (first, second) {
        (Some(a), Some(b)) => a.cmp(b),
        (Some(_), None) => Ordering::Less,
        (None, Some(_)) => Ordering::Greater,
        (None, None) => Ordering::Equal,
    }
}

impl<T: Tree, A: Quiet<T>, B: Quiet<T>> InOrder<T> for Merge<A, B> {
    ghost is_in_order = { (A.is_in_order, B.is_in_order, A.is_quiet, B.is_quiet) };
}

impl<T: Tree, A: Quiet<T>, B: Quiet<T>> Quiet<T> for Merge<A, B> {
    ghost use Rattle.bag_sources.specs.Merge.{nothing_to_open};

    ghost is_quiet = { λ s. nothing_to_open (awaits_second s.filled)
        (A.todo s.first) (B.todo s.second) (A.is_quiet s.first) (B.is_quiet s.second) };
}
