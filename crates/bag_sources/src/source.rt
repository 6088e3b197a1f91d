//! What a source of faults is.
ghost use Rattle.std.specs.Prelude.{ℕ, ◌≡◌, [], List, Option, Some, None};
ghost use Rattle.std.specs.Prelude.{IsSome, IfErr, OnOk, OnErr};
ghost use Rattle.std.specs.List.Sorted.{IsStrictlySortedBy};
ghost use Rattle.std.specs.Option.{option_copied};
ghost use Rattle.bag_tree.specs.Bag.{Bag};
ghost use Rattle.bag_tree.specs.Tree.{Keeps, NothingFailed};
ghost use Rattle.bag_faults.specs.FaultOrder.{fault_cmp};
ghost use Rattle.bag_faults.specs.declared.fault.Fault.{Fault};
ghost use Rattle.bag_sources.specs.SourceOpenings.{NoFaultBeforeStop, Opens, OpensAgain};
ghost use Rattle.bag_sources.specs.SourceOpenings.{OpensNoFileEarly, StopsAtNext};
ghost use Rattle.bag_sources.specs.Source.{rest_of, ForEachSeen, IsOfHonest};
ghost use Rattle.bag_sources.specs.Filling.{first_of, MayStopAnyway, MayStopFilling};

use bag_faults::Fault;
use bag_tree::{Stop, Tree};

/// Faults of a bag in their order, which are found as they are asked for.
///
/// `fill` finds the first fault that is left, `peek` shows it, and `advance` takes it away.
pub trait Source<T: Tree> {
    /// What it holds is of this bag.
    ghost is_of: { Bag → Self → Type 0 };

    /// The faults that are left in a bag.
    ghost remaining: { Bag → Self → List Fault };

    /// The files that it may still open. The first is the next.
    ghost todo: { Self → List (List ℕ) };

    /// The fault that it shows.
    ghost found: { Self → Option Fault };

    /// What it promises of the files that it opens: they are the first of those that it may still
    /// open, each once, and none stands after the first fault that is left.
    ghost in_order: { Type 0 };

    /// Finds the first fault that is left, over an honest tree of its bag, and leaves what is left
    /// as it is, also where it is refused. The file that was refused is the next to be opened.
    ///
    /// A source that has no file to open does so over any tree, for each bag that it is of.
    fn fill(&mut self, tree: &mut T) -> Result<(), Stop>
        ensures keeps { Keeps (T.state tree.old) (T.state tree.new) }
        ensures no_failure { OnOk result (NothingFailed (T.state tree.old) (T.state tree.new)) }
        ensures opens { OnOk result (in_order →
            Opens (todo self.old) (todo self.new) (T.state tree.old) (T.state tree.new)) }
        ensures again { OnErr result (in_order →
            OpensAgain (todo self.old) (todo self.new) (T.state tree.old) (T.state tree.new)) }
        ensures reached { IfErr result (λ stop. in_order →
            StopsAtNext (todo self.old) (T.state tree.old) (T.state tree.new) stop) }
        ensures waits { IfErr result (λ stop. in_order → ForEachSeen is_of todo
            (T.state tree.old) self.old (λ bag.
            NoFaultBeforeStop (remaining bag self.old) stop.path)) }
        ensures ended { OnOk result (in_order → found self.new ≡ None → todo self.new ≡ []) }
        ensures same { ForEachSeen is_of todo (T.state tree.old) self.old (λ bag.
            is_of bag self.new × (remaining bag self.new ≡ remaining bag self.old)) }
        ensures first { OnOk result (ForEachSeen is_of todo (T.state tree.old) self.old (λ bag.
            found self.new ≡ first_of (remaining bag self.new))) }
        ensures none_early { in_order → ForEachSeen is_of todo (T.state tree.old) self.old (λ bag.
            OpensNoFileEarly (remaining bag self.old) (T.state tree.old) (T.state tree.new)) }
        ensures stop { IfErr result (λ stop. IsOfHonest is_of (T.state tree.old) self.old →
            MayStopFilling (todo self.new) (T.state tree.old) (T.state tree.new) stop) }
        ensures anyway { IfErr result (
            MayStopAnyway (todo self.new) (T.state tree.old) (T.state tree.new)) };

    /// The first fault that is left, where it was found. After `fill` there is none only where none
    /// is left.
    fn peek(&self) -> Option<&Fault>
        ensures { option_copied result ≡ found self.now };

    /// Takes the fault that was found away.
    fn advance(&mut self)
        requires { IsSome (found self.old) }
        ensures rest { (bag : Bag) → is_of bag self.old →
            is_of bag self.new × (remaining bag self.new ≡ rest_of (remaining bag self.old)) }
        ensures todo { todo self.new ≡ todo self.old };

    /// A fault that is shown is the first that is left.
    ghost is_first: { (bag : Bag) (source : Self) (fault : Fault) → is_of bag source
        → found source ≡ Some fault → first_of (remaining bag source) ≡ Some fault };

    /// The faults that are left ascend.
    ghost ascends: { (bag : Bag) (source : Self) → is_of bag source
        → IsStrictlySortedBy fault_cmp (remaining bag source) };
}

/// A source that opens its files in their order, and none after the first fault that is left.
pub trait InOrder<T: Tree>: Source<T> {
    /// The promise holds.
    ghost is_in_order: { Self.in_order };
}

/// A source that opens no file.
pub trait Quiet<T: Tree>: InOrder<T> {
    /// No file is to be opened.
    ghost is_quiet: { (source : Self) → Self.todo source ≡ [] };
}
