//! A tree of which one call is refused.
ghost use Rattle.std.specs.Prelude.{◌≡◌};
ghost use Rattle.bag_memory.specs.Refusals.{before_calls, calls_left, failing};
ghost use Rattle.bag_memory.specs.FailTree.{below_of, calls_of};

use crate::calls::Calls;
use bag_tree::{Answer, Listing, Tree, TreeFault, WriteTree};

/// A tree of which one call is refused as `Device`, without asking the tree that it stands over.
///
/// All calls of `Tree` and `WriteTree` are counted together. A refused `open_file` leaves nothing
/// open: each `read` is then `NoneOpen`, until the next `open_file`, though the tree below may
/// still have a file open.
#[derive(Drop)]
pub struct FailTree<T> {
    tree: T,
    calls: Calls,
}

impl<T: Tree + Drop> FailTree<T> {
    /// The tree, of which the call of this number is refused, from 1. With 0 none is.
    pub fn new(tree: T, k: u64) -> FailTree<T>
        ensures state { ⟦<FailTree<T> as Tree>⟧.state result
            ≡ failing (T.state tree) (before_calls k) }
        ensures below { below_of result ≡ tree }
        ensures calls { calls_of result ≡ before_calls k }
    {
        FailTree {
            tree,
            calls: Calls::before(k),
        }
    }

    /// How many calls are left before the refused one; none where that is past, or where none is
    /// refused.
    pub fn calls_left(&self) -> Option<u64>
        ensures { result ≡ calls_left (calls_of self.now).due }
    {
        self.calls.left()
    }

    /// The tree that it stands over.
    pub fn inner(&self) -> &T
        ensures { result.now ≡ below_of self.now }
    {
        &self.tree
    }

    /// The tree that it stands over, once no more calls are made.
    pub fn into_inner(self) -> T
        ensures { result ≡ below_of self }
    {
        let FailTree { tree, calls: _ } = self;
        tree
    }
}

impl<T: Tree + Drop> Tree for FailTree<T> {
    ghost use Rattle.std.specs.Prelude.{◌<◌, IsErrOf, length, true, false};
    ghost use Rattle.bag_tree.specs.declared.tree_fault.TreeFault.TheVariants.{NoneOpen};
    ghost use Rattle.bag_memory.specs.FailTree.{IfNotKth, RefusesKth};
    ghost use Rattle.bag_memory.specs.Refusals.{after_listing, after_opening, after_read};
    ghost use Rattle.bag_tree.specs.TreeCalls.{ListCall, OpenCall, ReadCall};

    ghost state = { λ tree. failing (T.state tree.tree) tree.calls };

    ghost is_bag = { λ tree. T.is_bag tree.tree };

    fn list(&mut self) -> Result<Listing, TreeFault>
        ensures counted { calls_of self.new ≡ after_listing (calls_of self.old) }
        ensures kth { RefusesKth self.old self.new result }
        ensures others { IfNotKth self.old (ListCall
            (T.state (below_of self.old)) (T.state (below_of self.new)) result) }
    {
        if self.calls.is_due() {
            self.calls.own = Some(Answer::Unlisted(TreeFault::Device));
            return Err(TreeFault::Device);
        }
        self.tree.list()
    }

    fn open_file(&mut self, path: &str) -> Result<(), TreeFault>
        ensures counted { calls_of self.new ≡ after_opening (calls_of self.old) }
        ensures kth { RefusesKth self.old self.new result }
        ensures others { IfNotKth self.old (OpenCall
            (T.state (below_of self.old)) (T.state (below_of self.new)) path.now result) }
    {
        let due = self.calls.is_due();
        self.calls.shut = due;
        if due {
            return Err(TreeFault::Device);
        }
        self.tree.open_file(path)
    }

    fn read(&mut self, buffer: &mut [u8]) -> Result<usize, TreeFault>
        requires { 0 < length buffer.old }
        ensures counted { calls_of self.new ≡ after_read (calls_of self.old) }
        ensures kth { RefusesKth self.old self.new result }
        ensures shut { IfNotKth self.old ((calls_of self.old).shut ≡ true
            → IsErrOf result NoneOpen × (below_of self.new ≡ below_of self.old)) }
        ensures others { IfNotKth self.old ((calls_of self.old).shut ≡ false
            → ReadCall (T.state (below_of self.old)) (T.state (below_of self.new))
            (length buffer.old) buffer.new result) }
    {
        if self.calls.is_due() {
            return Err(TreeFault::Device);
        }
        if self.calls.shut {
            self.calls.own = Some(Answer::Refused(TreeFault::NoneOpen));
            return Err(TreeFault::NoneOpen);
        }
        self.tree.read(buffer)
    }
}

impl<T: WriteTree + Drop> WriteTree for FailTree<T> {
    ghost use Rattle.std.specs.Prelude.{◌≢◌, OnErr, IsTrue};
    ghost use Rattle.bag_text.specs.Path.{is_base_name};
    ghost use Rattle.bag_memory.specs.FailTree.{IfNotKth, RefusesKth};
    ghost use Rattle.bag_memory.specs.Refusals.{after_call};
    ghost use Rattle.bag_tree.specs.ChangeCalls.{Creates, LeavesUnchangedOrPartial, MakesFolder};
    ghost use Rattle.bag_tree.specs.ChangeCalls.{MovesIn, RenamesFolder};

    fn make_folder(&mut self, name: &str) -> Result<(), TreeFault>
        requires { IsTrue (is_base_name name.now) }
        ensures counted { calls_of self.new ≡ after_call (calls_of self.old) }
        ensures kth { RefusesKth self.old self.new result }
        ensures others { IfNotKth self.old (MakesFolder name.now
            (T.state (below_of self.old)) (T.state (below_of self.new)) result) }
    {
        if self.calls.is_due() {
            return Err(TreeFault::Device);
        }
        self.tree.make_folder(name)
    }

    fn move_in(&mut self, top: &str, folder: &str) -> Result<(), TreeFault>
        requires top { IsTrue (is_base_name top.now) }
        requires folder { IsTrue (is_base_name folder.now) }
        requires two { top.now ≢ folder.now }
        ensures counted { calls_of self.new ≡ after_call (calls_of self.old) }
        ensures kth { RefusesKth self.old self.new result }
        ensures others { IfNotKth self.old (MovesIn top.now folder.now
            (T.state (below_of self.old)) (T.state (below_of self.new)) result) }
    {
        if self.calls.is_due() {
            return Err(TreeFault::Device);
        }
        self.tree.move_in(top, folder)
    }

    fn rename_folder(&mut self, from: &str, to: &str) -> Result<(), TreeFault>
        requires from { IsTrue (is_base_name from.now) }
        requires to { IsTrue (is_base_name to.now) }
        ensures counted { calls_of self.new ≡ after_call (calls_of self.old) }
        ensures kth { RefusesKth self.old self.new result }
        ensures others { IfNotKth self.old (RenamesFolder from.now to.now
            (T.state (below_of self.old)) (T.state (below_of self.new)) result) }
    {
        if self.calls.is_due() {
            return Err(TreeFault::Device);
        }
        self.tree.rename_folder(from, to)
    }

    fn create(&mut self, name: &str, bytes: &[u8]) -> Result<(), TreeFault>
        requires { IsTrue (is_base_name name.now) }
        ensures counted { calls_of self.new ≡ after_call (calls_of self.old) }
        ensures kth { RefusesKth self.old self.new result }
        ensures others { IfNotKth self.old (Creates name.now bytes.now
            (T.state (below_of self.old)) (T.state (below_of self.new)) result) }
        ensures begun { OnErr result (LeavesUnchangedOrPartial name.now bytes.now
            (failing (T.state (below_of self.old)) (calls_of self.old))
            (failing (T.state (below_of self.new)) (calls_of self.new))) }
    {
        if self.calls.is_due() {
            return Err(TreeFault::Device);
        }
        self.tree.create(name, bytes)
    }
}
