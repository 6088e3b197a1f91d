//! In which pieces contents are read and reports are written: a file by 65,536 bytes, by checks and
//! by makings, and a fault's line in one write.
use crate::checks::{Files, WRONG, put_letters, request_at, tree_of};
use bag_make::make;
use bag_report::Depth;
use bag_store::{FailTree, MemoryTree, WriterOut};
use bag_text::{Alg, AlgSet};
use bag_walk::{Outcome, run};
use std::alloc::Global;
use std::io::{self, Write};
use std::process::Abort;

/// A manifest that names the file of each bag, with the digest of another one.
const LISTED: Files = &[(
    "manifest-md5.txt",
    b"900150983cd24fb0d6963f7d28e17f72  data/x\n",
)];

/// Whether a check of a payload file of this size, whose tree refuses the call of this number, is
/// refused.
fn is_check_refused(stop: &impl Abort, alloc: Global, size: usize, call: u64) -> bool {
    let mut tree = tree_of(stop, alloc, LISTED);
    put_letters(stop, alloc, &mut tree, "data/x", size);
    let request = request_at(stop, alloc, Depth::Full);
    let mut out = WriterOut::new(Vec::<u8>::new(alloc));
    let (_tree, outcome) = run(alloc, FailTree::new(tree, call), None, request, &mut out);
    matches!(outcome, Outcome::Unread(_, _))
}

/// Whether a making of a folder with a file of this size, whose tree refuses the call of this
/// number, is refused.
fn is_making_refused(stop: &impl Abort, alloc: Global, size: usize, call: u64) -> bool {
    let mut tree = MemoryTree::new(alloc);
    put_letters(stop, alloc, &mut tree, "x", size);
    let algs = AlgSet::empty().with(Alg::Md5);
    let (_tree, made) = make(alloc, FailTree::new(tree, call), algs, &[]);
    made.is_err()
}

/// How many calls of its tree a check of a payload file of this size makes.
fn calls_of_check(stop: &impl Abort, alloc: Global, size: usize) -> u64 {
    for calls in 0..100 {
        if !is_check_refused(stop, alloc, size, calls + 1) {
            return calls;
        }
    }
    100
}

/// How many calls of its tree a making of a folder with a file of this size makes.
fn calls_of_making(stop: &impl Abort, alloc: Global, size: usize) -> u64 {
    for calls in 0..100 {
        if !is_making_refused(stop, alloc, size, calls + 1) {
            return calls;
        }
    }
    100
}

/// Sizes of files, and in how many pieces more than a byte each is read.
const SIZES: [(usize, u64); 5] = [(2, 0), (65_535, 0), (65_536, 0), (65_537, 1), (131_073, 2)];

#[test]
fn a_check_reads_pieces_of_65_536_bytes(rt: HostRuntime) {
    let least = calls_of_check(&rt, rt.alloc(), 1);
    for (size, more) in SIZES {
        let calls = calls_of_check(&rt, rt.alloc(), size);
        assert!(rt;
            3 < least && calls.wrapping_sub(least) == more,
            "{size}: {calls}"
        );
    }
}

#[test]
fn a_making_reads_pieces_of_65_536_bytes(rt: HostRuntime) {
    let least = calls_of_making(&rt, rt.alloc(), 1);
    for (size, more) in SIZES {
        let calls = calls_of_making(&rt, rt.alloc(), size);
        assert!(rt;
            3 < least && calls.wrapping_sub(least) == more,
            "{size}: {calls}"
        );
    }
}

/// Takes all bytes of each write, and marks its end.
#[derive(Drop)]
struct Marked {
    taken: Vec<u8>,
}

impl Write for Marked {
    fn write(&mut self, bytes: &[u8]) -> io::Result<usize> {
        self.taken.extend_from_slice(bytes)?;
        self.taken.push(b'|')?;
        Ok(bytes.len())
    }

    fn flush(&mut self) -> io::Result<()> {
        Ok(())
    }
}

/// The lines of the two faults of `WRONG`, a mark after each.
const WRITES: &[u8] =
    b"701 payload-sum-differs data/x md5 - 900150983cd24fb0d6963f7d28e17f72:0cc175b9c0f1b6a831c399e269772661
|701 payload-sum-differs data/x sha1 - a9993e364706816aba3e25717850c26c9cd0d89d:86f7e437faa5a7fce15d1ddcb9eaeaea377667b8
|";

#[test]
fn each_line_of_a_fault_is_one_write(rt: HostRuntime) {
    let taken = Vec::new(rt.alloc());
    let mut out = WriterOut::new(Marked { taken });
    let tree = tree_of(&rt, rt.alloc(), WRONG);
    let request = request_at(&rt, rt.alloc(), Depth::Full);
    let (_tree, outcome) = run(rt.alloc(), tree, None, request, &mut out);
    assert!(rt; matches!(outcome, Outcome::Faults(2)));
    let taken = out.into_inner().taken;
    assert!(rt; taken.as_slice().starts_with(WRITES));
}
