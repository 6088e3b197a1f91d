//! How often a tree in memory is read for the digests of a file, and what comes where a call is
//! refused.
ghost use Rattle.std.specs.Prelude.{◌<◌, length};

use bag_store::{FailTree, FileEntry, MemoryTree, Sums, TreeFault, digest_file};
use bag_text::{Alg, AlgSet, Text};
use std::alloc::Global;
use std::process::Abort;

/// The set of every algorithm.
fn every_alg() -> AlgSet {
    let mut algs = AlgSet::empty();
    for alg in Alg::ALL {
        algs = algs.with(alg);
    }
    algs
}

/// So many bytes, of which no neighbours are alike.
fn bytes_of(stop: &impl Abort, alloc: Global, size: u32) -> Vec<u8> {
    let mut bytes = Vec::new(alloc);
    for index in 0..size {
        bytes.push((index % 251) as u8).expect(stop, "succeeds");
    }
    bytes
}

const PATH: &str = "data/x";

/// The digests of a file of these bytes, which is listed with a path and a size, of a tree of which
/// the call of this number is refused.
fn sums_of(
    stop: &impl Abort,
    alloc: Global,
    bytes: &[u8],
    listed: (&str, u64),
    refused: u64,
    buffer: &mut [u8],
) -> Result<Sums, TreeFault>
    requires { 0 < length buffer.old }
{
    let (path, size) = listed;
    let path = Text::from_str(alloc, path).expect(stop, "succeeds");
    let mut tree = MemoryTree::new(alloc);
    tree.put_file(PATH, bytes).expect(stop, "succeeds");
    let mut tree = FailTree::new(tree, refused);
    digest_file(&mut tree, &FileEntry { path, size }, every_alg(), buffer)
}

/// A pass makes a call for the opening, one for each piece, and one for the end: at most two more
/// than there are bytes.
fn try_calls(stop: &impl Abort, alloc: Global, size: u32, buffer: &mut [u8])
    requires { 0 < length buffer.old }
{
    let bytes = bytes_of(stop, alloc, size);
    let size = u64::from(size);
    let calls = size.div_ceil(buffer.len() as u64) + 2;
    for call in 1..=size + 3 {
        let found = sums_of(stop, alloc, &bytes, (PATH, size), call, buffer).err();
        let refusal = (call <= calls).then_some(TreeFault::Device);
        assert!(stop; found == refusal, "{size} bytes, call {call}");
    }
}

#[test]
fn a_pass_takes_few_calls(rt: HostRuntime) {
    for size in [0, 1, 2, 3, 7, 64] {
        try_calls(&rt, rt.alloc(), size, &mut [0; 1]);
        try_calls(&rt, rt.alloc(), size, &mut [0; 2]);
        try_calls(&rt, rt.alloc(), size, &mut [0; 3]);
        try_calls(&rt, rt.alloc(), size, &mut [0; 64]);
    }
}
