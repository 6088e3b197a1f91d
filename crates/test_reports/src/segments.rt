//! Reports in segments: what they write, how they end, which files they open, and what comes where
//! a call of a tree is refused.
ghost use Rattle.std.specs.Prelude.{◌<◌, ◌^◌, sum};

use crate::checks::{Files, WRONG, opened, options_of, tree_of};
use crate::walks::EACH_TWICE;
use bag_report::Depth;
use bag_store::{FailTree, Tree, WriterOut};
use bag_walk::{Outcome, run_segments};
use std::alloc::Global;
use std::process::Abort;

/// A manifest of which no line can be read.
const UNREAD_LINES: Files = &[(
    "manifest-md5.txt",
    b"d41d8cd98f00b204e9800998ecf8427e  data/%41\nd41d8cd98f00b204e9800998ecf8427e  data/../x\nd41d8cd98f00b204e9800998ecf8427e  /etc/x\nd41d8cd98f00b204e9800998ecf8427e  data\n",
)];

const UNREAD: &str = "503 manifest-escape manifest-md5.txt md5 1 data/%2541
504 manifest-unsafe-path manifest-md5.txt md5 2 data/../x
504 manifest-unsafe-path manifest-md5.txt md5 3 /etc/x
505 manifest-outside-payload manifest-md5.txt md5 4 data
";

/// The faults of `WRONG`.
const WRONG_DIGESTS: &str =
    "701 payload-sum-differs data/x md5 - 900150983cd24fb0d6963f7d28e17f72:0cc175b9c0f1b6a831c399e269772661
701 payload-sum-differs data/x sha1 - a9993e364706816aba3e25717850c26c9cd0d89d:86f7e437faa5a7fce15d1ddcb9eaeaea377667b8
";

/// The tree after segments, what they wrote, and how they ended.
fn in_segments<T: Tree + Drop>(
    stop: &impl Abort,
    alloc: Global,
    tree: T,
    limits: &[u64],
) -> (T, String, Outcome)
    requires { sum limits.now < 2 ^ 64 }
{
    let options = options_of(Depth::Full);
    let mut out = WriterOut::new(Vec::<u8>::new(alloc));
    let (tree, outcome) = run_segments(alloc, tree, None, options, limits, &mut out);
    let text = String::from_utf8(out.into_inner()).expect(stop, "succeeds");
    (tree, text, outcome)
}

#[test]
fn limits_are_taken_in_order(rt: HostRuntime) {
    let tree = tree_of(&rt, rt.alloc(), UNREAD_LINES);
    let (tree, text, outcome) = in_segments(&rt, rt.alloc(), tree, &[2, 0, 1, 9]);
    assert!(rt; text.as_str() == UNREAD && matches!(outcome, Outcome::Faults(4)));
    let (tree, text, outcome) = in_segments(&rt, rt.alloc(), tree, &[2, 2]);
    assert!(rt; text.as_str() == UNREAD && matches!(outcome, Outcome::Stopped(4)));
    let (_tree, text, outcome) = in_segments(&rt, rt.alloc(), tree, &[]);
    assert!(rt; text.is_empty() && matches!(outcome, Outcome::Stopped(0)));
}

/// Whether segments of which a call of the tree is refused write both faults.
fn is_made_up_for(stop: &impl Abort, alloc: Global, call: u64) -> bool {
    let tree = FailTree::new(tree_of(stop, alloc, WRONG), call);
    let (_tree, text, outcome) = in_segments(stop, alloc, tree, &[1, 1, 1, 1]);
    text.as_str() == WRONG_DIGESTS && matches!(outcome, Outcome::Faults(2))
}

#[test]
fn each_call_is_refused_in_turn(rt: HostRuntime) {
    for call in 1..40 {
        assert!(rt; is_made_up_for(&rt, rt.alloc(), call), "call {call}");
    }
    let tree = tree_of(&rt, rt.alloc(), WRONG);
    let (_tree, text, outcome) = in_segments(&rt, rt.alloc(), tree, &[1, 1]);
    assert!(rt; text.as_str() == WRONG_DIGESTS && matches!(outcome, Outcome::Stopped(2)));
}

/// The faults of three files, to each of which two manifests give other digests.
const TWICE: &str =
    "701 payload-sum-differs data/a md5 - 92eb5ffee6ae2fec3ad71c777531578f:0cc175b9c0f1b6a831c399e269772661
701 payload-sum-differs data/a sha1 - da39a3ee5e6b4b0d3255bfef95601890afd80709:86f7e437faa5a7fce15d1ddcb9eaeaea377667b8
701 payload-sum-differs data/b md5 - 92eb5ffee6ae2fec3ad71c777531578f:0cc175b9c0f1b6a831c399e269772661
701 payload-sum-differs data/b sha1 - da39a3ee5e6b4b0d3255bfef95601890afd80709:86f7e437faa5a7fce15d1ddcb9eaeaea377667b8
701 payload-sum-differs data/c md5 - 92eb5ffee6ae2fec3ad71c777531578f:0cc175b9c0f1b6a831c399e269772661
701 payload-sum-differs data/c sha1 - da39a3ee5e6b4b0d3255bfef95601890afd80709:86f7e437faa5a7fce15d1ddcb9eaeaea377667b8
";

#[test]
fn few_files_are_opened_again(rt: HostRuntime) {
    let tree = tree_of(&rt, rt.alloc(), EACH_TWICE);
    let (tree, text, outcome) = in_segments(&rt, rt.alloc(), tree, &[1, 1, 1, 1, 1, 1, 1]);
    assert!(rt; text.as_str() == TWICE && matches!(outcome, Outcome::Faults(6)));
    let opened = opened(&rt, rt.alloc(), &tree);
    let payload = opened
        .as_str()
        .lines()
        .filter(|path| path.starts_with("data/"));
    assert!(rt; payload.count() <= 9);
}
