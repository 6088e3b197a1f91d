//! Walks over the faults of a bag, one at a time: what each step gives, which files it opens, and
//! how it goes on after a refusal.
use crate::checks::{Files, cursor, opened, options_of, tree_of};
use bag_report::{Depth, Fault};
use bag_store::{FailTree, MemoryTree, Stop, Tree};
use bag_walk::Walk;
use std::alloc::Global;
use std::process::Abort;

/// Three files that hold `a`, to which two manifests give other digests.
pub(crate) const EACH_TWICE: Files = &[
    ("data/a", b"a"),
    ("data/b", b"a"),
    ("data/c", b"a"),
    (
        "manifest-md5.txt",
        b"92eb5ffee6ae2fec3ad71c777531578f  data/a\n92eb5ffee6ae2fec3ad71c777531578f  data/b\n92eb5ffee6ae2fec3ad71c777531578f  data/c\n",
    ),
    (
        "manifest-sha1.txt",
        b"da39a3ee5e6b4b0d3255bfef95601890afd80709  data/a\nda39a3ee5e6b4b0d3255bfef95601890afd80709  data/b\nda39a3ee5e6b4b0d3255bfef95601890afd80709  data/c\n",
    ),
];

/// What a step gives: the code, the path and the algorithm of a fault, the end, or the path and the
/// cause of a refusal.
fn step_of<T: Tree>(stop: &impl Abort, alloc: Global, walk: &mut Walk<T>) -> String {
    let mut text = String::new(alloc);
    match walk.next() {
        Ok(Some(fault)) => write_fault(stop, alloc, fault, &mut text),
        Ok(None) => text.push_str("end\n").expect(stop, "succeeds"),
        Err(refused) => write_stop(stop, &refused, &mut text),
    }
    text
}

fn write_fault(stop: &impl Abort, alloc: Global, fault: &Fault, text: &mut String) {
    let line = fault.to_line(alloc).expect(stop, "succeeds");
    let mut words = line.as_str().split(' ');
    let code = words.next().unwrap_or("-");
    let path = words.nth(1).unwrap_or("-");
    let alg = words.next().unwrap_or("-");
    write!(text, "{code} {path} {alg}\n").expect(stop, "succeeds");
}

fn write_stop(stop: &impl Abort, refused: &Stop, text: &mut String) {
    let path = refused.path.as_str();
    let cause = refused.cause.word();
    write!(text, "unread {path} {cause}\n").expect(stop, "succeeds");
}

/// A walk over a bag at depth `Full`, above the fault of a line where one is given; none where a
/// call of the tree was refused.
fn walk_over<T: Tree + Drop>(
    stop: &impl Abort,
    alloc: Global,
    tree: T,
    after: Option<&str>,
) -> Option<Walk<T>> {
    let after = cursor(stop, alloc, after);
    Walk::start(alloc, tree, None, options_of(Depth::Full), after).ok()
}

/// The files that are opened before any step.
const TAG_FILES: &str = "bagit.txt\nmanifest-md5.txt\nmanifest-sha1.txt\n";

/// A fault after which a walk begins; what each step gives, and the payload files that were opened
/// by then.
struct Row {
    after: Option<&'static str>,
    steps: &'static [(&'static str, &'static str)],
}

const ROWS: &[Row] = &[
    Row {
        after: None,
        steps: &[
            ("701 data/a md5\n", "data/a\n"),
            ("701 data/a sha1\n", "data/a\n"),
            ("701 data/b md5\n", "data/a\ndata/b\n"),
            ("701 data/b sha1\n", "data/a\ndata/b\n"),
            ("701 data/c md5\n", "data/a\ndata/b\ndata/c\n"),
            ("701 data/c sha1\n", "data/a\ndata/b\ndata/c\n"),
            ("end\n", "data/a\ndata/b\ndata/c\n"),
            ("end\n", "data/a\ndata/b\ndata/c\n"),
        ],
    },
    // above the first fault of a file
    Row {
        after: Some(
            "701 payload-sum-differs data/a md5 - 92eb5ffee6ae2fec3ad71c777531578f:0cc175b9c0f1b6a831c399e269772661",
        ),
        steps: &[
            ("701 data/a sha1\n", "data/a\n"),
            ("701 data/b md5\n", "data/a\ndata/b\n"),
            ("701 data/b sha1\n", "data/a\ndata/b\n"),
            ("701 data/c md5\n", "data/a\ndata/b\ndata/c\n"),
            ("701 data/c sha1\n", "data/a\ndata/b\ndata/c\n"),
            ("end\n", "data/a\ndata/b\ndata/c\n"),
        ],
    },
    // above its last
    Row {
        after: Some(
            "701 payload-sum-differs data/a sha1 - da39a3ee5e6b4b0d3255bfef95601890afd80709:86f7e437faa5a7fce15d1ddcb9eaeaea377667b8",
        ),
        steps: &[
            ("701 data/b md5\n", "data/a\ndata/b\n"),
            ("701 data/b sha1\n", "data/a\ndata/b\n"),
            ("701 data/c md5\n", "data/a\ndata/b\ndata/c\n"),
            ("701 data/c sha1\n", "data/a\ndata/b\ndata/c\n"),
            ("end\n", "data/a\ndata/b\ndata/c\n"),
        ],
    },
    // above the first fault of the second file
    Row {
        after: Some(
            "701 payload-sum-differs data/b md5 - 92eb5ffee6ae2fec3ad71c777531578f:0cc175b9c0f1b6a831c399e269772661",
        ),
        steps: &[
            ("701 data/b sha1\n", "data/b\n"),
            ("701 data/c md5\n", "data/b\ndata/c\n"),
            ("701 data/c sha1\n", "data/b\ndata/c\n"),
            ("end\n", "data/b\ndata/c\n"),
        ],
    },
    // above all faults of digests
    Row {
        after: Some("801 profile-identifier bag-info.txt - - -"),
        steps: &[("end\n", "")],
    },
];

/// The payload files that the first steps of a row open.
fn opened_by(row: &Row, count: usize) -> &'static str {
    match row.steps.get(count.wrapping_sub(1)) {
        Some((_, files)) => files,
        None => "",
    }
}

/// The first steps of a row's walk give what it says, and open it.
fn try_steps(stop: &impl Abort, alloc: Global, row: &Row, count: usize) {
    let tree = tree_of(stop, alloc, EACH_TWICE);
    let mut walk = walk_over(stop, alloc, tree, row.after).expect(stop, "a walk");
    for (given, _) in row.steps.iter().take(count) {
        let step = step_of(stop, alloc, &mut walk);
        assert!(stop; step.as_str() == *given, "{step}");
    }
    let opened = opened(stop, alloc, &walk.into_tree());
    let found = opened.as_str().strip_prefix(TAG_FILES);
    assert!(stop; found == Some(opened_by(row, count)), "{opened}");
}

#[test]
fn steps_open_no_file_after_their_fault(rt: HostRuntime) {
    for row in ROWS {
        for count in 0..=row.steps.len() {
            try_steps(&rt, rt.alloc(), row, count);
        }
    }
}

/// What the steps of a walk over the files with one manifest give of which a call of the tree is
/// refused, with the files that were opened after.
fn refused_at(stop: &impl Abort, alloc: Global, call: u64) -> String {
    let mut text = String::new(alloc);
    let each_once = EACH_TWICE.get(..4).unwrap_or(&[]);
    let tree = FailTree::new(tree_of(stop, alloc, each_once), call);
    let Some(mut walk) = walk_over(stop, alloc, tree, None) else {
        text.push_str("none\n").expect(stop, "succeeds");
        return text;
    };
    for _ in 0..5 {
        let step = step_of(stop, alloc, &mut walk);
        text.push_str(step.as_str()).expect(stop, "succeeds");
    }
    let opened = opened(stop, alloc, walk.into_tree().inner());
    text.push_str(opened.as_str()).expect(stop, "succeeds");
    text
}

/// What comes where call 1, 2, 3 and so on is refused, each answer once: while the facts are read,
/// at each file's opening and at a read of it, and none before the end.
const REFUSED: &str = "none\n\
    unread data/a device\n701 data/a md5\n701 data/b md5\n701 data/c md5\nend\n\
    bagit.txt\nmanifest-md5.txt\ndata/a\ndata/b\ndata/c\n\
    unread data/a device\n701 data/a md5\n701 data/b md5\n701 data/c md5\nend\n\
    bagit.txt\nmanifest-md5.txt\ndata/a\ndata/a\ndata/b\ndata/c\n\
    701 data/a md5\nunread data/b device\n701 data/b md5\n701 data/c md5\nend\n\
    bagit.txt\nmanifest-md5.txt\ndata/a\ndata/b\ndata/c\n\
    701 data/a md5\nunread data/b device\n701 data/b md5\n701 data/c md5\nend\n\
    bagit.txt\nmanifest-md5.txt\ndata/a\ndata/b\ndata/b\ndata/c\n\
    701 data/a md5\n701 data/b md5\nunread data/c device\n701 data/c md5\nend\n\
    bagit.txt\nmanifest-md5.txt\ndata/a\ndata/b\ndata/c\n\
    701 data/a md5\n701 data/b md5\nunread data/c device\n701 data/c md5\nend\n\
    bagit.txt\nmanifest-md5.txt\ndata/a\ndata/b\ndata/c\ndata/c\n\
    701 data/a md5\n701 data/b md5\n701 data/c md5\nend\nend\n\
    bagit.txt\nmanifest-md5.txt\ndata/a\ndata/b\ndata/c\n";

#[test]
fn a_refused_file_is_begun_again(rt: HostRuntime) {
    let mut found = String::new(rt.alloc());
    for call in 1..60 {
        let answer = refused_at(&rt, rt.alloc(), call);
        if !found.as_str().ends_with(answer.as_str()) {
            found.push_str(answer.as_str()).expect(&rt, "succeeds");
        }
    }
    assert!(rt; found.as_str() == REFUSED, "{found}");
}
