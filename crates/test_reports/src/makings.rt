//! Bags that are made of folders in memory: requests that no words ask for, and the line of each way
//! in which a making can end.
use crate::checks::{Files, put_files};
use bag_cli::make_and_report;
use bag_store::{FailTree, MemoryTree, Tree, WriteTree, WriterOut, read_whole};
use bag_text::{Alg, AlgSet, Text};
use std::alloc::Global;
use std::process::Abort;

fn set_of(algs: &[Alg]) -> AlgSet {
    let mut set = AlgSet::empty();
    for alg in algs {
        set = set.with(*alg);
    }
    set
}

fn elements(stop: &impl Abort, alloc: Global, info: &[(&str, &str)]) -> Vec<(Text, Text)> {
    let mut elements = Vec::new(alloc);
    for (label, value) in info {
        elements
            .push((
                Text::from_str(alloc, label).expect(stop, "succeeds"),
                Text::from_str(alloc, value).expect(stop, "succeeds"),
            ))
            .expect(stop, "succeeds");
    }
    elements
}

/// The algorithms, and the labels with their values.
type Request = (&'static [Alg], &'static [(&'static str, &'static str)]);

/// The tree of which a bag was to be made, and what is said of it.
fn made<T: WriteTree + Drop>(
    stop: &impl Abort,
    alloc: Global,
    tree: T,
    (algs, info): Request,
) -> (T, String) {
    let info = elements(stop, alloc, info);
    let mut out = WriterOut::new(Vec::<u8>::new(alloc));
    let (tree, _status) = make_and_report(alloc, tree, "d", set_of(algs), &info, false, &mut out);
    (
        tree,
        String::from_utf8(out.into_inner()).expect(stop, "succeeds"),
    )
}

/// A file in the way.
const TAKEN: Files = &[(".bagit-new/x", b"x")];

const NO_ALGORITHM: &str = "d not made: no algorithm\n";

const BAD_VALUE: &str = "d not made: bad value\n";

/// What a folder holds, what is asked for, and what is said. Where a folder and a request are bad
/// in more than one way, the first refusal is reported.
const REFUSED: &[(Files, Request, &str)] = &[
    (TAKEN, (&[], &[("a:b", "x")]), NO_ALGORITHM),
    (&[], (&[], &[]), NO_ALGORITHM),
    (TAKEN, (&[Alg::Md5], &[("a:b", "x")]), BAD_VALUE),
    (TAKEN, (&[Alg::Md5], &[("payload-oxum", "0.0")]), BAD_VALUE),
    (
        &[],
        (&[Alg::Md5], &[("a", "b"), ("PAYLOAD-Oxum", "0.0")]),
        BAD_VALUE,
    ),
    (&[], (&[Alg::Md5], &[("a", "b"), ("a", "b\nc")]), BAD_VALUE),
    (&[], (&[Alg::Md5], &[("", "x")]), BAD_VALUE),
];

/// A folder with these files.
fn folder(stop: &impl Abort, alloc: Global, files: Files) -> MemoryTree {
    let mut tree = MemoryTree::new(alloc);
    put_files(stop, &mut tree, files);
    tree
}

/// Whether a tree holds these files and no others.
fn holds(stop: &impl Abort, alloc: Global, tree: &mut MemoryTree, files: Files) -> bool {
    let listing = tree.list().expect(stop, "succeeds");
    let mut is_same = listing.files.as_slice().len() == files.len();
    for (entry, (path, bytes)) in listing.files.as_slice().iter().zip(files) {
        let held = read_whole(alloc, tree, entry).expect(stop, "succeeds");
        is_same = is_same && entry.path.as_str() == *path && held.as_slice() == *bytes;
    }
    is_same
}

/// A making is refused with this line, and leaves the folder as it was; so it is where the tree
/// refuses its first call.
fn try_refused(stop: &impl Abort, alloc: Global, files: Files, request: Request, line: &str) {
    let (mut tree, told) = made(stop, alloc, folder(stop, alloc, files), request);
    assert!(stop; told.as_str() == line, "{told}");
    assert!(stop; holds(stop, alloc, &mut tree, files), "{line}");
    let unread = FailTree::new(folder(stop, alloc, files), 1);
    let (_tree, told) = made(stop, alloc, unread, request);
    assert!(stop; told.as_str() == line, "{told}");
}

#[test]
fn bad_requests_are_refused_before_the_folder_is_listed(rt: HostRuntime) {
    for &(files, request, line) in REFUSED {
        try_refused(&rt, rt.alloc(), files, request, line);
    }
}
