//! Bags in memory, and what checks of them write.
use bag_report::{Depth, Fault, Options};
use bag_store::{MemoryTree, Tree, WriterOut};
use bag_text::{Text, check_path};
use bag_walk::{Request, run, status};
use std::alloc::Global;
use std::io::Write;
use std::process::Abort;

/// Paths, each with the bytes of its file.
pub(crate) type Files = &'static [(&'static str, &'static [u8])];

/// A declaration that is right (RFC 8493, 2.1.1).
const DECLARED: Files = &[(
    "bagit.txt",
    b"BagIt-Version: 1.0\nTag-File-Character-Encoding: UTF-8\n",
)];

/// A file that holds `a`, to which two manifests give the digests of `abc`.
pub(crate) const WRONG: Files = &[
    ("data/x", b"a"),
    (
        "manifest-md5.txt",
        b"900150983cd24fb0d6963f7d28e17f72  data/x\n",
    ),
    (
        "manifest-sha1.txt",
        b"a9993e364706816aba3e25717850c26c9cd0d89d  data/x\n",
    ),
];

/// Puts a file into a tree. A text that isn't a path is refused.
fn put(stop: &impl Abort, tree: &mut MemoryTree, path: &str, bytes: &[u8]) {
    check_path(path).expect(stop, "succeeds");
    tree.put_file(path, bytes).expect(stop, "succeeds")
}

/// Puts files into a tree.
pub(crate) fn put_files(stop: &impl Abort, tree: &mut MemoryTree, files: Files) {
    for (path, bytes) in files {
        put(stop, tree, path, bytes);
    }
}

/// Puts a file of `size` letters `a` into a tree.
pub(crate) fn put_letters(
    stop: &impl Abort,
    alloc: Global,
    tree: &mut MemoryTree,
    path: &str,
    size: usize,
) {
    let letters = Vec::from_elem(alloc, b'a', size).expect(stop, "succeeds");
    put(stop, tree, path, &letters);
}

/// A bag in memory, with a payload folder and a declaration.
pub(crate) fn tree_of(stop: &impl Abort, alloc: Global, files: Files) -> MemoryTree {
    let mut tree = MemoryTree::new(alloc);
    tree.put_folder("data").expect(stop, "succeeds");
    put_files(stop, &mut tree, DECLARED);
    put_files(stop, &mut tree, files);
    tree
}

/// The paths that a tree opened, each with its line's end.
pub(crate) fn opened(stop: &impl Abort, alloc: Global, tree: &MemoryTree) -> String {
    let mut text = String::new(alloc);
    for path in tree.openings() {
        text.push_str(path.as_str()).expect(stop, "succeeds");
        text.push('\n').expect(stop, "succeeds");
    }
    text
}

/// How bags are checked where names that clash aren't looked for.
pub(crate) fn options_of(depth: Depth) -> Options {
    Options {
        depth,
        clashes: false,
    }
}

/// The fault of a line, where there is one.
pub(crate) fn cursor(stop: &impl Abort, alloc: Global, line: Option<&str>) -> Option<Fault> {
    match line {
        Some(line) => Some(Fault::from_line(alloc, line).expect(stop, "succeeds")),
        None => None,
    }
}

/// A request for all faults of a bag called `d`, but for names that clash.
pub(crate) fn request_at(stop: &impl Abort, alloc: Global, depth: Depth) -> Request {
    Request {
        options: options_of(depth),
        after: None,
        limit: None,
        quiet: false,
        name: Text::from_str(alloc, "d").expect(stop, "succeeds"),
    }
}

/// The tree after a check, and what the check wrote, with its exit status after it.
pub(crate) fn checked<T: Tree + Drop>(
    stop: &impl Abort,
    alloc: Global,
    tree: T,
    request: Request,
) -> (T, String) {
    let mut out = WriterOut::new(Vec::<u8>::new(alloc));
    let (tree, outcome) = run(alloc, tree, None, request, &mut out);
    let mut text = out.into_inner();
    write!(text, "{}", status(&outcome)).expect(stop, "succeeds");
    (tree, String::from_utf8(text).expect(stop, "succeeds"))
}
