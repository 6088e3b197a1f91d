//! Trees that list something else than they hold.
ghost use Rattle.bag_store.specs.Listing.{IsOrdered};

use crate::checks::{Files, checked, request_at, tree_of};
use bag_report::Depth;
use bag_store::{FileEntry, Listing, SkewTree, Tree};
use bag_text::{Items, is_payload};
use std::alloc::Global;
use std::process::Abort;

/// What is listed: the files of a bag, those of its payload with another size, and whether the
/// payload folder is there.
struct Listed {
    files: Files,
    size: u64,
    has_data: bool,
}

/// A bag of which this is listed, or too much; and what a check writes, with its exit status after
/// it.
struct Row {
    listed: Option<Listed>,
    holds: Files,
    depth: Depth,
    written: &'static str,
}

/// The manifest of a file `data/a` that is `a`.
const NAMED: (&str, &[u8]) = (
    "manifest-md5.txt",
    b"0cc175b9c0f1b6a831c399e269772661  data/a\n",
);

const ROWS: &[Row] = &[
    Row {
        listed: None,
        holds: &[],
        depth: Depth::Full,
        written: "d unread - too-many, faults: 0\n3",
    },
    // what isn't listed is missing, and isn't opened
    Row {
        listed: Some(Listed {
            files: &[NAMED],
            size: 0,
            has_data: true,
        }),
        holds: &[("data/a", b"a"), NAMED],
        depth: Depth::Full,
        written: "601 payload-file-missing data/a md5 - -\nd has faults: 1\n1",
    },
    // a file of more bytes than are listed, and one of fewer
    Row {
        listed: Some(Listed {
            files: &[("data/a", b"aa"), NAMED],
            size: 1,
            has_data: true,
        }),
        holds: &[("data/a", b"aa"), NAMED],
        depth: Depth::Full,
        written: "d unread data/a changed, faults: 0\n3",
    },
    Row {
        listed: Some(Listed {
            files: &[("data/a", b""), NAMED],
            size: 1,
            has_data: true,
        }),
        holds: &[("data/a", b""), NAMED],
        depth: Depth::Full,
        written: "d unread data/a changed, faults: 0\n3",
    },
    // sizes add up without loss
    Row {
        listed: Some(Listed {
            files: &[
                ("bag-info.txt", b"Payload-Oxum: 0.2\n"),
                ("data/a", b""),
                ("data/b", b""),
                ("manifest-sha256.txt", b""),
            ],
            size: u64::MAX,
            has_data: true,
        }),
        holds: &[
            ("bag-info.txt", b"Payload-Oxum: 0.2\n"),
            ("manifest-sha256.txt", b""),
        ],
        depth: Depth::Fast,
        written: "304 oxum-differs bag-info.txt - 1 0.2:36893488147419103230.2\n\
                  d has faults: 1\n1",
    },
    // a listed payload file stands in the payload folder, also where that isn't listed
    Row {
        listed: Some(Listed {
            files: &[("data/a", b"a"), NAMED],
            size: 1,
            has_data: false,
        }),
        holds: &[("data/a", b"a"), NAMED],
        depth: Depth::Full,
        written: "d is valid\n0",
    },
    Row {
        listed: Some(Listed {
            files: &[("manifest-md5.txt", b"")],
            size: 0,
            has_data: false,
        }),
        holds: &[("manifest-md5.txt", b"")],
        depth: Depth::Full,
        written: "201 no-payload-folder - - - -\nd has faults: 1\n1",
    },
];

/// Listed files, of which those of the payload have this size now.
fn resized(stop: &impl Abort, alloc: Global, files: Vec<FileEntry>, size: u64) -> Items<FileEntry>
    requires { IsOrdered files.items }
    ensures { IsOrdered result }
{
    let mut resized = Items::new(alloc);
    for file in files {
        let is_resized = is_payload(file.path.as_str());
        let size = if is_resized { size } else { file.size };
        let entry = FileEntry {
            path: file.path,
            size,
        };
        resized.push(entry).expect(stop, "succeeds");
    }
    resized
}

/// What is listed.
fn listing_of(stop: &impl Abort, alloc: Global, listed: &Listed) -> Listing
    ensures { IsOrdered result.files }
{
    let listing = tree_of(stop, alloc, listed.files)
        .list()
        .expect(stop, "succeeds");
    Listing {
        files: resized(stop, alloc, listing.files.into_vec(), listed.size),
        has_data: listed.has_data,
    }
}

/// The bag of a row, with its listing.
fn skewed(stop: &impl Abort, alloc: Global, row: &Row) -> SkewTree {
    let listing = match &row.listed {
        Some(listed) => Some(listing_of(stop, alloc, listed)),
        None => None,
    };
    SkewTree::new(tree_of(stop, alloc, row.holds), listing)
}

#[test]
fn what_is_listed_and_what_is_there(rt: HostRuntime) {
    for row in ROWS {
        let tree = skewed(&rt, rt.alloc(), row);
        let request = request_at(&rt, rt.alloc(), row.depth);
        let (_tree, text) = checked(&rt, rt.alloc(), tree, request);
        assert!(rt; text.as_str() == row.written, "{text}");
    }
}
