//! What is tried on trees of each kind.
use crate::held::Held::{File, Folder, Other};
use crate::held::Place;
use crate::steps::Name::{
    Blanks, D, Data, Declaration, Ends, L, Letter, Line, LineFeed, M, N, New, Nothing, Percent,
    Return, X, Y,
};
use crate::steps::Step::{Create, MakeFolder, MoveIn, Open, Read, RenameFolder};
use crate::steps::{Answer, Trial};
use bag_store::TreeFault;

const DONE: Answer = Ok(0);

const EXISTS: Answer = Err(TreeFault::Exists);

const NOT_FOUND: Answer = Err(TreeFault::NotFound);

const DEVICE: Answer = Err(TreeFault::Device);

const NONE_OPEN: Answer = Err(TreeFault::NoneOpen);

const SPECIAL: Answer = Err(TreeFault::Special);

/// A folder that isn't a bag yet: two files beside a folder with two, and an empty folder.
pub(crate) const SAMPLE: &[Place] = &[
    (b"d", Folder),
    (b"d-", File("")),
    (b"d/e", Folder),
    (b"d/e/f", File("ef")),
    (b"d/x", File("x")),
    (b"n", Folder),
    (b"x", File("abc")),
];

pub(crate) const SAMPLE_HELD: &str = "false, d-=, d/e/f=ef, d/x=x, x=abc";

/// What is tried on trees of every kind.
pub(crate) const TRIALS: &[Trial] = &[
    Trial {
        title: "nothing is replaced, and nothing is moved that isn't there",
        before: SAMPLE,
        steps: &[
            (MakeFolder(X), EXISTS),
            (MakeFolder(D), EXISTS),
            (MakeFolder(N), EXISTS),
            (Create(X, "again"), EXISTS),
            (Create(N, ""), EXISTS),
            (MoveIn(X, D), EXISTS),
            (MoveIn(Nothing, N), NOT_FOUND),
            (MoveIn(X, Nothing), NOT_FOUND),
            (MoveIn(D, X), NOT_FOUND),
            (RenameFolder(Nothing, M), NOT_FOUND),
            (RenameFolder(X, Data), NOT_FOUND),
            (RenameFolder(D, X), EXISTS),
            (RenameFolder(D, N), EXISTS),
            (RenameFolder(D, D), EXISTS),
        ],
        after: SAMPLE_HELD,
    },
    Trial {
        title: "a folder is made",
        before: SAMPLE,
        steps: &[(MakeFolder(Data), DONE)],
        after: "true, d-=, d/e/f=ef, d/x=x, x=abc",
    },
    Trial {
        title: "a file is moved into a folder",
        before: SAMPLE,
        steps: &[(MoveIn(X, N), DONE)],
        after: "false, d-=, d/e/f=ef, d/x=x, n/x=abc",
    },
    // not into one that has a folder of its name; then the first name is free
    Trial {
        title: "a folder is moved into a folder",
        before: &[
            (b"d", Folder),
            (b"d-", File("")),
            (b"d/e", Folder),
            (b"d/e/f", File("ef")),
            (b"d/x", File("x")),
            (b"n", Folder),
            (b"n/d", Folder),
            (b"n/d/y", File("y")),
            (b"x", File("abc")),
        ],
        steps: &[
            (MoveIn(D, N), EXISTS),
            (MakeFolder(M), DONE),
            (MoveIn(D, M), DONE),
            (MakeFolder(D), DONE),
        ],
        after: "false, d-=, m/d/e/f=ef, m/d/x=x, n/d/y=y, x=abc",
    },
    // the first name is free then
    Trial {
        title: "a folder has another name",
        before: SAMPLE,
        steps: &[(RenameFolder(D, Data), DONE), (MakeFolder(D), DONE)],
        after: "true, d-=, data/e/f=ef, data/x=x, x=abc",
    },
    Trial {
        title: "a file is made",
        before: SAMPLE,
        steps: &[(Create(Declaration, "ab"), DONE)],
        after: "false, bagit.txt=ab, d-=, d/e/f=ef, d/x=x, x=abc",
    },
    // one that is refused leaves it
    Trial {
        title: "a change closes the open file",
        before: SAMPLE,
        steps: &[
            (Open("x"), DONE),
            (Create(X, ""), EXISTS),
            (Read, Ok(3)),
            (Create(Y, ""), DONE),
            (Read, NONE_OPEN),
        ],
        after: "false, d-=, d/e/f=ef, d/x=x, x=abc, y=",
    },
    Trial {
        title: "a folder becomes a bag",
        before: SAMPLE,
        steps: &[
            (MakeFolder(New), DONE),
            (MoveIn(D, New), DONE),
            (MoveIn(N, New), DONE),
            (MoveIn(X, New), DONE),
            (RenameFolder(New, Data), DONE),
            (Create(Declaration, "ab"), DONE),
        ],
        after: "true, bagit.txt=ab, d-=, data/d/e/f=ef, data/d/x=x, data/x=abc",
    },
    // line ends, percent signs, blanks and other letters
    Trial {
        title: "odd names are kept",
        before: &[
            (b" b ", File("b")),
            (b"%41", Folder),
            (b"%41/%", File("%")),
            (b"a\nb", File("a")),
            (b"c\r", Folder),
            (b"c\r/..c", File("c")),
            (b"\xc3\xa9", File("e")),
        ],
        steps: &[
            (MakeFolder(Line), DONE),
            (MoveIn(Blanks, Line), DONE),
            (MoveIn(Percent, Line), DONE),
            (MoveIn(LineFeed, Line), DONE),
            (MoveIn(Return, Line), DONE),
            (MoveIn(Letter, Line), DONE),
            (RenameFolder(Line, Data), DONE),
            (Create(Ends, "z"), DONE),
        ],
        after: "true, %0A \r\n=z, data/ b =b, data/%41/%=%, data/a\nb=a, data/c\r/..c=c, data/\u{e9}=e",
    },
];

/// What is tried on trees of disks in memory and of real folders.
pub(crate) const DISK_TRIALS: &[Trial] = &[
    // one with a file, and one with an empty folder
    Trial {
        title: "a folder in the folder is not replaced",
        before: &[
            (b"d", Folder),
            (b"d/x", File("x")),
            (b"m", Folder),
            (b"m/d", Folder),
            (b"m/d/e", Folder),
            (b"m/d/e/f", File("")),
            (b"n", Folder),
            (b"n/d", Folder),
            (b"n/d/e", Folder),
        ],
        steps: &[(MoveIn(D, M), EXISTS), (MoveIn(D, N), DEVICE)],
        after: "false, d/x=x, m/d/e/f=",
    },
    Trial {
        title: "files are listed by the bytes of their paths",
        before: &[
            (b".a", Folder),
            (b"a", Folder),
            (b"data", Folder),
            (b"data/sub", Folder),
            (b"empty", Folder),
            (b"empty/empty", Folder),
            (b"\xc3\xa9", File("1")),
            (b"a/b", File("2")),
            (b"a.b", File("3")),
            (b"a-b", File("4")),
            (b"data/sub/x", File("5")),
            (b".b", File("6")),
            (b".a/.c", File("7")),
        ],
        steps: &[],
        after: "true, .a/.c=7, .b=6, a-b=4, a.b=3, a/b=2, data/sub/x=5, \u{e9}=1",
    },
    Trial {
        title: "no link is followed, moved or replaced",
        before: &[
            (b"d", Folder),
            (b"d/x", Other),
            (b"l", Other),
            (b"n", Folder),
            (b"x", File("abc")),
        ],
        steps: &[
            (MakeFolder(L), SPECIAL),
            (Create(L, "z"), SPECIAL),
            (RenameFolder(L, M), SPECIAL),
            (RenameFolder(D, L), SPECIAL),
            (MoveIn(L, N), SPECIAL),
            (MoveIn(X, L), SPECIAL),
            (MoveIn(X, D), SPECIAL),
            (Open("x"), DONE),
        ],
        after: "special",
    },
];
