//! What a command of a case asks for.
use bag_disk::DiskFault;

/// What a command does.
#[derive(Clone, Copy)]
pub(crate) enum Verb {
    /// Runs the program.
    Run,
    /// Runs it over the folders on the disk alone.
    RunOnDisk,
    /// Runs it with an output that has room for this number of bytes.
    RunWithRoom(usize),
    /// Runs it over a tree in memory of which each call is refused in turn.
    RefuseTree,
    /// Runs it over disks in memory of which each call is refused in turn, by this fault.
    RefuseDisk(DiskFault),
    /// Runs the program that renews bags.
    Renew,
    /// Runs it over disks in memory of which each call is refused in turn, by this fault.
    RefuseRenewal(DiskFault),
    /// Lists the files of a folder.
    List,
    /// Writes what a file holds.
    Write,
    /// Writes the faults of one stage.
    Stage,
}

/// How commands begin that have no number.
const VERBS: &[(&str, Verb)] = &[
    ("stage ", Verb::Stage),
    ("bagit ", Verb::Run),
    ("cat ", Verb::Write),
    ("REFUSE=tree bagit ", Verb::RefuseTree),
    ("ls ", Verb::List),
    (
        "REFUSE=disk:memory bagit ",
        Verb::RefuseDisk(DiskFault::Memory),
    ),
    ("REFUSE=disk bagit ", Verb::RefuseDisk(DiskFault::Device)),
    (
        "REFUSE=disk:not-found bagit ",
        Verb::RefuseDisk(DiskFault::NotFound),
    ),
    ("REFUSE=disk:name bagit ", Verb::RefuseDisk(DiskFault::Name)),
    ("bagit-renew ", Verb::Renew),
    (
        "REFUSE=disk bagit-renew ",
        Verb::RefuseRenewal(DiskFault::Device),
    ),
    (
        "REFUSE=disk:memory bagit-renew ",
        Verb::RefuseRenewal(DiskFault::Memory),
    ),
    ("on-disk ", Verb::RunOnDisk),
];

/// What a command does, and its words, as of `ROOM=10 bagit --validate d`. After the last word
/// stands a space.
pub(crate) fn verb_of(text: &str) -> Option<(Verb, &str)> {
    for (start, verb) in VERBS {
        if let Some(words) = text.strip_prefix(*start) {
            return Some((*verb, words));
        }
    }
    verb_with_room(text)
}

fn verb_with_room(text: &str) -> Option<(Verb, &str)> {
    let (room, words) = text.strip_prefix("ROOM=")?.split_once(" bagit ")?;
    match room.parse::<usize>() {
        Ok(room) => Some((Verb::RunWithRoom(room), words)),
        Err(_) => None,
    }
}
