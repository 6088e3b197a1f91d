//! What commands answer over the disk, and over disks in memory.
use crate::commands::Verb;
use bag_cli::{Bagit, Disks, Folders, Program, WriterOut};
use bag_disk::DiskFault;
use bag_renew_cli::BagitRenew;
use bag_store::{FileTree, Tree};
use std::alloc::Global;
use std::io::{self, ErrorKind, Write};
use test_case_lines::{Answer, Bytes, Mistake};
use test_world::{Refusing, World};

/// An output with room for `room` more bytes.
#[derive(Drop)]
struct Room {
    taken: Vec<u8>,
    room: usize,
}

impl Write for Room {
    fn write(&mut self, bytes: &[u8]) -> io::Result<usize> {
        let count = bytes.len().min(self.room);
        if count == 0 {
            return Err(io::Error::from(ErrorKind::StorageFull));
        }
        self.taken.extend_from_slice(&bytes[..count])?;
        self.room -= count;
        Ok(count)
    }

    fn flush(&mut self) -> io::Result<()> {
        Ok(())
    }
}

/// What a command answers over disks.
pub(crate) fn answer_to<D: Disks>(alloc: Global, disks: &D, verb: Verb, words: &[&str]) -> Answer {
    match verb {
        Verb::List | Verb::Write => {
            let mut out = Bytes::new(alloc);
            put_files(disks, verb, words, &mut out);
            Answer::of(alloc, out, 0)
        }
        _ => run(alloc, disks, verb, words),
    }
}

/// What a command answers over disks in memory, of each of which the call of a number is refused by
/// a fault, from 0, or none: then their calls are counted.
pub(crate) fn answer_in_memory(
    alloc: Global,
    world: &World,
    refused: Option<(u64, DiskFault)>,
    verb: Verb,
    words: &[&str],
) -> Answer {
    answer_to(alloc, &Refusing::at(world, refused), verb, words)
}

/// What a program answers to words.
fn run<D: Disks>(alloc: Global, disks: &D, verb: Verb, words: &[&str]) -> Answer {
    let room = match verb {
        Verb::RunWithRoom(room) => room,
        _ => usize::MAX,
    };
    let (folders, mut visits) = Folders::of(disks);
    let taken = Vec::new(alloc);
    let mut out = WriterOut::new(Room { taken, room });
    let mut err = WriterOut::new(Vec::<u8>::new(alloc));
    let status = match verb {
        Verb::Renew => BagitRenew::run(alloc, &folders, words, &mut visits, &mut out, &mut err),
        _ => Bagit::run(alloc, &folders, words, &mut visits, &mut out, &mut err),
    };
    let Room { taken, room: _ } = out.into_inner();
    Answer {
        written: Bytes::of(alloc, taken),
        told: Bytes::of(alloc, err.into_inner()),
        status,
    }
}

/// Adds the paths of the files in a folder, each in a line, or what a file holds.
fn put_files<D: Disks>(disks: &D, verb: Verb, words: &[&str], out: &mut Bytes) {
    match (verb, words) {
        (Verb::List, [folder]) => put_paths(disks, *folder, out),
        (Verb::Write, [file]) => put_file(disks, *file, out),
        _ => out.fail(Mistake::Command),
    }
}

fn put_paths<D: Disks>(disks: &D, folder: &str, out: &mut Bytes) {
    match disks.disk(out.alloc, folder) {
        Ok(disk) => {
            let mut tree = FileTree::over(out.alloc, disk);
            put_listing(&mut tree, false, out);
        }
        Err(_) => out.fail(Mistake::Memory),
    }
}

fn put_file<D: Disks>(disks: &D, file: &str, out: &mut Bytes) {
    match disks.read_file(out.alloc, file, u32::MAX) {
        Ok(bytes) => out.put_bytes(&bytes),
        Err(_) => out.fail(Mistake::Name),
    }
}

/// Adds the paths of the files of a tree, each in a line and after its size, where that is asked
/// for.
pub(crate) fn put_listing<T: Tree>(tree: &mut T, has_sizes: bool, out: &mut Bytes) {
    match tree.list() {
        Ok(listing) => {
            for file in listing.files.as_slice() {
                if has_sizes {
                    out.show(&file.size, " ");
                }
                out.show(&file.path, "\n");
            }
        }
        Err(_) => out.fail(Mistake::System),
    }
}
