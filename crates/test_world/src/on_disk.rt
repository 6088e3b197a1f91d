//! What stands on the disk, in the folder in which the program runs.
use std::io::{self, ErrorKind};
use std::os::unix::fs::symlink;
use std::{fs, str};
use test_case_lines::Word;
use test_disk::Node;

/// Makes a folder anew.
pub(crate) fn make_folder(rt: &HostRuntime, name: &str) -> io::Result<()> {
    if fs::exists(rt, name)? {
        fs::remove_dir_all(rt, name)?;
    }
    fs::create_dir(rt, name)
}

/// Puts something at a path, and makes the folders that it needs. A link leads to the path that
/// bytes say.
pub(crate) fn put(rt: &HostRuntime, word: Word, path: &str, bytes: &[u8]) -> io::Result<()> {
    if let Some((parent, _)) = path.rsplit_once('/') {
        fs::create_dir_all(rt, parent)?;
    }
    match word {
        Word::Folder => fs::create_dir_all(rt, path),
        Word::Link => match str::from_utf8(bytes) {
            Ok(target) => symlink(rt, target, path),
            Err(_) => Err(io::Error::from(ErrorKind::InvalidData)),
        },
        Word::Opened => Ok(()),
        _ => fs::write(rt, path, bytes),
    }
}

/// Removes a folder or a file.
pub(crate) fn remove(rt: &HostRuntime, name: &[u8], node: &Node) -> io::Result<()> {
    let name = str::from_utf8(name).unwrap_or("");
    match node {
        Node::Folder => fs::remove_dir_all(rt, name),
        Node::File(_) | Node::Other => fs::remove_file(rt, name),
    }
}
