//! Why a tar file or a report can't be read, or what stands in its place, for people to read: no
//! contract speaks of it.
use crate::trouble::put_trouble;
use bag_tree::Out;
use std::alloc::Global;
use std::io::ErrorKind;
use std::rt::Files;
use std::{fmt, fs, io};

/// Why a file can't be read, or what stands in its place.
#[derive(Drop)]
pub enum FileTrouble {
    /// A folder stands there.
    Folder,
    /// What stands there is no regular file.
    NoFile,
    /// The file is packed by a program of this name.
    Packed(&'static str),
    /// The system refused.
    Refused(io::Error),
}

impl FileTrouble {
    /// That the system refused.
    pub(crate) fn of(error: io::Error) -> FileTrouble {
        FileTrouble::Refused(error)
    }

    /// Whether memory ran out.
    pub(crate) fn is_memory(&self) -> bool {
        match self {
            FileTrouble::Refused(error) => error.kind() == ErrorKind::OutOfMemory,
            FileTrouble::Folder | FileTrouble::NoFile | FileTrouble::Packed(_) => false,
        }
    }
}

impl fmt::Display for FileTrouble {
    fn fmt<W: fmt::Write>(&self, f: &mut fmt::Formatter<W>) -> fmt::Result {
        match self {
            FileTrouble::Folder => f.write_str("a folder"),
            FileTrouble::NoFile => f.write_str("not a regular file"),
            FileTrouble::Packed(name) => write!(f, "{name}, unpack it first"),
            FileTrouble::Refused(error) => match error.kind() {
                ErrorKind::NotFound => f.write_str("not there"),
                ErrorKind::PermissionDenied => f.write_str("permission denied"),
                _ => write!(f, "{error}"),
            },
        }
    }
}

/// Sees that a regular file stands at a path, or where a link there leads. Anything else isn't
/// opened: a pipe may wait for its other end.
pub(crate) fn expect_file<R: Files>(rt: &R, path: &str) -> Result<(), FileTrouble> {
    match fs::metadata(rt, path) {
        Ok(metadata) if metadata.is_file() => Ok(()),
        Ok(metadata) if metadata.is_dir() => Err(FileTrouble::Folder),
        Ok(_) => Err(FileTrouble::NoFile),
        Err(error) => Err(FileTrouble::of(error)),
    }
}

/// The programs that pack files, and the bytes with which their files begin.
const PACKINGS: [(&str, &[u8]); 7] = [
    ("gzip", b"\x1F\x8B"),
    ("bzip2", b"BZh"),
    ("xz", b"\xFD7zXZ\0"),
    ("zstd", b"\x28\xB5\x2F\xFD"),
    ("zip", b"PK\x03\x04"),
    ("zip", b"PK\x05\x06"),
    ("zip", b"PK\x07\x08"),
];

/// By what a file is packed that begins with these bytes.
pub(crate) fn packing_of(front: &[u8]) -> Option<FileTrouble> {
    for (name, magic) in &PACKINGS {
        if front.starts_with(magic) {
            return Some(FileTrouble::Packed(*name));
        }
    }
    None
}

/// Says on `err` what is wrong with the file of a name, in a line after this name of the
/// program, if that is known and there is memory for it. If `err` refuses, that is reported no
/// further.
pub fn say_file_trouble<E: Out>(
    alloc: Global,
    program: &str,
    name: &str,
    trouble: Option<&FileTrouble>,
    err: &mut E,
) {
    let Some(trouble) = trouble else {
        return;
    };
    if let Ok(why) = format!(in alloc; "{trouble}") {
        let _ = put_trouble(program, name, &[": ", why.as_str(), "\n"], err);
    }
}
