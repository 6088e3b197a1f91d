//! What stands at paths, and what trees list and read.
use bag_store::{FileEntry, Tree, TreeFault, read_whole};
use bag_text::Text;
use std::alloc::Global;
use std::process::Abort;
use std::str;

/// What stands at a path of a table.
#[derive(Clone, Copy)]
pub(crate) enum Held {
    /// A file with this text.
    File(&'static str),
    Folder,
    /// A link, or anything else that is neither a file nor a folder.
    Other,
}

/// A path, and what stands there. In a table a folder stands before what is in it.
pub(crate) type Place = (&'static [u8], Held);

pub(crate) fn text_of(stop: &impl Abort, alloc: Global, text: &str) -> Text {
    Text::from_str(alloc, text).expect(stop, "succeeds")
}

/// Writes what a file of a tree holds, after `=`.
fn write_text<T: Tree>(
    stop: &impl Abort,
    alloc: Global,
    tree: &mut T,
    file: &FileEntry,
    text: &mut String,
) {
    let bytes = read_whole(alloc, tree, file).expect(stop, "succeeds");
    let held = str::from_utf8(bytes.as_slice()).unwrap_or("not UTF-8");
    write!(text, "={held}").expect(stop, "succeeds");
}

/// The listing of a tree as a text, each file with its size or with what it holds, or the word of
/// its refusal.
fn told<T: Tree>(stop: &impl Abort, alloc: Global, tree: &mut T, has_texts: bool) -> String {
    let listing = match tree.list() {
        Ok(listing) => listing,
        Err(fault) => return String::from_str(alloc, fault.word()).expect(stop, "succeeds"),
    };
    let mut text = format!(in alloc; "{}", listing.has_data).expect(stop, "succeeds");
    for file in listing.files.as_slice() {
        write!(text, ", {}", file.path).expect(stop, "succeeds");
        if has_texts {
            write_text(stop, alloc, tree, file, &mut text);
        } else {
            write!(text, " {}", file.size).expect(stop, "succeeds");
        }
    }
    text
}

/// The listing of a tree, each file with its size.
pub(crate) fn listed<T: Tree>(stop: &impl Abort, alloc: Global, tree: &mut T) -> String {
    told(stop, alloc, tree, false)
}

/// The listing of a tree, each file with what it holds.
pub(crate) fn contents<T: Tree>(stop: &impl Abort, alloc: Global, tree: &mut T) -> String {
    told(stop, alloc, tree, true)
}

/// Whether opening and reading a whole file of a tree ends so, where it is listed with this size.
pub(crate) fn ends<T: Tree>(
    stop: &impl Abort,
    alloc: Global,
    tree: &mut T,
    (path, size): (&str, u64),
    wanted: Result<&str, TreeFault>,
) -> bool {
    let path = text_of(stop, alloc, path);
    match (read_whole(alloc, tree, &FileEntry { path, size }), wanted) {
        (Ok(found), Ok(text)) => found.as_slice() == text.as_bytes(),
        (Err(found), Err(fault)) => found == fault,
        (Ok(_), Err(_)) | (Err(_), Ok(_)) => false,
    }
}
