//! Folders that the tests make on the system's disk, below its folder for what lasts a short time.
ghost use Rattle.std.specs.Prelude.{◌≡◌, IsTrue, is_some};
ghost use Rattle.bag_text.specs.Path.{is_path};

use crate::held::{Held, Place, ends, listed};
use crate::steps::{Trial, follow};
use crate::trials::{DISK_TRIALS, TRIALS};
use bag_store::{DiskFault, FileTree, SystemDisk, TreeFault, WritableDisk, WriteTree};
use std::os::unix::fs::symlink;
use std::process::Abort;
use std::{env, fs, io, process, str};

/// Where something of a test's own stands.
pub(crate) fn path_of(stop: &impl Abort, rt: &HostRuntime, test: &str) -> String {
    let folder = env::temp_dir(rt).expect(stop, "succeeds");
    let id = process::id(rt.process());
    format!(in rt.alloc(); "{}/bagit-{test}-{id}", folder.as_path().display()).expect(
        stop, "succeeds",
    )
}

/// A fresh folder for one test.
pub(crate) fn fresh_folder(stop: &impl Abort, rt: &HostRuntime, test: &str) -> String {
    let path = path_of(stop, rt, test);
    let _ = fs::remove_dir_all(rt, path.as_str());
    fs::create_dir(rt, path.as_str()).expect(stop, "succeeds");
    path
}

/// Where a path below a folder stands.
pub(crate) fn place(stop: &impl Abort, rt: &HostRuntime, base: &str, path: &str) -> String {
    format!(in rt.alloc(); "{base}/{path}").expect(stop, "succeeds")
}

/// The tree of a folder.
pub(crate) fn tree_of(
    stop: &impl Abort,
    rt: &HostRuntime,
    folder: &str,
) -> FileTree<SystemDisk<HostRuntime>> {
    let system = rt.clone().expect(stop, "succeeds");
    FileTree::at(system, rt.alloc(), folder).expect(stop, "succeeds")
}

/// The listing of a folder's tree as a text, or the word of its refusal.
pub(crate) fn listed_at(stop: &impl Abort, rt: &HostRuntime, folder: &str) -> String {
    listed(stop, rt.alloc(), &mut tree_of(stop, rt, folder))
}

/// Where a path below the folder `base` stands.
fn in_base(stop: &impl Abort, rt: &HostRuntime, folders: &str, path: &[u8]) -> String {
    let path = str::from_utf8(path).expect(stop, "succeeds");
    format!(in rt.alloc(); "{folders}/base/{path}").expect(stop, "succeeds")
}

/// Puts something below the folder `base` beside the folder `outside`, to which links lead.
fn put(stop: &impl Abort, rt: &HostRuntime, folders: &str, (path, held): Place) {
    let at = in_base(stop, rt, folders, path);
    let made = match held {
        Held::File(text) => fs::write(rt, at.as_str(), text),
        Held::Folder => fs::create_dir(rt, at.as_str()),
        Held::Other => symlink(rt, place(stop, rt, folders, "outside"), at.as_str()),
    };
    made.expect(stop, "succeeds");
}

/// Whether a link stands where one was put.
fn is_there(stop: &impl Abort, rt: &HostRuntime, folders: &str, (path, held): Place) -> bool {
    let Held::Other = held else {
        return true;
    };
    fs::symlink_metadata(rt, in_base(stop, rt, folders, path))
        .expect(stop, "succeeds")
        .is_symlink()
}

/// Makes the folder `base` with what stands there, beside the folder `outside`, and gives its path.
pub(crate) fn make_base(
    stop: &impl Abort,
    rt: &HostRuntime,
    folders: &str,
    places: &[Place],
) -> String {
    let base = place(stop, rt, folders, "base");
    let outside = place(stop, rt, folders, "outside");
    for folder in [folders, outside.as_str(), base.as_str()] {
        fs::create_dir(rt, folder).expect(stop, "succeeds");
    }
    for held in places {
        put(stop, rt, folders, *held);
    }
    base
}

/// A trial is right in a folder that is made for it; its links stand as before, and nothing is
/// outside.
fn try_below(stop: &impl Abort, rt: &HostRuntime, folders: &str, trial: &Trial) {
    let base = make_base(stop, rt, folders, trial.before);
    let outside = place(stop, rt, folders, "outside");
    let mut tree = tree_of(stop, rt, base.as_str());
    follow(stop, rt.alloc(), &mut tree, trial);
    for held in trial.before {
        assert!(stop; is_there(stop, rt, folders, *held), "{}", trial.title);
    }
    assert!(stop; listed_at(stop, rt, outside.as_str()).as_str() == "false");
    fs::remove_dir_all(rt, folders).expect(stop, "succeeds");
}

#[test]
fn steps_change_a_real_folder(rt: HostRuntime) {
    let folders = path_of(&rt, &rt, "steps");
    let _ = fs::remove_dir_all(&rt, folders.as_str());
    for trials in [TRIALS, DISK_TRIALS] {
        for trial in trials {
            try_below(&rt, &rt, folders.as_str(), trial);
        }
    }
}

/// Paths of folders, each with its listing or refusal.
const LISTED: &[(&str, &str)] = &[
    ("link", "false, data 8"),
    (".", "special"),
    ("bag/data", "device"),
    ("none", "device"),
];

/// Paths of what isn't read as a file, each with the refusal.
const UNREAD: &[(&str, TreeFault)] = &[
    ("link", TreeFault::Special),
    ("link/data", TreeFault::Special),
    ("bag", TreeFault::NotFound),
    ("bag/../bag/data", TreeFault::NotFound),
    ("bag/none", TreeFault::NotFound),
];

/// Makes a folder with a file named `data`, and a link to it.
fn make_link(stop: &impl Abort, rt: &HostRuntime, base: &str) {
    fs::create_dir(rt, place(stop, rt, base, "bag")).expect(stop, "succeeds");
    fs::write(rt, place(stop, rt, base, "bag/data"), "bag/data").expect(stop, "succeeds");
    symlink(rt, "bag", place(stop, rt, base, "link")).expect(stop, "succeeds");
}

/// Nothing is listed below an empty base, either.
#[test]
fn refuses_what_is_no_file_below_it(rt: HostRuntime) {
    let base = fresh_folder(&rt, &rt, "refuses");
    make_link(&rt, &rt, base.as_str());
    for &(path, wanted) in LISTED {
        let folder = place(&rt, &rt, base.as_str(), path);
        let found = listed_at(&rt, &rt, folder.as_str());
        assert!(rt; found.as_str() == wanted, "{path}: {found}");
    }
    for &(path, fault) in UNREAD {
        let mut tree = tree_of(&rt, &rt, base.as_str());
        let is_refused = ends(&rt, rt.alloc(), &mut tree, (path, 8), Err(fault));
        assert!(rt; is_refused, "{path}");
    }
    assert!(rt; listed_at(&rt, &rt, "").as_str() == "device");
    fs::remove_dir_all(&rt, base.as_str()).expect(&rt, "succeeds");
}

/// Writes a text, of which one write takes all.
fn write_text<D: WritableDisk>(disk: &mut D, text: &str) -> Result<(), DiskFault>
    requires { IsTrue (is_some (D.written disk.old)) }
    ensures { D.written disk.new ≡ D.written disk.old }
{
    if disk.write(text.as_bytes())? < text.len() {
        return Err(DiskFault::Device);
    }
    Ok(())
}

/// Makes a file, writes a text to it and another after it, and syncs it.
fn make_file<D: WritableDisk>(
    disk: &mut D,
    path: &str,
    texts: (&str, &str),
) -> Result<(), DiskFault>
    requires { IsTrue (is_path path.now) }
{
    disk.create(path)?;
    write_text(disk, texts.0)?;
    write_text(disk, texts.1)?;
    disk.sync()
}

/// What changes of a disk in turn answer.
fn changed<D: WritableDisk>(disk: &mut D, texts: (&str, &str)) -> [Result<(), DiskFault>; 10] {
    [
        disk.make_folder("a"),
        make_file(disk, "a/b", texts),
        disk.rename("a", "data"),
        disk.make_folder("data"),
        make_file(disk, "data/b", texts),
        make_file(disk, "a/b", texts),
        disk.rename("a", "b"),
        disk.sync_folder("data"),
        disk.sync_folder(""),
        disk.sync_folder("a"),
    ]
}

const ANSWERS: [Result<(), DiskFault>; 10] = [
    Ok(()),
    Ok(()),
    Ok(()),
    Err(DiskFault::Exists),
    Err(DiskFault::Exists),
    Err(DiskFault::NotFound),
    Err(DiskFault::NotFound),
    Ok(()),
    Ok(()),
    Err(DiskFault::NotFound),
];

/// A long file stands there then, of a text and another after it.
#[test]
fn changes_a_real_folder(rt: HostRuntime) {
    let base = fresh_folder(&rt, &rt, "changes");
    let long = "0123456789"
        .repeat(rt.alloc(), 7_000)
        .expect(&rt, "succeeds");
    let system = rt.clone().expect(&rt, "succeeds");
    let mut disk = SystemDisk::new(system, rt.alloc(), base.as_str()).expect(&rt, "succeeds");
    assert!(rt; changed(&mut disk, (long.as_str(), "abc")) == ANSWERS);
    let whole = format!(in rt.alloc(); "{long}abc").expect(&rt, "succeeds");
    let mut tree = FileTree::over(rt.alloc(), disk);
    let wanted = Ok(whole.as_str());
    let is_read = ends(&rt, rt.alloc(), &mut tree, ("data/b", 70_003), wanted);
    assert!(rt; is_read);
    fs::remove_dir_all(&rt, base.as_str()).expect(&rt, "succeeds");
}

#[test]
fn a_long_file_is_made_whole(rt: HostRuntime) {
    let base = fresh_folder(&rt, &rt, "long-step");
    let text = "0123456789"
        .repeat(rt.alloc(), 30_000)
        .expect(&rt, "succeeds");
    let mut tree = tree_of(&rt, &rt, base.as_str());
    tree.create("long", text.as_bytes()).expect(&rt, "succeeds");
    let wanted = Ok(text.as_str());
    let is_read = ends(&rt, rt.alloc(), &mut tree, ("long", 300_000), wanted);
    assert!(rt; is_read);
    fs::remove_dir_all(&rt, base.as_str()).expect(&rt, "succeeds");
}
