//! The owner, the group and the mode of what is made. Each is asked of the system for what is open,
//! not for its path, where somebody's link may be meanwhile.
use bag_text::Text;
use std::alloc::{AllocError, Global};
use std::fs::{Metadata, OpenFile, Permissions};
use std::io;
use std::io::ErrorKind;
use std::os::fd::AsFd;
use std::os::unix::fs::{MetadataExt, PermissionsExt, fchown};

/// The mode of a file that nobody but its owner may open.
pub(crate) const PRIVATE: u32 = 0o600;

/// The bits of a mode that say who may read, write and run.
const PERMISSIONS: u32 = 0o777;

/// The bits that the owner has.
const OWNERS: u32 = 0o700;

/// The bits to read, to write and to run of the group and of all others.
const GROUPS_AND_OTHERS: [u32; 3] = [0o044, 0o022, 0o011];

/// Who may open a file.
#[derive(Clone, Copy)]
pub(crate) struct Access {
    owner: u32,
    group: u32,
    mode: u32,
}

impl Access {
    /// That of a file.
    pub(crate) fn of(metadata: &Metadata) -> Access {
        Access {
            owner: metadata.uid(),
            group: metadata.gid(),
            mode: metadata.mode() & PERMISSIONS,
        }
    }
}

/// Files that were removed: one of the same name that is put later takes after them.
#[derive(Drop)]
pub(crate) struct RemovedFiles {
    alloc: Global,
    files: Vec<(Text, Access)>,
}

impl RemovedFiles {
    /// None was removed yet.
    pub(crate) fn none(alloc: Global) -> RemovedFiles {
        RemovedFiles {
            alloc,
            files: Vec::new(alloc),
        }
    }

    /// Notes one.
    pub(crate) fn note(&mut self, path: &str, access: Access) -> Result<(), AllocError> {
        let path = Text::from_str(self.alloc, path)?;
        self.files.push((path, access))?;
        Ok(())
    }

    /// What the one at a path was.
    pub(crate) fn find(&self, path: &str) -> Option<Access> {
        for (removed, access) in &self.files {
            if removed.as_str() == path {
                return Some(*access);
            }
        }
        None
    }
}

/// Gives what is open this owner and group, or where the system refuses the owner, the group alone:
/// a member of a group may give that.
pub(crate) fn give_owner<F: AsFd>(opened: &F, model: &Metadata) {
    let group = Some(model.gid());
    if fchown(opened, Some(model.uid()), group).is_err() {
        let _ = fchown(opened, None, group);
    }
}

/// Gives a file that nobody but its owner may open the owner, the group and the mode of another
/// one, and syncs it. Where the system doesn't let it be of that owner or group, it is opened to
/// nobody to whom the other one isn't open.
pub(crate) fn take_after<F: OpenFile + AsFd>(file: &F, model: Access) -> io::Result<()> {
    let own = Access::of(&file.metadata()?);
    let mode = mode_with_owner(file, own, model)?;
    if mode != own.mode {
        file.set_permissions(Permissions::from_mode(mode))?;
    }
    file.sync_all()
}

/// Gives a file the owner and the group of another one, or the group alone, as far as the system
/// lets it. Gives the mode that it may then have.
fn mode_with_owner<F: AsFd>(file: &F, own: Access, model: Access) -> io::Result<u32> {
    if own.owner == model.owner && own.group == model.group {
        return Ok(model.mode);
    }
    if is_given(fchown(file, Some(model.owner), Some(model.group)))? {
        return Ok(model.mode);
    }
    if own.group == model.group || is_given(fchown(file, None, Some(model.group)))? {
        return Ok(model.mode);
    }
    Ok(without_its_group(model.mode))
}

/// Whether the system gave an owner or a group. It may not let this process do so.
fn is_given(answer: io::Result<()>) -> io::Result<bool> {
    match answer {
        Ok(()) => Ok(true),
        Err(error) => match error.kind() {
            ErrorKind::PermissionDenied | ErrorKind::InvalidInput | ErrorKind::Unsupported => {
                Ok(false)
            }
            _ => Err(error),
        },
    }
}

/// A mode for a file of another group: its group and all others may do what both might before.
fn without_its_group(mode: u32) -> u32 {
    let mut kept = mode & OWNERS;
    for bits in GROUPS_AND_OTHERS {
        if mode & bits == bits {
            kept |= bits;
        }
    }
    kept
}
