//! The paths of a listing in one text, of which those that manifests name are parts.
ghost use Rattle.std.specs.Prelude.{◌≡◌, IfOk, OnOk};

use bag_entries::{Pool, Run};
use bag_text::Items;
use bag_tree::{FileEntry, Listing};
use std::alloc::{AllocError, Global};

/// How many paths stand in one text.
const RUN: usize = 128;

/// A listing with its paths in a few texts, and the pool of these. The memory of the paths of a run
/// is there for the next.
pub(crate) fn pooled(alloc: Global, listing: Listing) -> Result<(Listing, Pool), AllocError>
    ensures { IfOk result (λ pooled. pooled.0 ≡ listing) }
{
    let Listing { files, has_data } = listing;
    let mut files = files.into_vec();
    let mut pool = Pool::empty(alloc);
    share_paths(alloc, &mut pool, files.as_mut_slice())?;
    let listing = Listing {
        files: Items::from_vec(files),
        has_data,
    };
    Ok((listing, pool))
}

/// Makes the path of each file one of the pool.
fn share_paths(alloc: Global, pool: &mut Pool, files: &mut [FileEntry]) -> Result<(), AllocError>
    ensures { OnOk result (files.new ≡ files.old) }
{
    for k in 0..files.len() {
        if k % RUN == 0 {
            pool.add(run_from(alloc, files, k)?)?;
        }
        share_path(alloc, pool, &mut files[k])?;
    }
    Ok(())
}

/// The paths of the files from a place on, as many as stand in one text.
fn run_from(alloc: Global, files: &[FileEntry], place: usize) -> Result<Run, AllocError> {
    let end = place.saturating_add(RUN).min(files.len());
    let mut room = 0usize;
    for k in place..end {
        room = room.saturating_add(files[k].path.len()).saturating_add(1);
    }
    let mut run = Run::with_room(alloc, room)?;
    for k in place..end {
        run.push(files[k].path.as_str())?;
    }
    Ok(run)
}

/// Makes the path of a file one of the pool.
fn share_path(alloc: Global, pool: &Pool, file: &mut FileEntry) -> Result<(), AllocError>
    ensures { OnOk result (file.new ≡ file.old) }
{
    file.path = pool.text(alloc, file.path.as_str())?;
    Ok(())
}
