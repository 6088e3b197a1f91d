//! Files that are made in the base folder.
ghost use Rattle.std.specs.Prelude.{◌≡◌, ◌⊎◌, IfErr, IsTrue, OnErr, OnOk, is_some};
ghost use Rattle.bag_text.specs.Path.{is_base_name};
ghost use Rattle.bag_tree.specs.Asked.{AsksFile};
ghost use Rattle.bag_tree.specs.FileChanges.{AsksFirstOf};
ghost use Rattle.bag_store.specs.Asking.{FillsFile, FillsPart, AsksOfDisk, HasFilled, WritesPieces};
ghost use Rattle.bag_disk.specs.DiskNodes.{OnlyLooks};
ghost use Rattle.bag_store.specs.Changing.{IsNameTaken};
ghost use Rattle.bag_disk.specs.Refusal.{IsCounted};
ghost use Rattle.bag_store.specs.Due.{IsDueInMaking, IsDueToDevice};
ghost use Rattle.bag_store.specs.Writing.{Begins, HasWritten, HasWrittenSome, Makes};

use crate::changing::not_made;
use crate::syncing::{BASE, sync_file, sync_names};
use bag_disk::{Disk, Refusal, WritableDisk};

/// Makes a file in the base folder, where nothing has its name, and syncs it and the base folder.
pub(crate) fn create<D: WritableDisk>(disk: &mut D, name: &str, bytes: &[u8]) -> Result<(), Refusal>
    requires { IsTrue (is_base_name name.now) }
    ensures made { OnOk result (Makes (D.state disk.old) (D.state disk.new) name.now bytes.now) }
    ensures begun { OnErr result (OnlyLooks (D.state disk.old) (D.state disk.new)
        ⊎ Begins (D.state disk.old) (D.state disk.new) name.now bytes.now) }
    ensures asked { AsksOfDisk (AsksFile name.now bytes.now)
        (AsksFirstOf (AsksFile name.now bytes.now)) (D.state disk.old) (D.state disk.new) result }
    ensures refused { IfErr result
        (IsDueInMaking (D.state disk.old) (IsNameTaken (D.state disk.old) name.now)) }
    ensures failures { IsCounted result (D.state disk.old) (D.state disk.new) }
{
    match disk.create(name) {
        Ok(()) => fill(disk, bytes),
        Err(fault) => Err(not_made(disk, name, fault)),
    }
}

/// Writes the bytes of the file that is being written, and syncs it and the base folder.
fn fill<D: WritableDisk>(disk: &mut D, bytes: &[u8]) -> Result<(), Refusal>
    requires { IsTrue (is_some (D.written disk.old)) }
    ensures whole { OnOk result
        (HasWritten (D.state disk.old) (D.state disk.new) (D.written disk.old) bytes.now) }
    ensures part { OnErr result
        (HasWrittenSome (D.state disk.old) (D.state disk.new) (D.written disk.old) bytes.now) }
    ensures asked { HasFilled
        (λ path. FillsFile path bytes.now) (λ path. FillsPart path bytes.now)
        (D.written disk.old) (D.state disk.old) (D.state disk.new) result }
    ensures refused { IfErr result IsDueToDevice }
    ensures failures { IsCounted result (D.state disk.old) (D.state disk.new) }
{
    write_all(disk, bytes)?;
    sync_file(disk)?;
    sync_names(disk, BASE)
}

/// Writes all bytes after those of the file that is being written.
fn write_all<D: WritableDisk>(disk: &mut D, bytes: &[u8]) -> Result<(), Refusal>
    requires { IsTrue (is_some (D.written disk.old)) }
    ensures whole { OnOk result
        (HasWritten (D.state disk.old) (D.state disk.new) (D.written disk.old) bytes.now) }
    ensures same_file { D.written disk.new ≡ D.written disk.old }
    ensures part { OnErr result
        (HasWrittenSome (D.state disk.old) (D.state disk.new) (D.written disk.old) bytes.now) }
    ensures asked { HasFilled
        (λ path. WritesPieces path bytes.now) (λ path. FillsPart path bytes.now)
        (D.written disk.old) (D.state disk.old) (D.state disk.new) result }
    ensures refused { IfErr result IsDueToDevice }
    ensures failures { IsCounted result (D.state disk.old) (D.state disk.new) }
{
    let mut done = 0;
    while done < bytes.len() {
        match disk.write(&bytes[done..]) {
            Ok(count) => done += count,
            Err(fault) => return Err(Refusal::at_known(fault)),
        }
    }
    Ok(())
}
