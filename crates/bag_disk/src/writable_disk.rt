//! The calls of a disk that change what stands on it.
ghost use Rattle.std.specs.Prelude.{◌≡◌, ◌<◌, ◌≤◌, List, ℕ, IfOk, OnOk, OnErr, IsErrOf, IsTrue};
ghost use Rattle.std.specs.Prelude.{Option, None, Some, is_some, length, take};
ghost use Rattle.bag_text.specs.Path.{is_path};
ghost use Rattle.bag_disk.specs.DiskNodes.{HasSomethingAt, IsUnreached, OnlyLooks, OnlySyncs};
ghost use Rattle.bag_disk.specs.Refusal.{CountsAs, at_known, of_making};
ghost use Rattle.bag_disk.specs.WritableDisk.{AddsFile, AddsFolder, AppendsTo, ClosesOpenFile};
ghost use Rattle.bag_disk.specs.WritableDisk.{HasNoFolder};
ghost use Rattle.bag_disk.specs.WritableDisk.{HasNothingToMove, MovesOnly, MovesToFree, Notes};
ghost use Rattle.bag_tree.specs.declared.event.DeviceEvent.TheVariants.{MakeFolder, Rename, Create};
ghost use Rattle.bag_tree.specs.declared.event.DeviceEvent.TheVariants.{Write, Sync, SyncFolder};
ghost use Rattle.bag_disk.specs.declared.disk.DiskFault.TheVariants.{Exists, Name, NotFound};

use crate::disk::{Disk, DiskFault};

/// The calls of a disk that make a bag, below a base folder. A path leads from the base folder.
///
/// An honest disk stays honest: what stands there is then what its own calls made of it. A call
/// that is answered closes the file that is open for reading; one that is refused changes nothing.
/// Of a path that leads through a link nothing is said. What a call made may be lost in a power
/// cut, until `sync` and `sync_folder` have made it durable. A device that notes what it does notes
/// each change, and each sync, as one event. All faults are counted but `Memory`, and `Exists`
/// where something is to be made.
pub trait WritableDisk: Disk {
    /// The path of the file that is being written.
    ghost written: { Self → Option (List ℕ) };

    /// Makes an empty folder where nothing stands. Then no file is being written.
    fn make_folder(&mut self, path: &str) -> Result<(), DiskFault>
        requires { IsTrue (is_path path.now) }
        ensures made { OnOk result
            (AddsFolder (Self.state self.old) (Self.state self.new) path.now) }
        ensures closed { OnOk result (ClosesOpenFile (Self.state self.old) (Self.state self.new)) }
        ensures ended { OnOk result (written self.new ≡ None) }
        ensures taken { IsErrOf result Exists → HasSomethingAt (Self.state self.old) path.now }
        ensures absent { IsErrOf result NotFound → IsUnreached (Self.state self.old) path.now }
        ensures same { OnErr result (OnlyLooks (Self.state self.old) (Self.state self.new)) }
        ensures same_file { OnErr result (written self.new ≡ written self.old) }
        ensures noted { IsTrue (Self.state self.old).noted → OnOk result
            (Notes (MakeFolder path.now) (Self.state self.old) (Self.state self.new)) }
        ensures failures { CountsAs of_making result (Self.state self.old) (Self.state self.new) };

    /// Moves what stands at one path, with all that is below it, to another, without a copy. Then
    /// no file is being written. A caller looks first whether something stands at the other: it
    /// might be replaced, and then nothing is said of what is at or below the two.
    fn rename(&mut self, from: &str, to: &str) -> Result<(), DiskFault>
        requires from { IsTrue (is_path from.now) }
        requires to { IsTrue (is_path to.now) }
        ensures moved { OnOk result
            (MovesToFree (Self.state self.old) (Self.state self.new) from.now to.now) }
        ensures others { OnOk result
            (MovesOnly (Self.state self.old) (Self.state self.new) from.now to.now) }
        ensures closed { OnOk result (ClosesOpenFile (Self.state self.old) (Self.state self.new)) }
        ensures ended { OnOk result (written self.new ≡ None) }
        ensures taken { IsErrOf result Exists → HasSomethingAt (Self.state self.old) to.now }
        ensures absent { IsErrOf result NotFound
            → HasNothingToMove (Self.state self.old) from.now to.now }
        ensures same { OnErr result (OnlyLooks (Self.state self.old) (Self.state self.new)) }
        ensures same_file { OnErr result (written self.new ≡ written self.old) }
        ensures noted { IsTrue (Self.state self.old).noted → OnOk result
            (Notes (Rename from.now to.now) (Self.state self.old) (Self.state self.new)) }
        ensures failures { CountsAs at_known result (Self.state self.old) (Self.state self.new) };

    /// Makes an empty file where nothing stands, which is then being written in place of any other.
    fn create(&mut self, path: &str) -> Result<(), DiskFault>
        requires { IsTrue (is_path path.now) }
        ensures made { OnOk result
            (AddsFile (Self.state self.old) (Self.state self.new) path.now) }
        ensures closed { OnOk result (ClosesOpenFile (Self.state self.old) (Self.state self.new)) }
        ensures begun { OnOk result (IsTrue (is_some (written self.new))) }
        ensures begun_there { OnOk result
            (IsTrue (Self.state self.old).honest → written self.new ≡ Some path.now) }
        ensures taken { IsErrOf result Exists → HasSomethingAt (Self.state self.old) path.now }
        ensures absent { IsErrOf result NotFound → IsUnreached (Self.state self.old) path.now }
        ensures same { OnErr result (OnlyLooks (Self.state self.old) (Self.state self.new)) }
        ensures same_file { OnErr result (written self.new ≡ written self.old) }
        ensures noted { IsTrue (Self.state self.old).noted → OnOk result
            (Notes (Create path.now) (Self.state self.old) (Self.state self.new)) }
        ensures named { IsTrue (Self.state self.old).noted
            → OnOk result (written self.new ≡ Some path.now) }
        ensures failures { CountsAs of_making result (Self.state self.old) (Self.state self.new) };

    /// Puts some first bytes, as many as it answers, after those of the file that is being written;
    /// one at least, where there are any. An honest disk refuses it by `Memory` or `Device` alone.
    fn write(&mut self, bytes: &[u8]) -> Result<usize, DiskFault>
        requires { IsTrue (is_some (written self.old)) }
        ensures within { IfOk result (λ n. n ≤ length bytes.now) }
        ensures appended { IfOk result (λ n. AppendsTo
            (written self.old) (Self.state self.old) (Self.state self.new) (take n bytes.now)) }
        ensures closed { OnOk result (ClosesOpenFile (Self.state self.old) (Self.state self.new)) }
        ensures taken { IsErrOf result Exists → IsTrue (Self.state self.old).honest → ⊥ }
        ensures absent { IsErrOf result NotFound → IsTrue (Self.state self.old).honest → ⊥ }
        ensures unnamed { IsErrOf result Name → IsTrue (Self.state self.old).honest → ⊥ }
        ensures same { OnErr result (OnlyLooks (Self.state self.old) (Self.state self.new)) }
        ensures same_file { written self.new ≡ written self.old }
        ensures noted { IsTrue (Self.state self.old).noted
            → IfOk result (λ n. (path : List ℕ) → written self.old ≡ Some path
            → Notes (Write path (take n bytes.now)) (Self.state self.old) (Self.state self.new)) }
        ensures some { IfOk result (λ n. 0 < length bytes.now → 0 < n) }
        ensures failures { CountsAs at_known result (Self.state self.old) (Self.state self.new) };

    /// Syncs the file that was written, so that its bytes are durable, and ends its writing. Its
    /// name isn't durable by that. An honest disk refuses it by `Memory` or `Device` alone.
    fn sync(&mut self) -> Result<(), DiskFault>
        requires { IsTrue (is_some (written self.old)) }
        ensures held { OnOk result ((Self.state self.new).nodes ≡ (Self.state self.old).nodes) }
        ensures closed { OnOk result (ClosesOpenFile (Self.state self.old) (Self.state self.new)) }
        ensures ended { OnOk result (written self.new ≡ None) }
        ensures taken { IsErrOf result Exists → IsTrue (Self.state self.old).honest → ⊥ }
        ensures absent { IsErrOf result NotFound → IsTrue (Self.state self.old).honest → ⊥ }
        ensures unnamed { IsErrOf result Name → IsTrue (Self.state self.old).honest → ⊥ }
        ensures same { OnErr result (OnlyLooks (Self.state self.old) (Self.state self.new)) }
        ensures same_file { OnErr result (written self.new ≡ written self.old) }
        ensures noted { IsTrue (Self.state self.old).noted
            → OnOk result ((path : List ℕ) → written self.old ≡ Some path
            → Notes (Sync path) (Self.state self.old) (Self.state self.new)) }
        ensures failures { CountsAs at_known result (Self.state self.old) (Self.state self.new) };

    /// Syncs a folder, so that the names in it are durable: without that what was made in it or
    /// moved into it may be lost, and what was moved away may be where it was. The empty path is
    /// the base folder. An honest disk refuses it, where the folder is there, by `Memory` or
    /// `Device` alone.
    fn sync_folder(&mut self, folder: &str) -> Result<(), DiskFault>
        ensures syncs { OnlySyncs (Self.state self.old) (Self.state self.new) }
        ensures same { OnErr result (OnlyLooks (Self.state self.old) (Self.state self.new)) }
        ensures same_file { written self.new ≡ written self.old }
        ensures noted { IsTrue (Self.state self.old).noted → OnOk result
            (Notes (SyncFolder folder.now) (Self.state self.old) (Self.state self.new)) }
        ensures taken { IsErrOf result Exists → IsTrue (Self.state self.old).honest → ⊥ }
        ensures absent { IsErrOf result NotFound → HasNoFolder (Self.state self.old) folder.now }
        ensures unnamed { IsErrOf result Name → IsTrue (Self.state self.old).honest → ⊥ }
        ensures failures { CountsAs at_known result (Self.state self.old) (Self.state self.new) };
}
