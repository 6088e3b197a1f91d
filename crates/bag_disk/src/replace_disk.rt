//! The calls of a disk that put a file in place of another, and remove one.
ghost use Rattle.std.specs.Prelude.{◌≡◌, IsErrOf, IsTrue, None, OnErr, OnOk};
ghost use Rattle.bag_text.specs.Path.{is_path};
ghost use Rattle.bag_disk.specs.DiskNodes.{HasNothingAt, OnlyLooks};
ghost use Rattle.bag_disk.specs.Refusal.{CountsAs, at_known, refusal_at_path};
ghost use Rattle.bag_disk.specs.ReplaceDisk.{PutsInPlace, RemovesFile};
ghost use Rattle.bag_disk.specs.WritableDisk.{ClosesOpenFile, Notes};
ghost use Rattle.bag_disk.specs.declared.disk.DiskFault.TheVariants.{NotFound};
ghost use Rattle.bag_tree.specs.declared.event.DeviceEvent.TheVariants.{Remove, Rename};

use crate::disk::DiskFault;
use crate::writable_disk::WritableDisk;

/// The calls of a disk that change a bag, below a base folder: a file takes the place of another,
/// and one is removed. A reader sees what stood there, or what stands there then.
///
/// As of a `WritableDisk`: an honest disk stays honest, a call that is answered closes the file
/// that is open for reading, one that is refused changes nothing, nothing is said of a path that
/// leads through a link, and what was done may be lost in a power cut until its folder is synced.
pub trait ReplaceDisk: WritableDisk {
    /// Gives the file at one path another, in place of any file that has it, without a copy. Then
    /// no file is being written. It is refused where a folder has that path.
    fn replace(&mut self, from: &str, to: &str) -> Result<(), DiskFault>
        requires from { IsTrue (is_path from.now) }
        requires to { IsTrue (is_path to.now) }
        ensures replaced { OnOk result
            (PutsInPlace (Self.state self.old) (Self.state self.new) from.now to.now) }
        ensures closed { OnOk result (ClosesOpenFile (Self.state self.old) (Self.state self.new)) }
        ensures ended { OnOk result (Self.written self.new ≡ None) }
        ensures same { OnErr result (OnlyLooks (Self.state self.old) (Self.state self.new)) }
        ensures same_file { OnErr result (Self.written self.new ≡ Self.written self.old) }
        ensures noted { IsTrue (Self.state self.old).noted → OnOk result
            (Notes (Rename from.now to.now) (Self.state self.old) (Self.state self.new)) }
        ensures failures { CountsAs at_known result (Self.state self.old) (Self.state self.new) };

    /// Removes the file at a path. Then no file is being written. It is refused where a folder
    /// stands there. That nothing stands there isn't counted.
    fn remove(&mut self, path: &str) -> Result<(), DiskFault>
        requires { IsTrue (is_path path.now) }
        ensures removed { OnOk result
            (RemovesFile (Self.state self.old) (Self.state self.new) path.now) }
        ensures closed { OnOk result (ClosesOpenFile (Self.state self.old) (Self.state self.new)) }
        ensures ended { OnOk result (Self.written self.new ≡ None) }
        ensures absent { IsErrOf result NotFound → HasNothingAt (Self.state self.old) path.now }
        ensures same { OnErr result (OnlyLooks (Self.state self.old) (Self.state self.new)) }
        ensures same_file { OnErr result (Self.written self.new ≡ Self.written self.old) }
        ensures noted { IsTrue (Self.state self.old).noted → OnOk result
            (Notes (Remove path.now) (Self.state self.old) (Self.state self.new)) }
        ensures failures { CountsAs refusal_at_path result
            (Self.state self.old) (Self.state self.new) };
}
