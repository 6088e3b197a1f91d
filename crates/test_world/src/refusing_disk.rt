//! A disk of which one call is refused.
ghost use Rattle.std.specs.Prelude.{◌≡◌};
ghost use Rattle.std.specs.Result.{result_err};
ghost use Rattle.test_world.specs.Refusing.{is_due, is_refused, one_less, refusing};

use bag_disk::{Disk, DiskFault, Entry, Failures, Refusal, ReplaceDisk, WritableDisk};
use bag_text::Text;
use std::cell::Cell;
use std::rc::Rc;

/// Which call of a disk is refused.
#[derive(Drop)]
pub enum Call {
    /// Once, the call of this number, from 0, of `enter`, `next_name`, `open`, `read`, and those
    /// that change the disk.
    Numbered(u64),
    /// Each `entry_at` and `named_entry` of this path.
    EntryAt(Text),
    /// None; the cell counts those that have numbers.
    Counted(Rc<Cell<u64>>),
    /// None any more.
    Past,
}

/// A disk of which one call is refused. It is as honest as the disk that it stands on, where an
/// honest disk may refuse any call by the fault: `NotFound`, `Exists` and `Name` would tell of what
/// stands there.
#[derive(Drop)]
pub struct RefusingDisk<D> {
    disk: D,
    call: Call,
    fault: DiskFault,
    /// Its own, beside those of the disk that it stands on.
    failures: Failures,
    /// How the disk that it stands on refused the last call that was passed to it, where it did.
    reported: Option<DiskFault>,
}

impl<D: Disk + Drop> RefusingDisk<D> {
    ghost use Rattle.std.specs.Prelude.{None};
    ghost use Rattle.test_world.specs.RefusingDisk.{below_of, call_of, fault_of, reported_of};

    /// The disk, of which this call is refused by this fault.
    pub fn over(disk: D, call: Call, fault: DiskFault) -> RefusingDisk<D>
        ensures state { ⟦<RefusingDisk<D> as Disk>⟧.state result ≡ refusing (D.state disk) fault 0 }
        ensures below { below_of result ≡ disk }
        ensures call { call_of result ≡ call }
        ensures fault { fault_of result ≡ fault }
        ensures reported { reported_of result ≡ None }
    {
        RefusingDisk {
            disk,
            call,
            fault,
            failures: Failures::none(),
            reported: None,
        }
    }

    /// Whether an `entry_at` of the path is refused.
    fn refuses_entry(&self, path: &str) -> bool
        ensures { result ≡ is_refused (call_of self.now) path.now }
    {
        match &self.call {
            Call::EntryAt(refused) => refused.as_str() == path,
            Call::Numbered(_) | Call::Counted(_) | Call::Past => false,
        }
    }
}

/// Notes how the disk below refused a call, where it did, and gives what it answered.
fn note<T>(reported: &mut Option<DiskFault>, answer: Result<T, DiskFault>) -> Result<T, DiskFault>
    ensures same { result ≡ answer }
    ensures reported { reported.new ≡ result_err answer }
{
    *reported = answer.as_ref().err().copied();
    answer
}

impl Call {
    /// Whether the next numbered call is refused; it counts that call.
    fn is_due(&mut self) -> bool
        ensures due { result ≡ is_due self.old }
        ensures counted { self.new ≡ one_less self.old }
    {
        match self {
            Call::Numbered(0) => {
                *self = Call::Past;
                true
            }
            Call::Numbered(left) => {
                *left -= 1;
                false
            }
            Call::Counted(calls) => {
                calls.set(calls.get().saturating_add(1));
                false
            }
            Call::EntryAt(_) | Call::Past => false,
        }
    }
}

impl<D: Disk + Drop> Disk for RefusingDisk<D> {
    ghost use Rattle.std.specs.Prelude.{◌<◌, IsTrue, is_some, length};
    ghost use Rattle.bag_text.specs.Path.{is_path};
    ghost use Rattle.test_disk.specs.DiskCalls.{ClosesFile, Enters, LooksAt, LooksAtNamed};
    ghost use Rattle.test_disk.specs.DiskCalls.{NamesNext, Opens, Reads};
    ghost use Rattle.test_world.specs.RefusingDisk.{IsCallOf, IsInTurn, IsLook, below_of, call_of};
    ghost use Rattle.test_world.specs.RefusingDisk.{fault_of, own_of, reported_of};
    ghost use Rattle.bag_disk.specs.Failures.{failures_counted};
    ghost use Rattle.bag_disk.specs.Refusal.{at_known, of_name, refusal_at_path};

    ghost state = { λ disk.
        refusing (D.state disk.disk) disk.fault (failures_counted disk.failures) };

    ghost is_disk = { λ disk. D.is_disk disk.disk };

    fn entry_at(&mut self, path: &str) -> Result<Entry, DiskFault>
        requires { IsTrue (is_path path.now) }
        ensures { IsLook path.now refusal_at_path (λ old new. LooksAt (D.state old) (D.state new)
            path.now result) self.old self.new result }
    {
        if self.refuses_entry(path) {
            self.failures.refuse(Refusal::of_path(self.fault));
            return Err(self.fault);
        }
        note(&mut self.reported, self.disk.entry_at(path))
    }

    fn named_entry(&mut self, path: &str) -> Result<Entry, DiskFault>
        requires { IsTrue (is_path path.now) }
        ensures { IsLook path.now at_known (λ old new. LooksAtNamed (D.state old) (D.state new)
            path.now result) self.old self.new result }
    {
        if self.refuses_entry(path) {
            self.failures.refuse(Refusal::at_known(self.fault));
            return Err(self.fault);
        }
        note(&mut self.reported, self.disk.named_entry(path))
    }

    fn enter(&mut self, folder: &str) -> Result<(), DiskFault>
        ensures { IsInTurn at_known (λ old new. Enters (D.state old) (D.state new)
            folder.now result) self.old self.new result }
    {
        if self.call.is_due() {
            self.failures.refuse(Refusal::at_known(self.fault));
            return Err(self.fault);
        }
        note(&mut self.reported, self.disk.enter(folder))
    }

    fn next_name(&mut self) -> Result<Option<Text>, DiskFault>
        ensures { IsInTurn of_name (λ old new. NamesNext (D.state old) (D.state new) result)
            self.old self.new result }
    {
        if self.call.is_due() {
            self.failures.refuse(Refusal::of_name(self.fault));
            return Err(self.fault);
        }
        note(&mut self.reported, self.disk.next_name())
    }

    fn open(&mut self, path: &str) -> Result<(), DiskFault>
        requires { IsTrue (is_path path.now) }
        ensures { IsCallOf (is_due (call_of self.old)) (one_less (call_of self.old))
            refusal_at_path (λ old new. ClosesFile (D.state old) (D.state new))
            (λ old new. Opens (D.state old) (D.state new) path.now result)
            self.old self.new result }
    {
        if self.call.is_due() {
            self.disk.close();
            self.failures.refuse(Refusal::of_path(self.fault));
            return Err(self.fault);
        }
        note(&mut self.reported, self.disk.open(path))
    }

    fn is_open(&self) -> bool {
        self.disk.is_open()
    }

    fn close(&mut self)
        ensures call { call_of self.new ≡ call_of self.old }
        ensures fault { fault_of self.new ≡ fault_of self.old }
        ensures own { own_of self.new ≡ own_of self.old }
        ensures reported { reported_of self.new ≡ reported_of self.old }
        ensures closes { ClosesFile (D.state (below_of self.old)) (D.state (below_of self.new)) }
    {
        self.disk.close();
    }

    fn read(&mut self, buffer: &mut [u8]) -> Result<usize, DiskFault>
        requires some { 0 < length buffer.old }
        requires file_open { IsTrue (is_some (D.state (below_of self.old)).rest) }
        ensures { IsInTurn at_known (λ old new. Reads (D.state old) (D.state new)
            (length buffer.old) buffer.new result) self.old self.new result }
    {
        if self.call.is_due() {
            self.failures.refuse(Refusal::at_known(self.fault));
            return Err(self.fault);
        }
        note(&mut self.reported, self.disk.read(buffer))
    }
}

impl<D: WritableDisk + Drop> WritableDisk for RefusingDisk<D> {
    ghost use Rattle.std.specs.Prelude.{IsTrue, is_some};
    ghost use Rattle.bag_text.specs.Path.{is_path};
    ghost use Rattle.test_disk.specs.DiskCalls.{Creates, MakesFolderAt, Renames, Syncs};
    ghost use Rattle.test_disk.specs.DiskCalls.{SyncsFolder, Writes};
    ghost use Rattle.test_world.specs.RefusingDisk.{IsInTurn, below_of};
    ghost use Rattle.bag_disk.specs.Refusal.{at_known, of_making};

    ghost written = { λ disk. D.written disk.disk };

    fn make_folder(&mut self, path: &str) -> Result<(), DiskFault>
        requires { IsTrue (is_path path.now) }
        ensures { IsInTurn of_making (λ old new. MakesFolderAt (D.state old) (D.state new)
            (D.written old) (D.written new) path.now result) self.old self.new result }
    {
        if self.call.is_due() {
            self.failures.refuse(Refusal::of_making(self.fault));
            return Err(self.fault);
        }
        note(&mut self.reported, self.disk.make_folder(path))
    }

    fn rename(&mut self, from: &str, to: &str) -> Result<(), DiskFault>
        requires from { IsTrue (is_path from.now) }
        requires to { IsTrue (is_path to.now) }
        ensures { IsInTurn at_known (λ old new. Renames (D.state old) (D.state new) (D.written old)
            (D.written new) from.now to.now result) self.old self.new result }
    {
        if self.call.is_due() {
            self.failures.refuse(Refusal::at_known(self.fault));
            return Err(self.fault);
        }
        note(&mut self.reported, self.disk.rename(from, to))
    }

    fn create(&mut self, path: &str) -> Result<(), DiskFault>
        requires { IsTrue (is_path path.now) }
        ensures { IsInTurn of_making (λ old new. Creates (D.state old) (D.state new) (D.written old)
            (D.written new) path.now result) self.old self.new result }
    {
        if self.call.is_due() {
            self.failures.refuse(Refusal::of_making(self.fault));
            return Err(self.fault);
        }
        note(&mut self.reported, self.disk.create(path))
    }

    fn write(&mut self, bytes: &[u8]) -> Result<usize, DiskFault>
        requires { IsTrue (is_some (D.written (below_of self.old))) }
        ensures { IsInTurn at_known (λ old new. Writes (D.state old) (D.state new) (D.written old)
            (D.written new) bytes.now result) self.old self.new result }
    {
        if self.call.is_due() {
            self.failures.refuse(Refusal::at_known(self.fault));
            return Err(self.fault);
        }
        note(&mut self.reported, self.disk.write(bytes))
    }

    fn sync(&mut self) -> Result<(), DiskFault>
        requires { IsTrue (is_some (D.written (below_of self.old))) }
        ensures { IsInTurn at_known (λ old new. Syncs (D.state old) (D.state new) (D.written old)
            (D.written new) result) self.old self.new result }
    {
        if self.call.is_due() {
            self.failures.refuse(Refusal::at_known(self.fault));
            return Err(self.fault);
        }
        note(&mut self.reported, self.disk.sync())
    }

    fn sync_folder(&mut self, folder: &str) -> Result<(), DiskFault>
        ensures { IsInTurn at_known (λ old new. SyncsFolder (D.state old) (D.state new)
            (D.written old) (D.written new) folder.now result) self.old self.new result }
    {
        if self.call.is_due() {
            self.failures.refuse(Refusal::at_known(self.fault));
            return Err(self.fault);
        }
        note(&mut self.reported, self.disk.sync_folder(folder))
    }
}

impl<D: ReplaceDisk + Drop> ReplaceDisk for RefusingDisk<D> {
    ghost use Rattle.std.specs.Prelude.{IsTrue};
    ghost use Rattle.bag_text.specs.Path.{is_path};
    ghost use Rattle.test_disk.specs.DiskCalls.{PutsInPlaceAt, RemovesAt};
    ghost use Rattle.test_world.specs.RefusingDisk.{IsInTurn};
    ghost use Rattle.bag_disk.specs.Refusal.{at_known, refusal_at_path};

    fn replace(&mut self, from: &str, to: &str) -> Result<(), DiskFault>
        requires from { IsTrue (is_path from.now) }
        requires to { IsTrue (is_path to.now) }
        ensures { IsInTurn at_known (λ old new. PutsInPlaceAt (D.state old) (D.state new)
            (D.written old) (D.written new) from.now to.now result) self.old self.new result }
    {
        if self.call.is_due() {
            self.failures.refuse(Refusal::at_known(self.fault));
            return Err(self.fault);
        }
        note(&mut self.reported, self.disk.replace(from, to))
    }

    fn remove(&mut self, path: &str) -> Result<(), DiskFault>
        requires { IsTrue (is_path path.now) }
        ensures { IsInTurn refusal_at_path (λ old new. RemovesAt (D.state old) (D.state new)
            (D.written old) (D.written new) path.now result) self.old self.new result }
    {
        if self.call.is_due() {
            self.failures.refuse(Refusal::of_path(self.fault));
            return Err(self.fault);
        }
        note(&mut self.reported, self.disk.remove(path))
    }
}
