//! How often a device has refused.
use crate::path::is_path;
use crate::refusal::Subject;
use crate::{DiskFault, Refusal};
use bag_text::Text;
use bag_tree::Heard;

/// How often a device has refused, which only clauses read: it takes no memory. A disk counts each
/// fault by what it means in its call.
#[derive(Drop)]
pub struct Failures {
    /// A byte for each time.
    heard: Heard,
}

impl Failures {
    ghost use Rattle.std.specs.Prelude.{◌≡◌, ◌+◌, IfErr, IfOk, IsTrue, MatchOption, ⊤};
    ghost use Rattle.bag_text.specs.Path.{is_path};
    ghost use Rattle.bag_disk.specs.Failures.{failures_counted};
    ghost use Rattle.bag_disk.specs.Refusal.{IsCountedAs, failures_after, of_name};
    ghost use Rattle.bag_disk.specs.Subject.{meaning};
    ghost use Rattle.bag_disk.specs.declared.disk.DiskFault.TheVariants.{Device};

    /// It hasn't refused yet.
    pub fn none() -> Failures
        ensures { failures_counted result ≡ 0 }
    {
        Failures {
            heard: Heard::new(),
        }
    }

    /// Counts what a call about this was answered, and gives it.
    pub fn counted<T>(
        &mut self,
        subject: Subject,
        answer: Result<T, DiskFault>,
    ) -> Result<T, DiskFault>
        ensures same { result ≡ answer }
        ensures failures { IsCountedAs
            (meaning subject) result (failures_counted self.old) (failures_counted self.new) }
    {
        if let Err(fault) = &answer {
            self.refuse(subject.refusal(*fault));
        }
        answer
    }

    /// A name that a folder gave. One that isn't a path is a failure, since nothing can have it.
    pub fn name(&mut self, name: Text) -> Result<Option<Text>, DiskFault>
        ensures given { IfOk result (λ next. next ≡ Some name) }
        ensures path { IfOk result (λ next. MatchOption next ⊤ (λ name. IsTrue (is_path name))) }
        ensures refused { IfErr result (λ fault. fault ≡ Device) }
        ensures failures { IsCountedAs of_name result (failures_counted self.old)
            (failures_counted self.new) }
    {
        if !is_path(name.as_str()) {
            self.note();
            return Err(DiskFault::Device);
        }
        Ok(Some(name))
    }

    /// Counts a refusal, where it is one by the device.
    pub fn refuse(&mut self, refusal: Refusal)
        ensures { failures_counted self.new ≡ failures_after refusal (failures_counted self.old) }
    {
        match refusal {
            Refusal::Device => self.note(),
            Refusal::Special
            | Refusal::Name
            | Refusal::NotFound
            | Refusal::TooMany
            | Refusal::Memory
            | Refusal::Exists
            | Refusal::Contradicts
            | Refusal::InTheWay => {}
        }
    }

    /// Counts one more.
    pub fn note(&mut self)
        ensures { failures_counted self.new ≡ failures_counted self.old + 1 }
    {
        self.heard.note(&[0]);
    }
}
