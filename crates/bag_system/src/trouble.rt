//! What the system answered where it refused, for people to read: no contract speaks of it.
ghost use Rattle.std.specs.Prelude.{◌≡◌, IfOk, Ok};
ghost use Rattle.bag_disk.specs.Failures.{failures_counted};
ghost use Rattle.bag_disk.specs.Refusal.{IsCountedAs};
ghost use Rattle.bag_disk.specs.Subject.{meaning};

use crate::system_fault::SystemFault;
use bag_disk::{DiskFault, Failures, Subject};
use bag_text::Text;
use std::io::ErrorKind;
use std::{fmt, io};

/// Why the system refused something, and where. It is shown as a few words, or else as the error of
/// the system, with its number.
#[derive(Drop)]
pub struct Trouble {
    location: Text,
    error: io::Error,
}

impl Trouble {
    pub(crate) fn new(location: Text, error: io::Error) -> Trouble {
        Trouble { location, error }
    }

    /// Where it is for the system.
    pub fn location(&self) -> &str {
        self.location.as_str()
    }
}

impl fmt::Display for Trouble {
    fn fmt<W: fmt::Write>(&self, f: &mut fmt::Formatter<W>) -> fmt::Result {
        match self.error.kind() {
            ErrorKind::NotFound => f.write_str("not there"),
            ErrorKind::NotADirectory => f.write_str("not a folder"),
            ErrorKind::PermissionDenied => f.write_str("permission denied"),
            _ => write!(f, "{}", self.error),
        }
    }
}

/// What the system's disk refused: how often its device did, and why it did last.
#[derive(Drop)]
pub(crate) struct Refusals {
    pub(crate) failures: Failures,
    last: Option<Trouble>,
}

impl Refusals {
    /// It hasn't refused yet.
    pub(crate) fn none() -> Refusals
        ensures { failures_counted result.failures ≡ 0 }
    {
        Refusals {
            failures: Failures::none(),
            last: None,
        }
    }

    /// Why the device refused last, where the system said that.
    pub(crate) fn last(&self) -> Option<&Trouble> {
        self.last.as_ref()
    }

    /// Counts what a call about this was answered, and gives it.
    pub(crate) fn counted<T>(
        &mut self,
        subject: Subject,
        answer: Result<T, SystemFault>,
    ) -> Result<T, DiskFault>
        ensures given { IfOk result (λ given. answer ≡ Ok given) }
        ensures failures { IsCountedAs (meaning subject) result
            (failures_counted self.old.failures) (failures_counted self.new.failures) }
    {
        let answer = self.noted(subject, answer);
        self.failures.counted(subject, answer)
    }

    /// Notes why a call about this was refused, if the device did it.
    fn noted<T>(&mut self, subject: Subject, answer: Result<T, SystemFault>) -> Result<T, DiskFault>
        ensures given { IfOk result (λ given. answer ≡ Ok given) }
        ensures same { self.new.failures ≡ self.old.failures }
    {
        match answer {
            Ok(given) => Ok(given),
            Err(SystemFault { fault, trouble }) => {
                if subject.refusal(fault).is_device() {
                    self.last = trouble;
                }
                Err(fault)
            }
        }
    }
}
