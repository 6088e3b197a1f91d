//! The reports that are joined.
ghost use Rattle.std.specs.Prelude.{◌≡◌, ◌<◌, ◌≤◌, IfOk, OnOk, OnErr, IsTrue, length};
ghost use Rattle.bag_reports.specs.Reports.{ReportsState, SameReports, Opens, Gives, StaysAt, HoldsOpen};
ghost use Rattle.bag_reports.specs.Reports.{GivesHeld};

use thiserror::Error;

/// A report couldn't be read.
#[derive(Clone, Copy, Debug, PartialEq, Eq, Error)]
#[error("can't be read")]
pub struct Unreadable;

/// Reports, of which one at a time is open. Each can be opened more than once.
///
/// What honest reports give is what they hold, each time. Of others it is known what they gave.
pub trait Reports {
    /// What the reports mean: how many there are, what they gave, and what they hold, where they
    /// are honest.
    ghost state: { Self → ReportsState };

    /// How many there are.
    fn count(&self) -> u64
        ensures { result ≡ (state self.now).count };

    /// Opens a report from its beginning, in place of the one that was open, which stays open
    /// after a refusal.
    fn open(&mut self, number: u64) -> Result<(), Unreadable>
        requires { number < (state self.old).count }
        ensures same { SameReports (state self.old) (state self.new) }
        ensures opened { OnOk result (Opens (state self.old) (state self.new) number) }
        ensures held { OnOk result (IsTrue (state self.old).honest → HoldsOpen (state self.new)) }
        ensures stays { OnErr result (StaysAt (state self.old) (state self.new)) };

    /// Reads the next bytes of the open report into the buffer, and says how many; none at its end.
    fn read(&mut self, buffer: &mut [u8]) -> Result<usize, Unreadable>
        requires { 0 < length buffer.old }
        ensures same { SameReports (state self.old) (state self.new) }
        ensures within { IfOk result (λ n. n ≤ length buffer.old) }
        ensures gives { IfOk result (λ n. Gives (state self.old) (state self.new) n buffer.new) }
        ensures held { IfOk result (λ n.
            IsTrue (state self.old).honest → GivesHeld (state self.new) n) }
        ensures stays { OnErr result (StaysAt (state self.old) (state self.new)) };
}
