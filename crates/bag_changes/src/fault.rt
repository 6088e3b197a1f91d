//! Why a bag isn't renewed.
ghost use Rattle.bag_changes.specs.Reading.{IsRefusalOf, IsRefusalOfStop};

use bag_checked::Unchecked;
use bag_faults::Fault;
use bag_text::Text;
use bag_tree::{Stop, TreeFault};

/// Why a bag isn't renewed. Each refusal but that of a change leaves the bag as it was.
#[derive(Debug, Drop)]
pub enum RenewFault {
    /// The bag's first fault for which it isn't renewed.
    Faulty(Fault),
    /// An element that can't be written, or that is computed.
    BadValue,
    /// No algorithm would be left.
    NoAlgorithm,
    /// A folder, be it empty, has the name of a tag file or of a begun one; or what has the name of
    /// a begun file isn't one.
    InTheWay(Text),
    /// No manifest can name the file with this path.
    Unnameable(Text),
    /// This file has the name of a tag manifest, but for its algorithm, which no manifest's name can
    /// have. It would keep digests that tag files had before the renewal.
    Outdated(Text),
    /// No payload manifest that is left would name this file of the payload. The rules of 0.97 let a
    /// manifest name a part of the payload.
    Unlisted(Text),
    /// The bag of version 0.97 is to become one of 1.0, which spells the paths of its `fetch.txt`
    /// otherwise.
    Fetch,
    /// The tree refused to list its files, to read one, or to look for a folder that has the name
    /// of a tag file.
    ReadStopped(Stop),
    /// Memory ran out.
    Memory,
    /// The tree refused to put the file of this name. All changes before it were made.
    PutRefused(Text, TreeFault),
    /// The tree refused to remove the file of this name. All changes before it were made.
    RemoveRefused(Text, TreeFault),
}

/// The refusal for which a bag isn't known to be without a fault.
pub fn refusal(unchecked: Unchecked) -> RenewFault
    ensures { IsRefusalOf unchecked result }
{
    match unchecked {
        Unchecked::Faulty(fault) => RenewFault::Faulty(fault),
        Unchecked::Stopped(stop) => stopped(stop),
    }
}

/// The refusal that a stop is. Out of memory is one of its own, the tree's too.
pub(crate) fn stopped(stop: Stop) -> RenewFault
    ensures { IsRefusalOfStop stop result }
{
    if stop.cause == TreeFault::Memory {
        RenewFault::Memory
    } else {
        RenewFault::ReadStopped(stop)
    }
}
