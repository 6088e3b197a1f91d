//! A fault of `bag-info.txt`.
ghost use Rattle.std.specs.Prelude.{◌≡◌, IfOk};
ghost use Rattle.bag_report.specs.ElementFaults as reported;

use bag_faults::Fault;
use bag_read::TagName;
use bag_text::{Code, Text};
use std::alloc::{AllocError, Global};

/// A fault of a line of `bag-info.txt`, or of the whole file where the line is 0.
pub(crate) fn info_fault(
    alloc: Global,
    code: Code,
    line: u64,
    detail: Text,
) -> Result<Fault, AllocError>
    ensures { IfOk result (λ fault. fault ≡ reported.in_info code line detail) }
{
    let path = TagName::Info.path(alloc)?;
    Ok(Fault::new(alloc, code, path).at(line).with(detail))
}
