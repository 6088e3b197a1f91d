//! What is wrong with the declaration: first of the whole file, then of each line (RFC 8493,
//! 2.1.1).
ghost use Rattle.std.specs.Prelude.{◌≡◌, ◌∷◌, ◌++◌, [], IfOk, OnOk};
ghost use Rattle.std.specs.Option.{option_copied, option_to_list};
ghost use Rattle.bag_read.specs.LineFault.{line_fault};
ghost use Rattle.bag_read.specs.DeclarationFaults as spec;

use crate::LineFault;
use bag_text::{BYTE_ORDER_MARK, Code, Items, Text};
use std::alloc::{AllocError, Global};

/// The fault of bytes that aren't UTF-8.
pub(crate) fn utf8_faults(alloc: Global) -> Result<Items<LineFault>, AllocError>
    ensures { IfOk result (λ faults. faults ≡ spec.utf8_fault ∷ []) }
{
    let mut faults = Items::new(alloc);
    push(alloc, &mut faults, 0, Code::DeclarationNotUtf8, "utf8")?;
    Ok(faults)
}

/// The faults of a text with this many lines, of which the first two declare these, where they
/// read.
pub(crate) fn text_faults(
    alloc: Global,
    bytes: &[u8],
    count: usize,
    version: Option<&str>,
    encoding: Option<&str>,
) -> Result<Items<LineFault>, AllocError>
    ensures { IfOk result (λ faults.
        faults ≡ spec.faults_of bytes.now count (option_copied version.entry)
        (option_copied encoding.entry)) }
{
    let mut faults = Items::new(alloc);
    push_mark_fault(alloc, &mut faults, bytes)?;
    push_count_fault(alloc, &mut faults, count)?;
    if count >= 1 {
        push_version_fault(alloc, &mut faults, version)?;
    }
    if count >= 2 {
        push_encoding_fault(alloc, &mut faults, encoding)?;
    }
    Ok(faults)
}

fn push(
    alloc: Global,
    faults: &mut Items<LineFault>,
    line: u64,
    code: Code,
    detail: &str,
) -> Result<(), AllocError>
    ensures { OnOk result (faults.new ≡ faults.old ++ line_fault line code detail.now ∷ []) }
{
    let detail = Text::from_str(alloc, detail)?;
    faults.push(LineFault { line, code, detail })
}

/// A byte order mark.
fn push_mark_fault(
    alloc: Global,
    faults: &mut Items<LineFault>,
    bytes: &[u8],
) -> Result<(), AllocError>
    ensures { OnOk result (faults.new ≡ faults.old ++ option_to_list (spec.mark_fault bytes.now)) }
{
    if bytes.starts_with(BYTE_ORDER_MARK.as_bytes()) {
        push(alloc, faults, 0, Code::DeclarationNotUtf8, "bom")
    } else {
        Ok(())
    }
}

/// Another number of lines than two.
fn push_count_fault(
    alloc: Global,
    faults: &mut Items<LineFault>,
    count: usize,
) -> Result<(), AllocError>
    ensures { OnOk result (faults.new ≡ faults.old ++ option_to_list (spec.count_fault count)) }
{
    if count == 2 {
        return Ok(());
    }
    let detail = count.to_string(alloc)?;
    push(
        alloc,
        faults,
        0,
        Code::DeclarationLineCount,
        detail.as_str(),
    )
}

/// A version that isn't read or isn't supported.
fn push_version_fault(
    alloc: Global,
    faults: &mut Items<LineFault>,
    version: Option<&str>,
) -> Result<(), AllocError>
    ensures { OnOk result
        (faults.new ≡ faults.old
        ++ option_to_list (spec.version_fault (option_copied version.entry))) }
{
    let Some(version) = version else {
        return push(alloc, faults, 1, Code::DeclarationLine, "");
    };
    if version == "1.0" || version == "0.97" {
        Ok(())
    } else {
        push(alloc, faults, 1, Code::VersionUnsupported, version)
    }
}

/// An encoding that isn't read or isn't UTF-8.
fn push_encoding_fault(
    alloc: Global,
    faults: &mut Items<LineFault>,
    encoding: Option<&str>,
) -> Result<(), AllocError>
    ensures { OnOk result
        (faults.new ≡ faults.old
        ++ option_to_list (spec.encoding_fault (option_copied encoding.entry))) }
{
    let Some(encoding) = encoding else {
        return push(alloc, faults, 2, Code::DeclarationLine, "");
    };
    if encoding.eq_ignore_ascii_case("UTF-8") {
        Ok(())
    } else {
        push(alloc, faults, 2, Code::EncodingUnsupported, encoding)
    }
}
