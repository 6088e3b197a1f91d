//! Lines that are written.
ghost use Rattle.std.specs.Prelude.{◌++◌, OnErr, OnOk, string_bytes};
ghost use Rattle.bag_tags.specs.Line.{AddsLine, AddsPartOfLine};

use std::alloc::AllocError;

/// Puts a line at the end: two texts with a third between them, and LF. Where memory runs out, a
/// part of the line may stand there.
pub(crate) fn push_line(
    text: &mut String,
    front: &str,
    between: &str,
    back: &str,
) -> Result<(), AllocError>
    ensures written { OnOk result (AddsLine
        (front.now ++ between.now ++ back.now) (string_bytes text.old) (string_bytes text.new)) }
    ensures refused { OnErr result (AddsPartOfLine
        (front.now ++ between.now ++ back.now) (string_bytes text.old) (string_bytes text.new)) }
{
    text.push_str(front)?;
    text.push_str(between)?;
    text.push_str(back)?;
    text.push_str("\n")
}
