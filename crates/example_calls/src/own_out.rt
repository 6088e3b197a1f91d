//! An output of one's own.
ghost use Rattle.std.specs.Prelude.{◌≡◌, [], None, false};

use bag_store::{Out, Refused};
use std::alloc::{AllocError, Global};
use std::mem;

/// Keeps the lines of a report. Where there is no memory for them it refuses.
#[derive(Drop)]
pub struct LinesOut {
    alloc: Global,
    lines: Vec<Vec<u8>>,
    /// The line that hasn't ended.
    line: Vec<u8>,
    has_refused: bool,
}

impl LinesOut {
    /// No line so far.
    pub fn new(alloc: Global) -> LinesOut
        ensures none { result.lines.items ≡ [] }
        ensures begun { result.line.items ≡ [] }
        ensures ready { (⟦<LinesOut as Out>⟧.state result).has_refused ≡ false }
    {
        LinesOut {
            alloc,
            lines: Vec::new(alloc),
            line: Vec::new(alloc),
            has_refused: false,
        }
    }

    /// The lines that have ended, without their line ends.
    pub fn lines(&self) -> &[Vec<u8>]
        ensures { result.now ≡ self.now.lines.items }
    {
        self.lines.as_slice()
    }
}

impl Out for LinesOut {
    ghost state = { λ out. record { taken = None; has_refused = out.has_refused } };

    fn put(&mut self, bytes: &[u8]) -> Result<usize, Refused> {
        if self.has_refused {
            return Err(Refused);
        }
        match append(self.alloc, bytes, &mut self.lines, &mut self.line) {
            Ok(()) => Ok(bytes.len()),
            Err(AllocError) => {
                self.has_refused = true;
                Err(Refused)
            }
        }
    }
}

/// Adds bytes to the last line, and to new ones after each line end.
fn append(
    alloc: Global,
    bytes: &[u8],
    lines: &mut Vec<Vec<u8>>,
    line: &mut Vec<u8>,
) -> Result<(), AllocError> {
    for byte in bytes {
        if *byte == b'\n' {
            lines.push(mem::replace(line, Vec::new(alloc)))?;
        } else {
            line.push(*byte)?;
        }
    }
    Ok(())
}
