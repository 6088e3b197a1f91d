//! An output over a writer.
ghost use Rattle.std.specs.Prelude.{◌≡◌, List, [], ℕ, Some, false};
ghost use Rattle.std.specs.Option.{unwrap_or};
ghost use Rattle.bag_tree.specs.Heard.{HasReceived, ExposesBytes};

use crate::heard::Heard;
use crate::out::{Out, Refused};
use std::io::Write;

/// Writes to a writer. After a write that it refuses, nothing more is written.
///
/// The bytes that it took are those that the writer answered that it took, even where the writer
/// exposes none of its bytes, as the standard output does. They come after the bytes that the
/// writer held at first, where it exposed them. A writer that always exposes its bytes, as a `Vec`
/// does, holds exactly these.
#[derive(Drop)]
pub struct WriterOut<W: Write> {
    writer: W,
    refused: bool,
    heard: Heard,
    ghost received: { HasReceived W.contents writer heard.bytes },
}

impl<W: Write> WriterOut<W> {
    /// An output over a writer, which hasn't refused.
    pub fn new(writer: W) -> WriterOut<W>
        ensures taken { (⟦<WriterOut<W> as Out>⟧.state result).taken
            ≡ Some (unwrap_or (W.contents writer) []) }
        ensures ready { (⟦<WriterOut<W> as Out>⟧.state result).has_refused ≡ false }
    {
        WriterOut::holding(writer)
    }

    /// An output over a writer that holds these bytes, where it exposes them.
    fn holding(writer: W) -> WriterOut<W>
        ghost held: { List ℕ }
        requires { HasReceived W.contents writer held }
        ensures taken { (⟦<WriterOut<W> as Out>⟧.state result).taken ≡ Some held }
        ensures ready { (⟦<WriterOut<W> as Out>⟧.state result).has_refused ≡ false }
    {
        WriterOut {
            writer,
            refused: false,
            heard: Heard::new(),
        }
    }

    /// The writer, which has what was taken.
    pub fn into_inner(self) -> W
        ensures { ExposesBytes W.contents
            → W.contents result ≡ (⟦<WriterOut<W> as Out>⟧.state self).taken }
    {
        let WriterOut {
            writer,
            refused: _,
            heard: _,
        } = self;
        writer
    }
}

impl<W: Write> Out for WriterOut<W> {
    ghost state = { λ out. record { taken = Some out.heard.bytes; has_refused = out.refused } };

    fn put(&mut self, bytes: &[u8]) -> Result<usize, Refused> {
        if self.refused {
            return Err(Refused);
        }
        match self.writer.write(bytes) {
            Ok(0) | Err(_) => {
                self.refused = true;
                Err(Refused)
            }
            Ok(count) => {
                self.heard.note(&bytes[..count]);
                Ok(count)
            }
        }
    }
}
