//! A sink that writes to a writer of std.
ghost use Rattle.std.specs.Prelude.{◌≡◌, false};

use crate::device::Sink;
use std::io::Write;

/// A sink over a writer of std. A write fails if the writer returns an error, even for an interrupted call,
/// or writes no byte: no write is tried again.
#[derive(Drop)]
pub struct ToWrite<W> {
    writer: W,
    failed: bool,
}

impl<W: Write> ToWrite<W> {
    /// A sink that writes to `writer`. No write has failed.
    pub fn new(writer: W) -> ToWrite<W>
        ensures written { ⟦<ToWrite<W> as Sink>⟧.written result ≡ W.contents writer }
        ensures failed { ⟦<ToWrite<W> as Sink>⟧.has_failed result ≡ false }
    {
        ToWrite {
            writer,
            failed: false,
        }
    }

    /// The writer.
    pub fn into_writer(self) -> W
        ensures { W.contents result ≡ ⟦<ToWrite<W> as Sink>⟧.written self }
    {
        self.writer
    }
}

impl<W: Write> Sink for ToWrite<W> {
    ghost written = { λ s. W.contents s.writer };

    ghost has_failed = { λ s. s.failed };

    fn write(&mut self, bytes: &[u8]) -> Option<usize> {
        match self.writer.write(bytes) {
            Ok(n) if n > 0 => Some(n),
            _ => {
                self.failed = true;
                None
            }
        }
    }

    fn failed(&self) -> bool {
        self.failed
    }
}
