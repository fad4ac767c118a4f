//! A source that reads from a reader of std.
ghost use Rattle.std.specs.Prelude.{◌≡◌, false};

use crate::device::Source;
use std::io::Read;

/// A source over a reader of std. A read fails if the reader returns an error, even for an interrupted call:
/// no read is tried again.
#[derive(Drop)]
pub struct FromRead<R> {
    reader: R,
    failed: bool,
    ended: bool,
}

impl<R: Read> FromRead<R> {
    /// A source of the bytes that the reader has left. No read has failed, and none has reported the end.
    pub fn new(reader: R) -> FromRead<R>
        ensures left { ⟦<FromRead<R> as Source>⟧.left result ≡ R.remaining reader }
        ensures failed { ⟦<FromRead<R> as Source>⟧.has_failed result ≡ false }
        ensures ended { ⟦<FromRead<R> as Source>⟧.has_ended result ≡ false }
    {
        FromRead {
            reader,
            failed: false,
            ended: false,
        }
    }
}

impl<R: Read> Source for FromRead<R> {
    ghost left = { λ s. R.remaining s.reader };

    ghost has_failed = { λ s. s.failed };

    ghost has_ended = { λ s. s.ended };

    fn read(&mut self, buf: &mut [u8]) -> Option<usize> {
        match self.reader.read(buf) {
            Ok(n) => {
                if n == 0 && !buf.is_empty() {
                    self.ended = true;
                }
                Some(n)
            }
            Err(_) => {
                self.failed = true;
                None
            }
        }
    }

    fn failed(&self) -> bool {
        self.failed
    }
}
