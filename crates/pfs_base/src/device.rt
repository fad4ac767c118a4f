//! Readers and writers that may fail.
ghost use Rattle.std.specs.Prelude.{◌≡◌, ℕ, ◌+◌, ◌<◌, ◌^◌, List, Option, length, Bool, false};
ghost use Rattle.pfs_base.specs.Device.{Reads, Writes, ends_after, fails_after};
ghost use Rattle.pfs_base.specs.Sends.{Sends};

use thiserror::Error;

/// A reader of bytes. Contracts see the bytes that are left, if they are known, whether a read has failed,
/// and whether a read has reported the end of the bytes.
pub trait Source {
    ghost left: { Self → Option (List ℕ) };

    ghost has_failed: { Self → Bool };

    ghost has_ended: { Self → Bool };

    /// Reads some bytes into the front of `buf` and returns their number. 0 reports the end of the bytes, if
    /// `buf` isn't empty. `None` is a failure, and no byte is read. A source isn't read again after a failure.
    fn read(&mut self, buf: &mut [u8]) -> Option<usize>
        requires working { has_failed self.old ≡ false }
        ensures bytes { Reads (left self.old) (left self.new) result buf.new }
        ensures failed { has_failed self.new ≡ fails_after (has_failed self.old) result }
        ensures ended { has_ended self.new ≡ ends_after (has_ended self.old) result (length buf.new) };

    /// Whether a read has failed.
    fn failed(&self) -> bool
        ensures { result ≡ has_failed self.now };
}

/// A writer of bytes. Contracts see the bytes that were written, if they are known, and whether a write has failed.
pub trait Sink {
    ghost written: { Self → Option (List ℕ) };

    ghost has_failed: { Self → Bool };

    /// Writes a prefix of `bytes` and returns its length, which is at least 1 unless `bytes` is empty. `None`
    /// is a failure, and no byte is written. A sink isn't written to again after a failure.
    fn write(&mut self, bytes: &[u8]) -> Option<usize>
        requires working { has_failed self.old ≡ false }
        ensures bytes { Writes (written self.old) (written self.new) result bytes.now }
        ensures failed { has_failed self.new ≡ fails_after (has_failed self.old) result };

    /// Whether a write has failed.
    fn failed(&self) -> bool
        ensures { result ≡ has_failed self.now };
}

/// A write failed.
#[derive(Clone, Copy, Debug, PartialEq, Eq, Error)]
#[error("WriteFault")]
pub struct WriteFault {
    /// How many bytes of the whole text were sent before the failure.
    pub written: u64,
}

/// Writes one part of a text. `sent` is how many bytes of the text were sent before, and the result is how
/// many are sent with this part. If a write fails, a prefix of the part was sent, and the fault has the
/// number of bytes that were sent with that prefix.
pub fn put<W: Sink>(writer: &mut W, bytes: &[u8], sent: u64) -> Result<u64, WriteFault>
    requires working { W.has_failed writer.old ≡ false }
    requires fits { sent + length bytes.now < 2 ^ 64 }
    ensures { Sends (W.written writer.old) (W.written writer.new) (W.has_failed writer.new)
        sent bytes.now result }
{
    let mut done = 0;
    while done < bytes.len() {
        match writer.write(&bytes[done..]) {
            Some(n) => done += n,
            None => {
                return Err(WriteFault {
                    written: sent + done as u64,
                });
            }
        }
    }
    Ok(sent + done as u64)
}
