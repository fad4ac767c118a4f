//! A buffer in front of a sink.
ghost use Rattle.std.specs.Prelude.{◌≡◌, [], false};
ghost use Rattle.std.specs.Io.KnownBytes.{Keeps};
ghost use Rattle.pfs_base.specs.Buffer.{Flushes, bytes_given};
ghost use Rattle.pfs_base.specs.Device.{Writes, fails_after};

use crate::device::{Sink, WriteFault, put};
use std::marker::Model;

/// The capacity of a buffer, in bytes.
const ROOM: usize = 8192;

/// A sink that gathers short writes for another sink. It allocates nothing, and counts the bytes that it has
/// sent to that sink. Contracts see what it was given: the bytes sent, followed by those still in the buffer.
#[derive(Drop)]
pub struct Buffered<W: Sink> {
    writer: W,
    bytes: [u8; ROOM],
    count: usize,
    sent: u64,
}

impl<W: Sink> Model for Buffered<W> {
    ghost use Rattle.std.specs.Prelude.{◌≤◌, take};
    ghost use Rattle.pfs_base.specs.Buffer.{Buffering};

    ghost Value = { Buffering W };

    ghost view = { λ b. record { writer = b.writer; held = take b.count b.bytes; sent = b.sent } };

    ghost invariant = { λ b. b.count ≤ 8192 };
}

impl<W: Sink> Buffered<W> {
    /// An empty buffer in front of this sink, which has sent nothing.
    pub fn new(writer: W) -> Buffered<W>
        ensures writer { result.writer ≡ writer }
        ensures empty { result.held ≡ [] }
        ensures none { result.sent ≡ 0 }
    {
        Buffered {
            writer,
            bytes: [0; ROOM],
            count: 0,
            sent: 0,
        }
    }

    /// The sink that the buffer writes to.
    pub fn writer(&self) -> &W
        ensures { result.now ≡ self.now.writer }
    {
        &self.writer
    }

    /// How many bytes were sent in all, up to `u64::MAX`.
    pub fn sent(&self) -> u64
        ensures { result ≡ self.now.sent }
    {
        self.sent
    }

    /// Sends the bytes in the buffer. If a write fails, the unsent bytes stay in the buffer, and the fault
    /// has the number of bytes that were sent in all.
    pub fn flush(&mut self) -> Result<(), WriteFault>
        requires { W.has_failed self.old.writer ≡ false }
        ensures kept { Keeps (bytes_given W.written self.old) (bytes_given W.written self.new) }
        ensures out { Flushes W.has_failed self.new result }
    {
        match put(&mut self.writer, &self.bytes[..self.count], 0) {
            Ok(_) => {
                self.sent = self.sent.saturating_add(self.count as u64);
                self.count = 0;
                Ok(())
            }
            Err(fault) => {
                let out = fault.written as usize;
                self.bytes.copy_within(out..self.count, 0);
                self.count -= out;
                self.sent = self.sent.saturating_add(fault.written);
                Err(WriteFault { written: self.sent })
            }
        }
    }

    // Writes bytes that fill the buffer or don't fit into it. It is a separate function, so that the check
    // whether bytes fit is inlined.
    #[cold]
    #[inline(never)]
    fn write_full(&mut self, bytes: &[u8]) -> Option<usize>
        requires { W.has_failed self.old.writer ≡ false }
        ensures bytes { Writes (bytes_given W.written self.old) (bytes_given W.written self.new) result bytes.now }
        ensures failed { W.has_failed self.new.writer ≡ fails_after (W.has_failed self.old.writer) result }
    {
        if bytes.len() > ROOM - self.count && self.flush().is_err() {
            return None;
        }
        if bytes.len() < ROOM {
            let end = self.count + bytes.len();
            self.bytes[self.count..end].copy_from_slice(bytes);
            self.count = end;
            return Some(bytes.len());
        }
        let count = self.writer.write(bytes)?;
        self.sent = self.sent.saturating_add(count as u64);
        Some(count)
    }
}

impl<W: Sink> Sink for Buffered<W> {
    ghost written = { bytes_given W.written };

    ghost has_failed = { λ b. W.has_failed b.writer };

    /// Copies the bytes into the buffer, and flushes the buffer first if they don't fit. A write of at least
    /// the buffer's capacity goes straight to the sink.
    #[inline(always)]
    fn write(&mut self, bytes: &[u8]) -> Option<usize> {
        if bytes.len() < ROOM - self.count {
            self.bytes[self.count..self.count + bytes.len()].copy_from_slice(bytes);
            self.count += bytes.len();
            return Some(bytes.len());
        }
        self.write_full(bytes)
    }

    fn failed(&self) -> bool {
        self.writer.failed()
    }
}
