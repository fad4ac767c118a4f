//! Readers and writers that move few bytes a call, or fail at a chosen call, and count their calls.
ghost use Rattle.std.specs.Prelude.{◌≡◌, ◌+◌, ◌<◌, ◌≤◌, false, None, Some, IfOk};

use pfs_base::{Sink, Source};
use std::io;
use std::io::{ErrorKind, Read, Write};

/// A source of the bytes of a text. It returns a limited number of bytes a call, and may fail at one of its calls,
/// which count from 1.
#[derive(Drop)]
pub struct Pieces<'a> {
    rest: &'a [u8],
    most: usize,
    calls: u64,
    fails_at: Option<u64>,
    failed: bool,
    ended: bool,
    ghost some: { 0 < most },
}

impl<'a> Pieces<'a> {
    /// Returns a source of a text, with at most `most` bytes a call, or 1 if `most` is 0. It fails at the call
    /// `fails_at`, if that is a number.
    pub fn new(text: &'a [u8], most: usize, fails_at: Option<u64>) -> Pieces<'a>
        ensures left { ⟦<Pieces<'a> as Source>⟧.left result ≡ Some text.now }
        ensures working { ⟦<Pieces<'a> as Source>⟧.has_failed result ≡ false }
        ensures fresh { ⟦<Pieces<'a> as Source>⟧.has_ended result ≡ false }
    {
        Pieces {
            rest: text,
            most: most.max(1),
            calls: 0,
            fails_at,
            failed: false,
            ended: false,
        }
    }

    /// Returns a source of a text without a limit for each call, which doesn't fail.
    pub fn whole(text: &'a [u8]) -> Pieces<'a>
        ensures left { ⟦<Pieces<'a> as Source>⟧.left result ≡ Some text.now }
        ensures working { ⟦<Pieces<'a> as Source>⟧.has_failed result ≡ false }
    {
        Pieces::new(text, usize::MAX, None)
    }

    /// Returns how often the source was read.
    pub fn calls(&self) -> u64 {
        self.calls
    }

    /// Returns the bytes that are left to read.
    pub fn rest(&self) -> &'a [u8]
        ensures { ⟦<Pieces<'a> as Source>⟧.left self.now ≡ Some result.now }
    {
        self.rest
    }

    /// Returns whether a read has reported the end.
    pub fn ended(&self) -> bool
        ensures { result ≡ ⟦<Pieces<'a> as Source>⟧.has_ended self.now }
    {
        self.ended
    }
}

impl Source for Pieces<'_> {
    ghost left = { λ s. Some s.rest.now };

    ghost has_failed = { λ s. s.failed };

    ghost has_ended = { λ s. s.ended };

    fn read(&mut self, buf: &mut [u8]) -> Option<usize> {
        self.calls = self.calls.saturating_add(1);
        if self.fails_at == Some(self.calls) {
            self.failed = true;
            return None;
        }
        let count = buf.len().min(self.most).min(self.rest.len());
        let (front, rest) = self.rest.split_at(count);
        buf[..count].copy_from_slice(front);
        self.rest = rest;
        if count == 0 && !buf.is_empty() {
            self.ended = true;
        }
        Some(count)
    }

    fn failed(&self) -> bool {
        self.failed
    }
}

/// A source that repeats one byte a given number of times, and then ends or fails.
#[derive(Drop)]
pub struct Endless {
    byte: u8,
    left: usize,
    fails: bool,
    failed: bool,
    ended: bool,
}

impl Endless {
    /// Returns a source of `left` times this byte, which then fails if `fails` is set, and else ends.
    pub fn new(byte: u8, left: usize, fails: bool) -> Endless
        ensures { ⟦<Endless as Source>⟧.has_failed result ≡ false }
    {
        Endless {
            byte,
            left,
            fails,
            failed: false,
            ended: false,
        }
    }
}

impl Source for Endless {
    ghost left = { λ _. None };

    ghost has_failed = { λ s. s.failed };

    ghost has_ended = { λ s. s.ended };

    fn read(&mut self, buf: &mut [u8]) -> Option<usize> {
        if self.left == 0 && self.fails {
            self.failed = true;
            return None;
        }
        let count = buf.len().min(self.left);
        buf[..count].fill(self.byte);
        self.left -= count;
        if count == 0 && !buf.is_empty() {
            self.ended = true;
        }
        Some(count)
    }

    fn failed(&self) -> bool {
        self.failed
    }
}

/// A sink that keeps the bytes that it takes. It takes a limited number of bytes a call, and fails when it is full, or
/// at one of its calls, which count from 1.
#[derive(Drop)]
pub struct Taken {
    bytes: [u8; 256],
    count: usize,
    room: usize,
    most: usize,
    calls: u64,
    fails_at: Option<u64>,
    failed: bool,
    ghost fits: { count + room ≤ 256 },
}

impl Taken {
    /// Returns a sink that takes at most `most` bytes a call, and in all `room` bytes, or 256 if `room` is above 256.
    pub fn new(room: usize, most: usize) -> Taken
        ensures { ⟦<Taken as Sink>⟧.has_failed result ≡ false }
    {
        Taken {
            bytes: [0; 256],
            count: 0,
            room: room.min(256),
            most,
            calls: 0,
            fails_at: None,
            failed: false,
        }
    }

    /// Returns a sink that takes at most `most` bytes a call and 256 bytes in all, and fails at this call.
    pub fn until(call: u64, most: usize) -> Taken
        ensures { ⟦<Taken as Sink>⟧.has_failed result ≡ false }
    {
        let mut taken = Taken::new(256, most);
        taken.fails_at = Some(call);
        taken
    }

    /// Returns the bytes that the sink has taken.
    pub fn bytes(&self) -> &[u8] {
        &self.bytes[..self.count]
    }

    /// Returns how often the sink was written to.
    pub fn calls(&self) -> u64 {
        self.calls
    }
}

impl Sink for Taken {
    ghost written = { λ _. None };

    ghost has_failed = { λ s. s.failed };

    fn write(&mut self, bytes: &[u8]) -> Option<usize> {
        self.calls = self.calls.saturating_add(1);
        let count = bytes.len().min(self.most).min(self.room);
        if count == 0 || self.fails_at == Some(self.calls) {
            self.failed = true;
            return None;
        }
        self.bytes[self.count..self.count + count].copy_from_slice(&bytes[..count]);
        self.count += count;
        self.room -= count;
        Some(count)
    }

    fn failed(&self) -> bool {
        self.failed
    }
}

/// A sink that takes all bytes of each call, and records their number for its first four calls.
#[derive(Drop)]
pub struct Lengths {
    given: [usize; 4],
    calls: usize,
}

impl Lengths {
    /// Returns a sink that was not called yet.
    pub fn new() -> Lengths
        ensures { ⟦<Lengths as Sink>⟧.has_failed result ≡ false }
    {
        Lengths {
            given: [0; 4],
            calls: 0,
        }
    }

    /// Returns how many bytes each of the first four calls wrote, or 0 for a call that was not made.
    pub fn given(&self) -> [usize; 4] {
        self.given
    }
}

impl Sink for Lengths {
    ghost written = { λ _. None };

    ghost has_failed = { λ _. false };

    fn write(&mut self, bytes: &[u8]) -> Option<usize> {
        if let Some(place) = self.given.get_mut(self.calls) {
            *place = bytes.len();
        }
        self.calls = self.calls.saturating_add(1);
        Some(bytes.len())
    }

    fn failed(&self) -> bool {
        false
    }
}

/// A reader and writer of std whose first call returns an error, or moves no byte if it has no error. All further
/// calls succeed. It counts its calls.
#[derive(Drop)]
pub struct FailsOnce {
    error: Option<ErrorKind>,
    calls: u64,
}

impl FailsOnce {
    /// Returns a reader and writer whose first call returns this error, or moves no byte if it is `None`.
    pub fn new(error: Option<ErrorKind>) -> FailsOnce {
        FailsOnce { error, calls: 0 }
    }

    /// Returns how often it was called.
    pub fn calls(&self) -> u64 {
        self.calls
    }

    // Counts a call for this number of bytes, and returns the call's result.
    fn count_call(&mut self, bytes: usize) -> io::Result<usize>
        ensures { IfOk result (λ count. count ≤ bytes) }
    {
        self.calls = self.calls.saturating_add(1);
        if self.calls > 1 {
            return Ok(bytes);
        }
        match self.error {
            Some(kind) => Err(io::Error::from(kind)),
            None => Ok(0),
        }
    }
}

impl Read for FailsOnce {
    fn read(&mut self, buf: &mut [u8]) -> io::Result<usize> {
        self.count_call(buf.len())
    }
}

impl Write for FailsOnce {
    fn write(&mut self, buf: &[u8]) -> io::Result<usize> {
        self.count_call(buf.len())
    }

    fn flush(&mut self) -> io::Result<()> {
        Ok(())
    }
}
