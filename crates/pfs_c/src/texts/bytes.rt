//! Bytes in memory as a source, and a text that is returned.
ghost use Rattle.std.specs.Prelude.{◌≡◌, ◌≢◌, length, Some, false};
ghost use Rattle.pfs_c.specs.Numbers.{number_returned};
ghost use Rattle.pfs_c.specs.Texts.{put_in_front, room_fault};

use crate::numbers::{CallFault, PFS_OK};
use pfs_base::Source;

/// A source of bytes in memory, which never fails.
#[derive(Drop)]
pub(super) struct Bytes<'a> {
    rest: &'a [u8],
    ended: bool,
}

impl<'a> Bytes<'a> {
    /// Makes a source of these bytes.
    pub(super) fn new(bytes: &'a [u8]) -> Bytes<'a>
        ensures left { ⟦<Bytes<'a> as Source>⟧.left result ≡ Some bytes.now }
        ensures working { ⟦<Bytes<'a> as Source>⟧.has_failed result ≡ false }
    {
        Bytes {
            rest: bytes,
            ended: false,
        }
    }
}

impl Source for Bytes<'_> {
    ghost left = { λ s. Some s.rest.now };

    ghost has_failed = { λ _. false };

    ghost has_ended = { λ s. s.ended };

    fn read(&mut self, buf: &mut [u8]) -> Option<usize> {
        let count = buf.len().min(self.rest.len());
        let (front, rest) = self.rest.split_at(count);
        buf[..count].copy_from_slice(front);
        self.rest = rest;
        if count == 0 && !buf.is_empty() {
            self.ended = true;
        }
        Some(count)
    }

    fn failed(&self) -> bool {
        false
    }
}

/// Stores the length of a text in `len` and copies the text into the front of `text`. If it does not fit there, `text`
/// is unchanged and the function returns `PFS_ROOM`.
pub(super) fn return_text(bytes: &[u8], text: &mut [u8], len: &mut usize) -> i32
    ensures number { result ≡ number_returned (room_fault (length text.old) (length bytes.now)) }
    ensures reported { len.new ≡ length bytes.now }
    ensures done { result ≡ PFS_OK → text.new ≡ put_in_front bytes.now text.old }
    ensures kept { result ≢ PFS_OK → text.new ≡ text.old }
{
    *len = bytes.len();
    if text.len() < bytes.len() {
        return CallFault::Room.number();
    }
    text[..bytes.len()].copy_from_slice(bytes);
    PFS_OK
}
