//! A buffer whose sink takes few bytes a call, or fails at one of its calls, each in turn.
use crate::devices::{CALLS, assert_in};
use crate::fakes::{Lengths, Taken};
use pfs_base::{Buffered, Sink, WriteFault};

const TEXT: &[u8] = b"valid\nmakespan 10\nbound 10\n";

// Writes a text to a buffer in two parts. Returns whether the buffer lets it out up to this call, and counts it.
fn lets_out(call: u64, most: usize) -> bool {
    let mut buffer = Buffered::new(Taken::until(call, most));
    for part in [&TEXT[..6], &TEXT[6..]] {
        if buffer.failed() || buffer.write(part).is_none() {
            return false;
        }
    }
    if buffer.failed() {
        return false;
    }
    let flushed = buffer.flush();
    let taken = buffer.writer().bytes();
    let written = taken.len() as u64;
    let wanted = if taken.len() == TEXT.len() {
        Ok(())
    } else {
        Err(WriteFault { written })
    };
    flushed == wanted
        && TEXT.starts_with(taken)
        && buffer.sent() == written
        && buffer.failed() == wanted.is_err()
        && buffer.writer().calls() <= call
}

#[test]
fn a_buffer_lets_its_text_out_up_to_a_failed_call(rt: HostRuntime) {
    for most in [1, 5, 256] {
        for call in 1..CALLS {
            assert_in(&rt, lets_out(call, most), call);
        }
    }
}

#[test]
fn a_buffer_gathers_8192_bytes_and_passes_on_longer_writes(rt: HostRuntime) {
    let bytes = [b'x'; 9000];
    let mut buffer = Buffered::new(Lengths::new());
    for (length, calls) in [
        (5000, [0, 0, 0, 0]),
        (3192, [0, 0, 0, 0]),
        (1, [8192, 0, 0, 0]),
        (8191, [8192, 0, 0, 0]),
        (9000, [8192, 8192, 9000, 0]),
        (8192, [8192, 8192, 9000, 8192]),
    ] {
        let wrote = buffer.write(&bytes[..length]) == Some(length);
        assert_in(
            &rt,
            wrote && buffer.writer().given() == calls,
            length as u64,
        );
    }
    let flushed = buffer.flush().is_ok();
    assert_in(&rt, flushed && buffer.sent() == 33_576, 0);
}
