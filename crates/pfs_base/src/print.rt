//! Printing of texts part by part, without memory allocation. Each function returns how many bytes of the
//! text are sent with its own part, and reports a failed write, as `put` does.
ghost use Rattle.std.specs.Prelude.{◌≡◌, ◌+◌, ◌<◌, ◌≤◌, ◌^◌, ◌∷◌, false, length, decimal, IfOk};
ghost use Rattle.pfs_base.specs.Sends.{Sends};
ghost use Rattle.pfs_base.specs.Text.{with_line_end, spaced, entry, named_number, number_between};

use crate::device::{Sink, WriteFault, put};
use itoa::Buffer;

/// Writes a number in decimal digits, without leading zeros.
pub fn put_number<W: Sink>(writer: &mut W, number: u64, sent: u64) -> Result<u64, WriteFault>
    requires working { W.has_failed writer.old ≡ false }
    requires fits { sent + 40 < 2 ^ 64 }
    ensures text { Sends (W.written writer.old) (W.written writer.new) (W.has_failed writer.new)
        sent (decimal number) result }
    ensures short { IfOk result (λ total. total ≤ sent + 40) }
{
    let mut buffer = Buffer::new();
    put(writer, buffer.format(number).as_bytes(), sent)
}

/// Writes a text and byte 10, which ends the line.
pub fn put_line<W: Sink>(writer: &mut W, line: &[u8], sent: u64) -> Result<u64, WriteFault>
    requires working { W.has_failed writer.old ≡ false }
    requires fits { sent + length line.now + 1 < 2 ^ 64 }
    ensures text { Sends (W.written writer.old) (W.written writer.new) (W.has_failed writer.new)
        sent (with_line_end line.now) result }
    ensures short { IfOk result (λ total. total ≤ sent + length line.now + 1) }
{
    let sent = put(writer, line, sent)?;
    put(writer, b"\n", sent)
}

/// Writes a line: a name, a space and a number.
pub fn put_named<W: Sink>(
    writer: &mut W,
    name: &[u8],
    number: u64,
    sent: u64,
) -> Result<u64, WriteFault>
    requires working { W.has_failed writer.old ≡ false }
    requires fits { sent + length name.now + 42 < 2 ^ 64 }
    ensures text { Sends (W.written writer.old) (W.written writer.new) (W.has_failed writer.new)
        sent (named_number name.now number) result }
    ensures short { IfOk result (λ total. total ≤ sent + length name.now + 42) }
{
    let named = put(writer, name, sent)?;
    let numbered = put_next(writer, number, named)?;
    put(writer, b"\n", numbered)
}

/// Writes the number at a place of a line of numbers, after a space unless it is the first. Places count from 0.
pub fn put_entry<W: Sink>(
    writer: &mut W,
    place: usize,
    number: u64,
    sent: u64,
) -> Result<u64, WriteFault>
    requires working { W.has_failed writer.old ≡ false }
    requires fits { sent + length (entry place number) < 2 ^ 64 }
    ensures { Sends (W.written writer.old) (W.written writer.new) (W.has_failed writer.new)
        sent (entry place number) result }
{
    let mut buffer = Buffer::new();
    let digits = buffer.format(number).as_bytes();
    if place == 0 {
        put(writer, digits, sent)
    } else {
        let sent = put(writer, b" ", sent)?;
        put(writer, digits, sent)
    }
}

/// Writes a line of numbers with single spaces between them. For an empty slice the line is empty.
pub fn put_numbers<W: Sink>(writer: &mut W, numbers: &[u64], sent: u64) -> Result<u64, WriteFault>
    requires working { W.has_failed writer.old ≡ false }
    requires fits { sent + length (with_line_end (spaced numbers.now)) < 2 ^ 64 }
    ensures { Sends (W.written writer.old) (W.written writer.new) (W.has_failed writer.new)
        sent (with_line_end (spaced numbers.now)) result }
{
    let mut reached = sent;
    for (place, number) in numbers.iter().enumerate() {
        reached = put_entry(writer, place, *number, reached)?;
    }
    put(writer, b"\n", reached)
}

/// Writes a line: a text, a number and a text, with nothing between them.
pub fn put_between<W: Sink>(
    writer: &mut W,
    before: &[u8],
    number: u64,
    after: &[u8],
    sent: u64,
) -> Result<u64, WriteFault>
    requires working { W.has_failed writer.old ≡ false }
    requires fits { sent + length before.now + length after.now + 41 < 2 ^ 64 }
    ensures text { Sends (W.written writer.old) (W.written writer.new) (W.has_failed writer.new)
        sent (number_between before.now number after.now) result }
    ensures short { IfOk result (λ total. total ≤ sent + length before.now + length after.now + 41) }
{
    let sent = put(writer, before, sent)?;
    let numbered = put_number(writer, number, sent)?;
    put_line(writer, after, numbered)
}

/// Writes a space and a number.
pub fn put_next<W: Sink>(writer: &mut W, number: u64, sent: u64) -> Result<u64, WriteFault>
    requires working { W.has_failed writer.old ≡ false }
    requires fits { sent + 41 < 2 ^ 64 }
    ensures text { Sends (W.written writer.old) (W.written writer.new) (W.has_failed writer.new)
        sent (32 ∷ decimal number) result }
    ensures short { IfOk result (λ total. total ≤ sent + 41) }
{
    let spaced = put(writer, b" ", sent)?;
    put_number(writer, number, spaced)
}
