//! Writing instance files.
ghost use Rattle.std.specs.Prelude.{◌≡◌, ℕ, ◌+◌, ◌<◌, ◌^◌, false, length, slice_index};
ghost use Rattle.pfs_base.specs.Sends.{Prints, Sends};
ghost use Rattle.pfs_layout.specs.Block.{due_row, row_count};
ghost use Rattle.pfs_layout.specs.CanonicalText.{head_lines, row_line, row_lines, canonical_text};

use crate::layout::{Layout, preamble_of};
use pfs_base::print::{put_entry, put_numbers};
use pfs_base::{Instance, Notes, Sink, WriteFault, put};

/// Writes an instance as a file of one block: single spaces between numbers, no leading zeros, each row of the
/// body on one line, and byte 10 after every line. The OR-Library's layout leaves out the notes. If a
/// write fails, the error says how many bytes of the text were written.
pub fn write_block<W: Sink>(
    writer: &mut W,
    instance: &Instance,
    layout: Layout,
) -> Result<(), WriteFault>
    requires working { W.has_failed writer.old ≡ false }
    ensures { Prints (W.written writer.old) (W.written writer.new) (W.has_failed writer.new)
        (canonical_text layout instance.now) result }
{
    let jobs = instance.jobs();
    let machines = instance.machines();
    let notes = instance.notes();
    let sent = put_head(writer, layout, jobs as u64, machines as u64, notes)?;
    put_rows(writer, instance, layout, sent)?;
    Ok(())
}

// Writes the lines before the body, and returns how many bytes were written. The functions below add the bytes
// that they write to `sent`, the number of bytes before, and return the sum.
fn put_head<W: Sink>(
    writer: &mut W,
    layout: Layout,
    jobs: u64,
    machines: u64,
    notes: Notes,
) -> Result<u64, WriteFault>
    requires working { W.has_failed writer.old ≡ false }
    requires fits { length
        (head_lines layout (record { jobs = jobs; machines = machines; notes = notes })) < 2 ^ 64 }
    ensures { Sends (W.written writer.old) (W.written writer.new) (W.has_failed writer.new) 0
        (head_lines layout (record { jobs = jobs; machines = machines; notes = notes })) result }
{
    let preamble = preamble_of(layout);
    let sent = put(writer, preamble.before, 0)?;
    let seed = notes.seed as u64;
    let upper = notes.upper as u64;
    let lower = notes.lower as u64;
    let numbers = [jobs, machines, seed, upper, lower];
    let sent = put_numbers(writer, &numbers[..preamble.size_numbers], sent)?;
    put(writer, preamble.after, sent)
}

// Writes the rows of the body.
fn put_rows<W: Sink>(
    writer: &mut W,
    instance: &Instance,
    layout: Layout,
    sent: u64,
) -> Result<u64, WriteFault>
    requires working { W.has_failed writer.old ≡ false }
    requires fits { sent + length (row_lines layout instance.now.shop) < 2 ^ 64 }
    ensures { Sends (W.written writer.old) (W.written writer.new) (W.has_failed writer.new) sent
        (row_lines layout instance.now.shop) result }
{
    let rows = row_number(instance, layout);
    let mut reached = sent;
    for row in 0..rows {
        reached = put_row(writer, instance, layout, row, reached)?;
    }
    Ok(reached)
}

// How many rows the body has.
fn row_number(instance: &Instance, layout: Layout) -> usize
    ensures { result ≡ row_count layout instance.now.shop }
{
    match layout {
        Layout::Taillard => instance.machines(),
        Layout::OrLib => instance.jobs(),
    }
}

// Writes a row of the body.
fn put_row<W: Sink>(
    writer: &mut W,
    instance: &Instance,
    layout: Layout,
    row: usize,
    sent: u64,
) -> Result<u64, WriteFault>
    requires working { W.has_failed writer.old ≡ false }
    requires row { row < row_count layout instance.now.shop }
    requires fits { sent + length (row_line layout instance.now.shop row) < 2 ^ 64 }
    ensures { Sends (W.written writer.old) (W.written writer.new) (W.has_failed writer.new) sent
        (row_line layout instance.now.shop row) result }
{
    let width = row_length(instance, layout);
    let mut reached = sent;
    for place in 0..width {
        let number = number_at(instance, layout, row, place);
        reached = put_entry(writer, place, number, reached)?;
    }
    put(writer, b"\n", reached)
}

// How many numbers a row has.
#[tactic(auto, using(crate::proofs::Files::DueLemmas::length_due_row))]
fn row_length(instance: &Instance, layout: Layout) -> usize
    ensures { (row : ℕ) → length (due_row layout instance.now.shop row) ≡ result }
{
    match layout {
        Layout::Taillard => instance.jobs(),
        Layout::OrLib => instance.machines() * 2,
    }
}

// The number at a place of a row. In Taillard's layout it is a job's time on the row's machine, and in the
// OR-Library's a machine or the time of the row's job on it.
#[tactic(auto, using(crate::proofs::Files::DueLemmas::length_due_row, crate::proofs::Texts::WritingLemmas::number_is))]
fn number_at(instance: &Instance, layout: Layout, row: usize, place: usize) -> u64
    requires row { row < row_count layout instance.now.shop }
    requires place { place < length (due_row layout instance.now.shop row) }
    ensures { result ≡ slice_index (due_row layout instance.now.shop row) place }
{
    match layout {
        Layout::Taillard => instance.time(place, row) as u64,
        Layout::OrLib => {
            let machine = place / 2;
            if place % 2 == 0 {
                machine as u64
            } else {
                instance.time(row, machine) as u64
            }
        }
    }
}
