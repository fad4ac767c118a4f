//! `check`: the verdict on an order file.
ghost use Rattle.std.specs.Prelude.{◌≡◌, ◌+◌, ◌<◌, ◌≤◌, false, length, IfOk, IfErr};
ghost use Rattle.pfs_base.specs.Sends.{Sends};
ghost use Rattle.pfs_desk.specs.Engine.{WritesOutput, CheckOutput, IsAuditFault, ReadsBlock, ReadsOrder};
ghost use Rattle.pfs_desk.specs.Engine.{layout_fault_of, order_fault_of};
ghost use Rattle.pfs_desk.specs.OutputText.{finding, outcome_of, valid_text, verdict_text};
ghost use Rattle.pfs_desk.specs.Uses.{sink_use, source_use};

use crate::fault::{DeskFault, Outcome};
use pfs_audit::{Verdict, check};
use pfs_base::print::{put_line, put_named};
use pfs_base::{MOST_BLOCKS, Sink, Source, WriteFault};
use pfs_layout::{Layout, read_block};
use pfs_order::read_order;
use std::alloc::Global;

/// Reads a block of an instance file and then an order file, and prints the verdict on the order. Blocks
/// count from 1. The outcome is `CheckFailed` if the order's size, or the number of machines or the makespan that
/// the file states, is wrong.
///
/// The errors come in this order: a fault of the instance file, a fault of the order file, a failed allocation,
/// a failed write.
pub fn run_check<R: Source, O: Source, W: Sink>(
    alloc: Global,
    reader: &mut R,
    layout: Layout,
    block: usize,
    order_reader: &mut O,
    writer: &mut W,
) -> Result<Outcome, DeskFault>
    requires reading { R.has_failed reader.old ≡ false }
    requires reading_order { O.has_failed order_reader.old ≡ false }
    requires writing { W.has_failed writer.old ≡ false }
    requires some { 1 ≤ block }
    requires few { block ≤ MOST_BLOCKS }
    ensures written { WritesOutput (CheckOutput layout (R.left reader.old) block (O.left order_reader.old))
        (sink_use (W.written writer.old) (W.written writer.new) (W.has_failed writer.new)) result }
    ensures fault { IfErr result (IsAuditFault layout (R.left reader.old) block (O.left order_reader.old)) }
    ensures reads { ReadsBlock layout block
        (source_use (R.left reader.old) (R.left reader.new) (R.has_failed reader.new)
        (R.has_ended reader.old) (R.has_ended reader.new)) (layout_fault_of result) }
    ensures reads_order { ReadsOrder
        (source_use (O.left order_reader.old) (O.left order_reader.new) (O.has_failed order_reader.new)
        (O.has_ended order_reader.old) (O.has_ended order_reader.new))
        (layout_fault_of result) (order_fault_of result) }
{
    let instance = read_block(alloc, reader, layout, block)?;
    let file = read_order(alloc, order_reader)?;
    let verdict = check(alloc, &instance, &file)?;
    put_verdict(writer, verdict)?;
    Ok(outcome_on(verdict))
}

// Returns how a check with this verdict ends.
fn outcome_on(verdict: Verdict) -> Outcome
    ensures { result ≡ outcome_of verdict }
{
    match verdict {
        Verdict::Valid { .. } => Outcome::Done,
        Verdict::WrongSize { .. } | Verdict::WrongMachines { .. } | Verdict::WrongMakespan { .. } =>
            Outcome::CheckFailed,
    }
}

/// Writes the lines of a verdict, and returns the number of their bytes.
pub(super) fn put_verdict<W: Sink>(writer: &mut W, verdict: Verdict) -> Result<u64, WriteFault>
    requires { W.has_failed writer.old ≡ false }
    ensures { Sends (W.written writer.old) (W.written writer.new) (W.has_failed writer.new)
        0 (verdict_text verdict) result }
{
    match verdict {
        Verdict::Valid { makespan, bound } => put_valid(writer, makespan, bound),
        Verdict::WrongSize { order, jobs } => put_finding(
            writer,
            b"wrong size",
            b"order",
            order as u64,
            b"jobs",
            jobs as u64,
        ),
        Verdict::WrongMachines { order, machines } => put_finding(
            writer,
            b"wrong machines",
            b"order",
            order as u64,
            b"machines",
            machines as u64,
        ),
        Verdict::WrongMakespan { stated, computed } => put_finding(
            writer,
            b"wrong makespan",
            b"stated",
            stated,
            b"computed",
            computed,
        ),
    }
}

fn put_valid<W: Sink>(writer: &mut W, makespan: u64, bound: u64) -> Result<u64, WriteFault>
    requires { W.has_failed writer.old ≡ false }
    ensures { Sends (W.written writer.old) (W.written writer.new) (W.has_failed writer.new)
        0 (valid_text makespan bound) result }
{
    let sent = put_finding(writer, b"valid", b"makespan", makespan, b"bound", bound)?;
    if makespan == bound {
        put_line(writer, b"optimal", sent)
    } else {
        Ok(sent)
    }
}

// Writes three lines: a title, and two numbers, each after its name.
fn put_finding<W: Sink>(
    writer: &mut W,
    title: &[u8],
    name: &[u8],
    number: u64,
    other_name: &[u8],
    other_number: u64,
) -> Result<u64, WriteFault>
    requires working { W.has_failed writer.old ≡ false }
    requires short { length title.now + length name.now + length other_name.now < 100 }
    ensures text { Sends (W.written writer.old) (W.written writer.new) (W.has_failed writer.new)
        0 (finding title.now name.now number other_name.now other_number) result }
    ensures short { IfOk result (λ sent. sent < 200) }
{
    let sent = put_line(writer, title, 0)?;
    let sent = put_named(writer, name, number, sent)?;
    put_named(writer, other_name, other_number, sent)
}
