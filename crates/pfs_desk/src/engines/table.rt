//! `table`: the time table of an order.
ghost use Rattle.std.specs.Prelude.{◌≡◌, ◌+◌, ◌*◌, ◌<◌, ◌≤◌, ◌^◌, false, length, IfOk, IfErr};
ghost use Rattle.pfs_base.specs.Sends.{Sends};
ghost use Rattle.pfs_desk.specs.Engine.{WritesOutput, TableOutput, IsAuditFault, ReadsBlock, ReadsOrder};
ghost use Rattle.pfs_desk.specs.Engine.{layout_fault_of, order_fault_of};
ghost use Rattle.pfs_desk.specs.OutputText.{row_text, sizes_text, table_text};
ghost use Rattle.pfs_desk.specs.Private.Printable.{IsPrintable};
ghost use Rattle.pfs_desk.specs.Uses.{sink_use, source_use};

use crate::engines::check::put_verdict;
use crate::fault::{DeskFault, Outcome};
use pfs_audit::{TimeTable, Verdict, table};
use pfs_base::print::{put_named, put_next, put_number};
use pfs_base::{MOST_BLOCKS, MOST_MACHINES, Sink, Source, WriteFault, put};
use pfs_layout::{Layout, read_block};
use pfs_order::read_order;
use std::alloc::Global;

/// Reads a block of an instance file and then an order file, and prints when each operation of the order
/// starts and ends, each as early as it can. Blocks count from 1. Before the table is allocated, the size of the
/// order is compared with the instance, and then the number of machines if the order file states one; if one is
/// wrong, the outcome is `CheckFailed`. The stated makespan isn't compared.
///
/// The errors come in this order: a fault of the instance file, a fault of the order file, a failed allocation,
/// a failed write.
pub fn run_table<R: Source, O: Source, W: Sink>(
    alloc: Global,
    reader: &mut R,
    layout: Layout,
    block: usize,
    order_reader: &mut O,
    writer: &mut W,
) -> Result<Outcome, DeskFault>
    requires reading { R.has_failed reader.old ≡ false }
    requires reading_order { O.has_failed order_reader.old ≡ false }
    requires writing { W.has_failed writer.old ≡ false }
    requires some { 1 ≤ block }
    requires few { block ≤ MOST_BLOCKS }
    ensures written { WritesOutput (TableOutput layout (R.left reader.old) block (O.left order_reader.old))
        (sink_use (W.written writer.old) (W.written writer.new) (W.has_failed writer.new)) result }
    ensures fault { IfErr result (IsAuditFault layout (R.left reader.old) block (O.left order_reader.old)) }
    ensures reads { ReadsBlock layout block
        (source_use (R.left reader.old) (R.left reader.new) (R.has_failed reader.new)
        (R.has_ended reader.old) (R.has_ended reader.new)) (layout_fault_of result) }
    ensures reads_order { ReadsOrder
        (source_use (O.left order_reader.old) (O.left order_reader.new) (O.has_failed order_reader.new)
        (O.has_ended order_reader.old) (O.has_ended order_reader.new))
        (layout_fault_of result) (order_fault_of result) }
{
    let instance = read_block(alloc, reader, layout, block)?;
    let file = read_order(alloc, order_reader)?;
    let order = file.order();
    let (size, jobs) = (order.len(), instance.jobs());
    if size != jobs {
        put_verdict(writer, Verdict::WrongSize { order: size, jobs })?;
        return Ok(Outcome::CheckFailed);
    }
    let machines = instance.machines();
    if let Some(order) = file.machines()
        && order != machines
    {
        put_verdict(writer, Verdict::WrongMachines { order, machines })?;
        return Ok(Outcome::CheckFailed);
    }
    let table = table(alloc, &instance, order)?;
    put_table(writer, &table)?;
    Ok(Outcome::Done)
}

fn put_table<W: Sink>(writer: &mut W, table: &TimeTable) -> Result<u64, WriteFault>
    requires working { W.has_failed writer.old ≡ false }
    requires printable { IsPrintable table.now }
    ensures { Sends (W.written writer.old) (W.written writer.new) (W.has_failed writer.new)
        0 (table_text table.now) result }
{
    let mut sent = put_sizes(writer, table)?;
    for row in 0..table.rows() {
        sent = put_row(writer, table, row, sent)?;
    }
    put_named(writer, b"makespan", table.makespan(), sent)
}

// Writes the line of the sizes: the numbers of rows and machines.
#[tactic(auto, unfolding(crate::specs::OutputText::sizes_text))]
fn put_sizes<W: Sink>(writer: &mut W, table: &TimeTable) -> Result<u64, WriteFault>
    requires { W.has_failed writer.old ≡ false }
    ensures text { Sends (W.written writer.old) (W.written writer.new) (W.has_failed writer.new)
        0 (sizes_text table.now) result }
    ensures short { IfOk result (λ sent. sent < 200) }
{
    let sent = put(writer, b"table", 0)?;
    let sent = put_next(writer, table.rows() as u64, sent)?;
    let sent = put_next(writer, table.machines() as u64, sent)?;
    put(writer, b"\n", sent)
}

// Writes the line of a row, before which `start` bytes were sent. Returns how many were sent after it.
fn put_row<W: Sink>(
    writer: &mut W,
    table: &TimeTable,
    row: usize,
    start: u64,
) -> Result<u64, WriteFault>
    requires working { W.has_failed writer.old ≡ false }
    requires printable { IsPrintable table.now }
    requires row { row < length table.now.jobs }
    requires room { start < 2 ^ 63 }
    ensures text { Sends (W.written writer.old) (W.written writer.new) (W.has_failed writer.new)
        start (row_text table.now row) result }
    ensures short { IfOk result (λ sent. sent ≤ start + 82 * MOST_MACHINES + 41) }
{
    let mut sent = put_number(writer, table.job(row) as u64 + 1, start)?;
    for machine in 0..table.machines() {
        sent = put_next(writer, table.start(row, machine), sent)?;
        sent = put_next(writer, table.end(row, machine), sent)?;
    }
    put(writer, b"\n", sent)
}
