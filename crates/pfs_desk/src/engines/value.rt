//! `value`: the makespan of an instance's jobs in the order of their numbers.
ghost use Rattle.std.specs.Prelude.{◌≡◌, ◌≤◌, false, IfOk, IfErr};
ghost use Rattle.pfs_base.specs.Paths.{makespan};
ghost use Rattle.pfs_order.specs.Sequence.{all_jobs};
ghost use Rattle.pfs_desk.specs.Engine.{WritesOutput, ValueOutput, IsValueFault, ReadsBlock, layout_fault_of};
ghost use Rattle.pfs_desk.specs.Uses.{sink_use, source_use};

use crate::fault::{DeskFault, Outcome};
use pfs_audit::makespan;
use pfs_base::print::put_named;
use pfs_base::{Bench, Instance, Length, MOST_BLOCKS, Sink, Source};
use pfs_layout::{Layout, read_block};
use pfs_order::Order;
use std::alloc::Global;

/// Reads a block of an instance file, and prints the makespan of its jobs in the order of their numbers.
/// Blocks count from 1.
///
/// The errors come in this order: a fault of the instance file, a failed allocation, a failed write.
pub fn run_value<R: Source, W: Sink>(
    alloc: Global,
    reader: &mut R,
    layout: Layout,
    block: usize,
    writer: &mut W,
) -> Result<Outcome, DeskFault>
    requires reading { R.has_failed reader.old ≡ false }
    requires writing { W.has_failed writer.old ≡ false }
    requires some { 1 ≤ block }
    requires few { block ≤ MOST_BLOCKS }
    ensures written { WritesOutput (ValueOutput layout (R.left reader.old) block)
        (sink_use (W.written writer.old) (W.written writer.new) (W.has_failed writer.new)) result }
    ensures fault { IfErr result (IsValueFault layout (R.left reader.old) block) }
    ensures reads { ReadsBlock layout block
        (source_use (R.left reader.old) (R.left reader.new) (R.has_failed reader.new)
        (R.has_ended reader.old) (R.has_ended reader.new)) (layout_fault_of result) }
{
    let instance = read_block(alloc, reader, layout, block)?;
    let value = value_of(alloc, &instance)?;
    put_named(writer, b"makespan", value, 0)?;
    Ok(Outcome::Done)
}

// Returns the makespan of the jobs in the order of their numbers, or an error if an allocation fails.
fn value_of(alloc: Global, instance: &Instance) -> Result<u64, DeskFault>
    ensures value { IfOk result (λ value.
        value ≡ makespan instance.now.shop (all_jobs instance.now.shop.jobs)) }
    ensures memory { IfErr result (λ fault. fault ≡ DeskFault.Memory) }
{
    let order = Order::identity(alloc, instance.jobs()).or(Err(DeskFault::Memory))?;
    let mut bench = instance.metered();
    let span = makespan(alloc, &mut bench, order.seq())?;
    Ok(bench.reveal(span))
}
