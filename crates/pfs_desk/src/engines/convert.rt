//! `convert`: a block of an instance file, written in another layout.
ghost use Rattle.std.specs.Prelude.{◌≡◌, ◌≢◌, ◌≤◌, false, IfErr};
ghost use Rattle.pfs_desk.specs.Engine.{WritesOutput, ConvertOutput, IsConvertFault, ReadsBlock, layout_fault_of};
ghost use Rattle.pfs_desk.specs.Uses.{sink_use, source_use};

use crate::fault::{DeskFault, Outcome};
use pfs_base::{MOST_BLOCKS, Sink, Source};
use pfs_layout::{Layout, read_block, write_block};
use std::alloc::Global;

/// Reads a block of an instance file in the source layout, and writes it as a file with one block in the target
/// layout. Blocks count from 1. The OR-Library's layout has no notes: a conversion to it loses them, and a
/// conversion from it writes zeros.
///
/// The error is a fault of the instance file or a failed write.
pub fn run_convert<R: Source, W: Sink>(
    alloc: Global,
    reader: &mut R,
    source: Layout,
    target: Layout,
    block: usize,
    writer: &mut W,
) -> Result<Outcome, DeskFault>
    requires reading { R.has_failed reader.old ≡ false }
    requires writing { W.has_failed writer.old ≡ false }
    requires some { 1 ≤ block }
    requires few { block ≤ MOST_BLOCKS }
    ensures written { WritesOutput (ConvertOutput source target (R.left reader.old) block)
        (sink_use (W.written writer.old) (W.written writer.new) (W.has_failed writer.new)) result }
    ensures fault { IfErr result (IsConvertFault source (R.left reader.old) block) }
    ensures reads { ReadsBlock source block
        (source_use (R.left reader.old) (R.left reader.new) (R.has_failed reader.new)
        (R.has_ended reader.old) (R.has_ended reader.new)) (layout_fault_of result) }
{
    let instance = read_block(alloc, reader, source, block)?;
    write_block(writer, &instance, target)?;
    Ok(Outcome::Done)
}
