//! `generate`: an instance that is drawn from a seed.
ghost use Rattle.std.specs.Prelude.{◌≡◌, ◌≤◌, ◌↔◌, false, IfErr};
ghost use Rattle.pfs_base.specs.declared.limits.TheConstants.{MOST_JOBS, MOST_MACHINES};
ghost use Rattle.pfs_layout.specs.Generator.{IsSeed};
ghost use Rattle.pfs_desk.specs.Engine.{WritesOutput, GenerateOutput, IsGenerateFault};
ghost use Rattle.pfs_desk.specs.Uses.{sink_use};

use crate::fault::{DeskFault, Outcome};
use pfs_base::Sink;
use pfs_layout::{Layout, LayoutFault, generate, write_block};
use std::alloc::Global;

/// Draws an instance from a seed by Taillard's generator (1993), and writes it in Taillard's layout.
///
/// A seed out of range is rejected before any memory is allocated. The other errors are a failed allocation of
/// the times and a failed write.
pub fn run_generate<W: Sink>(
    alloc: Global,
    jobs: usize,
    machines: usize,
    seed: u64,
    writer: &mut W,
) -> Result<Outcome, DeskFault>
    requires writing { W.has_failed writer.old ≡ false }
    requires some_job { 1 ≤ jobs }
    requires few_jobs { jobs ≤ MOST_JOBS }
    requires some_machine { 1 ≤ machines }
    requires few_machines { machines ≤ MOST_MACHINES }
    ensures written { WritesOutput (GenerateOutput jobs machines seed)
        (sink_use (W.written writer.old) (W.written writer.new) (W.has_failed writer.new)) result }
    ensures seed_range { result ≡ Err (DeskFault.Layout LayoutFault.SeedRange) ↔ (¬ IsSeed seed) }
    ensures faults { IfErr result IsGenerateFault }
{
    let instance = generate(alloc, jobs, machines, seed)?;
    write_block(writer, &instance, Layout::Taillard)?;
    Ok(Outcome::Done)
}
