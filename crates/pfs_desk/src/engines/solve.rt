//! `solve`: the order that a search finds.
ghost use Rattle.std.specs.Prelude.{◌≡◌, ◌<◌, ◌≤◌, ◌^◌, false, IfSome, IfOk, IfErr};
ghost use Rattle.pfs_base.specs.Sends.{Sends};
ghost use Rattle.pfs_desk.specs.Engine.{WritesOutput, SolveOutput, IsSolveFault, ReadsBlock, layout_fault_of};
ghost use Rattle.pfs_desk.specs.Headline.{Solves};
ghost use Rattle.pfs_desk.specs.Solve.{IsTakeFault, solution_text};
ghost use Rattle.pfs_desk.specs.Solve.{take_for as take_of};
ghost use Rattle.pfs_desk.specs.Uses.{sink_use, source_use};

use crate::fault::{DeskFault, Outcome};
use pfs_base::print::put_named;
use pfs_base::{MOST_BLOCKS, MOST_MACHINES, MOST_PASSES, MOST_ROUNDS, Sink, Source, WriteFault};
use pfs_layout::{Layout, read_block};
use pfs_order::write_order;
use pfs_search::{Rounds, Solution, solve};
use pfs_words::{DEFAULT_TAKE, SolveOptions};
use std::alloc::Global;

/// Reads a block of an instance file, and prints what a search finds as an order file of version 2. The search is NEH
/// (Nawaz, Enscore, Ham 1983), followed by rounds of iterated greedy (Ruiz, Stützle 2007), with heads and tails
/// (Taillard 1990). If `options.cells` is set, one more line has the number of computed table cells. Blocks count
/// from 1.
///
/// The errors come in this order: a fault of the instance file, a stated destruction size above the number of
/// jobs, a failed allocation, a failed write. The destruction size is validated even if there are no rounds,
/// after the block is read and before more memory is allocated.
pub fn run_solve<R: Source, W: Sink>(
    alloc: Global,
    reader: &mut R,
    layout: Layout,
    block: usize,
    options: &SolveOptions,
    writer: &mut W,
) -> Result<Outcome, DeskFault>
    requires reading { R.has_failed reader.old ≡ false }
    requires writing { W.has_failed writer.old ≡ false }
    requires some { 1 ≤ block }
    requires few { block ≤ MOST_BLOCKS }
    requires rounds { options.now.rounds ≤ MOST_ROUNDS }
    requires passes { options.now.passes ≤ MOST_PASSES }
    requires take { IfSome options.now.take (λ asked. 1 ≤ asked) }
    ensures written { WritesOutput (SolveOutput layout (R.left reader.old) block options.now)
        (sink_use (W.written writer.old) (W.written writer.new) (W.has_failed writer.new)) result }
    ensures fault { IfErr result (IsSolveFault layout (R.left reader.old) block options.now.take) }
    ensures reads { ReadsBlock layout block
        (source_use (R.left reader.old) (R.left reader.new) (R.has_failed reader.new)
        (R.has_ended reader.old) (R.has_ended reader.new)) (layout_fault_of result) }
    ensures solves { IfSome (R.left reader.old) (λ bytes. Solves layout bytes block options.now
        (R.has_failed reader.new) (sink_use (W.written writer.old) (W.written writer.new) (W.has_failed writer.new))
        result) }
{
    let instance = read_block(alloc, reader, layout, block)?;
    let take = take_for(options.take, instance.jobs())?;
    let rounds = Rounds {
        count: options.rounds,
        take,
        passes: options.passes,
        seed: options.seed,
    };
    let solution = solve(alloc, &instance, rounds)?;
    put_solution(writer, instance.machines(), &solution, options.cells)?;
    Ok(Outcome::Done)
}

// Returns the destruction size for this number of jobs: the stated one if there is one, else the default, or all
// jobs if there are fewer. A stated one above the number of jobs is an error.
fn take_for(asked: Option<usize>, jobs: usize) -> Result<usize, DeskFault>
    ensures take { IfOk result (λ take. take ≡ take_of asked jobs) }
    ensures few { IfOk result (λ take. take ≤ jobs) }
    ensures fault { IfErr result (IsTakeFault asked jobs) }
{
    match asked {
        None => Ok(jobs.min(DEFAULT_TAKE)),
        Some(take) if take <= jobs => Ok(take),
        Some(take) => Err(DeskFault::TakeRange { take, jobs }),
    }
}

// Writes an order file with the order, the number of machines and the makespan, and after it, if `with_cells` is
// set, the line with the number of cells.
fn put_solution<W: Sink>(
    writer: &mut W,
    machines: usize,
    solution: &Solution,
    with_cells: bool,
) -> Result<u64, WriteFault>
    requires working { W.has_failed writer.old ≡ false }
    requires some { 1 ≤ machines }
    requires few { machines ≤ MOST_MACHINES }
    requires stated { solution.now.makespan < 10 ^ 18 }
    ensures { Sends (W.written writer.old) (W.written writer.new) (W.has_failed writer.new)
        0 (solution_text solution.now.order machines solution.now.makespan with_cells solution.now.cells) result }
{
    // Called for its contract: an order has each job at most once, and not more jobs than the limit.
    let _jobs = solution.order.len();
    let sent = write_order(writer, &solution.order, Some(machines), solution.makespan)?;
    if with_cells {
        put_named(writer, b"cells", solution.cells, sent)
    } else {
        Ok(sent)
    }
}
