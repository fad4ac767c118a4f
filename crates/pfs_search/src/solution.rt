//! The order that a search finds, and the order that some of its rounds find from a given one.
ghost use Rattle.std.specs.Prelude.{◌≡◌, ◌<◌, ◌^◌, length, IfOk, IfErr};
ghost use Rattle.pfs_base.specs.Paths.{makespan as makespan_of};
ghost use Rattle.pfs_search.specs.Solution.{InLimits, IsFound, IsImproved};
ghost use Rattle.pfs_search.specs.Private.Steps.{UnlessMemory};

use crate::fault::SearchFault;
use crate::kept::Kept;
use crate::rounds::Rounds;
use crate::search::Search;
use pfs_audit::makespan;
use pfs_base::{Bench, Instance, Span};
use pfs_order::Order;
use std::alloc::Global;

/// The result of a search.
#[derive(Drop)]
pub struct Solution {
    /// The order found: all jobs, each once.
    pub order: Order,
    /// The makespan of this order.
    pub makespan: u64,
    /// The number of cells that were counted.
    pub cells: u64,
}

/// NEH's order (Nawaz, Enscore, Ham 1983), followed by rounds of iterated greedy (Ruiz, Stützle 2007). Each round
/// removes `rounds.take` jobs, chosen by the next random words of Pcg32 for the seed, inserts each at its best place,
/// and makes `rounds.passes` passes. Best places are found by heads and tails (Taillard 1990), along anti-diagonals. The
/// function reserves all memory before NEH begins. It returns `Memory` with `done` 0 where that fails, and no other
/// error.
pub fn solve(alloc: Global, instance: &Instance, rounds: Rounds) -> Result<Solution, SearchFault>
    requires limits { InLimits instance.now.shop 0 rounds }
    ensures found { IfOk result (λ found. IsFound instance.now.shop rounds.count rounds.take rounds.passes rounds.seed
        found.order found.makespan found.cells) }
    ensures short { IfOk result (λ found. found.makespan < 10 ^ 18) }
    ensures fault { IfErr result (λ fault. fault ≡ SearchFault.Memory 0) }
{
    let mut search = Search::new(alloc, instance)?;
    let bench = search.neh(alloc, instance.metered());
    let bench = search.rounds(alloc, bench, 0, rounds);
    Ok(Solution {
        makespan: bench.reveal(search.kept.span),
        order: search.kept.order,
        cells: bench.cells(),
    })
}

/// Rounds `first` to `first + rounds.count - 1` of the search of a seed, counted from 0, from a given order of all
/// jobs. The cells are those of these rounds alone: the makespan of the given order isn't counted. The function reserves
/// all memory before the first round. It returns `Memory` with `done` 0 where that fails, and no other error.
pub fn improve(
    alloc: Global,
    instance: &Instance,
    order: Order,
    first: u32,
    rounds: Rounds,
) -> Result<Solution, SearchFault>
    requires order_jobs { length order ≡ instance.now.shop.jobs }
    requires limits { InLimits instance.now.shop first rounds }
    ensures found { IfOk result (λ found. IsImproved instance.now.shop order first rounds.count rounds.take
        rounds.passes rounds.seed found.order found.makespan found.cells) }
    ensures short { IfOk result (λ found. found.makespan < 10 ^ 18) }
    ensures fault { IfErr result (λ fault. fault ≡ SearchFault.Memory 0) }
{
    let mut search = Search::new(alloc, instance)?;
    search.kept = measure(alloc, instance, order)?;
    let bench = search.rounds(alloc, instance.metered(), first, rounds);
    Ok(Solution {
        makespan: bench.reveal(search.kept.span),
        order: search.kept.order,
        cells: bench.cells(),
    })
}

// An order with its makespan, whose cells are counted on another bench.
fn measure(alloc: Global, instance: &Instance, order: Order) -> Result<Kept<Span>, SearchFault>
    requires order_jobs { length order ≡ instance.now.shop.jobs }
    ensures { UnlessMemory result (λ kept.
        kept ≡ record { order = order; span = makespan_of instance.now.shop order }) }
{
    let mut bench = instance.metered();
    let Ok(span) = makespan(alloc, &mut bench, order.seq()) else {
        return Err(SearchFault::Memory { done: 0 });
    };
    Ok(Kept::new(order, span))
}
