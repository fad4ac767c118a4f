//! All memory of an instance's searches.
ghost use Rattle.std.specs.Prelude.{◌≡◌, ℕ, ◌+◌, ◌*◌, ◌<◌, ◌≤◌, ◌^◌, length, Contains, IfOk, IfErr, IsSomeAnd};
ghost use Rattle.std.specs.List.{slice_index_or};
ghost use Rattle.pfs_base.specs.Paths.{makespan};
ghost use Rattle.pfs_insert.specs.Inserter.{IsBestPlace};
ghost use Rattle.pfs_insert.specs.Insertion.{heads_tails_cost, makespan_with};
ghost use Rattle.pfs_order.specs.Sequence.{IsSequence};
ghost use Rattle.pfs_wave.specs.Tables.{HasLanes};
ghost use Rattle.pfs_search.specs.Search.{IsSearchOf, MayContinue};
ghost use Rattle.pfs_search.specs.Solution.{IsImproved, IsNeh, neh_cells, rounds_cells};

use crate::fault::SearchFault;
use crate::kept::Kept;
use crate::rounds::Rounds;
use crate::searcher::Searcher;
use pfs_base::{Bench, Instance, Length, Metered, Span};
use pfs_insert::Placed;
use pfs_order::Order;
use pfs_wave::{LaneTables, MeteredLanes, OfShop, Wavefront};
use rand_core::SeedableRng;
use rand_pcg::Pcg32;
use std::alloc::Global;

/// All memory of an instance's searches. Best places are found by heads and tails (Taillard 1990), along anti-diagonals.
#[derive(Drop)]
pub struct Search {
    // A bench takes the tables while it computes.
    tables: Option<LaneTables>,
    searcher: Searcher<Wavefront>,
    /// The order that was found last, and its makespan.
    pub kept: Kept<Span>,
    /// The count of the bench that NEH or rounds returned last, with which they begin. A search that begins anew sets it
    /// to 0.
    pub cells: u64,
}

impl OfShop for Search {
    ghost is_of = { λ search shop. IsSearchOf shop search };
}

impl Search {
    /// Reserves the memory. It returns `Memory` with `done` 0 where that fails, and no other error.
    pub fn new(alloc: Global, instance: &Instance) -> Result<Search, SearchFault>
        ensures made { IfOk result (λ made. ⟦<Search as OfShop>⟧.is_of made instance.now.shop) }
        ensures cells { IfOk result (λ made. made.cells ≡ 0) }
        ensures fault { IfErr result (λ fault. fault ≡ SearchFault.Memory 0) }
    {
        let Ok(order) = Order::identity(alloc, instance.jobs()) else {
            return Err(SearchFault::Memory { done: 0 });
        };
        let Ok(tables) = LaneTables::new(alloc, instance) else {
            return Err(SearchFault::Memory { done: 0 });
        };
        let bench = MeteredLanes::over(instance.metered(), tables);
        let searcher = Searcher::new(alloc, instance.jobs(), Wavefront::new(&bench))?;
        let kept = Kept::new(order, bench.zero());
        let (_bench, tables) = bench.into_parts();
        Ok(Search {
            tables: Some(tables),
            searcher,
            kept,
            cells: 0,
        })
    }

    /// Finds NEH's order (Nawaz, Enscore, Ham 1983). The bench counts its cells.
    pub fn neh<'a>(&mut self, alloc: Global, bench: Metered<'a>) -> Metered<'a>
        requires own { ⟦<Search as OfShop>⟧.is_of self.old (⟦<Metered<'static> as Bench>⟧.shop bench) }
        requires count { ⟦<Metered<'static> as Bench>⟧.counted bench ≡ self.old.cells }
        requires room { self.old.cells < 2 ^ 63 }
        ensures found { IsNeh (⟦<Metered<'static> as Bench>⟧.shop bench.entry) self.new.kept.order self.new.kept.span
            (neh_cells (⟦<Metered<'static> as Bench>⟧.shop bench.entry)) }
        ensures counted { ⟦<Metered<'static> as Bench>⟧.counted result ≡ ⟦<Metered<'static> as Bench>⟧.counted bench.entry + neh_cells (⟦<Metered<'static> as Bench>⟧.shop bench.entry) }
        ensures cells { self.new.cells ≡ ⟦<Metered<'static> as Bench>⟧.counted result }
        ensures shop { ⟦<Metered<'static> as Bench>⟧.shop result ≡ ⟦<Metered<'static> as Bench>⟧.shop bench.entry }
        ensures still { ⟦<Search as OfShop>⟧.is_of self.new (⟦<Metered<'static> as Bench>⟧.shop bench.entry) }
    {
        let mut lanes = take_lanes(bench, &mut self.tables);
        match self.searcher.neh(alloc, &mut lanes, &mut self.kept) {
            Ok(()) => {}
            Err(_) => unreachable!(),
        }
        // Called for its contract, which says that an order has each job once.
        let _jobs = self.kept.order.len();
        let (bench, tables) = lanes.into_parts();
        self.tables = Some(tables);
        self.cells = bench.cells();
        bench
    }

    /// Keeps an order of all jobs and its makespan, whose cells the bench counts.
    pub fn start(&mut self, bench: &mut Metered, jobs: &[u32], span: u64)
        requires own { ⟦<Search as OfShop>⟧.is_of self.old (⟦<Metered<'static> as Bench>⟧.shop bench.old) }
        requires full { length jobs.now ≡ (⟦<Metered<'static> as Bench>⟧.shop bench.old).jobs }
        requires sequence { IsSequence (⟦<Metered<'static> as Bench>⟧.shop bench.old).jobs jobs.now }
        requires span { span ≡ makespan (⟦<Metered<'static> as Bench>⟧.shop bench.old) jobs.now }
        requires room { ⟦<Metered<'static> as Bench>⟧.counted bench.old < 2 ^ 63 }
        ensures order { self.new.kept.order ≡ jobs.now }
        ensures span { self.new.kept.span ≡ span }
        ensures cells { self.new.cells ≡ self.old.cells }
        ensures counted { ⟦<Metered<'static> as Bench>⟧.counted bench.new ≡ ⟦<Metered<'static> as Bench>⟧.counted bench.old
            + (⟦<Metered<'static> as Bench>⟧.shop bench.old).jobs * (⟦<Metered<'static> as Bench>⟧.shop bench.old).machines }
        ensures shop { ⟦<Metered<'static> as Bench>⟧.shop bench.new ≡ ⟦<Metered<'static> as Bench>⟧.shop bench.old }
        ensures still { ⟦<Search as OfShop>⟧.is_of self.new (⟦<Metered<'static> as Bench>⟧.shop bench.old) }
    {
        self.kept.order.set(jobs);
        let cells = bench.jobs() as u64 * bench.machines() as u64;
        let paid = bench.count(cells).pay().with(span);
        self.kept.span = bench.length(paid);
    }

    /// Makes rounds `first` to `first + rounds.count - 1` of the search of a seed, counted from 0, from the order that is
    /// kept and its makespan. The bench counts the cells of these rounds.
    pub fn rounds<'a>(
        &mut self,
        alloc: Global,
        bench: Metered<'a>,
        first: u32,
        rounds: Rounds,
    ) -> Metered<'a>
        requires own { ⟦<Search as OfShop>⟧.is_of self.old (⟦<Metered<'static> as Bench>⟧.shop bench) }
        requires start { MayContinue (⟦<Metered<'static> as Bench>⟧.shop bench) self.old.kept.order self.old.kept.span first rounds }
        requires count { ⟦<Metered<'static> as Bench>⟧.counted bench ≡ self.old.cells }
        requires room { self.old.cells < 2 ^ 63 }
        ensures found { IsImproved (⟦<Metered<'static> as Bench>⟧.shop bench.entry) self.old.kept.order first rounds.count rounds.take rounds.passes
            rounds.seed self.new.kept.order self.new.kept.span
            (rounds_cells (⟦<Metered<'static> as Bench>⟧.shop bench.entry) rounds.count rounds.take rounds.passes) }
        ensures counted { ⟦<Metered<'static> as Bench>⟧.counted result ≡ ⟦<Metered<'static> as Bench>⟧.counted bench.entry
            + rounds_cells (⟦<Metered<'static> as Bench>⟧.shop bench.entry) rounds.count rounds.take rounds.passes }
        ensures cells { self.new.cells ≡ ⟦<Metered<'static> as Bench>⟧.counted result }
        ensures shop { ⟦<Metered<'static> as Bench>⟧.shop result ≡ ⟦<Metered<'static> as Bench>⟧.shop bench.entry }
        ensures still { ⟦<Search as OfShop>⟧.is_of self.new (⟦<Metered<'static> as Bench>⟧.shop bench.entry) }
    {
        let mut lanes = take_lanes(bench, &mut self.tables);
        let mut rng = Pcg32::seed_from_u64(rounds.seed);
        rng.advance(first as u64 * rounds.take as u64);
        match self.searcher.rounds(
            alloc,
            &mut lanes,
            &mut self.kept,
            rounds.count,
            rounds.take,
            rounds.passes,
            &mut rng,
        ) {
            Ok(()) => {}
            Err(_) => unreachable!(),
        }
        // Called for its contract, which says that an order has each job once.
        let _jobs = self.kept.order.len();
        let (bench, tables) = lanes.into_parts();
        self.tables = Some(tables);
        self.cells = bench.cells();
        bench
    }

    /// The best place for a job that is not in a sequence, and the makespan with the job there. `spans` gets the makespans
    /// with the job at the first places, as many as it has room for. The bench counts the cells of the insertion.
    pub fn best(
        &mut self,
        bench: &mut Metered,
        jobs: &[u32],
        job: usize,
        spans: &mut [u64],
    ) -> Placed<Span>
        requires own { ⟦<Search as OfShop>⟧.is_of self.old (⟦<Metered<'static> as Bench>⟧.shop bench.old) }
        requires sequence { IsSequence (⟦<Metered<'static> as Bench>⟧.shop bench.old).jobs jobs.now }
        requires job { job < (⟦<Metered<'static> as Bench>⟧.shop bench.old).jobs }
        requires absent { Contains jobs.now job → ⊥ }
        requires spans { length spans.old ≤ length jobs.now + 1 }
        requires room { ⟦<Metered<'static> as Bench>⟧.counted bench.old < 2 ^ 63 }
        ensures best { IsBestPlace (⟦<Metered<'static> as Bench>⟧.shop bench.old) jobs.now job result.place result.span }
        ensures spans { (place : ℕ) → place < length spans.old
            → slice_index_or spans.new place 0 ≡ makespan_with (⟦<Metered<'static> as Bench>⟧.shop bench.old) jobs.now job place }
        ensures kept { self.new.kept ≡ self.old.kept }
        ensures cells { self.new.cells ≡ self.old.cells }
        ensures counted { ⟦<Metered<'static> as Bench>⟧.counted bench.new ≡ ⟦<Metered<'static> as Bench>⟧.counted bench.old
            + heads_tails_cost (length jobs.now + 1) (⟦<Metered<'static> as Bench>⟧.shop bench.old).machines }
        ensures shop { ⟦<Metered<'static> as Bench>⟧.shop bench.new ≡ ⟦<Metered<'static> as Bench>⟧.shop bench.old }
        ensures still { ⟦<Search as OfShop>⟧.is_of self.new (⟦<Metered<'static> as Bench>⟧.shop bench.old) }
    {
        match &mut self.tables {
            Some(tables) => tables.best(bench, jobs, job, spans),
            None => unreachable!(),
        }
    }
}

// The bench with the tables.
fn take_lanes<'a>(bench: Metered<'a>, tables: &mut Option<LaneTables>) -> MeteredLanes<'a>
    requires { IsSomeAnd tables.old (HasLanes (⟦<Metered<'static> as Bench>⟧.shop bench)) }
    ensures shop { ⟦<MeteredLanes<'a> as Bench>⟧.shop result ≡ ⟦<Metered<'static> as Bench>⟧.shop bench.entry }
    ensures counted { ⟦<MeteredLanes<'a> as Bench>⟧.counted result ≡ ⟦<Metered<'static> as Bench>⟧.counted bench.entry }
{
    match tables.take() {
        Some(tables) => MeteredLanes::over(bench, tables),
        None => unreachable!(),
    }
}
