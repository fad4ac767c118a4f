//! The fastest way to find the best place: a bench over an instance that also computes in lanes, and its inserter.
ghost use Rattle.std.specs.Prelude.{◌≡◌, ◌+◌, ◌<◌, ◌^◌, length, Contains, false};
ghost use Rattle.pfs_base.specs.Limits.{limits};
ghost use Rattle.pfs_base.specs.FlowShop.{IsWithin};
ghost use Rattle.pfs_insert.specs.Inserter.{IsBestPlace};
ghost use Rattle.pfs_insert.specs.Insertion.{heads_tails_cost};
ghost use Rattle.pfs_wave.specs.Tables.{HasLanes};

use crate::tables::{LaneTables, OfShop};
use pfs_base::{Bench, Length, Metered, Shop, Span};
use pfs_insert::{InsertFault, Inserter, Placed};
use pfs_order::Seq;
use std::alloc::Global;
use std::marker::Model;

/// A metered bench over an instance, with the tables of its insertions in lanes.
#[derive(Drop)]
pub struct MeteredLanes<'a> {
    bench: Metered<'a>,
    tables: LaneTables,
    ghost within: { IsWithin limits (⟦<Metered<'static> as Bench>⟧.shop bench) },
    ghost own: { HasLanes (⟦<Metered<'static> as Bench>⟧.shop bench) tables },
}

impl<'a> MeteredLanes<'a> {
    /// A bench that counts on another one, and has the tables of its shop.
    pub fn over(bench: Metered<'a>, tables: LaneTables) -> MeteredLanes<'a>
        requires { ⟦<LaneTables as OfShop>⟧.is_of tables (⟦<Metered<'static> as Bench>⟧.shop bench) }
        ensures shop { ⟦<MeteredLanes<'a> as Bench>⟧.shop result ≡ ⟦<Metered<'static> as Bench>⟧.shop bench.entry }
        ensures counted { ⟦<MeteredLanes<'a> as Bench>⟧.counted result
            ≡ ⟦<Metered<'static> as Bench>⟧.counted bench.entry }
    {
        MeteredLanes { bench, tables }
    }

    /// The bench with its count, and the tables, for another bench over the same instance.
    pub fn into_parts(self) -> (Metered<'a>, LaneTables)
        ensures tables { ⟦<LaneTables as OfShop>⟧.is_of result.1 (⟦<MeteredLanes<'a> as Bench>⟧.shop self.entry) }
        ensures shop { ⟦<Metered<'static> as Bench>⟧.shop result.0 ≡ ⟦<MeteredLanes<'a> as Bench>⟧.shop self.entry }
        ensures counted { ⟦<Metered<'static> as Bench>⟧.counted result.0
            ≡ ⟦<MeteredLanes<'a> as Bench>⟧.counted self.entry }
    {
        (self.bench, self.tables)
    }

    /// The best place for a job that is not in the sequence, and the makespan with the job there. It counts the cells
    /// of the insertion (`Permits::count`).
    #[inline(always)]
    pub fn best_place(&mut self, seq: &Seq, job: usize) -> Placed<Span>
        requires size { seq.now.size ≡ (⟦<MeteredLanes<'a> as Bench>⟧.shop self.old).jobs }
        requires job { job < (⟦<MeteredLanes<'a> as Bench>⟧.shop self.old).jobs }
        requires absent { Contains seq.now.jobs job → ⊥ }
        requires room { ⟦<MeteredLanes<'a> as Bench>⟧.counted self.old + heads_tails_cost (length seq.now.jobs + 1)
            (⟦<MeteredLanes<'a> as Bench>⟧.shop self.old).machines < 2 ^ 64 }
        ensures best { IsBestPlace (⟦<MeteredLanes<'a> as Bench>⟧.shop self.old) seq.now.jobs job
            result.place result.span }
        ensures counted { ⟦<MeteredLanes<'a> as Bench>⟧.counted self.new
            ≡ ⟦<MeteredLanes<'a> as Bench>⟧.counted self.old + heads_tails_cost (length seq.now.jobs + 1)
            (⟦<MeteredLanes<'a> as Bench>⟧.shop self.old).machines }
        ensures shop { ⟦<MeteredLanes<'a> as Bench>⟧.shop self.new
            ≡ ⟦<MeteredLanes<'a> as Bench>⟧.shop self.old }
    {
        self.tables
            .best(&mut self.bench, seq.as_slice(), job, &mut [])
    }

    /// The length as a number, for printing. It counts no cells.
    pub fn reveal(&self, span: Span) -> u64
        ensures { result ≡ span }
    {
        self.bench.reveal(span)
    }
}

impl<'a> Bench for MeteredLanes<'a> {
    type Span = Span;

    ghost shop = { λ b. ⟦<Metered<'static> as Bench>⟧.shop b.bench };

    ghost counted = { λ b. ⟦<Metered<'static> as Bench>⟧.counted b.bench };

    ghost within = { λ b. b.within };

    #[inline(always)]
    fn jobs(&self) -> usize {
        self.bench.jobs()
    }

    #[inline(always)]
    fn machines(&self) -> usize {
        self.bench.machines()
    }

    #[inline(always)]
    fn zero(&self) -> Span {
        self.bench.zero()
    }

    #[inline(always)]
    fn step(&mut self, job: usize, machine: usize, a: Span, b: Span) -> Span {
        self.bench.step(job, machine, a, b)
    }

    #[inline(always)]
    fn join(&mut self, a: Span, b: Span) -> Span {
        self.bench.join(a, b)
    }

    #[inline(always)]
    fn join_rows(&mut self, a: &[Span], b: &[Span]) -> Span {
        self.bench.join_rows(a, b)
    }

    fn cells(&self) -> u64 {
        self.bench.cells()
    }

    fn room(&self, cost: u64) -> bool {
        self.bench.room(cost)
    }
}

impl Shop for MeteredLanes<'_> {
    fn total(&self, job: usize) -> u64 {
        self.bench.total(job)
    }
}

/// An inserter that computes heads and tails (Taillard, 1990) along the anti-diagonals of their tables, whose values
/// don't depend on one another (Wozniak, 1997). One insertion counts (4k - 2)·m cells, where k jobs are in the
/// order with the inserted one, on m machines. The bench has the memory, so `best` allocates nothing.
#[derive(Drop)]
pub struct Wavefront {
    jobs: usize,
    machines: usize,
}

impl Wavefront {
    /// An inserter for shops of the bench's sizes.
    pub fn new(bench: &MeteredLanes) -> Wavefront
        ensures jobs { (⟦<Wavefront as Inserter<MeteredLanes<'static>>>⟧.sizes result).jobs
            ≡ (⟦<MeteredLanes<'static> as Bench>⟧.shop bench.now).jobs }
        ensures machines { (⟦<Wavefront as Inserter<MeteredLanes<'static>>>⟧.sizes result).machines
            ≡ (⟦<MeteredLanes<'static> as Bench>⟧.shop bench.now).machines }
    {
        Wavefront {
            jobs: bench.jobs(),
            machines: bench.machines(),
        }
    }
}

impl<'a> Inserter<MeteredLanes<'a>> for Wavefront {
    ghost sizes = { λ a. record { jobs = a.jobs; machines = a.machines } };

    ghost cost = { heads_tails_cost };

    ghost can_refuse = { false };

    #[inline(always)]
    fn best(
        &mut self,
        _alloc: Global,
        bench: &mut MeteredLanes<'a>,
        seq: &Seq,
        job: usize,
    ) -> Result<Placed<Span>, InsertFault> {
        Ok(bench.best_place(seq, job))
    }
}
