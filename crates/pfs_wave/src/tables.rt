//! The tables of an instance's insertions in lanes.
ghost use Rattle.std.specs.Prelude.{◌≡◌, ℕ, ◌+◌, ◌-◌, ◌<◌, ◌≤◌, ◌^◌, length, Contains, IfOk};
ghost use Rattle.std.specs.List.{slice_index_or};
ghost use Rattle.pfs_base.specs.FlowShop.{FlowShop, IsWithin};
ghost use Rattle.pfs_base.specs.Limits.{limits};
ghost use Rattle.pfs_base.specs.Paths.{greatest};
ghost use Rattle.pfs_insert.specs.Inserter.{IsBestPlace};
ghost use Rattle.pfs_insert.specs.Insertion.{heads_tails_cost, makespan_with};
ghost use Rattle.pfs_order.specs.Sequence.{IsSequence};
ghost use Rattle.pfs_wave.specs.Private.Blocks.{longest_path};
ghost use Rattle.pfs_wave.specs.Private.Payment.{IsPaid};
ghost use Rattle.pfs_wave.specs.Tables.{HasLanes};

use crate::best::Permits;
use crate::blocks::Blocks;
use crate::long::{Long, LongTimes, Wide};
use crate::mixed::Mixed;
use crate::short::Short;
use pfs_base::{Bench, Instance, Metered, Paid, Span};
use pfs_insert::Placed;
use std::alloc::{AllocError, Global};

/// Tables, or other memory, that are filled for one shop and kept between calls.
pub trait OfShop {
    /// That it is made for a shop.
    ghost is_of: { Self → FlowShop → Type 0 };
}

/// The tables of insertions, in the smallest lanes that every path of an instance fits in: of 16, 32 or 64 bits. Where
/// lanes of 32 bits have times of 16, they are mixed with lanes of 16.
#[derive(Drop)]
pub enum Wave {
    Short(Blocks<Short>),
    Mixed(Mixed),
    Long(Blocks<Long<LongTimes>>),
    Wide(Blocks<Wide>),
}

/// The times of an instance in lanes, with all memory of an insertion.
#[derive(Drop)]
pub struct LaneTables {
    wave: Wave,
}

impl OfShop for LaneTables {
    ghost is_of = { λ tables shop. HasLanes shop tables };
}

// An upper bound on each path of n jobs on m machines: (n + m - 1) times the longest time.
fn path_bound(instance: &Instance) -> u64
    ensures value { result ≡ longest_path instance.now.shop }
    ensures within { IsWithin limits instance.now.shop }
    ensures small { result < 2 ^ 63 - 1 }
{
    let operations = (instance.jobs() + instance.machines() - 1) as u64;
    operations * u64::from(longest_time(instance))
}

// The longest time of an instance.
fn longest_time(instance: &Instance) -> u32
    ensures { result ≡ greatest instance.now.shop.times }
{
    let mut longest = 0;
    for time in instance.times() {
        longest = longest.max(*time);
    }
    longest
}

impl LaneTables {
    /// The tables of an instance. It returns `AllocError` where allocation fails.
    pub fn new(alloc: Global, instance: &Instance) -> Result<LaneTables, AllocError>
        ensures { IfOk result (λ made. ⟦<LaneTables as OfShop>⟧.is_of made instance.now.shop) }
    {
        let path = path_bound(instance);
        let longest = longest_time(instance);
        let wave = if path < 65_535 {
            Wave::Short(Blocks::new(alloc, instance)?)
        } else if longest <= 65_535 {
            Wave::Mixed(Mixed::new(alloc, instance)?)
        } else if path < 4_294_967_295 {
            Wave::Long(Blocks::new(alloc, instance)?)
        } else {
            Wave::Wide(Blocks::new(alloc, instance)?)
        };
        Ok(LaneTables { wave })
    }

    /// The best place for a job that is not in the sequence, and the makespan with the job there. `spans` gets the
    /// makespans with the job at the first places, as many as it has room for. It allocates nothing, and the bench counts
    /// the cells of the insertion (`Permits::count`).
    #[inline(always)]
    pub fn best(
        &mut self,
        bench: &mut Metered,
        jobs: &[u32],
        job: usize,
        spans: &mut [u64],
    ) -> Placed<Span>
        requires own { ⟦<LaneTables as OfShop>⟧.is_of self.old (⟦<Metered<'static> as Bench>⟧.shop bench.old) }
        requires sequence { IsSequence (⟦<Metered<'static> as Bench>⟧.shop bench.old).jobs jobs.now }
        requires job { job < (⟦<Metered<'static> as Bench>⟧.shop bench.old).jobs }
        requires absent { Contains jobs.now job → ⊥ }
        requires spans { length spans.old ≤ length jobs.now + 1 }
        requires room { ⟦<Metered<'static> as Bench>⟧.counted bench.old
            + heads_tails_cost (length jobs.now + 1) (⟦<Metered<'static> as Bench>⟧.shop bench.old).machines < 2 ^ 64 }
        ensures best { IsBestPlace (⟦<Metered<'static> as Bench>⟧.shop bench.old) jobs.now job result.place result.span }
        ensures spans { (place : ℕ) → place < length spans.old
            → slice_index_or spans.new place 0 ≡ makespan_with (⟦<Metered<'static> as Bench>⟧.shop bench.old) jobs.now job place }
        ensures counted { ⟦<Metered<'static> as Bench>⟧.counted bench.new ≡ ⟦<Metered<'static> as Bench>⟧.counted bench.old
            + heads_tails_cost (length jobs.now + 1) (⟦<Metered<'static> as Bench>⟧.shop bench.old).machines }
        ensures shop { ⟦<Metered<'static> as Bench>⟧.shop bench.new ≡ ⟦<Metered<'static> as Bench>⟧.shop bench.old }
        ensures still { ⟦<LaneTables as OfShop>⟧.is_of self.new (⟦<Metered<'static> as Bench>⟧.shop bench.old) }
    {
        let permits = Permits::count(bench, jobs.len());
        let best = self.find(permits, bench, jobs, job, spans);
        Placed {
            place: best.place,
            span: bench.length(best.span),
        }
    }

    // `best`, where the permits pay for its cells.
    #[inline(always)]
    fn find(
        &mut self,
        permits: Permits,
        bench: &Metered,
        jobs: &[u32],
        job: usize,
        spans: &mut [u64],
    ) -> Placed<Paid>
        requires own { HasLanes (⟦<Metered<'static> as Bench>⟧.shop bench.now) self.old }
        requires sequence { IsSequence (⟦<Metered<'static> as Bench>⟧.shop bench.now).jobs jobs.now }
        requires job { job < (⟦<Metered<'static> as Bench>⟧.shop bench.now).jobs }
        requires absent { Contains jobs.now job → ⊥ }
        requires room { length spans.old ≤ length jobs.now + 1 }
        requires paid { IsPaid permits.tails permits.sums (length jobs.now) (⟦<Metered<'static> as Bench>⟧.shop bench.now).machines }
        ensures best { IsBestPlace (⟦<Metered<'static> as Bench>⟧.shop bench.now) jobs.now job result.place result.span }
        ensures spans { (place : ℕ) → place < length spans.old
            → slice_index_or spans.new place 0 ≡ makespan_with (⟦<Metered<'static> as Bench>⟧.shop bench.now) jobs.now job place }
        ensures still { HasLanes (⟦<Metered<'static> as Bench>⟧.shop bench.now) self.new }
    {
        match &mut self.wave {
            Wave::Short(blocks) => blocks.best(permits, jobs, job, spans),
            Wave::Mixed(mixed) => mixed.best(permits, bench, jobs, job, spans),
            Wave::Long(blocks) => blocks.best(permits, jobs, job, spans),
            Wave::Wide(blocks) => blocks.best(permits, jobs, job, spans),
        }
    }
}
