//! Insertions in lanes of 16 bits where the makespans are known to fit in them, and else of 32.
ghost use Rattle.std.specs.Prelude.{◌≡◌, ◌≢◌, ℕ, ◌+◌, ◌-◌, ◌^◌, ◌<◌, ◌≤◌, ◌↔◌, ◌⊎◌, [], length, Contains, IsTrue, IfOk};
ghost use Rattle.std.specs.List.{All, slice_index_or};
ghost use Rattle.pfs_base.specs.FlowShop.{FlowShop};
ghost use Rattle.pfs_base.specs.Paths.{makespan};
ghost use Rattle.pfs_insert.specs.Inserter.{IsBestPlace};
ghost use Rattle.pfs_insert.specs.Insertion.{makespan_with};
ghost use Rattle.pfs_order.specs.Sequence.{IsSequence};
ghost use Rattle.pfs_wave.specs.Parts.{IsPart};
ghost use Rattle.pfs_wave.specs.Private.Blocks.{longest_path};
ghost use Rattle.pfs_wave.specs.Private.Mixed.{IsKnown, IsMixed, after_best, known_with};
ghost use Rattle.pfs_wave.specs.Private.Payment.{IsPaid};

use crate::best::Permits;
use crate::blocks::Blocks;
use crate::hold::common_front;
use crate::long::Long;
use crate::short::Short;
use pfs_base::{Bench, Instance, Metered, Paid, Shop};
use pfs_insert::Placed;
use pfs_order::Seq;
use std::alloc::{AllocError, Global};

// The number of jobs that are the same at the front of two lists.
#[inline(always)]
fn common_prefix(a: &[u32], b: &[u32]) -> usize
    ensures in_a { result ≤ length a.now }
    ensures in_b { result ≤ length b.now }
    ensures same { (row : ℕ) → row < result → slice_index_or a.now row 0 ≡ slice_index_or b.now row 0 }
    ensures most { result < length a.now → result < length b.now
        → slice_index_or a.now result 0 ≢ slice_index_or b.now result 0 }
{
    let rows = a.len().min(b.len());
    for row in common_front(a, b)..rows {
        if a[row] != b[row] {
            return row;
        }
    }
    rows
}

// Whether a sequence is another one with some jobs left out.
#[inline(always)]
fn is_part(part: &[u32], whole: &[u32]) -> bool
    ensures { IsTrue result ↔ IsPart part.now whole.now }
{
    let mut part = part;
    let mut whole = whole;
    while part.len() <= whole.len() {
        let same = common_prefix(part, whole);
        if same == part.len() {
            return true;
        }
        part = &part[same..];
        whole = &whole[same + 1..];
    }
    false
}

/// A sequence, and its makespan or a greater number.
#[derive(Drop)]
pub struct Known {
    seq: Seq,
    span: u64,
}

impl Known {
    // A sequence of no jobs, with this number for its makespan. It reserves memory for all jobs, and returns
    // `AllocError` where that fails.
    fn new(alloc: Global, instance: &Instance, span: u64) -> Result<Known, AllocError>
        ensures known { IfOk result (λ made. IsKnown instance.now.shop made) }
        ensures bound { IfOk result (λ made. made.span ≡ span) }
    {
        match Seq::new(alloc, instance.jobs()) {
            Ok(seq) => Ok(Known { seq, span }),
            Err(_) => Err(AllocError),
        }
    }

    // Whether these jobs are those of the sequence, or some of them left out, and the makespan plus this time is below
    // 65,535.
    #[inline(always)]
    fn has_room(&self, jobs: &[u32], time: u64) -> bool
        ensures { IsTrue result ↔ ((self.now.span + time < 65535) × IsPart jobs.now self.now.seq.jobs) }
    {
        self.span.saturating_add(time) < 65_535 && is_part(jobs, self.seq.as_slice())
    }

    // Makes it a sequence with a job at its best place.
    #[inline(always)]
    fn set(&mut self, jobs: &[u32], job: usize, best: Placed<u64>)
        requires sequence { IsSequence self.old.seq.size jobs.now }
        requires place { best.place ≤ length jobs.now }
        requires job { job < self.old.seq.size }
        requires absent { Contains jobs.now job → ⊥ }
        ensures { self.new ≡ known_with self.old jobs.now job best.place best.span }
    {
        self.seq.set(jobs);
        self.seq.insert_at(best.place, job);
        self.span = best.span;
    }
}

/// The tables of insertions in both sizes of lanes, and two sequences whose makespans are known: the last one, and the
/// order of all jobs with the shortest makespan so far, of equal ones the last. A search continues from one of them.
#[derive(Drop)]
pub struct Mixed {
    narrow: Blocks<Short>,
    wide: Blocks<Long<Short>>,
    last: Known,
    kept: Known,
}

impl Mixed {
    /// The tables of an instance, with a known sequence of no jobs. It reserves all memory of an insertion, and returns
    /// `AllocError` where that fails.
    pub fn new(alloc: Global, instance: &Instance) -> Result<Mixed, AllocError>
        requires times { All (λ time. time ≤ 65535) instance.now.shop.times }
        requires paths { longest_path instance.now.shop < 4294967295 }
        ensures made { IfOk result (λ made. IsMixed instance.now.shop made) }
        ensures none_kept { IfOk result (λ made. made.kept.span ≡ 2 ^ 64 - 1) }
    {
        Ok(Mixed {
            last: Known::new(alloc, instance, 0)?,
            kept: Known::new(alloc, instance, u64::MAX)?,
            narrow: Blocks::new(alloc, instance)?,
            wide: Blocks::new(alloc, instance)?,
        })
    }

    // Whether the makespan of a sequence plus this time is known to be below 65,535.
    #[inline(always)]
    fn has_room(&self, jobs: &[u32], time: u64) -> bool
        ensures { IsTrue result → (shop : FlowShop) → 1 ≤ shop.machines → IsMixed shop self.now
            → makespan shop jobs.now + time < 65535 }
    {
        self.last.has_room(jobs, time) || self.kept.has_room(jobs, time)
    }

    // Whether the insertion of a job is known to fit in the narrow lanes: the makespan with it after all others, and so
    // that at its best place, is below 65,535. The job makes the makespan longer by at most its total time. The sharper
    // bound by the last job takes longer to compute, so it comes second.
    #[inline(always)]
    fn fits(&self, bench: &Metered, jobs: &[u32], job: usize) -> bool
        requires own { IsMixed (⟦<Metered<'static> as Bench>⟧.shop bench.now) self.now }
        requires jobs { All (λ other. other < (⟦<Metered<'static> as Bench>⟧.shop bench.now).jobs) jobs.now }
        requires job { job < (⟦<Metered<'static> as Bench>⟧.shop bench.now).jobs }
        ensures { IsTrue result
            → makespan_with (⟦<Metered<'static> as Bench>⟧.shop bench.now) jobs.now job (length jobs.now) < 65535 }
    {
        self.has_room(jobs, bench.total(job))
            || (!jobs.is_empty() && self.has_room(jobs, most_added(bench, jobs, job)))
    }

    // Keeps a sequence with a job at its best place.
    #[inline(always)]
    fn keep(&mut self, jobs: &[u32], job: usize, best: Placed<u64>)
        requires sizes { self.old.kept.seq.size ≡ self.old.last.seq.size }
        requires sequence { IsSequence self.old.last.seq.size jobs.now }
        requires place { best.place ≤ length jobs.now }
        requires job { job < self.old.last.seq.size }
        requires absent { Contains jobs.now job → ⊥ }
        ensures { self.new ≡ after_best self.old jobs.now job best.place best.span }
    {
        let is_order = jobs.len() + 1 == self.last.seq.size();
        self.last.set(jobs, job, best);
        if is_order && best.span <= self.kept.span {
            self.kept.set(jobs, job, best);
        }
    }

    /// The best place for a job that is not in the sequence, and the makespan with the job there. `spans` gets the
    /// makespans with the job at the first places, as many as it has room for, which may not fit in narrow lanes. It is
    /// not inlined, so that a search over it stays small enough to be inlined.
    #[inline(never)]
    pub fn best(
        &mut self,
        permits: Permits,
        bench: &Metered,
        jobs: &[u32],
        job: usize,
        spans: &mut [u64],
    ) -> Placed<Paid>
        requires own { IsMixed (⟦<Metered<'static> as Bench>⟧.shop bench.now) self.old }
        requires sequence { IsSequence (⟦<Metered<'static> as Bench>⟧.shop bench.now).jobs jobs.now }
        requires job { job < (⟦<Metered<'static> as Bench>⟧.shop bench.now).jobs }
        requires absent { Contains jobs.now job → ⊥ }
        requires room { length spans.old ≤ length jobs.now + 1 }
        requires paid { IsPaid permits.tails permits.sums (length jobs.now) (⟦<Metered<'static> as Bench>⟧.shop bench.now).machines }
        ensures best { IsBestPlace (⟦<Metered<'static> as Bench>⟧.shop bench.now) jobs.now job result.place result.span }
        ensures spans { (place : ℕ) → place < length spans.old
            → slice_index_or spans.new place 0 ≡ makespan_with (⟦<Metered<'static> as Bench>⟧.shop bench.now) jobs.now job place }
        ensures still { IsMixed (⟦<Metered<'static> as Bench>⟧.shop bench.now) self.new }
        ensures last { self.new.last ≡ known_with self.old.last jobs.now job result.place result.span }
        ensures order { self.new.kept ≡ (after_best self.old jobs.now job result.place result.span).kept }
    {
        let best = if spans.is_empty() && self.fits(bench, jobs, job) {
            self.narrow.best(permits, jobs, job, spans)
        } else {
            self.wide.best(permits, jobs, job, spans)
        };
        let kept = Placed {
            place: best.place,
            span: best.span.number(),
        };
        self.keep(jobs, job, kept);
        best
    }
}

// The most that a job can make the makespan longer, after all others: what it makes it longer after the last one alone.
#[inline(never)]
fn most_added(bench: &Metered, jobs: &[u32], job: usize) -> u64
    requires some { 1 ≤ length jobs.now }
    requires jobs { All (λ other. other < (⟦<Metered<'static> as Bench>⟧.shop bench.now).jobs) jobs.now }
    requires job { job < (⟦<Metered<'static> as Bench>⟧.shop bench.now).jobs }
    ensures { makespan_with (⟦<Metered<'static> as Bench>⟧.shop bench.now) jobs.now job (length jobs.now)
        ≤ makespan (⟦<Metered<'static> as Bench>⟧.shop bench.now) jobs.now + result }
{
    let last = jobs[jobs.len() - 1] as usize;
    let mut alone = 0;
    let mut both = 0;
    for machine in 0..bench.machines() {
        alone += u64::from(bench.time(last, machine));
        both = alone.max(both) + u64::from(bench.time(job, machine));
    }
    both - alone
}
