//! A bench over an instance.
ghost use Rattle.std.specs.Prelude.{◌≡◌, ℕ, ◌+◌, ◌<◌, ◌≤◌, ◌^◌, length, map, max, refl};
ghost use Rattle.std.specs.Int.{cast_signed, cast_unsigned, w64};
ghost use Rattle.std.specs.Simd.Lanes.{chunk};
ghost use Rattle.pfs_base.specs.Joins.{greatest_join};
ghost use Rattle.pfs_base.specs.Paths.{greatest};
ghost use Rattle.pfs_base.specs.Limits.{limits};
ghost use Rattle.pfs_base.specs.FlowShop.{FlowShop, IsWithin, time_of};

use crate::bench::{Bench, Length, SPAN_MAX, Shop};
use crate::limits::LONGEST_TIME;
use crate::permit::{Paid, Permit};
use std::marker::Model;
use std::simd::prelude::*;

/// A duration of `Metered`.
#[derive(Clone, Copy, Debug, PartialEq, Eq, PartialOrd, Ord)]
pub struct Span {
    number: u64,
}

impl Model for Span {
    ghost Value = { ℕ };

    ghost view = { λ a. a.number };

    ghost inverse = { λ n. record { number = n } };
}

impl Length for Span {
    ghost number = { λ n. n };

    ghost ordered = { λ a b. refl };
}

/// A bench over an instance, created by `Instance::metered`.
#[derive(Drop)]
pub struct Metered<'a> {
    jobs: usize,
    machines: usize,
    times: &'a [u32],
    cells: u64,
    ghost within: { IsWithin limits (record { jobs = jobs; machines = machines; times = times.now }) },
}

impl<'a> Bench for Metered<'a> {
    type Span = Span;

    ghost shop = { λ b. record { jobs = b.jobs; machines = b.machines; times = b.times.now } };

    ghost counted = { λ b. b.cells };

    ghost within = { λ b. b.within };

    #[inline(always)]
    fn jobs(&self) -> usize {
        self.jobs
    }

    #[inline(always)]
    fn machines(&self) -> usize {
        self.machines
    }

    #[inline(always)]
    fn zero(&self) -> Span {
        Span { number: 0 }
    }

    #[inline(always)]
    fn step(&mut self, job: usize, machine: usize, a: Span, b: Span) -> Span {
        self.cells += 1;
        let time = self.times[job * self.machines + machine];
        Span {
            number: greater(a.number, b.number) + u64::from(time),
        }
    }

    #[inline(always)]
    fn join(&mut self, a: Span, b: Span) -> Span {
        self.cells += 1;
        Span {
            number: a.number + b.number,
        }
    }

    #[inline(always)]
    fn join_rows(&mut self, a: &[Span], b: &[Span]) -> Span {
        self.cells += a.len() as u64;
        Span {
            number: greatest_sum(a, b),
        }
    }

    fn cells(&self) -> u64 {
        self.cells
    }

    fn room(&self, cost: u64) -> bool {
        self.cells.checked_add(cost).is_some()
    }
}

impl Shop for Metered<'_> {
    fn total(&self, job: usize) -> u64 {
        let first = job * self.machines;
        let mut total = 0;
        for time in &self.times[first..first + self.machines] {
            total += u64::from(*time);
        }
        total
    }
}

impl<'a> Metered<'a> {
    /// A bench that has counted no cell. The times are those of job 0 on each machine, then those of
    /// job 1, and so on.
    pub(crate) fn new(jobs: usize, machines: usize, times: &'a [u32]) -> Metered<'a>
        requires { IsWithin limits (record { jobs = jobs; machines = machines; times = times.now }) }
        ensures shop { ⟦<Metered<'a> as Bench>⟧.shop result
            ≡ record { jobs = jobs; machines = machines; times = times.now } }
        ensures counted { ⟦<Metered<'a> as Bench>⟧.counted result ≡ 0 }
    {
        Metered {
            jobs,
            machines,
            times,
            cells: 0,
        }
    }

    /// The time of a job on a machine, in the instance's own unit of time. It counts nothing.
    #[inline(always)]
    pub fn time(&self, job: usize, machine: usize) -> u32
        requires job { job < (⟦<Metered<'a> as Bench>⟧.shop self.now).jobs }
        requires machine { machine < (⟦<Metered<'a> as Bench>⟧.shop self.now).machines }
        ensures value { result ≡ time_of (⟦<Metered<'a> as Bench>⟧.shop self.now) job machine }
        ensures short { result ≤ LONGEST_TIME }
    {
        self.times[job * self.machines + machine]
    }

    /// Adds to the count the cells of a pass over the same instance, and returns the permit that the pass spends.
    #[inline(always)]
    pub fn count(&mut self, cells: u64) -> Permit
        requires room { ⟦<Metered<'a> as Bench>⟧.counted self.old + cells < 2 ^ 64 }
        ensures permit { result ≡ cells }
        ensures counted { ⟦<Metered<'a> as Bench>⟧.counted self.new
            ≡ ⟦<Metered<'a> as Bench>⟧.counted self.old + cells }
        ensures shop { ⟦<Metered<'a> as Bench>⟧.shop self.new ≡ ⟦<Metered<'a> as Bench>⟧.shop self.old }
    {
        self.cells += cells;
        Permit::new(cells)
    }

    /// The duration with a number that was paid for. It counts nothing.
    #[inline(always)]
    pub fn length(&self, paid: Paid) -> Span
        requires { paid ≤ SPAN_MAX }
        ensures { result ≡ paid }
    {
        Span {
            number: paid.number(),
        }
    }

    /// The number of a duration, for printing. It counts nothing.
    pub fn reveal(&self, span: Span) -> u64
        ensures { result ≡ span }
    {
        span.number
    }
}

// The greater of two durations. They are compared as signed numbers, because the processor selects one of two
// values by signed order in one step (`cmovg`), and by unsigned order in two (`cmova`).
#[inline(always)]
fn greater(a: u64, b: u64) -> u64
    requires a { a ≤ SPAN_MAX }
    requires b { b ≤ SPAN_MAX }
    ensures { result ≡ max a b }
{
    if (a as i64) < (b as i64) { b } else { a }
}

// The greatest sum of two durations at the same place of two rows. Whole chunks of four are added and
// compared lane by lane, and the rest one by one. The compiler knows that the loop over the rest runs at most
// three times, so it doesn't vectorize that loop.
#[inline(always)]
fn greatest_sum(a: &[Span], b: &[Span]) -> u64
    requires equal { length a.now ≡ length b.now }
    requires in_limit { greatest_join (λ n. n) a.now b.now ≤ SPAN_MAX }
    ensures { result ≡ greatest_join (λ n. n) a.now b.now }
{
    let mut lanes = i64x4::splat(0);
    for chunk in 0..a.len() / 4 {
        lanes = lanes.simd_max(lanes_of(a, 4 * chunk) + lanes_of(b, 4 * chunk));
    }
    let mut most = greatest_lane(lanes);
    let whole = a.len() - a.len() % 4;
    for left in 0..a.len() % 4 {
        most = greater(most, sum(a[whole + left], b[whole + left]));
    }
    most
}

// Four durations of a row from a place on, as signed numbers.
#[inline(always)]
fn lanes_of(row: &[Span], at: usize) -> i64x4
    requires { at + 4 ≤ length row.now }
    ensures { result ≡ map (cast_signed w64) (chunk at 4 row.now) }
{
    i64x4::from_array([
        signed(row[at]),
        signed(row[at + 1]),
        signed(row[at + 2]),
        signed(row[at + 3]),
    ])
}

#[inline(always)]
fn signed(span: Span) -> i64
    ensures { result ≡ cast_signed w64 span }
{
    span.number.cast_signed()
}

#[inline(always)]
fn sum(a: Span, b: Span) -> u64
    requires { a + b ≤ SPAN_MAX }
    ensures { result ≡ a + b }
{
    a.number + b.number
}

// The greatest of four durations.
#[inline(always)]
fn greatest_lane(lanes: i64x4) -> u64
    requires four { length lanes ≡ 4 }
    requires in_limit { greatest (map (cast_unsigned w64) lanes) ≤ SPAN_MAX }
    ensures { result ≡ greatest (map (cast_unsigned w64) lanes) }
{
    let [first, second, third, fourth] = lanes.to_array();
    greater(
        greater(first.cast_unsigned(), second.cast_unsigned()),
        greater(third.cast_unsigned(), fourth.cast_unsigned()),
    )
}
