//! Opaque durations, and a bench that counts what it computes with them.
//!
//! Code that is generic over a bench can't copy the bench, see a duration as a number or read a time as a
//! number. So every sum of times in it, totals of jobs aside, is counted on the bench that it was given.
ghost use Rattle.std.specs.Prelude.{◌≡◌, ℕ, ◌+◌, ◌<◌, ◌≤◌, ◌^◌, ◌↔◌, length, max, IsTrue};
ghost use Rattle.std.specs.Ordering.{nat_cmp};
ghost use Rattle.pfs_base.specs.Limits.{limits};
ghost use Rattle.pfs_base.specs.FlowShop.{FlowShop, time_of, total_of, IsWithin};
ghost use Rattle.pfs_base.specs.Joins.{greatest_join};

/// No duration that a bench makes is greater, in the instance's own unit of time.
pub const SPAN_MAX: u64 = 1_000_000_000_000_000;

/// A duration. It can be compared, and has no arithmetic and no conversion to a number.
pub trait Length: Copy + Ord {
    ghost number: { Self → ℕ };

    ghost ordered: { (a b : Self) → Self.cmp a b ≡ nat_cmp (number a) (number b) };
}

/// Computes with durations over one flow shop, and counts each value that it computes as a cell. Jobs and
/// machines count from 0.
pub trait Bench {
    /// The bench's durations.
    type Span: Length;

    ghost shop: { Self → FlowShop };

    ghost counted: { Self → ℕ };

    /// The number of jobs.
    fn jobs(&self) -> usize
        ensures { result ≡ (shop self.now).jobs };

    /// The number of machines.
    fn machines(&self) -> usize
        ensures { result ≡ (shop self.now).machines };

    /// The duration 0.
    fn zero(&self) -> Self::Span
        ensures { Self.Span.number result ≡ 0 };

    /// The greater of two durations, plus the time of a job on a machine. It counts one cell.
    fn step(&mut self, job: usize, machine: usize, a: Self::Span, b: Self::Span) -> Self::Span
        requires job { job < (shop self.old).jobs }
        requires machine { machine < (shop self.old).machines }
        requires room { counted self.old + 1 < 2 ^ 64 }
        requires in_limit { max (Self.Span.number a) (Self.Span.number b)
            + time_of (shop self.old) job machine ≤ SPAN_MAX }
        ensures value { Self.Span.number result
            ≡ max (Self.Span.number a) (Self.Span.number b) + time_of (shop self.old) job machine }
        ensures counted { counted self.new ≡ counted self.old + 1 }
        ensures shop { shop self.new ≡ shop self.old };

    /// The sum of two durations. It counts one cell.
    fn join(&mut self, a: Self::Span, b: Self::Span) -> Self::Span
        requires room { counted self.old + 1 < 2 ^ 64 }
        requires in_limit { Self.Span.number a + Self.Span.number b ≤ SPAN_MAX }
        ensures value { Self.Span.number result ≡ Self.Span.number a + Self.Span.number b }
        ensures counted { counted self.new ≡ counted self.old + 1 }
        ensures shop { shop self.new ≡ shop self.old };

    /// The greatest sum of two durations at the same place of two rows. It counts one cell for each place.
    fn join_rows(&mut self, a: &[Self::Span], b: &[Self::Span]) -> Self::Span
        requires equal { length a.now ≡ length b.now }
        requires some { 1 ≤ length a.now }
        requires room { counted self.old + length a.now < 2 ^ 64 }
        requires in_limit { greatest_join Self.Span.number a.now b.now ≤ SPAN_MAX }
        ensures value { Self.Span.number result ≡ greatest_join Self.Span.number a.now b.now }
        ensures counted { counted self.new ≡ counted self.old + length a.now }
        ensures shop { shop self.new ≡ shop self.old };

    /// How many cells the bench has counted.
    fn cells(&self) -> u64
        ensures { result ≡ counted self.now };

    /// Whether the bench can count `cost` more cells.
    fn room(&self, cost: u64) -> bool
        ensures { IsTrue result ↔ (counted self.now + cost < 2 ^ 64) };

    ghost within: { (bench : Self) → IsWithin limits (shop bench) };
}

/// A bench that also gives the total time of a job, which isn't counted.
pub trait Shop: Bench {
    /// The sum of a job's times on all machines.
    fn total(&self, job: usize) -> u64
        requires { job < (Self.shop self.now).jobs }
        ensures { result ≡ total_of (Self.shop self.now) job };
}
