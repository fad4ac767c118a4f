//! Eight lanes of 16 bits.
ghost use Rattle.std.specs.Prelude.{◌≡◌, ℕ, ◌+◌, ◌<◌, length, max, replicate};
ghost use Rattle.std.specs.List.{slice_index_or};
ghost use Rattle.std.specs.Simd.Lanes.{zip2};
ghost use Rattle.pfs_batch.specs.Private.Lanes.{capped, capped_sum};

use std::simd::prelude::*;

/// Eight lanes of 16 bits. Sums stop at 65,535, as the processor's do.
#[derive(Clone, Copy)]
pub struct Lanes {
    /// The values of the lanes.
    pub values: u16x8,
    pub ghost wide: { length values ≡ 8 },
}

// The sum of each lane, or 65,535 where it is greater.
#[inline(always)]
fn saturating_sum(a: u16x8, b: u16x8) -> u16x8
    ensures { result ≡ zip2 capped_sum a b }
{
    a.saturating_add(b)
}

// The greater value of each lane.
#[inline(always)]
fn greater(a: u16x8, b: u16x8) -> u16x8
    ensures { result ≡ zip2 max a b }
{
    a.simd_max(b)
}

impl Lanes {
    /// Zeros.
    #[inline(always)]
    pub fn zeros() -> Lanes
        ensures { result.values ≡ replicate 8 0 }
    {
        let values = u16x8::splat(0);
        Lanes { values }
    }

    /// The ends of operations that begin when those before and above them have ended.
    #[inline(always)]
    pub fn end_after(self, above: Lanes, time: Lanes) -> Lanes
        ensures { (lane : ℕ) → lane < 8 → slice_index_or result.values lane 0 ≡ capped
            (max (slice_index_or above.values lane 0) (slice_index_or self.values lane 0)
            + slice_index_or time.values lane 0) }
    {
        let values = saturating_sum(greater(above.values, self.values), time.values);
        Lanes { values }
    }
}
