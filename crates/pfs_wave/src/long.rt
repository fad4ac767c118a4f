//! Bands of lanes of 32 and of 64 bits.
ghost use Rattle.std.proofs.Common.{refl};
ghost use Rattle.std.specs.Prelude.{◌≡◌, ℕ, ◌≤◌, length};
ghost use Rattle.pfs_wave.specs.Private.Lanes.{HoldsBelow};

use crate::band::{BACK, Band, DOWN, HALF, ODD, PAIRS, Stored, UP};
use crate::best::first_least;
use pfs_insert::Placed;
use std::marker::PhantomData;
use std::simd::prelude::*;

/// Eight times of 32 bits.
#[derive(Clone, Copy)]
pub struct LongTimes {
    values: u32x8,
    ghost eight: { length values ≡ 8 },
}

impl Stored for LongTimes {
    ghost lanes = { λ times. times.values };

    ghost CAP = { 4294967295 };

    ghost eight = { λ times. times.eight };

    #[inline(always)]
    fn zeros() -> LongTimes {
        let values = u32x8::splat(0);
        LongTimes { values }
    }

    #[inline(always)]
    fn from_times(times: [u32; 8]) -> LongTimes {
        let values = u32x8::from_array(times);
        LongTimes { values }
    }

    #[inline(always)]
    fn extended(self) -> u32x8 {
        self.values
    }

    #[inline(always)]
    fn odd_from(self, other: LongTimes) -> LongTimes {
        let values = self.values.shuffle(other.values, ODD);
        LongTimes { values }
    }

    #[inline(always)]
    fn pairs_from(self, other: LongTimes) -> LongTimes {
        let values = self.values.shuffle(other.values, PAIRS);
        LongTimes { values }
    }

    #[inline(always)]
    fn half_from(self, other: LongTimes) -> LongTimes {
        let values = self.values.shuffle(other.values, HALF);
        LongTimes { values }
    }
}

/// Eight lanes of 32 bits. They have room for values below 2^32 - 1, and greater sums wrap.
#[derive(Clone, Copy)]
pub struct Long<T: Stored> {
    lanes: LongTimes,
    times: PhantomData<T>,
}

impl<T: Stored> Long<T> {
    #[inline(always)]
    fn of(values: u32x8) -> Long<T>
        requires { length values ≡ 8 }
        ensures { result.lanes.values ≡ values }
    {
        let lanes = LongTimes { values };
        let times = PhantomData;
        Long { lanes, times }
    }
}

impl<T: Stored> Band for Long<T> {
    type Times = T;

    type Number = u64;

    ghost lanes = { λ band. band.lanes.values };

    ghost number = { λ n. n };

    ghost Holds = { HoldsBelow 4294967295 };

    ghost itself = { λ n small. refl };

    const IN_REGISTERS: usize = 4;

    ghost eight = { λ band. band.lanes.eight };

    #[inline(always)]
    fn load(times: T) -> Long<T> {
        Long::of(times.extended())
    }

    #[inline(always)]
    fn up(self) -> Long<T> {
        Long::of(u32x8::splat(0).shuffle(self.lanes.values, UP))
    }

    #[inline(always)]
    fn down(self) -> Long<T> {
        Long::of(self.lanes.values.shuffle(u32x8::splat(0), DOWN))
    }

    #[inline(always)]
    fn greater(self, other: Long<T>) -> Long<T> {
        Long::of(self.lanes.values.simd_max(other.lanes.values))
    }

    #[inline(always)]
    fn sum(self, other: Long<T>) -> Long<T> {
        Long::of(self.lanes.values + other.lanes.values)
    }

    #[inline(always)]
    fn last(self) -> u64 {
        u64::from(self.lanes.values.to_array()[7])
    }

    #[inline(always)]
    fn reversed(self) -> [u64; 8] {
        let values = self.lanes.values.shuffle(self.lanes.values, BACK);
        values.cast::<u64>().to_array()
    }

    #[inline(always)]
    fn wide(n: u64) -> u64 {
        n
    }

    #[inline(always)]
    fn first_least(sums: &[u64]) -> Placed<u64> {
        first_least(sums)
    }
}

/// Eight lanes of 64 bits. They have room for values below 2^63 - 1, and greater sums wrap.
#[derive(Clone, Copy)]
pub struct Wide {
    values: u64x8,
    ghost eight: { length values ≡ 8 },
}

impl Band for Wide {
    type Times = LongTimes;

    type Number = u64;

    ghost lanes = { λ band. band.values };

    ghost number = { λ n. n };

    ghost Holds = { HoldsBelow 9223372036854775807 };

    ghost itself = { λ n small. refl };

    const IN_REGISTERS: usize = 2;

    ghost eight = { λ band. band.eight };

    #[inline(always)]
    fn load(times: LongTimes) -> Wide {
        let values = times.extended().cast::<u64>();
        Wide { values }
    }

    #[inline(always)]
    fn up(self) -> Wide {
        let values = u64x8::splat(0).shuffle(self.values, UP);
        Wide { values }
    }

    #[inline(always)]
    fn down(self) -> Wide {
        let values = self.values.shuffle(u64x8::splat(0), DOWN);
        Wide { values }
    }

    // A processor chooses by the sign bit of the difference.
    #[inline(always)]
    fn greater(self, other: Wide) -> Wide {
        let no_less = (self.values - other.values).simd_lt(u64x8::splat(1 << 63));
        let values = no_less.select(self.values, other.values);
        Wide { values }
    }

    #[inline(always)]
    fn sum(self, other: Wide) -> Wide {
        let values = self.values + other.values;
        Wide { values }
    }

    #[inline(always)]
    fn last(self) -> u64 {
        self.values.to_array()[7]
    }

    #[inline(always)]
    fn reversed(self) -> [u64; 8] {
        self.values.shuffle(self.values, BACK).to_array()
    }

    #[inline(always)]
    fn wide(n: u64) -> u64 {
        n
    }

    #[inline(always)]
    fn first_least(sums: &[u64]) -> Placed<u64> {
        first_least(sums)
    }
}
