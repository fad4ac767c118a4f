//! Bands of 16-bit lanes.
ghost use Rattle.std.proofs.Common.{refl};
ghost use Rattle.std.specs.Prelude.{◌≡◌, ℕ, ◌≤◌, length, min};
ghost use Rattle.std.specs.Simd.Lanes.{Each1, zip2};
ghost use Rattle.pfs_wave.specs.Private.Lanes.{capped_add};
ghost use Rattle.pfs_wave.specs.Wavefront.{HoldsCapped};

use crate::band::{BACK, Band, DOWN, HALF, ODD, PAIRS, Stored, UP};
use crate::best::first_least_key;
use pfs_insert::Placed;
use std::simd::prelude::*;

/// Eight lanes of 16 bits. Sums stop at 65,535, as the processor's do.
#[derive(Clone, Copy)]
pub struct Short {
    values: u16x8,
    ghost eight: { length values ≡ 8 },
}

// The sum of each lane, or 65,535 where the sum is greater.
#[inline(always)]
fn saturating_sum(a: u16x8, b: u16x8) -> u16x8
    ensures { result ≡ zip2 (capped_add 65535) a b }
{
    a.saturating_add(b)
}

impl Stored for Short {
    ghost lanes = { λ times. times.values };

    ghost CAP = { 65535 };

    ghost eight = { λ times. times.eight };

    #[inline(always)]
    fn zeros() -> Short {
        let values = u16x8::splat(0);
        Short { values }
    }

    #[inline(always)]
    fn from_times(times: [u32; 8]) -> Short {
        let values = u32x8::from_array(times).cast::<u16>();
        Short { values }
    }

    #[inline(always)]
    fn extended(self) -> u32x8 {
        self.values.cast::<u32>()
    }

    #[inline(always)]
    fn odd_from(self, other: Short) -> Short {
        let values = self.values.shuffle(other.values, ODD);
        Short { values }
    }

    #[inline(always)]
    fn pairs_from(self, other: Short) -> Short {
        let values = self.values.shuffle(other.values, PAIRS);
        Short { values }
    }

    #[inline(always)]
    fn half_from(self, other: Short) -> Short {
        let values = self.values.shuffle(other.values, HALF);
        Short { values }
    }
}

impl Band for Short {
    type Times = Short;

    type Number = u16;

    ghost lanes = { λ band. band.values };

    ghost number = { λ n. n };

    ghost Holds = { HoldsCapped 65535 };

    ghost itself = { λ n. refl };

    const IN_REGISTERS: usize = 8;

    ghost eight = { λ band. band.eight };

    #[inline(always)]
    fn load(times: Short) -> Short {
        times
    }

    #[inline(always)]
    fn up(self) -> Short {
        let values = u16x8::splat(0).shuffle(self.values, UP);
        Short { values }
    }

    #[inline(always)]
    fn down(self) -> Short {
        let values = self.values.shuffle(u16x8::splat(0), DOWN);
        Short { values }
    }

    #[inline(always)]
    fn greater(self, other: Short) -> Short {
        let values = self.values.simd_max(other.values);
        Short { values }
    }

    #[inline(always)]
    fn sum(self, other: Short) -> Short {
        let values = saturating_sum(self.values, other.values);
        Short { values }
    }

    #[inline(always)]
    fn last(self) -> u16 {
        self.values.to_array()[7]
    }

    #[inline(always)]
    fn reversed(self) -> [u16; 8] {
        self.values.shuffle(self.values, BACK).to_array()
    }

    #[inline(always)]
    fn wide(n: u16) -> u64 {
        u64::from(n)
    }

    #[inline(always)]
    fn first_least(sums: &[u16]) -> Placed<u64> {
        first_least_key(sums)
    }
}
