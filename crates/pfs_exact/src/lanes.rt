//! Eight lanes of 16 bits, for eight lower bounds.
ghost use Rattle.std.specs.Prelude.{◌≡◌, ℕ, ◌+◌, ◌-◌, ◌%◌, ◌<◌, ◌≤◌, length, max, min, slice_index};
ghost use Rattle.std.specs.List.{slice_index_or};
ghost use Rattle.std.specs.Simd.Lanes.{zip2};

use std::simd::prelude::*;

/// Eight lanes of 16 bits.
#[derive(Clone, Copy)]
pub(crate) struct Lanes {
    /// The values of the lanes.
    pub(crate) values: u16x8,
    pub(crate) ghost wide: { length values ≡ 8 },
}

// The greater value of each lane.
#[inline(always)]
fn greater(a: u16x8, b: u16x8) -> u16x8
    ensures { result ≡ zip2 max a b }
{
    a.simd_max(b)
}

// The lesser value of each lane.
#[inline(always)]
fn lesser(a: u16x8, b: u16x8) -> u16x8
    ensures { result ≡ zip2 min a b }
{
    a.simd_min(b)
}

// The difference of each lane, or 0 where it is negative.
#[inline(always)]
fn difference(a: u16x8, b: u16x8) -> u16x8
    ensures { result ≡ zip2 (λ x y. x - y) a b }
{
    a.saturating_sub(b)
}

// The sum of each lane, or less where it does not fit.
#[inline(always)]
fn sum(a: u16x8, b: u16x8) -> u16x8
    ensures { result ≡ zip2 (λ x y. (x + y) % 65536) a b }
{
    a + b
}

// A number that none of the lanes is less than.
#[inline(always)]
fn least_of(a: u16x8) -> u16
    requires { length a ≡ 8 }
    ensures { (lane : ℕ) → lane < 8 → result ≤ slice_index_or a lane 0 }
{
    let b = lesser(a, a.shuffle(a, [4, 5, 6, 7, 0, 1, 2, 3]));
    let c = lesser(b, b.shuffle(b, [2, 3, 0, 1, 6, 7, 4, 5]));
    let d = lesser(c, c.shuffle(c, [1, 0, 3, 2, 5, 4, 7, 6]));
    d.to_array()[0]
}

impl Lanes {
    /// The same number in each lane.
    #[inline(always)]
    pub(crate) fn splat(number: u16) -> Lanes
        ensures { (lane : ℕ) → lane < 8 → slice_index_or result.values lane 0 ≡ number }
    {
        let values = u16x8::splat(number);
        Lanes { values }
    }

    /// Eight numbers of a list.
    #[inline(always)]
    pub(crate) fn load(from: &[u16], at: usize) -> Lanes
        requires { at + 8 ≤ length from.now }
        ensures { (lane : ℕ) → lane < 8 → slice_index_or result.values lane 0 ≡ slice_index from.now (at + lane) }
    {
        let values = u16x8::from_slice(&from[at..at + 8]);
        Lanes { values }
    }

    /// Replaces eight numbers of a list.
    #[inline(always)]
    pub(crate) fn store(self, to: &mut [u16], at: usize)
        requires { at + 8 ≤ length to.old }
        ensures length { length to.new ≡ length to.old }
        ensures below { (k : ℕ) → k < at → slice_index to.new k ≡ slice_index to.old k }
        ensures here { (lane : ℕ) → lane < 8 → slice_index to.new (at + lane) ≡ slice_index_or self.values lane 0 }
    {
        self.values.copy_to_slice(&mut to[at..at + 8]);
    }

    /// The greater number of each lane.
    #[inline(always)]
    pub(crate) fn max(self, other: Lanes) -> Lanes
        ensures { (lane : ℕ) → lane < 8 → slice_index_or result.values lane 0
            ≡ max (slice_index_or self.values lane 0) (slice_index_or other.values lane 0) }
    {
        let values = greater(self.values, other.values);
        Lanes { values }
    }

    /// The lesser number of each lane.
    #[inline(always)]
    pub(crate) fn min(self, other: Lanes) -> Lanes
        ensures { (lane : ℕ) → lane < 8 → slice_index_or result.values lane 0
            ≡ min (slice_index_or self.values lane 0) (slice_index_or other.values lane 0) }
    {
        let values = lesser(self.values, other.values);
        Lanes { values }
    }

    /// The sum of each lane, or less where it does not fit.
    #[inline(always)]
    pub(crate) fn plus(self, other: Lanes) -> Lanes
        ensures { (lane : ℕ) → lane < 8 → slice_index_or result.values lane 0
            ≤ slice_index_or self.values lane 0 + slice_index_or other.values lane 0 }
    {
        let values = sum(self.values, other.values);
        Lanes { values }
    }

    /// The difference of each lane, or 0 where it is negative.
    #[inline(always)]
    pub(crate) fn minus(self, other: Lanes) -> Lanes
        ensures { (lane : ℕ) → lane < 8 → slice_index_or result.values lane 0
            ≡ slice_index_or self.values lane 0 - slice_index_or other.values lane 0 }
    {
        let values = difference(self.values, other.values);
        Lanes { values }
    }

    /// A number that none of the lanes is less than.
    #[inline(always)]
    pub(crate) fn least(self) -> u16
        ensures { (lane : ℕ) → lane < 8 → result ≤ slice_index_or self.values lane 0 }
    {
        least_of(self.values)
    }
}
