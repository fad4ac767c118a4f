//! Bands of eight lanes.
ghost use Rattle.std.specs.Prelude.{◌≡◌, ℕ, ◌+◌, ◌-◌, ◌<◌, ◌≤◌, ◌^◌, ◌∷◌, [], ◌++◌, List, length, map, max};
ghost use Rattle.std.specs.Prelude.{take, drop};
ghost use Rattle.std.specs.List.{All, slice_index_or};
ghost use Rattle.pfs_wave.specs.Private.Lanes.{Holding, IsEach, zeros};
ghost use Rattle.pfs_wave.specs.Private.Least.{IsLeastSoFar};

use pfs_insert::Placed;
use std::simd::prelude::*;

// The lanes that a shuffle of two bands takes, of 0 to 7 in the first and 8 to 15 in the second: those that move up and
// down, the three blends, and those from the last to the first.
pub const UP: [usize; 8] = [7, 8, 9, 10, 11, 12, 13, 14];

pub const DOWN: [usize; 8] = [1, 2, 3, 4, 5, 6, 7, 8];

pub const ODD: [usize; 8] = [0, 9, 2, 11, 4, 13, 6, 15];

pub const PAIRS: [usize; 8] = [0, 1, 10, 11, 4, 5, 14, 15];

pub const HALF: [usize; 8] = [0, 1, 2, 3, 12, 13, 14, 15];

pub const BACK: [usize; 8] = [7, 6, 5, 4, 3, 2, 1, 0];

/// Eight times, as rows and skewed times have them: in few bits, so that long tables take less memory.
pub trait Stored: Copy + Drop {
    /// The times.
    ghost lanes: { Self → List ℕ };

    /// The greatest time that fits.
    ghost CAP: { ℕ };

    /// Times of 0.
    fn zeros() -> Self
        ensures { lanes result ≡ zeros 8 };

    /// These times.
    fn from_times(times: [u32; 8]) -> Self
        requires { All (λ time. time ≤ CAP) times }
        ensures { lanes result ≡ times };

    /// The times in 32 bits.
    fn extended(self) -> u32x8
        ensures { result ≡ lanes self };

    /// The odd lanes of `other`, and the even lanes of `self`.
    fn odd_from(self, other: Self) -> Self
        ensures { lanes result
            ≡ slice_index_or (lanes self) 0 0 ∷ slice_index_or (lanes other) 1 0
            ∷ slice_index_or (lanes self) 2 0 ∷ slice_index_or (lanes other) 3 0
            ∷ slice_index_or (lanes self) 4 0 ∷ slice_index_or (lanes other) 5 0
            ∷ slice_index_or (lanes self) 6 0 ∷ slice_index_or (lanes other) 7 0 ∷ [] };

    /// Lanes 2, 3, 6 and 7 of `other`, and the other lanes of `self`.
    fn pairs_from(self, other: Self) -> Self
        ensures { lanes result
            ≡ slice_index_or (lanes self) 0 0 ∷ slice_index_or (lanes self) 1 0
            ∷ slice_index_or (lanes other) 2 0 ∷ slice_index_or (lanes other) 3 0
            ∷ slice_index_or (lanes self) 4 0 ∷ slice_index_or (lanes self) 5 0
            ∷ slice_index_or (lanes other) 6 0 ∷ slice_index_or (lanes other) 7 0 ∷ [] };

    /// The last four lanes of `other`, and the first four of `self`.
    fn half_from(self, other: Self) -> Self
        ensures { lanes result
            ≡ slice_index_or (lanes self) 0 0 ∷ slice_index_or (lanes self) 1 0
            ∷ slice_index_or (lanes self) 2 0 ∷ slice_index_or (lanes self) 3 0
            ∷ slice_index_or (lanes other) 4 0 ∷ slice_index_or (lanes other) 5 0
            ∷ slice_index_or (lanes other) 6 0 ∷ slice_index_or (lanes other) 7 0 ∷ [] };

    ghost eight: { (times : Self) → length (lanes times) ≡ 8 };
}

/// Eight lanes, each with a number that holds a value. Where the lanes have no room for a value, the number may be
/// another one.
pub trait Band: Copy + Drop {
    /// Eight times, in the size in which they are kept.
    type Times: Stored;

    /// The number of a lane.
    type Number: Copy + Drop;

    /// The values of the lanes.
    ghost lanes: { Self → List ℕ };

    /// The value of a number.
    ghost number: { Self.Number → ℕ };

    /// That a number holds a value.
    ghost Holds: { Holding };

    /// Each number holds itself.
    ghost itself: { (n : ℕ) → Holds n n };

    /// The number of vectors up to which a pass keeps those of a step in registers.
    const IN_REGISTERS: usize;

    /// A band of kept times.
    fn load(times: Self::Times) -> Self
        ensures { lanes result ≡ Self.Times.lanes times };

    /// Moves each lane to the next one. Lane 0 is 0.
    fn up(self) -> Self
        ensures { lanes result ≡ 0 ∷ take 7 (lanes self) };

    /// Moves each lane to the one before it. The last lane is 0.
    fn down(self) -> Self
        ensures { lanes result ≡ drop 1 (lanes self) ++ (0 ∷ []) };

    /// The greater value of each lane.
    fn greater(self, other: Self) -> Self
        ensures { IsEach Holds max (lanes self) (lanes other) (lanes result) };

    /// The sum of each lane.
    fn sum(self, other: Self) -> Self
        ensures { IsEach Holds (λ a b. a + b) (lanes self) (lanes other) (lanes result) };

    /// The number of the last lane.
    fn last(self) -> Self::Number
        ensures { number result ≡ slice_index_or (lanes self) 7 0 };

    /// The numbers of the lanes, from the last lane to the first.
    fn reversed(self) -> [Self::Number; 8]
        ensures { (lane : ℕ) → lane < 8 → slice_index_or (map number result) (7 - lane) 0
            ≡ slice_index_or (lanes self) lane 0 };

    /// The same number with 64 bits.
    fn wide(n: Self::Number) -> u64
        ensures { result ≡ number n };

    /// The first place of the least sum, and that sum.
    fn first_least(sums: &[Self::Number]) -> Placed<u64>
        requires some { 1 ≤ length sums.now }
        requires few { length sums.now ≤ 2 ^ 16 }
        ensures { IsLeastSoFar (λ place. slice_index_or (map number sums.now) place 0) (length sums.now)
            result.place result.span };

    ghost eight: { (band : Self) → length (lanes band) ≡ 8 };
}
