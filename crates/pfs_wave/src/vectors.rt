//! What the passes do with the vectors of a step.
ghost use Rattle.std.specs.Prelude.{◌≡◌, ℕ, ◌<◌, length, map, slice_set};
ghost use Rattle.pfs_wave.specs.Private.Blocks.{vectors_of};
ghost use Rattle.pfs_wave.specs.Private.Lanes.{IsNext, IsSecond, zeros};

use crate::band::{Band, Stored};

/// A vector of zeros.
#[inline(always)]
pub fn zeros<V: Band>() -> V
    ensures { V.lanes result ≡ zeros 8 }
{
    V::load(V::Times::zeros())
}

/// The vectors of as many times as the array has.
#[inline(always)]
pub fn array_of<V: Band, const N: usize>(times: &[V::Times]) -> [V; N]
    requires { length times.now ≡ N }
    ensures length { length result ≡ N }
    ensures vectors { (k : ℕ) → k < N
        → vectors_of (map V.lanes result) k ≡ vectors_of (map V.Times.lanes times.now) k }
{
    let mut array = [zeros(); N];
    for k in 0..N {
        array[k] = V::load(times[k]);
    }
    array
}

/// The next value of each lane of a table, from the values beside and above it.
#[inline(always)]
pub fn next_value<V: Band>(beside: V, above: V, time: V) -> V
    ensures { IsNext V.Holds (V.lanes beside) (V.lanes above) (V.lanes time) (V.lanes result) }
{
    beside.greater(above).sum(time)
}

/// The value after two more vectors. It is computed from the sum of both times, and waits for `beside` by three
/// operations in place of four.
#[inline(always)]
pub fn second_value<V: Band>(beside: V, above: V, time: V, next_above: V, next_time: V) -> V
    ensures { IsSecond V.Holds (V.lanes beside) (V.lanes above) (V.lanes time) (V.lanes next_above) (V.lanes next_time)
        (V.lanes result) }
{
    let greater = beside.greater(above);
    let both = time.sum(next_time);
    let without = next_above.sum(next_time);
    greater.sum(both).greater(without)
}

/// Writes one vector of a table.
#[inline(always)]
pub fn put<T: Stored>(table: &mut [T], at: usize, vector: T)
    requires { at < length table.old }
    ensures { table.new ≡ slice_set table.old at vector }
{
    table[at] = vector;
}
