//! The pass of the tails.
ghost use Rattle.std.specs.Prelude.{◌≡◌, ℕ, suc, ◌+◌, ◌-◌, ◌*◌, ◌<◌, ◌≤◌, ◌≢◌, ◌^◌, ◌⊎◌, length, map};
ghost use Rattle.pfs_wave.specs.Private.Blocks.{Cells, HoldCells, IsColumn, IsStep, vectors_of};
ghost use Rattle.pfs_wave.specs.Private.Lanes.{IsNext, IsSecond};
ghost use Rattle.pfs_wave.specs.Private.Payment.{AreTimesOf};
ghost use Rattle.pfs_wave.specs.Private.Recurrences.{AreTails};

use crate::band::Band;
use crate::vectors::{next_value, second_value, zeros};
use pfs_base::Permit;

// The second vector of a step, if there is one, from what the step after it leaves for the first vector.
#[inline(always)]
fn second_tail<V: Band, const N: usize>(carry: V, after: &[V], times: &[V::Times]) -> V
    requires after { length after.now ≡ N }
    requires times { length times.now ≡ N }
    ensures { 2 ≤ N → IsSecond V.Holds (V.lanes carry) (vectors_of (map V.lanes after.now) (N - 1))
        (vectors_of (map V.Times.lanes times.now) (N - 1)) (vectors_of (map V.lanes after.now) (N - 2))
        (vectors_of (map V.Times.lanes times.now) (N - 2)) (V.lanes result) }
{
    if N < 2 {
        return carry;
    }
    second_value(
        carry,
        after[N - 1],
        V::load(times[N - 1]),
        after[N - 2],
        V::load(times[N - 2]),
    )
}

// The next vector of a step, of which as many have `passed`.
#[inline(always)]
fn next_tail<V: Band>(passed: usize, second: V, tail: V, above: V, time: V) -> V
    ensures second { passed ≡ 1 → V.lanes result ≡ V.lanes second }
    ensures next { passed ≢ 1 → IsNext V.Holds (V.lanes tail) (V.lanes above) (V.lanes time) (V.lanes result) }
{
    if passed == 1 {
        second
    } else {
        next_value(tail, above, time)
    }
}

// The row that tails are computed from: the array where registers have room for it, and else the table's.
#[inline(always)]
fn chosen<'a, V: Band, const N: usize>(array: &'a [V], table: &'a [V]) -> &'a [V]
    ensures { (result.now ≡ array.now) ⊎ (result.now ≡ table.now) }
{
    if N <= V::IN_REGISTERS { array } else { table }
}

// The tails of a step, from those of the step after it, which `now` and `after` both have. `first` is the first of
// these. They are written to `now` and to `row`, and the first one is returned.
#[inline(always)]
fn step_tails<V: Band, const N: usize>(
    first: V,
    after: &[V],
    times: &[V::Times],
    now: &mut [V; N],
    row: &mut [V],
) -> V
    requires some { 1 ≤ N }
    requires after { length after.now ≡ N }
    requires times { length times.now ≡ N }
    requires row { length row.old ≡ N }
    ensures length { length now.new ≡ N }
    ensures row_length { length row.new ≡ N }
    ensures tails { (time tail : Cells) (step : ℕ) → AreTails N time tail
        → IsStep V.Holds N step time (vectors_of (map V.Times.lanes times.now))
        → IsStep V.Holds N (suc step) tail (vectors_of (map V.lanes after.now))
        → IsStep V.Holds N (suc step) tail (vectors_of (map V.lanes now.old))
        → IsColumn V.Holds N (suc step) tail 0 (V.lanes first)
        → IsStep V.Holds N step tail (vectors_of (map V.lanes now.new))
        × IsStep V.Holds N step tail (vectors_of (map V.lanes row.new))
        × IsColumn V.Holds N step tail 0 (V.lanes result) }
{
    let held = *now;
    let after = chosen::<V, N>(&held, after);
    let mut tail = first.down();
    let second = second_tail::<V, N>(tail, after, times);
    for passed in 0..N {
        let k = N - 1 - passed;
        tail = next_tail(passed, second, tail, after[k], V::load(times[k]));
        now[k] = tail;
        row[k] = tail;
    }
    tail
}

/// Fills the tails of all steps, from the last step to the first, and zeros after them. It promises those of a sequence
/// whose rows and machines have as many cells as the permit.
#[inline(never)]
pub fn fill_tails<V: Band, const N: usize>(
    permit: Permit,
    steps: usize,
    times: &[V::Times],
    tails: &mut [V],
)
    requires some { 1 ≤ N }
    requires small { steps * N + N < 2 ^ 32 }
    requires times { length times.now ≡ steps * N }
    requires tails { length tails.old ≡ steps * N + N }
    ensures length { length tails.new ≡ length tails.old }
    ensures tails { (rows machines : ℕ) (time tail : Cells) → permit ≡ rows * machines
        → AreTimesOf rows machines time → AreTails N time tail
        → ((row lane k : ℕ) → lane < 8 → k < N → row + lane ≡ steps → tail row (lane * N + k) ≡ 0)
        → HoldCells V.Holds N steps time (map V.Times.lanes times.now)
        → HoldCells V.Holds N steps tail (map V.lanes tails.new) }
{
    permit.spend();
    let mut first = zeros::<V>();
    let mut now = [first; N];
    tails[steps * N..].copy_from_slice(&now);
    for left in 0..steps {
        let at = (steps - 1 - left) * N;
        let (rows, after) = tails.split_at_mut(at + N);
        first = step_tails(
            first,
            &after[..N],
            &times[at..at + N],
            &mut now,
            &mut rows[at..],
        );
    }
}
