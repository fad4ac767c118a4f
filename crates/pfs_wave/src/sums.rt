//! The pass of the heads, the inserted rows and the sums.
ghost use Rattle.std.specs.Prelude.{◌≡◌, ℕ, suc, ◌+◌, ◌-◌, ◌*◌, ◌<◌, ◌≤◌, ◌^◌, length, map, min};
ghost use Rattle.std.specs.List.{slice_index_or};
ghost use Rattle.pfs_wave.specs.Private.Blocks.{AreTimes, HoldCells, IsNoneBefore, IsRow, IsStep, vectors_of};
ghost use Rattle.pfs_wave.specs.Private.Payment.{AreTimesOf, IsNoneFrom};
ghost use Rattle.pfs_wave.specs.Private.Recurrences.{AreSummed, AreTables, TablesOfCells};

use crate::band::Band;
use crate::vectors::{array_of, next_value, zeros};
use pfs_base::{Paid, Permit};

/// What the last vector of a step leaves for the first vector of the next step.
#[derive(Drop)]
struct Carry<V: Band> {
    inserted: V,
    sum: V,
}

// The heads of a step, in place of those of the step before it, and the last vector of its inserted rows and of its
// sums.
#[inline(always)]
fn step_sums<V: Band, const N: usize>(
    heads: &mut [V; N],
    before: &Carry<V>,
    times: &[V::Times],
    tails: &[V],
    job: &[V; N],
) -> Carry<V>
    requires some { 1 ≤ N }
    requires times { length times.now ≡ N }
    requires tails { length tails.now ≡ N }
    ensures length { length heads.new ≡ N }
    ensures cells { (t : TablesOfCells) (rows step : ℕ) → AreTables rows t
        → IsStep V.Holds N step t.time (vectors_of (map V.Times.lanes times.now))
        → IsNoneBefore N step (vectors_of (map V.Times.lanes times.now))
        → IsStep V.Holds N step t.tail (vectors_of (map V.lanes tails.now))
        → IsRow N t.job (vectors_of (map V.lanes job.now))
        → AreSummed V.Holds N rows step t (vectors_of (map V.lanes heads.old)) (V.lanes before.now.inserted)
        (V.lanes before.now.sum)
        → AreSummed V.Holds N rows (suc step) t (vectors_of (map V.lanes heads.new)) (V.lanes result.inserted)
        (V.lanes result.sum) }
{
    let mut inserted = before.inserted.up();
    let mut sum = before.sum.up();
    let mut head = heads[N - 1].up();
    for k in 0..N {
        let above = heads[k];
        inserted = next_value(inserted, above, job[k]);
        sum = sum.greater(inserted.sum(tails[k]));
        head = next_value(head, above, V::load(times[k]));
        heads[k] = head;
    }
    Carry { inserted, sum }
}

/// Computes the heads, the inserted rows and the sums of all steps, and keeps the sum of each place. The sum of a place
/// comes to the last lane seven steps after that of the place; those of the last places are in other lanes after the
/// last step, and have fewer machines. It promises the sums of an insertion whose heads, inserted rows and sums are as
/// many cells as the permit has.
#[inline(never)]
pub fn fill_sums<V: Band, const N: usize>(
    permit: Permit,
    steps: usize,
    times: &[V::Times],
    tails: &[V],
    job: &[V::Times],
    sums: &mut [V::Number],
) -> Paid
    requires paid { 1 ≤ permit }
    requires some { 1 ≤ N }
    requires steps { 1 ≤ steps }
    requires small { steps * N + N < 2 ^ 32 }
    requires times { length times.now ≡ steps * N }
    requires tails { steps * N ≤ length tails.now }
    requires job { length job.now ≡ N }
    requires sums { length sums.old ≡ steps + 7 }
    ensures length { length sums.new ≡ length sums.old }
    ensures sums { (t : TablesOfCells) (rows machines : ℕ) → permit ≡ (3 * rows + 2) * machines
        → AreTimesOf rows machines t.time → IsNoneFrom machines t.job → AreTables rows t
        → AreTimes V.Holds N steps t.time (map V.Times.lanes times.now)
        → HoldCells V.Holds N steps t.tail (map V.lanes tails.now)
        → IsRow N t.job (vectors_of (map V.Times.lanes job.now)) → (place : ℕ) → place ≤ rows → place < steps
        → V.Holds (slice_index_or (map V.number sums.new) (place + 7) 0) (t.sum place (min 8 (steps - place) * N)) }
{
    let zero = zeros::<V>();
    let mut heads = [zero; N];
    let job = array_of::<V, N>(job);
    let mut carry = Carry {
        inserted: zero,
        sum: zero,
    };
    for step in 0..steps {
        let at = step * N;
        carry = step_sums(
            &mut heads,
            &carry,
            &times[at..at + N],
            &tails[at..at + N],
            &job,
        );
        sums[step] = carry.sum.last();
    }
    sums[steps - 1..steps + 7].copy_from_slice(&carry.sum.reversed());
    permit.pay()
}
