//! The skewed times of a sequence: at each step, lane l of vector k has lane l of vector k of the row that is l rows
//! back. Each of the vectors is skewed on its own.
ghost use Rattle.std.specs.Prelude.{◌≡◌, ℕ, suc, ◌+◌, ◌-◌, ◌*◌, ◌<◌, ◌≤◌, ◌^◌, length, map, min};
ghost use Rattle.std.specs.List.{All};
ghost use Rattle.pfs_wave.specs.Private.HeldRows.{HoldLanes, HoldOutside, column, rows_at};
ghost use Rattle.pfs_wave.specs.Private.Blending.{AreBlends, past_at};
ghost use Rattle.pfs_wave.specs.Private.SkewedBand.{IsFilled};

use crate::band::Stored;
use crate::blends::Blends;
use crate::vectors::put;

/// The rows from `from` to before `to`, at the steps before `end`.
#[derive(Clone, Copy)]
pub struct Changed {
    pub from: usize,
    pub to: usize,
    pub end: usize,
}

// Vector k of a row of the sequence.
#[inline(always)]
fn vector_of<T: Stored, const N: usize>(rows: &[T], order: &[u32], row: usize, k: usize) -> T
    requires jobs { All (λ job. job * N + N ≤ length rows.now) order.now }
    requires k { k < N }
    requires row { row < length order.now }
    ensures { T.lanes result ≡ rows_at N (map T.lanes rows.now) order.now k row }
{
    rows[order[row] as usize * N + k]
}

// What the blends keep of the rows before a row. They need at most seven of these.
#[inline(always)]
fn blends_before<T: Stored, const N: usize>(
    rows: &[T],
    order: &[u32],
    row: usize,
    k: usize,
) -> Blends<T>
    requires jobs { All (λ job. job * N + N ≤ length rows.now) order.now }
    requires k { k < N }
    requires row { row ≤ length order.now }
    ensures { AreBlends T.lanes (past_at (rows_at N (map T.lanes rows.now) order.now k) row) result }
{
    let mut last = Blends::none();
    for earlier in row.saturating_sub(7)..row {
        last = last.push(vector_of::<T, N>(rows, order, earlier, k)).next;
    }
    last
}

// The row before which vectors are filled, of at most `room` rows. The steps of the seven rows after those that changed
// contain these too. The number of rows is rounded up to fours where there is room: then no row is left after the turns
// of the loop, whose number seldom changes from one sequence to the next.
#[inline(always)]
fn filled_end(changed: Changed, room: usize) -> usize
    requires from { changed.from ≤ changed.to }
    requires steps { changed.from ≤ changed.end }
    requires room { changed.from ≤ room }
    requires few { changed.to + 10 < 2 ^ 64 }
    ensures from { changed.from ≤ result }
    ensures enough { min (min changed.to changed.end + 7) room ≤ result }
    ensures within { result ≤ room }
{
    let to = changed.to.min(changed.end);
    let end = (to + 7).min(room);
    let fours = changed.from + (end - changed.from + 3) / 4 * 4;
    if fours <= room { fours } else { end }
}

// Fills vector k of the steps of `count` rows. The blends are of the rows before them, and then also of these.
#[inline(always)]
fn fill_some<T: Stored, const N: usize>(
    rows: &[T],
    order: &[u32],
    times: &mut [T],
    row: usize,
    count: usize,
    k: usize,
    mut last: Blends<T>,
) -> Blends<T>
    requires jobs { All (λ job. job * N + N ≤ length rows.now) order.now }
    requires k { k < N }
    requires row { row + count ≤ length order.now }
    requires small { length order.now * N + N < 2 ^ 32 }
    requires steps { length times.old ≡ length order.now * N }
    requires last { AreBlends T.lanes (past_at (rows_at N (map T.lanes rows.now) order.now k) row) last }
    ensures filled { IsFilled N k (rows_at N (map T.lanes rows.now) order.now k) row (row + count)
        (map T.lanes times.old) (map T.lanes times.new) }
    ensures next { AreBlends T.lanes (past_at (rows_at N (map T.lanes rows.now) order.now k) (row + count)) result }
{
    for step in 0..count {
        let one = last.push(vector_of::<T, N>(rows, order, row + step, k));
        put(times, (row + step) * N + k, one.row);
        last = one.next;
    }
    last
}

// Fills vector k of the steps from `from` to before `to`, four in a turn: the compiler unrolls these. After as many the
// blends are back in the same registers, and none is copied.
#[inline(always)]
fn fill_vectors<T: Stored, const N: usize>(
    rows: &[T],
    order: &[u32],
    times: &mut [T],
    from: usize,
    to: usize,
    k: usize,
)
    requires jobs { All (λ job. job * N + N ≤ length rows.now) order.now }
    requires k { k < N }
    requires from { from ≤ to }
    requires room { to ≤ length order.now }
    requires small { length order.now * N + N < 2 ^ 32 }
    requires steps { length times.old ≡ length order.now * N }
    ensures filled { IsFilled N k (rows_at N (map T.lanes rows.now) order.now k) from to (map T.lanes times.old)
        (map T.lanes times.new) }
{
    let mut last = blends_before::<T, N>(rows, order, from, k);
    let turns = (to - from) / 4;
    for turn in 0..turns {
        last = fill_some::<T, N>(rows, order, times, from + 4 * turn, 4, k, last);
    }
    let rest = (to - from) % 4;
    fill_some::<T, N>(rows, order, times, to - rest, rest, k, last);
}

/// Skews the rows of a sequence that changed. The other rows are skewed already.
#[inline(never)]
pub fn fill_times<T: Stored, const N: usize>(
    rows: &[T],
    order: &[u32],
    times: &mut [T],
    changed: Changed,
)
    requires jobs { All (λ job. job * N + N ≤ length rows.now) order.now }
    requires from { changed.from ≤ changed.to }
    requires to { changed.to ≤ length order.now }
    requires end { changed.from ≤ changed.end }
    requires small { length order.now * N + N < 2 ^ 32 }
    requires steps { length times.old ≡ length order.now * N }
    ensures steps { length times.new ≡ length times.old }
    ensures held { (k : ℕ) → k < N
        → HoldOutside (rows_at N (map T.lanes rows.now) order.now k) changed.from changed.to changed.end
        (length order.now) (column N (map T.lanes times.old) k)
        → HoldLanes (rows_at N (map T.lanes rows.now) order.now k) (length order.now)
        (column N (map T.lanes times.new) k) }
{
    let end = filled_end(changed, order.len());
    for k in 0..N {
        fill_vectors::<T, N>(rows, order, times, changed.from, end, k);
    }
}
