//! The skewed times of one sequence, made from those of the sequence before it.
ghost use Rattle.std.specs.Prelude.{◌≡◌, ◌≢◌, ◌+◌, ◌*◌, ◌<◌, ◌≤◌, ◌^◌, ◌⊎◌, length, map, take, ℕ, ◌-◌, true, List};
ghost use Rattle.std.specs.List.{All, slice_index_or};
ghost use Rattle.pfs_wave.specs.Private.HeldRows.{HoldOutside, IsHeld, IsHolding, IsKept, IsPadded};
ghost use Rattle.pfs_wave.specs.Private.HeldRows.{column, part_from, rows_at};

use crate::band::Stored;
use crate::times::{Changed, fill_times};

/// The numbers of rows of a sequence that are rows of the sequence before: at its front, and at its end.
#[derive(Clone, Copy)]
pub struct Kept {
    pub front: usize,
    pub back: usize,
}

// For a sequence of fewer jobs it is faster to skew all rows than to compare them.
const SHORT: usize = 32;

// Whether eight rows are the same. The eight comparisons take one jump.
#[inline(always)]
fn are_same(held: &[u32], seq: &[u32], a: usize, b: usize) -> bool
    requires held { a + 8 ≤ length held.now }
    requires seq { b + 8 ≤ length seq.now }
    ensures same { result ≡ true → (row : ℕ) → row < 8
        → slice_index_or held.now (a + row) 0 ≡ slice_index_or seq.now (b + row) 0 }
{
    let mut are_same = true;
    for row in 0..8 {
        are_same &= held[a + row] == seq[b + row];
    }
    are_same
}

/// The number of rows that are the same at the front, or up to seven fewer.
#[inline(always)]
pub fn common_front(held: &[u32], seq: &[u32]) -> usize
    ensures in_held { result ≤ length held.now }
    ensures in_seq { result ≤ length seq.now }
    ensures same { (row : ℕ) → row < result → slice_index_or held.now row 0 ≡ slice_index_or seq.now row 0 }
{
    let eights = held.len().min(seq.len()) / 8;
    for eight in 0..eights {
        let row = 8 * eight;
        if !are_same(held, seq, row, row) {
            return row;
        }
    }
    8 * eights
}

// The number of rows after the front that are the same at the end, or up to seven fewer.
#[inline(always)]
fn common_back(held: &[u32], seq: &[u32], front: usize) -> usize
    requires front { front ≤ length held.now }
    requires longer { length held.now ≤ length seq.now }
    ensures in_held { front + result ≤ length held.now }
    ensures same { (row : ℕ) → row < length seq.now → length seq.now ≤ row + result
        → slice_index_or held.now (row - (length seq.now - length held.now)) 0 ≡ slice_index_or seq.now row 0 }
{
    let eights = (held.len() - front) / 8;
    for eight in 0..eights {
        let left = 8 * eight + 8;
        if !are_same(held, seq, held.len() - left, seq.len() - left) {
            return 8 * eight;
        }
    }
    8 * eights
}

/// The rows of a sequence that are rows of the sequence before. A sequence that is shorter than the one before keeps
/// none at its end, and a sequence of fewer than `SHORT` jobs keeps none.
#[inline(always)]
pub fn kept_rows(held: &[u32], seq: &[u32]) -> Kept
    ensures { IsKept held.now seq.now result.front result.back }
{
    if seq.len() < SHORT {
        return Kept { front: 0, back: 0 };
    }
    let front = common_front(held, seq);
    let back = if held.len() <= seq.len() {
        common_back(held, seq, front)
    } else {
        0
    };
    Kept { front, back }
}

/// Writes the jobs of a sequence from the row `from` on, and `none` to the rows after its last job up to before `to`.
#[inline(always)]
pub fn write_rows(order: &mut [u32], seq: &[u32], none: u32, from: usize, to: usize)
    requires from { from ≤ length seq.now }
    requires longer { length seq.now ≤ to }
    requires to { to ≤ length order.old }
    requires front { (row : ℕ) → row < from → slice_index_or order.old row 0 ≡ slice_index_or seq.now row none }
    requires rest { (row : ℕ) → to ≤ row → row < length order.old
        → slice_index_or order.old row 0 ≡ slice_index_or seq.now row none }
    ensures length { length order.new ≡ length order.old }
    ensures rows { IsPadded order.new seq.now none }
{
    order[from..seq.len()].copy_from_slice(&seq[from..]);
    for row in seq.len()..to {
        order[row] = none;
    }
}

// Where the table of a new sequence begins: further to the front if fewer rows are kept at the front than at the end
// and there is room, or at `jobs` where none is left and no row at the end is kept.
#[inline(always)]
fn start_for(kept: Kept, start: usize, jobs: usize, old: usize, new: usize) -> usize
    requires start { start ≤ jobs }
    ensures within { result ≤ jobs }
    ensures moved { result ≢ start
        → (kept.back ≡ 0) ⊎ ((0 < kept.back) × (old < new) × (result + (new - old) ≡ start)) }
{
    if kept.back == 0 {
        if start == 0 { jobs } else { start }
    } else if kept.front < kept.back && old < new && new - old <= start {
        start - (new - old)
    } else {
        start
    }
}

// Moves the times of the rows that are kept to the steps of a sequence that grew from `old` to `new` jobs, whose table
// begins at the step `first`. Returns the rows that are not right yet. A step has rows of both parts up to eight steps
// after the first row that moves, so the rows at the end move from there on.
#[inline(always)]
fn move_kept<T: Stored, const N: usize>(
    table: &mut [T],
    start: usize,
    first: usize,
    old: usize,
    new: usize,
    kept: Kept,
    jobs: usize,
) -> Changed
    requires some { 1 ≤ N }
    requires kept { (kept.front + kept.back ≤ old) × (kept.front + kept.back ≤ new) }
    requires few { (old ≤ jobs) × (new ≤ jobs) }
    requires start { (start ≤ jobs) × (first ≤ jobs) }
    requires moved { first ≢ start
        → (kept.back ≡ 0) ⊎ ((0 < kept.back) × (old < new) × (first + (new - old) ≡ start)) }
    requires table { length table.old ≡ (2 * jobs + 8) * N }
    requires small { (2 * jobs + 9) * N < 2 ^ 32 }
    ensures table { length table.new ≡ length table.old }
    ensures rows { (result.from ≤ result.to) × (result.to ≤ jobs + 8) × (result.from ≤ result.end) }
    ensures held { (rows : List (List ℕ)) (order others seq : List ℕ) (k : ℕ) → k < N → length seq ≡ new
        → length others ≡ jobs + 8 → IsPadded others seq jobs → IsKept (take old order) seq kept.front kept.back
        → IsHolding N jobs rows old order (map T.lanes (part_from start (jobs + 8) N table.old))
        → HoldOutside (rows_at N rows others k) result.from result.to result.end (jobs + 8)
        (column N (map T.lanes (part_from first (jobs + 8) N table.new)) k) }
{
    let from = kept.front;
    let steps = jobs + 8;
    if first != start {
        let end = if kept.back == 0 {
            steps
        } else {
            new - kept.back + 8
        };
        table.copy_within(start * N..(start + from + 8) * N, first * N);
        return Changed { from, to: end, end };
    }
    if kept.back == 0 || new <= old {
        let to = old.max(new) - kept.back;
        return Changed {
            from,
            to,
            end: steps,
        };
    }
    let to = new - kept.back + 8;
    let begin = old - kept.back + 8;
    table.copy_within((start + begin) * N..(start + old + 8) * N, (start + to) * N);
    Changed { from, to, end: to }
}

/// A sequence of an instance's jobs, and its skewed times.
#[derive(Drop)]
pub struct Held<T: Stored> {
    // The number of jobs of the instance.
    pub jobs: usize,
    // The number of jobs of the sequence.
    pub len: usize,
    // The jobs of the sequence, and after them, for each step, the number of the vectors of zeros.
    pub order: Vec<u32>,
    // The skewed times, from the step `start` on, with room for them to begin earlier or later.
    pub times: Vec<T>,
    pub start: usize,
}

impl<T: Stored> Held<T> {
    /// Skews the times of another sequence over those of this one. Only the rows between those that are the same at the
    /// front and at the end are skewed again, and of these two parts the shorter one is moved.
    #[inline(always)]
    pub fn hold<const N: usize>(&mut self, rows: &[T], seq: &[u32])
        requires some { 1 ≤ N }
        requires rows { length rows.now ≡ self.old.jobs * N + N }
        requires small { (2 * self.old.jobs + 9) * N < 2 ^ 32 }
        requires jobs { All (λ job. job < self.old.jobs) seq.now }
        requires few { length seq.now ≤ self.old.jobs }
        requires held { IsHeld T.lanes N (map T.lanes rows.now) self.old }
        ensures jobs { self.new.jobs ≡ self.old.jobs }
        ensures sequence { take self.new.len self.new.order.items ≡ seq.now }
        ensures held { IsHeld T.lanes N (map T.lanes rows.now) self.new }
    {
        let order = self.order.as_mut_slice();
        let table = self.times.as_mut_slice();
        let kept = kept_rows(&order[..self.len], seq);
        write_rows(
            order,
            seq,
            self.jobs as u32,
            kept.front,
            self.len.max(seq.len()),
        );
        let start = start_for(kept, self.start, self.jobs, self.len, seq.len());
        let changed = move_kept::<T, N>(
            table,
            self.start,
            start,
            self.len,
            seq.len(),
            kept,
            self.jobs,
        );
        let steps = self.jobs + 8;
        let times = &mut table[start * N..(start + steps) * N];
        fill_times::<T, N>(rows, order, times, changed);
        self.start = start;
        self.len = seq.len();
    }

    /// The skewed times of the first steps.
    #[inline(always)]
    pub fn first_steps<const N: usize>(&self, steps: usize) -> &[T]
        requires some { 1 ≤ N }
        requires small { (2 * self.now.jobs + 9) * N < 2 ^ 32 }
        requires start { self.now.start ≤ self.now.jobs }
        requires room { length self.now.times.items ≡ (2 * self.now.jobs + 8) * N }
        requires steps { steps ≤ self.now.jobs + 8 }
        ensures { result.now ≡ part_from self.now.start steps N self.now.times.items }
    {
        &self.times[self.start * N..(self.start + steps) * N]
    }
}
