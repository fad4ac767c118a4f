//! Rows of heads and tails, each computed from another row of the same table.
ghost use Rattle.std.specs.Prelude.{◌≡◌, ℕ, ◌+◌, ◌*◌, ◌<◌, ◌^◌, length};
ghost use Rattle.pfs_insert.specs.Private.Counting.{Counted};
ghost use Rattle.pfs_insert.specs.Private.Rows.{AreRows, AreSameOutside, AreShort, AreValues, HasRow};
ghost use Rattle.pfs_insert.specs.Private.Rows.{in_turn, next_row, row_value, times_in_turn};

use pfs_base::{Bench, Length};
use pfs_order::Seq;

// The index, below `count`, that comes at a turn: they go from 0 on, or with `back` from the last one down.
#[inline(always)]
fn index_in_turn(count: usize, turn: usize, back: bool) -> usize
    requires { turn < count }
    ensures { result ≡ in_turn back count turn }
{
    if back { count - 1 - turn } else { turn }
}

/// Fills a job's row from another row: its heads from the heads before it or, with `back`, its tails from the tails
/// after it.
#[inline(always)]
pub(crate) fn fill_row<B: Bench>(
    bench: &mut B,
    job: usize,
    given: &[B::Span],
    row: &mut [B::Span],
    back: bool,
)
    requires job { job < (B.shop bench.old).jobs }
    requires given { length given.now ≡ (B.shop bench.old).machines }
    requires width { length row.old ≡ (B.shop bench.old).machines }
    requires short { AreShort B.Span.number given.now (B.shop bench.old).machines back }
    requires room { B.counted bench.old + (B.shop bench.old).machines < 2 ^ 64 }
    ensures row { (values : ℕ → ℕ) → AreValues B.Span.number given.now (B.shop bench.old).machines back values
        → AreValues B.Span.number row.new (B.shop bench.old).machines back
        (next_row (times_in_turn (B.shop bench.old) job back) values) }
    ensures bench { Counted (B.shop bench.old) (B.shop bench.new) (B.counted bench.old) (B.counted bench.new)
        (B.shop bench.old).machines }
{
    let machines = bench.machines();
    let mut before = bench.zero();
    for turn in 0..machines {
        let machine = index_in_turn(machines, turn, back);
        before = bench.step(job, machine, given[machine], before);
        row[machine] = before;
    }
}

/// Fills the row of `count + 1` jobs of a sequence, of heads or with `back` of tails, from the row of `count` jobs.
#[inline(always)]
fn fill_next<B: Bench>(bench: &mut B, seq: &Seq, rows: &mut [B::Span], count: usize, back: bool)
    requires few { length seq.now.jobs < (B.shop bench.old).jobs }
    requires size { seq.now.size ≡ (B.shop bench.old).jobs }
    requires count { count < length seq.now.jobs }
    requires long { length rows.old ≡ 2 * ((B.shop bench.old).jobs * (B.shop bench.old).machines) }
    requires row { HasRow B.Span.number (B.shop bench.old) rows.old back count
        (row_value (B.shop bench.old) seq.now.jobs back count) }
    requires room { B.counted bench.old + (B.shop bench.old).machines < 2 ^ 64 }
    ensures row { HasRow B.Span.number (B.shop bench.old) rows.new back (count + 1)
        (row_value (B.shop bench.old) seq.now.jobs back (count + 1)) }
    ensures kept { AreSameOutside (B.shop bench.old) rows.old rows.new back (count + 1) (count + 2) }
    ensures bench { Counted (B.shop bench.old) (B.shop bench.new) (B.counted bench.old) (B.counted bench.new)
        (B.shop bench.old).machines }
{
    let machines = bench.machines();
    let job = seq.at(index_in_turn(seq.len(), count, back));
    let next = (count + 1) * machines;
    if back {
        let (before, after) = rows.split_at_mut(rows.len() - next);
        let (_, row) = before.split_at_mut(before.len() - machines);
        fill_row(bench, job, &after[..machines], row, back);
    } else {
        let (before, after) = rows.split_at_mut(next);
        let (row, _) = after.split_at_mut(machines);
        fill_row(bench, job, &before[count * machines..], row, back);
    }
}

/// Fills the rows of heads of a sequence after the first row or, with `back`, its rows of tails before the last.
#[inline(always)]
pub(crate) fn fill_rows<B: Bench>(bench: &mut B, seq: &Seq, rows: &mut [B::Span], back: bool)
    requires few { length seq.now.jobs < (B.shop bench.old).jobs }
    requires size { seq.now.size ≡ (B.shop bench.old).jobs }
    requires long { length rows.old ≡ 2 * ((B.shop bench.old).jobs * (B.shop bench.old).machines) }
    requires zeros { HasRow B.Span.number (B.shop bench.old) rows.old back 0 (λ turn. 0) }
    requires room { B.counted bench.old + length seq.now.jobs * (B.shop bench.old).machines < 2 ^ 64 }
    ensures rows { AreRows B.Span.number (B.shop bench.old) seq.now.jobs rows.new back (length seq.now.jobs) }
    ensures kept { AreSameOutside (B.shop bench.old) rows.old rows.new back 1 (B.shop bench.old).jobs }
    ensures bench { Counted (B.shop bench.old) (B.shop bench.new) (B.counted bench.old) (B.counted bench.new)
        (length seq.now.jobs * (B.shop bench.old).machines) }
{
    for count in 0..seq.len() {
        fill_next(bench, seq, rows, count, back);
    }
}
