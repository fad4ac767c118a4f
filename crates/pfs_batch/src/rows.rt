//! Rows of ends, with a sequence in each lane.
ghost use Rattle.std.specs.Prelude.{◌≡◌, ℕ, ◌+◌, ◌*◌, ◌<◌, ◌≤◌, ◌^◌, length, slice_index};
ghost use Rattle.pfs_batch.specs.Private.Ends.{IsNextRow, IsZeros, time_at, values_of};

use crate::lanes::Lanes;
use crate::transpose::eight_of;

/// Where the times begin of the job that each sequence has at a place.
#[inline(always)]
pub fn starts_of(
    machines: usize,
    sequences: &[u32],
    firsts: &[usize; 8],
    place: usize,
) -> [usize; 8]
    requires machines { machines < 2 ^ 16 }
    requires firsts { (lane : ℕ) → lane < 8 → slice_index firsts.now lane + place < length sequences.now }
    ensures { (lane : ℕ) → lane < 8
        → slice_index result lane ≡ slice_index sequences.now (slice_index firsts.now lane + place) * machines }
{
    let mut starts = [0; 8];
    for lane in 0..8 {
        starts[lane] = sequences[firsts[lane] + place] as usize * machines;
    }
    starts
}

/// Sets the ends before the first row.
#[inline(always)]
pub fn clear(ends: &mut [Lanes])
    ensures length { length ends.new ≡ length ends.old }
    ensures zeros { IsZeros (length ends.old) (values_of ends.new) }
{
    for machine in 0..ends.len() {
        ends[machine] = Lanes::zeros();
    }
}

/// Replaces the ends of a row by those of the next row, whose times begin at `starts`.
#[inline(always)]
pub fn step_row(rows: &[u16], starts: &[usize; 8], blocks: usize, ends: &mut [Lanes])
    requires ends { length ends.old ≡ 8 * blocks }
    requires fits { (lane : ℕ) → lane < 8 → slice_index starts.now lane + length ends.old ≤ length rows.now }
    ensures length { length ends.new ≡ length ends.old }
    ensures ends { IsNextRow (length ends.old) (values_of ends.old) (time_at rows.now starts.now) (values_of ends.new) }
{
    let mut before = Lanes::zeros();
    for block in 0..blocks {
        let times = eight_of(rows, starts, 8 * block);
        for k in 0..8 {
            let machine = 8 * block + k;
            let time = Lanes { values: times[k] };
            before = before.end_after(ends[machine], time);
            ends[machine] = before;
        }
    }
}
