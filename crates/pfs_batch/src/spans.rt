//! Makespans of eight sequences.
ghost use Rattle.std.specs.Prelude.{◌≡◌, ℕ, ◌+◌, ◌*◌, ◌<◌, ◌≤◌, ◌^◌, length, slice_index};
ghost use Rattle.pfs_base.specs.Paths.{makespan};
ghost use Rattle.pfs_base.specs.FlowShop.{FlowShop};
ghost use Rattle.pfs_batch.specs.Private.Lanes.{capped};
ghost use Rattle.pfs_batch.specs.Private.Ends.{sequence_from};

use crate::lanes::Lanes;
use crate::rows::{clear, starts_of, step_row};

/// The makespans of sequences of `len` jobs, which begin at `firsts`, or 65,535 where one is longer. `rows` has the
/// times of each job, and zeros after them; `ends` is room for a row.
#[inline(never)]
pub fn spans_of(
    rows: &[u16],
    machines: usize,
    sequences: &[u32],
    firsts: &[usize; 8],
    len: usize,
    blocks: usize,
    ends: &mut [Lanes],
) -> Lanes
    requires machines { (1 ≤ machines) × (machines < 2 ^ 16) }
    requires blocks { machines ≤ 8 * blocks }
    requires firsts { (lane : ℕ) → lane < 8 → slice_index firsts.now lane + len ≤ length sequences.now }
    requires jobs { (lane place : ℕ) → lane < 8 → place < len
        → slice_index sequences.now (slice_index firsts.now lane + place) * machines + 8 * blocks ≤ length rows.now }
    requires ends { length ends.old ≡ 8 * blocks }
    ensures length { length ends.new ≡ length ends.old }
    ensures spans { (shop : FlowShop) (lane : ℕ) → shop.machines ≡ machines
        → ((at : ℕ) → slice_index shop.times at ≡ slice_index rows.now at) → lane < 8
        → slice_index result.values lane
        ≡ capped (makespan shop (sequence_from sequences.now len (slice_index firsts.now lane))) }
{
    clear(ends);
    for place in 0..len {
        let starts = starts_of(machines, sequences, firsts, place);
        step_row(rows, &starts, blocks, ends);
    }
    ends[machines - 1]
}
