//! Rows of heads: when each machine is done with the first jobs of a sequence.
ghost use Rattle.std.specs.Prelude.{◌≡◌, ℕ, ◌+◌, ◌<◌, ◌≤◌, length, max, slice_index};
ghost use Rattle.std.specs.List.{All};
ghost use Rattle.pfs_base.specs.FlowShop.{time_of};
ghost use Rattle.pfs_base.specs.Heads.{AreHeads};
ghost use Rattle.pfs_base.specs.Paths.{makespan};

use crate::bench::SPAN_MAX;
use crate::instance::Instance;
use crate::limits::MOST_MACHINES;

/// The processing times of a job, machine by machine.
#[inline(always)]
pub fn times_of(instance: &Instance, job: usize) -> &[u32]
    requires { job < instance.now.shop.jobs }
    ensures long { length result.now ≡ instance.now.shop.machines }
    ensures each { (machine : ℕ) → machine < instance.now.shop.machines
        → slice_index result.now machine ≡ time_of instance.now.shop job machine }
{
    let machines = instance.machines();
    let first = job * machines;
    &instance.times()[first..first + machines]
}

/// The greater of two lengths, plus a time. They are compared as signed numbers, since x86-64 selects by that order in
/// one step (`cmovg`), and by the order of unsigned numbers in two (`cmova`).
#[inline(always)]
pub fn end_after(a: u64, b: u64, time: u32) -> u64
    requires { (a ≤ SPAN_MAX) × (b ≤ SPAN_MAX) }
    ensures { result ≡ max a b + time }
{
    let start = if (a as i64) < (b as i64) { b } else { a };
    start + u64::from(time)
}

/// Adds the job at a place of a sequence to the heads of the jobs before it.
#[inline(always)]
pub fn add_head(instance: &Instance, sequence: &[u32], place: usize, heads: &mut [u64])
    requires jobs { All (λ job. job < instance.now.shop.jobs) sequence.now }
    requires few { length sequence.now ≤ instance.now.shop.jobs }
    requires place { place < length sequence.now }
    requires heads { AreHeads instance.now.shop sequence.now place heads.old }
    ensures { AreHeads instance.now.shop sequence.now (place + 1) heads.new }
{
    let machines = instance.machines();
    let times = times_of(instance, sequence[place] as usize);
    let mut before = 0;
    for machine in 0..machines {
        before = end_after(heads[machine], before, times[machine]);
        heads[machine] = before;
    }
}

// Adds two jobs. The cells of both wait for different cells, so the processor computes both at once.
#[inline(always)]
fn add_two_heads(instance: &Instance, sequence: &[u32], place: usize, heads: &mut [u64])
    requires jobs { All (λ job. job < instance.now.shop.jobs) sequence.now }
    requires few { length sequence.now ≤ instance.now.shop.jobs }
    requires place { place + 1 < length sequence.now }
    requires heads { AreHeads instance.now.shop sequence.now place heads.old }
    ensures { AreHeads instance.now.shop sequence.now (place + 2) heads.new }
{
    let machines = instance.machines();
    let times = times_of(instance, sequence[place] as usize);
    let times_after = times_of(instance, sequence[place + 1] as usize);
    let mut before = 0;
    let mut before_after = 0;
    for machine in 0..machines {
        before = end_after(heads[machine], before, times[machine]);
        before_after = end_after(before, before_after, times_after[machine]);
        heads[machine] = before_after;
    }
}

/// The makespan of a sequence.
#[inline(never)]
pub fn span_of(instance: &Instance, sequence: &[u32]) -> u64
    requires jobs { All (λ job. job < instance.now.shop.jobs) sequence.now }
    requires few { length sequence.now ≤ instance.now.shop.jobs }
    ensures { result ≡ makespan instance.now.shop sequence.now }
{
    // It is compiled once. A copy whose jumps cross a boundary of 32 bytes would take up to 1.6 of the time.
    let machines = instance.machines();
    let mut heads = [0; MOST_MACHINES];
    let len = sequence.len();
    for pair in 0..len / 2 {
        add_two_heads(instance, sequence, 2 * pair, &mut heads);
    }
    if len % 2 == 1 {
        add_head(instance, sequence, len - 1, &mut heads);
    }
    heads[machines - 1]
}
