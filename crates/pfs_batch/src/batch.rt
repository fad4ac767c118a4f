//! The times of an instance in 16 bits, and makespans of many sequences.
ghost use Rattle.std.specs.Prelude.{◌≡◌, ℕ, ◌+◌, ◌-◌, ◌*◌, ◌<◌, ◌≤◌, ◌^◌, length, min, slice_index, take};
ghost use Rattle.std.specs.Prelude.{IfOk, IsTrue, MatchOption, ◌↔◌};
ghost use Rattle.std.specs.List.{All};
ghost use Rattle.pfs_base.specs.Paths.{makespan};
ghost use Rattle.pfs_order.specs.Sequence.{IsSequence};
ghost use Rattle.pfs_batch.specs.SequenceLists.{sequence_at};
ghost use Rattle.pfs_batch.specs.Private.Ends.{IsZeroFrom};

use crate::lanes::Lanes;
use crate::spans::spans_of;
use pfs_base::Instance;
use std::alloc::{AllocError, Global};
use std::marker::Model;

/// The number of sequences that are computed at once.
pub const WIDTH: usize = 8;

/// The times of an instance in 16 bits, and room for a row of eight sequences.
#[derive(Drop)]
pub struct Batch {
    jobs: usize,
    machines: usize,
    // The machines in blocks of eight, of which the last one may be incomplete.
    blocks: usize,
    // The times job by job, and zeros after them, so that the last block of each job can be read whole.
    rows: Vec<u16>,
    ends: Vec<Lanes>,
}

impl Model for Batch {
    ghost use Rattle.std.specs.Prelude.{◌≡◌, ◌+◌, ◌*◌, ◌≤◌, length, take};
    ghost use Rattle.pfs_base.specs.Limits.{limits};
    ghost use Rattle.pfs_base.specs.FlowShop.{AreSizes, FlowShop};
    ghost use Rattle.pfs_batch.specs.Private.Ends.{IsZeroFrom};

    ghost Value = { FlowShop };

    ghost view = { λ a. record {
      jobs = a.jobs;
      machines = a.machines;
      times = take (a.jobs * a.machines) a.rows.items;
    } };

    ghost invariant = { λ a. record {
      sizes : AreSizes limits a.jobs a.machines;
      blocks : a.machines ≤ 8 * a.blocks;
      rows : length a.rows.items ≡ a.jobs * a.machines + 8 * a.blocks;
      rest : IsZeroFrom (a.jobs * a.machines) a.rows.items;
      ends : length a.ends.items ≡ 8 * a.blocks;
    } };
}

// Whether all times fit in 16 bits.
fn all_fit(times: &[u32]) -> bool
    ensures { IsTrue result ↔ All (λ time. time ≤ 65535) times.now }
{
    for time in times {
        if *time > 65_535 {
            return false;
        }
    }
    true
}

// The times in 16 bits, and `rest` zeros. It allocates once.
fn rows_of(alloc: Global, times: &[u32], rest: usize) -> Result<Vec<u16>, AllocError>
    requires fit { All (λ time. time ≤ 65535) times.now }
    requires few { length times.now + rest < 2 ^ 40 }
    ensures length { IfOk result (λ rows. length rows.items ≡ length times.now + rest) }
    ensures times { IfOk result (λ rows. take (length times.now) rows.items ≡ times.now) }
    ensures rest { IfOk result (λ rows. IsZeroFrom (length times.now) rows.items) }
{
    let mut rows = vec![in alloc; 0u16; times.len() + rest]?;
    for at in 0..times.len() {
        rows[at] = times[at] as u16;
    }
    Ok(rows)
}

// Where the sequence of each lane begins, of `count` sequences from number `first` on. The other lanes repeat the last.
#[inline(always)]
fn firsts_of(first: usize, count: usize, len: usize) -> [usize; 8]
    requires count { (1 ≤ count) × (count ≤ 8) }
    requires room { (first + count) * len < 2 ^ 63 }
    requires numbers { first + count < 2 ^ 63 }
    ensures { (lane : ℕ) → lane < 8 → slice_index result lane ≡ (first + min lane (count - 1)) * len }
{
    let mut firsts = [0; 8];
    for lane in 0..8 {
        firsts[lane] = (first + lane.min(count - 1)) * len;
    }
    firsts
}

impl Batch {
    /// What computes makespans of an instance, or `None` if a time is above 65,535. It returns `AllocError` where
    /// allocation fails.
    pub fn new(alloc: Global, instance: &Instance) -> Result<Option<Batch>, AllocError>
        ensures made { IfOk result (λ made. MatchOption made
            (All (λ time. time ≤ 65535) instance.now.shop.times → ⊥) (λ batch. batch ≡ instance.now.shop)) }
    {
        if !all_fit(instance.times()) {
            return Ok(None);
        }
        let (jobs, machines) = (instance.jobs(), instance.machines());
        let blocks = machines.div_ceil(8);
        let rows = rows_of(alloc, instance.times(), 8 * blocks)?;
        let ends = vec![in alloc; Lanes::zeros(); 8 * blocks]?;
        Ok(Some(Batch {
            jobs,
            machines,
            blocks,
            rows,
            ends,
        }))
    }

    /// The makespans of at most eight sequences of a list, from number `first` on, or 65,535 where one is longer. Each
    /// has `len` jobs. Of the result, the first `count` entries are these makespans. It allocates nothing.
    pub fn spans(&mut self, sequences: &[u32], len: usize, first: usize, count: usize) -> [u16; 8]
        requires count { (1 ≤ count) × (count ≤ 8) }
        requires number { first + count < 2 ^ 63 }
        requires room { (first + count) * len ≤ length sequences.now }
        requires jobs { (index : ℕ) → index < first + count
            → IsSequence self.old.jobs (sequence_at len sequences.now index) }
        ensures spans { (lane : ℕ) → lane < count → slice_index result lane
            ≡ min (makespan self.old (sequence_at len sequences.now (first + lane))) 65535 }
        ensures shop { self.new ≡ self.old }
    {
        let firsts = firsts_of(first, count, len);
        let spans = spans_of(
            &self.rows,
            self.machines,
            sequences,
            &firsts,
            len,
            self.blocks,
            &mut self.ends,
        );
        spans.values.to_array()
    }
}
