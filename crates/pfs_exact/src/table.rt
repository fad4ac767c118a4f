//! The times of an instance in 16 bits, eight jobs at a time, and room for the bounds of all children of a node.
ghost use Rattle.std.specs.Prelude.{◌≡◌, ℕ, ◌+◌, ◌*◌, ◌<◌, ◌≤◌, true, length, IfOk};
ghost use Rattle.std.specs.List.{All, slice_index_or};
ghost use Rattle.pfs_base.specs.FlowShop.{time_of};
ghost use Rattle.pfs_exact.specs.Private.Blocks.{HasTimes, IsTable};

use crate::lanes::Lanes;
use crate::prove::{MOST_PROVED_JOBS, MOST_PROVED_MACHINES};
use pfs_base::Instance;
use std::alloc::{AllocError, Global};
use std::simd::prelude::*;

/// The number of a job in 16 bits that is at an end.
pub(crate) const SHUT: u16 = 65_535;

/// The times of an instance in 16 bits, and room for the bounds of all children of a node.
#[derive(Drop)]
pub(crate) struct Table {
    /// The jobs in blocks of eight, of which the last one may be incomplete; or no block if a bound could be too great
    /// for 16 bits.
    pub(crate) blocks: usize,
    /// Of each block the times on machine after machine, with room for 64 machines.
    pub(crate) times: Vec<Lanes>,
    /// What a node has of each machine, in each lane: the starts, the rests, the least times, and the times of the jobs
    /// between with the rests and with the starts.
    pub(crate) starts: Vec<Lanes>,
    pub(crate) rests: Vec<Lanes>,
    pub(crate) least: Vec<Lanes>,
    pub(crate) ahead: Vec<Lanes>,
    pub(crate) behind: Vec<Lanes>,
    /// Of each job, whether it is at an end, and the bounds of the children that have it after the first jobs or before
    /// the last.
    pub(crate) shut: Vec<u16>,
    pub(crate) bounds: Vec<u16>,
    pub(crate) others: Vec<u16>,
}

// Whether no time is above a limit of 16 bits.
fn all_within(times: &[u32], limit: u32) -> bool
    requires { limit ≤ 65535 }
    ensures { result ≡ true → All (λ time. time ≤ 65535) times.now }
{
    for time in times {
        if *time > limit {
            return false;
        }
    }
    true
}

// The time of a job on a machine if there is such a job and it fits.
fn short_time(instance: &Instance, job: usize, machine: usize) -> u16
    requires { machine < instance.now.shop.machines }
    ensures { All (λ time. time ≤ 65535) instance.now.shop.times → job < instance.now.shop.jobs
        → result ≡ time_of instance.now.shop job machine }
{
    if job < instance.jobs() {
        instance.time(job, machine).min(65_535) as u16
    } else {
        0
    }
}

// The times of eight jobs on a machine.
fn eight_times(instance: &Instance, first: usize, machine: usize) -> Lanes
    requires machine { machine < instance.now.shop.machines }
    requires few { first + 8 < 65536 }
    ensures { All (λ time. time ≤ 65535) instance.now.shop.times → (lane : ℕ) → lane < 8
        → first + lane < instance.now.shop.jobs
        → slice_index_or result.values lane 0 ≡ time_of instance.now.shop (first + lane) machine }
{
    let values = u16x8::from_array([
        short_time(instance, first, machine),
        short_time(instance, first + 1, machine),
        short_time(instance, first + 2, machine),
        short_time(instance, first + 3, machine),
        short_time(instance, first + 4, machine),
        short_time(instance, first + 5, machine),
        short_time(instance, first + 6, machine),
        short_time(instance, first + 7, machine),
    ]);
    Lanes { values }
}

// The times of the jobs in blocks of eight.
fn times_of(alloc: Global, instance: &Instance, blocks: usize) -> Result<Vec<Lanes>, AllocError>
    requires machines { instance.now.shop.machines ≤ MOST_PROVED_MACHINES }
    requires few { blocks ≤ 64 }
    ensures length { IfOk result (λ times. length times.items ≡ 64 * blocks) }
    ensures times { IfOk result (λ times. All (λ time. time ≤ 65535) instance.now.shop.times
        → HasTimes instance.now.shop blocks times.items) }
{
    let mut times = vec![in alloc; Lanes::splat(0); 64 * blocks]?;
    for block in 0..blocks {
        for machine in 0..instance.machines() {
            times[64 * block + machine] = eight_times(instance, 8 * block, machine);
        }
    }
    Ok(times)
}

// The number of blocks. No number that the search computes is above the number of jobs and machines times the longest
// time, so there are blocks if that is below 2^16.
fn blocks_of(instance: &Instance) -> usize
    requires jobs { instance.now.shop.jobs ≤ MOST_PROVED_JOBS }
    requires machines { instance.now.shop.machines ≤ MOST_PROVED_MACHINES }
    ensures few { result ≤ 64 }
    ensures all { 1 ≤ result → instance.now.shop.jobs ≤ 8 * result }
    ensures short { 1 ≤ result → All (λ time. time ≤ 65535) instance.now.shop.times }
{
    let limit = 65_535 / (instance.jobs() + instance.machines()) as u32;
    if all_within(instance.times(), limit) {
        instance.jobs().div_ceil(8)
    } else {
        0
    }
}

impl Table {
    /// The table of an instance.
    pub(crate) fn new(alloc: Global, instance: &Instance) -> Result<Table, AllocError>
        requires jobs { instance.now.shop.jobs ≤ MOST_PROVED_JOBS }
        requires machines { instance.now.shop.machines ≤ MOST_PROVED_MACHINES }
        ensures { IfOk result (λ table. IsTable instance.now.shop table) }
    {
        let machines = instance.machines();
        let blocks = blocks_of(instance);
        let zeros = Lanes::splat(0);
        Ok(Table {
            blocks,
            times: times_of(alloc, instance, blocks)?,
            starts: vec![in alloc; zeros; machines]?,
            rests: vec![in alloc; zeros; machines]?,
            least: vec![in alloc; zeros; machines]?,
            ahead: vec![in alloc; zeros; machines]?,
            behind: vec![in alloc; zeros; machines]?,
            shut: vec![in alloc; SHUT; 8 * blocks]?,
            bounds: vec![in alloc; SHUT; 8 * blocks]?,
            others: vec![in alloc; SHUT; 8 * blocks]?,
        })
    }
}
