//! A number that no order is shorter than, by two machines.
ghost use Rattle.std.specs.Prelude.{suc, ◌-◌, ◌<◌, ◌≤◌, length, IfOk, vec_capacity};
ghost use Rattle.std.specs.List.{sum_by};
ghost use Rattle.pfs_order.specs.Sequence.{all_jobs};
ghost use Rattle.pfs_audit.specs.Bound.{bound_of, IsLowerBound};
ghost use Rattle.pfs_audit.specs.Sums.{AreSums};
ghost use Rattle.pfs_exact.specs.Private.Nodes.{AreAcross, IsThrough};
ghost use Rattle.pfs_exact.specs.Private.Lags.{AreLags, shorter_of};

use crate::node::plus;
use pfs_audit::{Sums, bound, sums_of};
use pfs_base::{Instance, MOST_JOBS};
use std::alloc::{AllocError, Global};
use std::cmp::Reverse;

/// A lower bound of the makespan of every order of all jobs, in the instance's own unit of time. It is the greatest of the
/// bound of `pfs_audit` and of the bounds of all pairs of machines: the least time of a job before the first one, the least
/// time from there through all jobs to the end on the second, where each machine between has room for all jobs at once,
/// and the least time of a job after it (Johnson 1954; Lageweg, Lenstra and Rinnooy Kan 1978). Jobs are sorted twice for
/// each pair. The only error is that memory for one entry of each job could not be allocated.
pub fn bound_by_pairs(alloc: Global, instance: &Instance) -> Result<u64, AllocError>
    ensures low { IfOk result (λ number. IsLowerBound instance.now.shop number) }
    ensures raised { IfOk result (λ number. bound_of instance.now.shop ≤ number) }
{
    let mut lags = Vec::with_capacity(alloc, instance.jobs())?;
    let sums = sums_of(instance);
    let mut most = bound(instance);
    for first in 0..instance.machines() {
        most = most.max(bound_from(instance, &sums, first, &mut lags));
    }
    Ok(most)
}

// The greatest bound of a machine with a later one.
fn bound_from(
    instance: &Instance,
    sums: &Sums,
    first: usize,
    lags: &mut Vec<(Reverse<u64>, usize)>,
) -> u64
    requires first { first < instance.now.shop.machines }
    requires sums { AreSums instance.now.shop sums.now }
    requires room { instance.now.shop.jobs ≤ vec_capacity lags.old }
    ensures low { IsLowerBound instance.now.shop result }
    ensures room { vec_capacity lags.old ≤ vec_capacity lags.new }
{
    let mut across = [0; MOST_JOBS];
    extend(instance, first, first, &mut across);
    let mut most: u64 = 0;
    for second in first + 1..instance.machines() {
        extend(instance, first, second, &mut across);
        let through = through_all(instance, &across, first, second, lags);
        most = most.max(plus(plus(sums.before[first], through), sums.after[second]));
    }
    most
}

// Adds the jobs' times on a machine to those on the machines from `first` to before it.
fn extend(instance: &Instance, first: usize, machine: usize, across: &mut [u64; MOST_JOBS])
    requires first { first ≤ machine }
    requires machine { machine < instance.now.shop.machines }
    requires across { AreAcross instance.now.shop first (machine - first) across.old }
    ensures { AreAcross instance.now.shop first (suc (machine - first)) across.new }
{
    for job in 0..instance.jobs() {
        across[job] = plus(across[job], u64::from(instance.time(job, machine)));
    }
}

// A time that all jobs take at least from the first start on one machine to the last end on a later one. A job has the
// time `across` on the machines from the one to the other.
fn through_all(
    instance: &Instance,
    across: &[u64; MOST_JOBS],
    first: usize,
    second: usize,
    lags: &mut Vec<(Reverse<u64>, usize)>,
) -> u64
    requires order { first < second }
    requires second { second < instance.now.shop.machines }
    requires across { AreAcross instance.now.shop first (suc (second - first)) across.now }
    requires room { instance.now.shop.jobs ≤ vec_capacity lags.old }
    ensures through { IsThrough instance.now.shop first second result }
    ensures room { vec_capacity lags.old ≤ vec_capacity lags.new }
{
    let ahead = through_any(instance, across, first, second, lags);
    let behind = through_any(instance, across, second, first, lags);
    ahead.max(behind)
}

// Such a time by a job that passes from the one machine to the other, as if of the jobs with a shorter lag none came after
// it, or none before it if the far machine is the earlier one. Each of these takes the shorter one of its times on both
// machines, and each other job that on the far machine. It is the greatest by any job.
fn through_any(
    instance: &Instance,
    across: &[u64; MOST_JOBS],
    near: usize,
    far: usize,
    lags: &mut Vec<(Reverse<u64>, usize)>,
) -> u64
    requires near { near < instance.now.shop.machines }
    requires far { far < instance.now.shop.machines }
    requires room { instance.now.shop.jobs ≤ vec_capacity lags.old }
    ensures ahead { near < far → AreAcross instance.now.shop near (suc (far - near)) across.now
        → IsThrough instance.now.shop near far result }
    ensures behind { far < near → AreAcross instance.now.shop far (suc (near - far)) across.now
        → IsThrough instance.now.shop far near result }
    ensures room { vec_capacity lags.old ≤ vec_capacity lags.new }
{
    let mut left = list_lags(instance, across, near, far, lags);
    let mut done: u64 = 0;
    let mut most: u64 = 0;
    for turn in 0..instance.jobs() {
        let (Reverse(lag), job) = lags[turn];
        let shorter = instance.time(job, near).min(instance.time(job, far));
        left = left.saturating_sub(u64::from(shorter));
        done = plus(done, across[job] - lag);
        most = most.max(plus(lag, plus(done, left)));
    }
    most
}

// Lists the jobs by their lags, the greatest first: a job's lag is its time across without that on the far machine. The
// result is the sum of the shorter ones of their times on both machines.
fn list_lags(
    instance: &Instance,
    across: &[u64; MOST_JOBS],
    near: usize,
    far: usize,
    lags: &mut Vec<(Reverse<u64>, usize)>,
) -> u64
    requires near { near < instance.now.shop.machines }
    requires far { far < instance.now.shop.machines }
    requires room { instance.now.shop.jobs ≤ vec_capacity lags.old }
    ensures lags { AreLags instance.now.shop far across.now lags.new.items }
    ensures sum { result ≤ sum_by (shorter_of instance.now.shop near far) (all_jobs instance.now.shop.jobs) }
    ensures room { vec_capacity lags.old ≤ vec_capacity lags.new }
{
    lags.clear();
    let mut sum: u64 = 0;
    for job in 0..instance.jobs() {
        let time = instance.time(job, far);
        lags.push_reserved((Reverse(across[job].saturating_sub(u64::from(time))), job));
        sum = plus(sum, u64::from(instance.time(job, near).min(time)));
    }
    lags.sort_unstable();
    sum
}
