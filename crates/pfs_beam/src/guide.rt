//! What a search orders children by: what idle time costs, which jobs are equal, and how long they take.
ghost use Rattle.std.specs.Prelude.{◌≡◌, ◌-◌, ◌^◌, ◌<◌, ◌≤◌, IfOk};

use crate::costs::{Costs, costs_at, costs_of};
use pfs_base::heads::times_of;
use pfs_base::{Instance, MOST_MACHINES};
use std::alloc::{AllocError, Global};
use std::marker::Model;

// A key is the weighted idle time in these parts of the time of the jobs at the ends.
const PARTS: u64 = 4_096;

// So many jobs of mean size count as if they were at the ends too. Else size would order the first levels.
const EARLY: u64 = 10;

/// What is known of the jobs: for each the first one with the same times, and the sum of its times; and for each such
/// first job the last node at which it was tried. Contracts see the number of jobs.
#[derive(Drop)]
pub(crate) struct Guide {
    costs: Costs,
    likes: Vec<usize>,
    totals: Vec<u64>,
    tried: Vec<u64>,
    node: u64,
    early: u64,
}

impl Model for Guide {
    ghost use Rattle.std.specs.Prelude.{◌≡◌, ◌<◌, ℕ, length};
    ghost use Rattle.std.specs.List.{All};

    ghost Value = { ℕ };

    ghost view = { λ a. length a.likes.items };

    ghost invariant = { λ a. record {
      likes : All (λ job. job < length a.likes.items) a.likes.items;
      totals : length a.totals.items ≡ length a.likes.items;
      tried : length a.tried.items ≡ length a.likes.items;
    } };
}

impl Guide {
    /// What is known before a search.
    pub(crate) fn new(
        alloc: Global,
        instance: &Instance,
        loads: &[u64; MOST_MACHINES],
        goal: u64,
    ) -> Result<Guide, AllocError>
        ensures { IfOk result (λ guide. guide ≡ instance.now.shop.jobs) }
    {
        let jobs = instance.jobs();
        let mut likes = Vec::with_capacity(alloc, jobs)?;
        let mut totals = Vec::with_capacity(alloc, jobs)?;
        let mut all: u64 = 0;
        for job in 0..jobs {
            let total = total_of(instance, job);
            likes.push_reserved(first_like(instance, job));
            totals.push_reserved(total);
            all = all.saturating_add(total);
        }
        Ok(Guide {
            costs: costs_of(instance, loads, goal),
            likes,
            totals,
            tried: vec![in alloc; 0; jobs]?,
            node: 0,
            early: (all / jobs as u64).saturating_mul(EARLY),
        })
    }

    /// The costs of idle time from the end that grows.
    pub(crate) fn costs(&self, forward: bool) -> &[u64; MOST_MACHINES] {
        costs_at(&self.costs, forward)
    }

    /// Begins with the next node.
    pub(crate) fn begin(&mut self)
        ensures { self.new ≡ self.old }
    {
        self.node = self.node.wrapping_add(1);
    }

    /// Whether this job or an equal one was tried at this node before.
    pub(crate) fn has_tried(&mut self, job: usize) -> bool
        requires { job < self.old }
        ensures { self.new ≡ self.old }
    {
        let like = self.likes[job];
        let tried = self.tried[like] == self.node;
        self.tried[like] = self.node;
        tried
    }

    /// The time of the jobs at the ends with one more, to which its idle time is compared; at least 1.
    pub(crate) fn work(&self, before: u64, job: usize) -> u64
        requires { job < self.now }
        ensures { 1 ≤ result }
    {
        before
            .saturating_add(self.total(job))
            .saturating_add(self.early)
            .max(1)
    }

    /// The sum of a job's times.
    pub(crate) fn total(&self, job: usize) -> u64
        requires { job < self.now }
    {
        self.totals[job]
    }

    /// A number for a set of jobs, made of that of the set before: equal for sets with the same times, and different for
    /// others but by chance.
    pub(crate) fn marks(&self, before: u64, job: usize) -> u64
        requires { job < self.now }
    {
        before.wrapping_add(mixed(self.likes[job] as u64 + 1))
    }
}

// The first job with the same times.
fn first_like(instance: &Instance, job: usize) -> usize
    requires { job < instance.now.shop.jobs }
    ensures { result ≤ job }
{
    let times = times_of(instance, job);
    for other in 0..job {
        if times_of(instance, other) == times {
            return other;
        }
    }
    job
}

// The sum of a job's times.
fn total_of(instance: &Instance, job: usize) -> u64
    requires { job < instance.now.shop.jobs }
{
    let mut total: u64 = 0;
    for time in times_of(instance, job) {
        total = total.saturating_add(u64::from(*time));
    }
    total
}

// A number that looks random (SplitMix64: Steele, Lea and Flood 2014).
fn mixed(number: u64) -> u64 {
    let mut mixed = number.wrapping_mul(0x9e37_79b9_7f4a_7c15);
    mixed = (mixed ^ (mixed >> 30)).wrapping_mul(0xbf58_476d_1ce4_e5b9);
    mixed = (mixed ^ (mixed >> 27)).wrapping_mul(0x94d0_49bb_1331_11eb);
    mixed ^ (mixed >> 31)
}

/// The weighted idle time in parts of the work.
pub(crate) fn key_of(idle: u64, work: u64) -> u64
    requires { 1 ≤ work }
{
    idle.saturating_mul(PARTS) / work
}

/// An idle time above which the key is above a limit.
pub(crate) fn most_idle(limit: u64, work: u64) -> u64
    ensures { limit ≡ 2 ^ 64 - 1 → result ≡ 2 ^ 64 - 1 }
{
    if limit == u64::MAX {
        return u64::MAX;
    }
    (limit + 1).saturating_mul(work) / PARTS
}
