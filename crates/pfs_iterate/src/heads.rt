//! Heads of a sequence, and how much later an insertion makes what is behind it end.
ghost use Rattle.std.specs.Prelude.{◌≡◌, ℕ, ◌+◌, ◌<◌, ◌≤◌, ◌++◌, [], ◌∷◌, length, slice_index, take as front, IfOk};
ghost use Rattle.std.specs.List.{All, slice_index_or};
ghost use Rattle.pfs_base.specs.FlowShop.{time_of};
ghost use Rattle.pfs_order.specs.Sequence.{IsSequence};
ghost use Rattle.pfs_iterate.specs.Private.Memory.{AreHeads, AreRows};
ghost use Rattle.pfs_iterate.specs.Iterated.{total_delay};

use pfs_base::heads::{end_after, times_of};
use pfs_base::{Instance, MOST_MACHINES};
use std::alloc::{AllocError, Global};

// The times of no job.
static NO_TIMES: [u32; MOST_MACHINES] = [0; MOST_MACHINES];

/// The heads of some jobs in sequence: a row of zeros, and then for each job the ends of the jobs so far.
#[derive(Drop)]
pub(crate) struct Heads {
    pub(crate) jobs: Vec<u32>,
    pub(crate) rows: Vec<u64>,
}

impl Heads {
    /// The heads of no jobs.
    pub(crate) fn new(alloc: Global, instance: &Instance) -> Result<Heads, AllocError>
        ensures { IfOk result (AreHeads instance.now.shop) }
    {
        let jobs = instance.jobs();
        Ok(Heads {
            jobs: Vec::with_capacity(alloc, jobs)?,
            rows: vec![in alloc; 0; (jobs + 1) * instance.machines()]?,
        })
    }

    /// Makes these the heads of the first `count` jobs of a sequence. Rows of a front that is the same as before stay.
    #[tactic(auto, using(crate::proofs::HeadRows::rows_fewer))]
    pub(crate) fn follow(&mut self, instance: &Instance, sequence: &[u32], count: usize)
        requires heads { AreHeads instance.now.shop self.old }
        requires sequence { IsSequence instance.now.shop.jobs sequence.now }
        requires few { length sequence.now ≤ instance.now.shop.jobs }
        requires count { count ≤ length sequence.now }
        ensures heads { AreHeads instance.now.shop self.new }
        ensures jobs { self.new.jobs.items ≡ front count sequence.now }
    {
        let same = same_front(&self.jobs, sequence, count);
        self.jobs.truncate(same);
        for place in same..count {
            let job = sequence[place];
            add_row(instance, &self.jobs, job as usize, &mut self.rows);
            self.jobs.push_reserved(job);
        }
    }

    /// How much later, summed over the machines, the job at a place ends if another job is inserted before it; at the
    /// end, how much later all of them do.
    pub(crate) fn delay(&self, instance: &Instance, job: usize, place: usize) -> u64
        requires heads { AreHeads instance.now.shop self.now }
        requires job { job < instance.now.shop.jobs }
        requires place { place ≤ length self.now.jobs.items }
        ensures { result ≡ total_delay instance.now.shop self.now.jobs.items job place }
    {
        delay_at(instance, &self.jobs, &self.rows, job, place)
    }
}

// The number of jobs, at most `most`, that two lists begin with together.
fn same_front(one: &[u32], other: &[u32], most: usize) -> usize
    requires { most ≤ length other.now }
    ensures most { result ≤ most }
    ensures within { result ≤ length one.now }
    ensures same { front result one.now ≡ front result other.now }
{
    let most = most.min(one.len());
    for place in 0..most {
        if one[place] != other[place] {
            return place;
        }
    }
    most
}

// Adds the row of a job after these.
fn add_row(instance: &Instance, jobs: &[u32], job: usize, rows: &mut [u64])
    requires rows { AreRows instance.now.shop jobs.now rows.old }
    requires job { job < instance.now.shop.jobs }
    requires few { length jobs.now < instance.now.shop.jobs }
    ensures { AreRows instance.now.shop (jobs.now ++ job ∷ []) rows.new }
{
    let machines = instance.machines();
    let times = times_of(instance, job);
    let above = jobs.len() * machines;
    let mut end = 0;
    for machine in 0..machines {
        end = end_after(rows[above + machine], end, times[machine]);
        rows[above + machines + machine] = end;
    }
}

// How much later, summed over the machines, the job at a place ends if another job is inserted before it; at the end, how
// much later all of these do.
fn delay_at(instance: &Instance, jobs: &[u32], rows: &[u64], job: usize, place: usize) -> u64
    requires rows { AreRows instance.now.shop jobs.now rows.now }
    requires job { job < instance.now.shop.jobs }
    requires place { place ≤ length jobs.now }
    ensures { result ≡ total_delay instance.now.shop jobs.now job place }
{
    let machines = instance.machines();
    let times = times_of(instance, job);
    let next_times = times_at(instance, jobs, place);
    let above = place * machines;
    let below = (place + 1).min(jobs.len()) * machines;
    let (mut end, mut next_end, mut now, mut before) = (0, 0, 0, 0);
    for machine in 0..machines {
        let ended = rows[below + machine];
        end = end_after(rows[above + machine], end, times[machine]);
        next_end = end_after(end, next_end, next_times[machine]);
        now += next_end;
        before += ended;
    }
    now - before
}

// The times of the job at a place, or of no job after the last one.
#[inline(always)]
fn times_at<'a>(instance: &'a Instance, jobs: &[u32], place: usize) -> &'a [u32]
    requires { All (λ job. job < instance.now.shop.jobs) jobs.now }
    ensures long { length result.now ≡ instance.now.shop.machines }
    ensures inside { (machine : ℕ) → machine < instance.now.shop.machines → place < length jobs.now
        → slice_index result.now machine ≡ time_of instance.now.shop (slice_index_or jobs.now place 0) machine }
    ensures end { (machine : ℕ) → machine < instance.now.shop.machines → length jobs.now ≤ place
        → slice_index result.now machine ≡ 0 }
{
    if place < jobs.len() {
        times_of(instance, jobs[place] as usize)
    } else {
        &NO_TIMES[..instance.machines()]
    }
}
