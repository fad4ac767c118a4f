//! A lower bound of the makespan of every order.
ghost use Rattle.std.specs.Prelude.{◌≡◌, ℕ, ◌+◌, ◌*◌, ◌<◌, ◌≤◌};
ghost use Rattle.pfs_audit.specs.Bound.{greatest_machine_bound, bound_of, IsLowerBound};
ghost use Rattle.pfs_audit.specs.Private.Sums.{AreSumsOf};
ghost use Rattle.pfs_audit.specs.Sums.{AreSums};

use pfs_base::{Instance, LONGEST_TIME, MOST_MACHINES, Shop};

// No job has a greater total time.
const LONGEST_TOTAL: u64 = LONGEST_TIME as u64 * MOST_MACHINES as u64;

/// Sums and least times of the jobs of an instance, machine by machine.
#[derive(Drop)]
pub struct Sums {
    /// The greatest total time of a job.
    pub longest: u64,
    /// The least time of a job before each machine.
    pub before: [u64; MOST_MACHINES],
    /// The times of all jobs on each machine.
    pub load: [u64; MOST_MACHINES],
    /// The least time of a job after each machine.
    pub after: [u64; MOST_MACHINES],
}

/// A lower bound of the makespan of every order of all jobs (Taillard 1993), in the instance's own unit of
/// time. It is the greater of two numbers: the greatest total time of a job; and, over all machines, the
/// greatest sum of the least time of a job before the machine, the times of all jobs on it, and the least
/// time of a job after it. It reads the times twice and allocates no memory.
pub fn bound(instance: &Instance) -> u64
    ensures value { result ≡ bound_of instance.now.shop }
    ensures low { IsLowerBound instance.now.shop result }
{
    let sums = sums_of(instance);
    sums.longest.max(longest_machine(instance, &sums))
}

// The greatest of the machines' bounds.
fn longest_machine(instance: &Instance, sums: &Sums) -> u64
    requires { AreSums instance.now.shop sums.now }
    ensures { result ≡ greatest_machine_bound instance.now.shop }
{
    let mut most: u64 = 0;
    for machine in 0..instance.machines() {
        most = most.max(sums.before[machine] + sums.load[machine] + sums.after[machine]);
    }
    most
}

/// The sums of all jobs.
pub fn sums_of(instance: &Instance) -> Sums
    ensures { AreSums instance.now.shop result }
{
    let mut sums = Sums {
        longest: 0,
        before: [LONGEST_TOTAL; MOST_MACHINES],
        load: [0; MOST_MACHINES],
        after: [LONGEST_TOTAL; MOST_MACHINES],
    };
    for job in 0..instance.jobs() {
        add_job(instance, job, &mut sums);
    }
    sums
}

// Adds a job to the sums of the jobs before it.
fn add_job(instance: &Instance, job: usize, sums: &mut Sums)
    requires job { job < instance.now.shop.jobs }
    requires sums { AreSumsOf instance.now.shop job sums.old }
    ensures { AreSumsOf instance.now.shop (job + 1) sums.new }
{
    let total = instance.metered().total(job);
    sums.longest = sums.longest.max(total);
    let mut through: u64 = 0;
    for machine in 0..instance.machines() {
        sums.before[machine] = sums.before[machine].min(through);
        let time = u64::from(instance.time(job, machine));
        sums.load[machine] += time;
        through += time;
        sums.after[machine] = sums.after[machine].min(total - through);
    }
}
