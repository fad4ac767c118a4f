//! An instance: the numbers of jobs and machines, the time of each job on each machine, and three notes.
ghost use Rattle.std.specs.Prelude.{◌≡◌, ℕ, ◌*◌, ◌<◌, ◌≤◌, List, length, IfOk, OnOk, replicate};
ghost use Rattle.pfs_base.specs.Limits.{limits};
ghost use Rattle.pfs_base.specs.FlowShop.{time_of, with_time, AreSizes, IsWithin};

use crate::bench::Bench;
use crate::limits::{LONGEST_TIME, MOST_JOBS, MOST_MACHINES};
use crate::metered::Metered;
use crate::notes::Notes;
use std::alloc::{AllocError, Global};
use std::marker::Model;
use thiserror::Error;

/// Why an instance could not be created.
#[derive(Clone, Copy, Debug, PartialEq, Eq, Error)]
pub enum BaseFault {
    /// The number of jobs or of machines is 0 or above its limit.
    #[error("Size")]
    Size,
    /// Memory for the times could not be allocated.
    #[error("Memory")]
    Memory,
}

/// A permutation flow shop instance. Jobs and machines count from 0.
#[derive(Drop)]
pub struct Instance {
    jobs: usize,
    machines: usize,
    times: Vec<u32>,
    notes: Notes,
}

impl Model for Instance {
    ghost use Rattle.pfs_base.specs.Limits.{limits};
    ghost use Rattle.pfs_base.specs.FlowShop.{IsWithin};
    ghost use Rattle.pfs_base.specs.Problem.{Problem};

    ghost Value = { Problem };

    ghost view = { λ a. record {
      shop = record { jobs = a.jobs; machines = a.machines; times = a.times.items };
      notes = a.notes;
    } };

    ghost invariant = { λ a. IsWithin limits (record { jobs = a.jobs; machines = a.machines; times = a.times.items }) };
}

impl Instance {
    /// An instance of these sizes whose times are all 0. The sizes are validated before memory for
    /// `jobs * machines` times is allocated. The error is `Size` if a size is not within the limits, and
    /// `Memory` if the allocation fails.
    pub fn new(
        alloc: Global,
        jobs: usize,
        machines: usize,
        notes: Notes,
    ) -> Result<Instance, BaseFault>
        ensures made { IfOk result (λ made. made ≡ record {
          shop = record { jobs = jobs; machines = machines; times = replicate (jobs * machines) 0 };
          notes = notes;
        }) }
        ensures accepted { OnOk result (AreSizes limits jobs machines) }
        ensures size { result ≡ Err BaseFault.Size → ¬ AreSizes limits jobs machines }
        ensures memory { result ≡ Err BaseFault.Memory → AreSizes limits jobs machines }
    {
        if jobs < 1 || jobs > MOST_JOBS || machines < 1 || machines > MOST_MACHINES {
            return Err(BaseFault::Size);
        }
        let times = match vec![in alloc; 0; jobs * machines] {
            Ok(times) => times,
            Err(AllocError) => return Err(BaseFault::Memory),
        };
        Ok(Instance {
            jobs,
            machines,
            times,
            notes,
        })
    }

    /// An instance of these sizes and notes with these times: those of job 0 on each machine, then those of job
    /// 1, and so on. The times are copied into one allocation; the only error is that this allocation fails.
    pub fn of_times(
        alloc: Global,
        jobs: usize,
        machines: usize,
        times: &[u32],
        notes: Notes,
    ) -> Result<Instance, AllocError>
        requires { IsWithin limits (record { jobs = jobs; machines = machines; times = times.now }) }
        ensures { IfOk result (λ made. made ≡ record {
          shop = record { jobs = jobs; machines = machines; times = times.now };
          notes = notes;
        }) }
    {
        let times = Vec::from_slice(alloc, times)?;
        Ok(Instance {
            jobs,
            machines,
            times,
            notes,
        })
    }

    /// The number of jobs.
    pub fn jobs(&self) -> usize
        ensures value { result ≡ self.now.shop.jobs }
        ensures within { IsWithin limits self.now.shop }
    {
        self.jobs
    }

    /// The number of machines.
    pub fn machines(&self) -> usize
        ensures value { result ≡ self.now.shop.machines }
        ensures within { IsWithin limits self.now.shop }
    {
        self.machines
    }

    /// The notes that the instance was created with.
    pub fn notes(&self) -> Notes
        ensures { result ≡ self.now.notes }
    {
        self.notes
    }

    /// All times: those of job 0 on each machine, then those of job 1, and so on.
    pub fn times(&self) -> &[u32]
        ensures value { result.now ≡ self.now.shop.times }
        ensures within { IsWithin limits self.now.shop }
    {
        self.times.as_slice()
    }

    /// The time of a job on a machine, in the instance's own unit of time.
    pub fn time(&self, job: usize, machine: usize) -> u32
        requires job { job < self.now.shop.jobs }
        requires machine { machine < self.now.shop.machines }
        ensures value { result ≡ time_of self.now.shop job machine }
        ensures short { result ≤ LONGEST_TIME }
    {
        let place = job * self.machines + machine;
        self.times[place]
    }

    /// Sets the time of a job on a machine, and changes nothing else.
    pub fn set(&mut self, job: usize, machine: usize, time: u32)
        requires job { job < self.old.shop.jobs }
        requires machine { machine < self.old.shop.machines }
        requires short { time ≤ LONGEST_TIME }
        ensures { self.new ≡ record self.old { shop = with_time self.old.shop job machine time } }
    {
        self.times[job * self.machines + machine] = time;
    }

    /// A bench over this instance that has counted no cell.
    pub fn metered(&self) -> Metered<'_>
        ensures shop { ⟦<Metered<'static> as Bench>⟧.shop result ≡ self.now.shop }
        ensures counted { ⟦<Metered<'static> as Bench>⟧.counted result ≡ 0 }
    {
        Metered::new(self.jobs, self.machines, &self.times)
    }
}
