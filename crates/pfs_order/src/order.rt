//! Orders of all jobs.
ghost use Rattle.std.specs.Prelude.{◌≡◌, ℕ, ◌<◌, ◌≤◌, ◌↔◌, List, length, IsOk, IfOk, IfErr, slice_index};
ghost use Rattle.pfs_base.specs.Limits.{limits};
ghost use Rattle.pfs_order.specs.Sequence.{IsSequence, IsSize, all_jobs};

use crate::fault::OrderFault;
use crate::seq::Seq;
use pfs_base::MOST_JOBS;
use std::alloc::Global;
use std::marker::Model;

/// A sequence that contains each job once.
#[derive(Drop)]
pub struct Order {
    seq: Seq,
}

impl Model for Order {
    ghost use Rattle.std.specs.Prelude.{◌≡◌, ℕ, List, length};

    ghost Value = { List ℕ };

    ghost view = { λ a. a.seq.jobs };

    ghost invariant = { λ a. length a.seq.jobs ≡ a.seq.size };
}

impl Order {
    /// The jobs in the order of their numbers. The only error is `Memory`, if the allocation fails.
    #[tactic(auto, using(crate::proofs::Published::Sequences::all_jobs_steps))]
    pub fn identity(alloc: Global, size: usize) -> Result<Order, OrderFault>
        requires some { 1 ≤ size }
        requires few { size ≤ MOST_JOBS }
        ensures made { IfOk result (λ made. made ≡ all_jobs size) }
        ensures len { IfOk result (λ made. length made ≡ size) }
        ensures memory { IfErr result (λ fault. fault ≡ OrderFault.Memory) }
    {
        let mut seq = Seq::new(alloc, size)?;
        for job in 0..size {
            seq.insert_at(job, job);
        }
        Ok(Order { seq })
    }

    /// Converts a sequence of all jobs to an order. A sequence that lacks some jobs is returned unchanged, as
    /// the error.
    pub fn from_seq(seq: Seq) -> Result<Order, Seq>
        ensures full { IsOk result ↔ (length seq.jobs ≡ seq.size) }
        ensures ok { IfOk result (λ order. order ≡ seq.jobs) }
        ensures err { IfErr result (λ back. back ≡ seq) }
    {
        if seq.len() == seq.size() {
            Ok(Order { seq })
        } else {
            Err(seq)
        }
    }

    /// The order as a sequence.
    pub fn seq(&self) -> &Seq
        ensures value { result.now ≡ record { size = length self.now; jobs = self.now } }
        ensures accepted { IsSize limits (length self.now) }
        ensures sequence { IsSequence (length self.now) self.now }
    {
        // The proof needs what `len` ensures of every sequence.
        let _ = self.seq.len();
        &self.seq
    }

    /// The number of jobs.
    pub fn len(&self) -> usize
        ensures value { result ≡ length self.now }
        ensures accepted { IsSize limits (length self.now) }
        ensures sequence { IsSequence (length self.now) self.now }
    {
        self.seq.size()
    }

    /// The job at a place. Jobs and places count from 0.
    pub fn at(&self, place: usize) -> usize
        requires { place < length self.now }
        ensures value { result ≡ slice_index self.now place }
        ensures in_range { result < length self.now }
    {
        self.seq.at(place)
    }

    /// Replaces the order by these jobs.
    pub fn set(&mut self, jobs: &[u32])
        requires full { length jobs.now ≡ length self.old }
        requires sequence { IsSequence (length self.old) jobs.now }
        ensures { self.new ≡ jobs.now }
    {
        self.seq.set(jobs);
    }

    /// Replaces the order by a sequence of all jobs.
    pub fn copy_from(&mut self, other: &Seq)
        requires sizes { length self.old ≡ other.now.size }
        requires full { length other.now.jobs ≡ other.now.size }
        ensures { self.new ≡ other.now.jobs }
    {
        self.seq.copy_from(other);
    }
}
