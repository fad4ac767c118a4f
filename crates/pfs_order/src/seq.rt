//! Sequences of distinct jobs.
ghost use Rattle.std.specs.Prelude.{◌≡◌, ℕ, ◌<◌, ◌≤◌, ◌↔◌, List, [], ◌∷◌, ◌++◌, length, Contains, IsTrue, IfOk, IfErr};
ghost use Rattle.std.specs.Prelude.{slice_index, insert, remove, vec_len, vec_capacity};
ghost use Rattle.pfs_base.specs.Limits.{limits};
ghost use Rattle.pfs_order.specs.Sequence.{IsSequence, IsSize};

use crate::fault::OrderFault;
use pfs_base::MOST_JOBS;
use std::alloc::{AllocError, Global};
use std::marker::Model;

/// Distinct jobs below a size. Jobs and places count from 0. Memory for all jobs is allocated when the
/// sequence is created, so no later call allocates memory or fails.
#[derive(Drop)]
pub struct Seq {
    size: usize,
    jobs: Vec<u32>,
}

impl Model for Seq {
    ghost use Rattle.std.specs.Prelude.{◌≤◌, vec_capacity};
    ghost use Rattle.pfs_base.specs.Limits.{limits};
    ghost use Rattle.pfs_order.specs.Sequence.{Sequence, IsSequence, IsSize};

    ghost Value = { Sequence };

    ghost view = { λ a. record { size = a.size; jobs = a.jobs.items } };

    ghost invariant = { λ a. record {
      accepted : IsSize limits a.size;
      sequence : IsSequence a.size a.jobs.items;
      room : a.size ≤ vec_capacity a.jobs;
    } };
}

impl Seq {
    /// An empty sequence of jobs below a size, with memory for all of them. The only error is `Memory`, if
    /// the allocation fails.
    pub fn new(alloc: Global, size: usize) -> Result<Seq, OrderFault>
        requires some { 1 ≤ size }
        requires few { size ≤ MOST_JOBS }
        ensures made { IfOk result (λ made. made ≡ record { size = size; jobs = [] }) }
        ensures memory { IfErr result (λ fault. fault ≡ OrderFault.Memory) }
    {
        match Vec::with_capacity(alloc, size) {
            Ok(jobs) => Ok(Seq { size, jobs }),
            Err(AllocError) => Err(OrderFault::Memory),
        }
    }

    /// A sequence of these jobs below a size, with memory for all jobs below it. The only error is `Memory`, if the
    /// allocation fails.
    pub fn from_jobs(alloc: Global, size: usize, jobs: &[u32]) -> Result<Seq, OrderFault>
        requires some { 1 ≤ size }
        requires few { size ≤ MOST_JOBS }
        requires sequence { IsSequence size jobs.now }
        ensures made { IfOk result (λ made. made ≡ record { size = size; jobs = jobs.now }) }
        ensures memory { IfErr result (λ fault. fault ≡ OrderFault.Memory) }
    {
        let mut seq = Seq::new(alloc, size)?;
        seq.set(jobs);
        Ok(seq)
    }

    /// The size: every job is below this number.
    #[tactic(auto, using(crate::proofs::Published::Sequences::size_limit))]
    pub fn size(&self) -> usize
        ensures value { result ≡ self.now.size }
        ensures accepted { IsSize limits self.now.size }
        ensures sequence { IsSequence self.now.size self.now.jobs }
        ensures within { length self.now.jobs ≤ self.now.size }
    {
        self.size
    }

    /// The number of jobs in the sequence.
    #[tactic(auto, using(crate::proofs::Published::Sequences::size_limit))]
    pub fn len(&self) -> usize
        ensures value { result ≡ length self.now.jobs }
        ensures accepted { IsSize limits self.now.size }
        ensures sequence { IsSequence self.now.size self.now.jobs }
        ensures within { length self.now.jobs ≤ self.now.size }
    {
        self.jobs.len()
    }

    /// The job at a place.
    pub fn at(&self, place: usize) -> usize
        requires { place < length self.now.jobs }
        ensures value { result ≡ slice_index self.now.jobs place }
        ensures in_range { result < self.now.size }
    {
        self.jobs[place] as usize
    }

    /// The jobs in order.
    pub fn as_slice(&self) -> &[u32]
        ensures value { result.now ≡ self.now.jobs }
        ensures sequence { IsSequence self.now.size self.now.jobs }
    {
        self.jobs.as_slice()
    }

    /// Whether the sequence contains a job. It is a linear search.
    pub fn has(&self, job: usize) -> bool
        ensures { IsTrue result ↔ Contains self.now.jobs job }
    {
        self.jobs.iter().any(|other| *other as usize == job)
    }

    /// The place of a job that the sequence contains. It is a linear search.
    pub fn place_of(&self, job: usize) -> usize
        requires { Contains self.now.jobs job }
        ensures within { result < length self.now.jobs }
        ensures job { slice_index self.now.jobs result ≡ job }
    {
        match self.jobs.iter().position(|other| *other as usize == job) {
            Some(place) => place,
            None => unreachable!(),
        }
    }

    /// Inserts a job at a place; the jobs from that place on move back by one.
    pub fn insert_at(&mut self, place: usize, job: usize)
        requires place { place ≤ length self.old.jobs }
        requires in_range { job < self.old.size }
        requires absent { Contains self.old.jobs job → ⊥ }
        ensures { self.new ≡ record self.old { jobs = insert self.old.jobs place job } }
    {
        put_in_room(&mut self.jobs, place, job as u32);
    }

    /// Removes the job at a place and returns it; the jobs after it move up by one.
    pub fn remove_at(&mut self, place: usize) -> usize
        requires { place < length self.old.jobs }
        ensures job { result ≡ slice_index self.old.jobs place }
        ensures rest { self.new ≡ record self.old { jobs = remove self.old.jobs place } }
    {
        self.jobs.remove(place) as usize
    }

    /// Replaces the sequence's jobs by these.
    pub fn set(&mut self, jobs: &[u32])
        requires { IsSequence self.old.size jobs.now }
        ensures { self.new ≡ record self.old { jobs = jobs.now } }
    {
        copy_in_room(&mut self.jobs, jobs);
    }

    /// Replaces the sequence's jobs by those of another sequence of the same size.
    #[tactic(auto, using(crate::proofs::Published::Sequences::size_limit))]
    pub fn copy_from(&mut self, other: &Seq)
        requires { self.old.size ≡ other.now.size }
        ensures { self.new ≡ other.now }
    {
        copy_in_room(&mut self.jobs, &other.jobs);
    }
}

// Inserts a job at a place of a list that has room.
fn put_in_room(jobs: &mut Vec<u32>, place: usize, job: u32)
    requires place { place ≤ vec_len jobs.old }
    requires room { vec_len jobs.old < vec_capacity jobs.old }
    ensures items { jobs.new.items ≡ insert jobs.old.items place job }
    ensures capacity { vec_capacity jobs.old ≤ vec_capacity jobs.new }
{
    match jobs.insert(place, job) {
        Ok(()) => {}
        Err(_) => unreachable!(),
    }
}

// Makes a list equal to another one, for which it has room.
fn copy_in_room(jobs: &mut Vec<u32>, others: &[u32])
    requires { length others.now ≤ vec_capacity jobs.old }
    ensures items { jobs.new.items ≡ others.now }
    ensures capacity { vec_capacity jobs.old ≤ vec_capacity jobs.new }
{
    jobs.clear();
    match jobs.extend_from_slice(others) {
        Ok(()) => {}
        Err(_) => unreachable!(),
    }
}
