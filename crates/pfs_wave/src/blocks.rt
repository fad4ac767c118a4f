//! Insertions into sequences of an instance, in lanes of one size.
ghost use Rattle.std.specs.Prelude.{◌≡◌, ℕ, ◌+◌, ◌*◌, ◌<◌, ◌≤◌, ◌^◌, length, IfOk};
ghost use Rattle.std.specs.List.{All};
ghost use Rattle.pfs_base.specs.FlowShop.{FlowShop};
ghost use Rattle.pfs_wave.specs.Private.Blocks.{HasShop, vectors_in};
ghost use Rattle.pfs_wave.specs.declared.blocks.Width.{Width};
ghost use Rattle.pfs_wave.specs.Private.Payment.{IsFound, IsPaid};

use crate::band::Band;
use crate::best::{Permits, best_place};
use crate::hold::Held;
use crate::rows::{shop_rows, zero_vectors};
use crate::vectors::zeros;
use pfs_base::{Instance, MOST_JOBS, Paid};
use pfs_insert::Placed;
use std::alloc::{AllocError, Global};
use std::marker::Model;

/// The number of vectors of a step. The loops over the steps are compiled for each of these numbers.
#[derive(Clone, Copy)]
pub enum Width {
    One = 1,
    Two = 2,
    Three = 3,
    Five = 5,
    Eight = 8,
    Thirteen = 13,
    TwentySix = 26,
}

impl Width {
    /// The number as an integer.
    #[inline(always)]
    pub fn vectors(self) -> usize
        ensures { result ≡ vectors_in self }
    {
        self as usize
    }

    /// The least number whose lanes have room for this number of machines.
    pub fn for_machines(machines: usize) -> Width
        requires { machines ≤ 208 }
        ensures enough { machines ≤ 8 * vectors_in result }
        ensures least { (other : Width) → machines ≤ 8 * vectors_in other → vectors_in result ≤ vectors_in other }
    {
        match machines {
            0..=8 => Width::One,
            9..=16 => Width::Two,
            17..=24 => Width::Three,
            25..=40 => Width::Five,
            41..=64 => Width::Eight,
            65..=104 => Width::Thirteen,
            _ => Width::TwentySix,
        }
    }
}

/// The times of an instance, the skewed times of the last sequence, and the tables of an insertion. A step has the same
/// number of vectors of lanes in each of them, of which each lane has a block of machines.
#[derive(Drop)]
pub struct Blocks<V: Band> {
    width: Width,
    // The number of lanes that have machines.
    lanes: usize,
    // The vectors of each job, and after them vectors of zeros.
    rows: Vec<V::Times>,
    // The last sequence.
    held: Held<V::Times>,
    tails: Vec<V>,
    sums: Vec<V::Number>,
}

impl<V: Band> Model for Blocks<V> {
    ghost use Rattle.std.specs.Prelude.{◌≡◌, ◌+◌, ◌*◌, ◌≤◌, length, map};
    ghost use Rattle.pfs_base.specs.declared.limits.TheConstants.{MOST_JOBS};
    ghost use Rattle.pfs_wave.specs.Private.Blocks.{BlockRows, vectors_in};
    ghost use Rattle.pfs_wave.specs.Private.HeldRows.{IsHeld};

    ghost Value = { BlockRows };

    ghost view = { λ a. record {
      count = vectors_in a.width;
      lanes = a.lanes;
      jobs = a.held.jobs;
      rows = map V.Times.lanes a.rows.items;
    } };

    ghost invariant = { λ a. record {
      some : 1 ≤ a.lanes;
      eight : a.lanes ≤ 8;
      few : a.held.jobs ≤ MOST_JOBS;
      rows : length a.rows.items ≡ a.held.jobs * vectors_in a.width + vectors_in a.width;
      held : IsHeld V.Times.lanes (vectors_in a.width) (map V.Times.lanes a.rows.items) a.held;
      tails : length a.tails.items ≡ (a.held.jobs + 9) * vectors_in a.width;
      sums : length a.sums.items ≡ a.held.jobs + 15;
    } };
}

// The number of lanes that have machines, where each has `count` of them.
fn lanes_for(machines: usize, count: usize) -> usize
    requires some { 1 ≤ machines }
    requires few { machines ≤ 8 * count }
    requires small { count < 2 ^ 16 }
    ensures enough { machines ≤ result * count }
    ensures some { 1 ≤ result }
    ensures eight { result ≤ 8 }
    ensures least { result * count < machines + count }
{
    (machines + count - 1) / count
}

impl<V: Band> Blocks<V> {
    /// The times of an instance, and a sequence of no jobs. It reserves all memory of an insertion, and returns
    /// `AllocError` where that fails.
    pub fn new(alloc: Global, instance: &Instance) -> Result<Blocks<V>, AllocError>
        requires { All (λ time. time ≤ V.Times.CAP) instance.now.shop.times }
        ensures { IfOk result (λ made. HasShop instance.now.shop made) }
    {
        let jobs = instance.jobs();
        let machines = instance.machines();
        let width = Width::for_machines(machines);
        let count = width.vectors();
        let steps = jobs + 8;
        let rows = shop_rows(alloc, instance, count)?;
        let order = vec![in alloc; jobs as u32; steps]?;
        let times = zero_vectors(alloc, (jobs + steps) * count)?;
        let tails = vec![in alloc; zeros::<V>(); (jobs + 9) * count]?;
        let sums = vec![in alloc; zeros::<V>().last(); jobs + 15]?;
        Ok(Blocks {
            width,
            lanes: lanes_for(machines, count),
            rows,
            held: Held {
                jobs,
                len: 0,
                order,
                times,
                start: jobs,
            },
            tails,
            sums,
        })
    }

    /// The first place of the least sum of a job in a sequence, and that sum, which holds the makespan with the job
    /// there. `spans` gets the sums of the first places, as many as it has room for.
    #[inline(never)]
    pub fn best(
        &mut self,
        permits: Permits,
        sequence: &[u32],
        job: usize,
        spans: &mut [u64],
    ) -> Placed<Paid>
        requires jobs { All (λ other. other < self.old.jobs) sequence.now }
        requires few { length sequence.now ≤ self.old.jobs }
        requires job { job < self.old.jobs }
        requires room { length spans.old ≤ length sequence.now + 1 }
        ensures found { (shop : FlowShop) → HasShop shop self.old
            → IsPaid permits.tails permits.sums (length sequence.now) shop.machines
            → IsFound V.Holds shop sequence.now job result.place result.span (length spans.old) spans.new }
        ensures same { self.new ≡ self.old }
    {
        match self.width {
            Width::One => self.best_in::<1>(permits, sequence, job, spans),
            Width::Two => self.best_in::<2>(permits, sequence, job, spans),
            Width::Three => self.best_in::<3>(permits, sequence, job, spans),
            Width::Five => self.best_in::<5>(permits, sequence, job, spans),
            Width::Eight => self.best_in::<8>(permits, sequence, job, spans),
            Width::Thirteen => self.best_in::<13>(permits, sequence, job, spans),
            Width::TwentySix => self.best_in::<26>(permits, sequence, job, spans),
        }
    }

    // `best` for this number of vectors.
    #[inline(always)]
    fn best_in<const N: usize>(
        &mut self,
        permits: Permits,
        sequence: &[u32],
        job: usize,
        spans: &mut [u64],
    ) -> Placed<Paid>
        requires count { self.old.count ≡ N }
        requires some { 1 ≤ N }
        requires many { N ≤ 26 }
        requires jobs { All (λ other. other < self.old.jobs) sequence.now }
        requires few { length sequence.now ≤ self.old.jobs }
        requires job { job < self.old.jobs }
        requires room { length spans.old ≤ length sequence.now + 1 }
        ensures found { (shop : FlowShop) → HasShop shop self.old
            → IsPaid permits.tails permits.sums (length sequence.now) shop.machines
            → IsFound V.Holds shop sequence.now job result.place result.span (length spans.old) spans.new }
        ensures same { self.new ≡ self.old }
    {
        self.held.hold::<N>(&self.rows, sequence);
        let steps = sequence.len() + self.lanes;
        best_place::<V, N>(
            permits,
            self.lanes,
            steps,
            self.held.first_steps::<N>(steps),
            &self.rows[job * N..job * N + N],
            &mut self.tails,
            &mut self.sums,
            spans,
        )
    }
}
