//! The plain way to find the best place: evaluate the whole order with the job at each place.
ghost use Rattle.std.specs.Prelude.{◌≡◌, IfOk, true};
ghost use Rattle.pfs_insert.specs.Insertion.{afresh_cost};

use crate::fault::InsertFault;
use crate::inserter::{Inserter, Placed, better};
use pfs_audit::makespan;
use pfs_base::{Bench, Length};
use pfs_order::Seq;
use std::alloc::Global;
use std::marker::PhantomData;

/// An inserter that evaluates the whole order from scratch for each place. One insertion counts k·k·m
/// cells, where the order has k jobs with the inserted one, on m machines. Each evaluation allocates one
/// row of lengths.
#[derive(Drop)]
pub struct Afresh<B> {
    seq: Seq,
    machines: usize,
    bench: PhantomData<B>,
}

impl<B: Bench> Afresh<B> {
    /// An inserter for shops of the bench's sizes. It allocates a sequence with room for all jobs, and
    /// returns `Memory` where that fails.
    pub fn new(alloc: Global, bench: &B) -> Result<Afresh<B>, InsertFault>
        ensures jobs { IfOk result (λ made.
            (⟦<Afresh<B> as Inserter<B>>⟧.sizes made).jobs ≡ (B.shop bench.now).jobs) }
        ensures machines { IfOk result (λ made.
            (⟦<Afresh<B> as Inserter<B>>⟧.sizes made).machines ≡ (B.shop bench.now).machines) }
    {
        match Seq::new(alloc, bench.jobs()) {
            Ok(seq) => Ok(Afresh {
                seq,
                machines: bench.machines(),
                bench: PhantomData,
            }),
            Err(_) => Err(InsertFault::Memory),
        }
    }
}

impl<B: Bench> Inserter<B> for Afresh<B> {
    ghost sizes = { λ a. record { jobs = a.seq.size; machines = a.machines } };

    ghost cost = { afresh_cost };

    ghost can_refuse = { true };

    fn best(
        &mut self,
        alloc: Global,
        bench: &mut B,
        seq: &Seq,
        job: usize,
    ) -> Result<Placed<B::Span>, InsertFault> {
        let mut best = Placed {
            place: 0,
            span: bench.zero(),
        };
        for place in 0..seq.len() + 1 {
            self.seq.copy_from(seq);
            self.seq.insert_at(place, job);
            match makespan(alloc, bench, &self.seq) {
                Ok(span) => best = better(best, place, span),
                Err(_) => return Err(InsertFault::Memory),
            }
        }
        Ok(best)
    }
}
