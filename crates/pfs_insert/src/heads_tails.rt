//! The fast way to find the best place: heads and tails (Taillard, 1990).
ghost use Rattle.std.specs.Prelude.{◌≡◌, ◌+◌, ◌*◌, ◌<◌, ◌≤◌, ◌^◌, length, false, Contains, IfOk};
ghost use Rattle.pfs_insert.specs.Insertion.{heads_tails_cost, makespan_with};
ghost use Rattle.pfs_insert.specs.Inserter.{IsBestPlace};
ghost use Rattle.pfs_insert.specs.Private.Counting.{Counted};
ghost use Rattle.pfs_insert.specs.Private.Rows.{HasRows, IsTable, sizes_of};

use crate::fault::InsertFault;
use crate::inserter::{Inserter, Placed, better};
use crate::rows::{fill_row, fill_rows};
use pfs_base::{Bench, Length};
use pfs_order::Seq;
use std::alloc::Global;
use std::marker::{Model, PhantomData};

/// An inserter that computes heads and tails of the sequence without the job, and from them the makespan
/// with the job at each place (Taillard, 1990). One insertion counts (4k - 2)·m cells, where the order has
/// k jobs with the inserted one, on m machines. It reserves its memory when it is made, so `best`
/// allocates nothing.
#[derive(Drop)]
pub struct HeadsTails<B: Bench> {
    table: Table<B::Span>,
    bench: PhantomData<B>,
}

// `lengths` has 2n + 1 rows of m lengths, for n jobs on m machines: a row of zeros, n - 1 rows of heads, n - 1 rows of
// tails, a row of zeros, and the row of the inserted job. Row `count` is that of the heads of the first `count` jobs. The
// tails of the last `count` jobs are `count` rows before the second row of zeros.
#[derive(Drop)]
struct Table<S: Length> {
    jobs: usize,
    machines: usize,
    lengths: Vec<S>,
}

impl<S: Length> Model for Table<S> {
    ghost use Rattle.pfs_insert.specs.Inserter.{Sizes};
    ghost use Rattle.pfs_insert.specs.Private.Rows.{IsTable};

    ghost Value = { Sizes };

    ghost view = { λ a. record { jobs = a.jobs; machines = a.machines } };

    ghost invariant = { λ a. IsTable S.number (record { jobs = a.jobs; machines = a.machines }) a.lengths.items };
}

impl<B: Bench> HeadsTails<B> {
    /// An inserter for shops of the bench's sizes. It allocates its table, 2n + 1 rows of m lengths for
    /// n jobs on m machines, and returns `Memory` where that fails.
    pub fn new(alloc: Global, bench: &B) -> Result<HeadsTails<B>, InsertFault>
        ensures jobs { IfOk result (λ made.
            (⟦<HeadsTails<B> as Inserter<B>>⟧.sizes made).jobs ≡ (B.shop bench.now).jobs) }
        ensures machines { IfOk result (λ made.
            (⟦<HeadsTails<B> as Inserter<B>>⟧.sizes made).machines ≡ (B.shop bench.now).machines) }
    {
        let jobs = bench.jobs();
        let machines = bench.machines();
        let size = (2 * jobs + 1) * machines;
        let mut lengths = Vec::new(alloc);
        if lengths.reserve_exact(size).is_err() || lengths.resize(size, bench.zero()).is_err() {
            return Err(InsertFault::Memory);
        }
        Ok(HeadsTails {
            table: Table {
                jobs,
                machines,
                lengths,
            },
            bench: PhantomData,
        })
    }
}

impl<B: Bench> Inserter<B> for HeadsTails<B> {
    ghost sizes = { λ a. a.table };

    ghost cost = { heads_tails_cost };

    ghost can_refuse = { false };

    #[inline(always)]
    fn best(
        &mut self,
        _alloc: Global,
        bench: &mut B,
        seq: &Seq,
        job: usize,
    ) -> Result<Placed<B::Span>, InsertFault> {
        Ok(best_in_table(bench, seq, job, &mut self.table.lengths))
    }
}

// The best place of a job in a sequence, and the makespan with the job there, computed in an inserter's table.
#[inline(always)]
fn best_in_table<B: Bench>(
    bench: &mut B,
    seq: &Seq,
    job: usize,
    table: &mut [B::Span],
) -> Placed<B::Span>
    requires size { seq.now.size ≡ (B.shop bench.old).jobs }
    requires job { job < seq.now.size }
    requires absent { Contains seq.now.jobs job → ⊥ }
    requires table { IsTable B.Span.number (sizes_of (B.shop bench.old)) table.old }
    requires room { B.counted bench.old
        + heads_tails_cost (length seq.now.jobs + 1) (B.shop bench.old).machines < 2 ^ 64 }
    ensures best { IsBestPlace (B.shop bench.old) seq.now.jobs job result.place (B.Span.number result.span) }
    ensures table { IsTable B.Span.number (sizes_of (B.shop bench.old)) table.new }
    ensures bench { Counted (B.shop bench.old) (B.shop bench.new) (B.counted bench.old) (B.counted bench.new)
        (heads_tails_cost (length seq.now.jobs + 1) (B.shop bench.old).machines) }
{
    let (rows, put) = table.split_at_mut(2 * (seq.size() * bench.machines()));
    fill_rows(bench, seq, rows, false);
    fill_rows(bench, seq, rows, true);
    let mut best = Placed {
        place: 0,
        span: bench.zero(),
    };
    for place in 0..seq.len() + 1 {
        let span = span_with(bench, seq, job, place, rows, put);
        best = better(best, place, span);
    }
    best
}

// The makespan with a job inserted at a place, from the rows of heads and tails.
#[inline(always)]
fn span_with<B: Bench>(
    bench: &mut B,
    seq: &Seq,
    job: usize,
    place: usize,
    rows: &[B::Span],
    put: &mut [B::Span],
) -> B::Span
    requires job { job < (B.shop bench.old).jobs }
    requires few { length seq.now.jobs < (B.shop bench.old).jobs }
    requires place { place ≤ length seq.now.jobs }
    requires rows { HasRows B.Span.number (B.shop bench.old) seq.now.jobs rows.now }
    requires put { length put.old ≡ (B.shop bench.old).machines }
    requires room { B.counted bench.old + 2 * (B.shop bench.old).machines < 2 ^ 64 }
    ensures value { B.Span.number result ≡ makespan_with (B.shop bench.old) seq.now.jobs job place }
    ensures bench { Counted (B.shop bench.old) (B.shop bench.new) (B.counted bench.old) (B.counted bench.new)
        (2 * (B.shop bench.old).machines) }
{
    let machines = bench.machines();
    let front = place * machines;
    fill_row(bench, job, &rows[front..front + machines], put, false);
    let back = rows.len() - (seq.len() - place + 1) * machines;
    bench.join_rows(put, &rows[back..back + machines])
}
