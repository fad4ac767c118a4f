//! Passes over an order: each job in turn, by increasing number, is removed and inserted at its best place.
ghost use Rattle.std.specs.Prelude.{◌+◌, ◌*◌, ◌<◌, ◌^◌, IfOk};
ghost use Rattle.pfs_search.specs.Costs.{pass_cost_on};
ghost use Rattle.pfs_search.specs.Greedy.{after_passes, moved, pass};
ghost use Rattle.pfs_search.specs.Private.Steps.{CanMove, CanPass, IsBuilt, Steps};

use pfs_base::{Bench, Length};
use pfs_insert::{InsertFault, Inserter};
use pfs_order::Seq;
use std::alloc::Global;

/// Makes `passes` passes over an order of all jobs, whose makespan is `span`, and returns the makespan after them. It
/// returns an error where allocation fails in `inserter.best`.
#[inline(always)]
pub(crate) fn make_passes<B: Bench, I: Inserter<B>>(
    alloc: Global,
    inserter: &mut I,
    bench: &mut B,
    seq: &mut Seq,
    span: B::Span,
    passes: u32,
) -> Result<B::Span, InsertFault>
    requires ready { CanPass (B.shop bench.old) (I.sizes inserter.old) seq.old (B.Span.number span) }
    requires room { B.counted bench.old + passes * pass_cost_on I.cost (B.shop bench.old) < 2 ^ 64 }
    ensures made { IfOk result (λ span. IsBuilt (B.shop bench.old) seq.new.jobs
        (after_passes (B.shop bench.old) passes seq.old.jobs) (B.shop bench.old).jobs (B.Span.number span)) }
    ensures step { Steps result I.can_refuse (B.counted bench.old) (B.counted bench.new)
        (passes * pass_cost_on I.cost (B.shop bench.old))
        (B.shop bench.old) (B.shop bench.new) (I.sizes inserter.new) seq.new.size }
{
    let mut span = span;
    for _done in 0..passes {
        span = make_pass(alloc, inserter, bench, seq, span)?;
    }
    Ok(span)
}

// Makes a pass over an order of all jobs, whose makespan is `span`, and returns the makespan after it.
#[inline(always)]
fn make_pass<B: Bench, I: Inserter<B>>(
    alloc: Global,
    inserter: &mut I,
    bench: &mut B,
    seq: &mut Seq,
    span: B::Span,
) -> Result<B::Span, InsertFault>
    requires ready { CanPass (B.shop bench.old) (I.sizes inserter.old) seq.old (B.Span.number span) }
    requires room { B.counted bench.old + pass_cost_on I.cost (B.shop bench.old) < 2 ^ 64 }
    ensures made { IfOk result (λ span. IsBuilt (B.shop bench.old) seq.new.jobs
        (pass (B.shop bench.old) seq.old.jobs) (B.shop bench.old).jobs (B.Span.number span)) }
    ensures step { Steps result I.can_refuse (B.counted bench.old) (B.counted bench.new)
        (pass_cost_on I.cost (B.shop bench.old))
        (B.shop bench.old) (B.shop bench.new) (I.sizes inserter.new) seq.new.size }
{
    let mut span = span;
    for job in 0..seq.size() {
        span = move_job(alloc, inserter, bench, seq, job)?;
    }
    Ok(span)
}

// Removes a job from an order of all jobs, inserts it at its best place, and returns the makespan after that.
#[inline(always)]
fn move_job<B: Bench, I: Inserter<B>>(
    alloc: Global,
    inserter: &mut I,
    bench: &mut B,
    seq: &mut Seq,
    job: usize,
) -> Result<B::Span, InsertFault>
    requires ready { CanMove (B.shop bench.old) (I.sizes inserter.old) seq.old job }
    requires room { B.counted bench.old + I.cost (B.shop bench.old).jobs (B.shop bench.old).machines < 2 ^ 64 }
    ensures made { IfOk result (λ span. IsBuilt (B.shop bench.old) seq.new.jobs
        (moved (B.shop bench.old) seq.old.jobs job) (B.shop bench.old).jobs (B.Span.number span)) }
    ensures step { Steps result I.can_refuse (B.counted bench.old) (B.counted bench.new)
        (I.cost (B.shop bench.old).jobs (B.shop bench.old).machines)
        (B.shop bench.old) (B.shop bench.new) (I.sizes inserter.new) seq.new.size }
{
    // Called for its contract, which says that the jobs of a sequence are distinct.
    let _size = seq.size();
    let place = seq.place_of(job);
    seq.remove_at(place);
    let best = inserter.best(alloc, bench, seq, job)?;
    seq.insert_at(best.place, job);
    Ok(best.span)
}
