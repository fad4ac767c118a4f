//! Inserting jobs one after another, each at its best place.
ghost use Rattle.std.specs.Prelude.{◌≡◌, ◌+◌, ◌<◌, ◌^◌, [], length, IfOk};
ghost use Rattle.pfs_search.specs.Neh.{with_jobs};
ghost use Rattle.pfs_search.specs.Costs.{insertions_cost};
ghost use Rattle.pfs_search.specs.Private.Steps.{CanInsertAll, IsBuilt, Steps};

use pfs_base::{Bench, Length};
use pfs_insert::{InsertFault, Inserter};
use pfs_order::Seq;
use std::alloc::Global;

/// Removes all jobs from a sequence.
pub(crate) fn clear(seq: &mut Seq)
    ensures { seq.new ≡ record { size = seq.old.size; jobs = [] } }
{
    for place in (0..seq.len()).rev() {
        seq.remove_at(place);
    }
}

/// Inserts jobs into a sequence one after another, each at its best place, and returns the makespan after the last.
/// There must be at least one job. It returns an error where allocation fails in `inserter.best`.
#[inline(always)]
pub(crate) fn insert_all<B: Bench, I: Inserter<B>>(
    alloc: Global,
    inserter: &mut I,
    bench: &mut B,
    seq: &mut Seq,
    jobs: &[usize],
) -> Result<B::Span, InsertFault>
    requires ready { CanInsertAll (B.shop bench.old) (I.sizes inserter.old) seq.old jobs.now }
    requires room { B.counted bench.old
        + insertions_cost I.cost (B.shop bench.old).machines (length seq.old.jobs) (length jobs.now) < 2 ^ 64 }
    ensures made { IfOk result (λ span. IsBuilt (B.shop bench.old) seq.new.jobs
        (with_jobs (B.shop bench.old) seq.old.jobs jobs.now) (length seq.old.jobs + length jobs.now)
        (B.Span.number span)) }
    ensures step { Steps result I.can_refuse (B.counted bench.old) (B.counted bench.new)
        (insertions_cost I.cost (B.shop bench.old).machines (length seq.old.jobs) (length jobs.now))
        (B.shop bench.old) (B.shop bench.new) (I.sizes inserter.new) seq.new.size }
{
    let mut span = bench.zero();
    for job in jobs {
        match inserter.best(alloc, bench, seq, *job) {
            Ok(best) => {
                seq.insert_at(best.place, *job);
                span = best.span;
            }
            Err(fault) => return Err(fault),
        }
    }
    Ok(span)
}
