//! What every inserter promises.
ghost use Rattle.std.specs.Prelude.{◌≡◌, ℕ, ◌+◌, ◌<◌, ◌^◌, length, Bool, false, Contains, IsOk, IfOk};
ghost use Rattle.pfs_insert.specs.Private.BestSoFar.{IsBest};
ghost use Rattle.pfs_insert.specs.Inserter.{Counts, Fits, IsBestPlace, Sizes};

use crate::fault::InsertFault;
use pfs_base::{Bench, Length};
use pfs_order::Seq;
use std::alloc::Global;

/// A place of a sequence, and the makespan of the whole sequence with the job inserted there. Places count
/// from 0: the job goes before the job that was at the place, or after the last job.
#[derive(Clone, Copy, Debug, PartialEq, Eq)]
pub struct Placed<S> {
    pub place: usize,
    pub span: S,
}

/// Finds the best place for a job, on a bench whose shop has the sizes that the inserter was made for.
pub trait Inserter<B: Bench> {
    /// The numbers of jobs and machines of the shops that it was made for.
    ghost sizes: { Self → Sizes };

    /// The cells that one insertion counts, as a function of the number of jobs with the inserted one, and
    /// of the number of machines.
    ghost cost: { ℕ → ℕ → ℕ };

    /// Whether `best` can fail. It always succeeds where this is false.
    ghost can_refuse: { Bool };

    /// The place for a job, among all places of the sequence, that gives the shortest makespan; of
    /// places that give the same makespan, the first. The job must not be in the sequence. A call counts
    /// `cost` cells on the bench, and one that fails counts at most `cost`. It returns `Memory` where
    /// allocation fails, and the inserter can be used again after that.
    fn best(
        &mut self,
        alloc: Global,
        bench: &mut B,
        seq: &Seq,
        job: usize,
    ) -> Result<Placed<B::Span>, InsertFault>
        requires fits { Fits (B.shop bench.old) (sizes self.old) seq.now.size }
        requires job { job < seq.now.size }
        requires absent { Contains seq.now.jobs job → ⊥ }
        requires room { B.counted bench.old + cost (length seq.now.jobs + 1) (B.shop bench.old).machines < 2 ^ 64 }
        ensures best { IfOk result (λ best.
            IsBestPlace (B.shop bench.old) seq.now.jobs job best.place (B.Span.number best.span)) }
        ensures cells { Counts result (B.counted bench.old) (B.counted bench.new)
            (cost (length seq.now.jobs + 1) (B.shop bench.old).machines) }
        ensures succeeds { can_refuse ≡ false → IsOk result }
        ensures shop { B.shop bench.new ≡ B.shop bench.old }
        ensures still_fits { Fits (B.shop bench.new) (sizes self.new) seq.now.size };
}

/// The better of two places: `best`, which is the best of all places before `place`, and `place` itself,
/// whose makespan is `span`. Where both give the same makespan, the better is the first, `best`. Place 0
/// has no places before it, and is always the better.
#[inline(always)]
pub(crate) fn better<S: Length>(best: Placed<S>, place: usize, span: S) -> Placed<S>
    ensures { (value : ℕ → ℕ) → (0 < place → IsBest S.number value place best.place best.span)
        → S.number span ≡ value place → IsBest S.number value (place + 1) result.place result.span }
{
    if place == 0 || span < best.span {
        Placed { place, span }
    } else {
        best
    }
}
