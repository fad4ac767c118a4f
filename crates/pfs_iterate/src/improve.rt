//! Local search: each job leaves its place for its best one.
ghost use Rattle.std.specs.Prelude.{◌≡◌, ◌+◌, ◌<◌, ◌≤◌, ◌^◌, true, false, length, drop, fold, nat_eq, MatchOption};
ghost use Rattle.std.specs.List.{list_any, slice_index_or};
ghost use Rattle.pfs_base.specs.Paths.{makespan};
ghost use Rattle.pfs_iterate.specs.Iterated.{settled, moved};
ghost use Rattle.pfs_iterate.specs.Private.Steps.{IsRearranged};
ghost use Rattle.pfs_iterate.specs.Private.Memory.{IsWorkAfter, IsWorkFor};

use crate::options::Options;
use crate::places::put;
use crate::work::Work;
use pfs_base::Instance;

// The place of a job, from a place on. The loop has no early exit, so the compiler vectorizes it.
#[inline(always)]
fn place_from(jobs: &[u32], held: usize, job: u32) -> Option<usize>
    requires held { held ≤ length jobs.now }
    requires few { length jobs.now < 2 ^ 32 }
    ensures { MatchOption result (list_any (nat_eq job) (drop held jobs.now) ≡ false)
        (λ place. (held ≤ place) × (place < length jobs.now) × (slice_index_or jobs.now place 0 ≡ job)
        × (list_any (nat_eq job) (drop held jobs.now) ≡ true)) }
{
    let behind = &jobs[held..];
    let mut first = u32::MAX;
    for index in 0..behind.len() {
        let found = if behind[index] == job {
            index as u32
        } else {
            u32::MAX
        };
        first = first.min(found);
    }
    let first = first as usize;
    if first < behind.len() {
        Some(held + first)
    } else {
        None
    }
}

// Moves a job that is at a place from `held` on to its first best place there, and returns the makespan.
#[inline(always)]
fn visit(work: &mut Work, instance: &Instance, options: &Options, job: u32, span: u64) -> u64
    requires work { IsWorkFor instance.now.shop work.old }
    requires held { options.now.held ≤ length work.old.seq.jobs }
    requires span { span ≡ makespan instance.now.shop work.old.seq.jobs }
    ensures jobs { work.new.seq.jobs ≡ moved instance.now.shop options.now work.old.seq.jobs job }
    ensures span { result ≡ makespan instance.now.shop work.new.seq.jobs }
    ensures same { IsRearranged options.now.held work.old.seq work.new.seq }
    ensures work { IsWorkAfter instance.now.shop work.old work.new }
{
    // Called for its contract, which says that the jobs of a sequence are distinct.
    let _size = work.seq.size();
    match place_from(work.seq.as_slice(), options.held, job) {
        Some(place) => {
            let job = work.seq.remove_at(place);
            put(work, instance, options, job).span
        }
        None => span,
    }
}

// Makes a pass over a list of jobs, and returns the makespan after it.
#[inline(always)]
fn pass(work: &mut Work, instance: &Instance, options: &Options, list: &[u32], span: u64) -> u64
    requires work { IsWorkFor instance.now.shop work.old }
    requires held { options.now.held ≤ length work.old.seq.jobs }
    requires span { span ≡ makespan instance.now.shop work.old.seq.jobs }
    ensures jobs { work.new.seq.jobs ≡ fold (moved instance.now.shop options.now) work.old.seq.jobs list.now }
    ensures span { result ≡ makespan instance.now.shop work.new.seq.jobs }
    ensures same { IsRearranged options.now.held work.old.seq work.new.seq }
    ensures work { IsWorkAfter instance.now.shop work.old work.new }
{
    let mut span = span;
    for job in list {
        span = visit(work, instance, options, *job, span);
    }
    span
}

/// Makes passes until one makes the sequence no shorter, at most `passes`, and returns the makespan after them.
#[inline(always)]
pub(crate) fn improve(
    work: &mut Work,
    instance: &Instance,
    options: &Options,
    list: &[u32],
    passes: u32,
    span: u64,
) -> u64
    requires work { IsWorkFor instance.now.shop work.old }
    requires held { options.now.held ≤ length work.old.seq.jobs }
    requires span { span ≡ makespan instance.now.shop work.old.seq.jobs }
    ensures jobs { work.new.seq.jobs ≡ settled instance.now.shop options.now list.now passes work.old.seq.jobs }
    ensures span { result ≡ makespan instance.now.shop work.new.seq.jobs }
    ensures same { IsRearranged options.now.held work.old.seq work.new.seq }
    ensures work { IsWorkAfter instance.now.shop work.old work.new }
{
    let mut before = span;
    for made in 0..passes {
        let after = pass(work, instance, options, list, before);
        if after >= before {
            return after;
        }
        before = after;
    }
    before
}
