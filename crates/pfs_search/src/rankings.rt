//! The ranking of the jobs.
ghost use Rattle.std.specs.Prelude.{◌≡◌, ◌≤◌, length, map, vec_len, vec_capacity};
ghost use Rattle.std.specs.List.Sorted.{IsPermutation, IsSorted};
ghost use Rattle.std.specs.Ordering.{nat_cmp, ordering_then};
ghost use Rattle.pfs_search.specs.Private.Steps.{AreTotals, HasKept, HaveRoom, IsRanked};

use pfs_base::{Bench, Shop};
use std::cmp::Reverse;

/// Writes the ranking of all jobs over the list `jobs`. It uses `ranked`, a list of the jobs with their totals. Both
/// lists must have room for all jobs.
pub(crate) fn rank_jobs<B: Shop>(
    bench: &B,
    ranked: &mut Vec<(Reverse<u64>, usize)>,
    jobs: &mut Vec<usize>,
)
    requires room { HaveRoom (B.shop bench.now).jobs ranked.old jobs.old }
    ensures ranking { IsRanked (B.shop bench.now) jobs.old jobs.new }
    ensures capacity { vec_capacity ranked.old ≤ vec_capacity ranked.new }
{
    list_totals(bench, ranked);
    sort_jobs(ranked);
    copy_jobs(ranked, jobs);
}

// Writes all jobs over a list that has room for them, by increasing number, each as a pair of its total and its number.
fn list_totals<B: Shop>(bench: &B, listed: &mut Vec<(Reverse<u64>, usize)>)
    requires room { (B.shop bench.now).jobs ≤ vec_capacity listed.old }
    ensures totals { AreTotals (B.shop bench.now) listed.new.items }
    ensures capacity { vec_capacity listed.old ≤ vec_capacity listed.new }
{
    listed.clear();
    for job in 0..bench.jobs() {
        listed.push_reserved((Reverse(bench.total(job)), job));
    }
}

// Sorts listed jobs by decreasing total, and at equal totals by number.
fn sort_jobs(listed: &mut Vec<(Reverse<u64>, usize)>)
    ensures permutation { IsPermutation listed.old.items listed.new.items }
    ensures sorted { IsSorted (λ x y. ordering_then (nat_cmp y.0.0 x.0.0) (nat_cmp x.1 y.1)) listed.new.items }
    ensures kept { HasKept listed.old listed.new (vec_len listed.old) }
{
    listed.sort_unstable();
}

// Writes the jobs of a list of pairs over a list that has room for them.
fn copy_jobs(listed: &[(Reverse<u64>, usize)], jobs: &mut Vec<usize>)
    requires room { length listed.now ≤ vec_capacity jobs.old }
    ensures jobs { jobs.new.items ≡ map (λ entry. entry.1) listed.now }
    ensures capacity { vec_capacity jobs.old ≤ vec_capacity jobs.new }
{
    jobs.clear();
    for (_, job) in listed {
        jobs.push_reserved(*job);
    }
}
