//! Insertions and passes outside of rounds.
ghost use Rattle.std.specs.Prelude.{◌≡◌, ◌+◌, ◌<◌, ◌≤◌, ◌++◌, length, take as front, Contains, vec_capacity};
ghost use Rattle.pfs_order.specs.Sequence.{IsSequence};
ghost use Rattle.pfs_iterate.specs.Alone.{IsBuilt, IsChosen, by_ties};

use crate::improve::improve;
use crate::iterated::Iterated;
use crate::options::Options;
use crate::places::put;
use crate::rounds::insert_all;
use pfs_base::Instance;
use pfs_insert::Placed;
use pfs_wave::OfShop;

impl Iterated {
    /// Finds the place of a job in a sequence by a rule for equally good places, and the makespan with the job there.
    pub fn choose(
        &mut self,
        instance: &Instance,
        ties: u32,
        sequence: &[u32],
        job: usize,
    ) -> Placed<u64>
        requires own { ⟦<Iterated as OfShop>⟧.is_of self.old instance.now.shop }
        requires sequence { IsSequence instance.now.shop.jobs sequence.now }
        requires job { job < instance.now.shop.jobs }
        requires absent { Contains sequence.now job → ⊥ }
        ensures chosen { IsChosen instance.now.shop ties sequence.now job result.place result.span }
        ensures still { ⟦<Iterated as OfShop>⟧.is_of self.new instance.now.shop }
        ensures kept { self.new.work.search.kept ≡ self.old.work.search.kept }
        ensures cells { self.new.work.search.cells ≡ self.old.work.search.cells }
    {
        self.work.seq.set(sequence);
        put(&mut self.work, instance, &by_ties(ties), job)
    }

    /// Inserts more jobs after one another into the first `count` of `order`, each at its place by a rule for equally
    /// good places. Then it makes passes over a list of jobs until one makes the sequence no shorter, at most `passes`.
    /// It overwrites `order` with the sequence, and returns the makespan.
    pub fn build(
        &mut self,
        instance: &Instance,
        ties: u32,
        more: &[u32],
        list: &[u32],
        passes: u32,
        order: &mut [u32],
        count: usize,
    ) -> u64
        requires own { ⟦<Iterated as OfShop>⟧.is_of self.old instance.now.shop }
        requires long { length order.old ≡ count + length more.now }
        requires together { IsSequence instance.now.shop.jobs (more.now ++ front count order.old) }
        requires list { IsSequence instance.now.shop.jobs list.now }
        ensures built { IsBuilt instance.now.shop ties (front count order.old) more.now list.now passes order.new result }
        ensures still { ⟦<Iterated as OfShop>⟧.is_of self.new instance.now.shop }
        ensures kept { self.new.work.search.kept ≡ self.old.work.search.kept }
        ensures cells { self.new.work.search.cells ≡ self.old.work.search.cells }
    {
        let work = &mut self.work;
        let options = by_ties(ties);
        work.seq.set(&order[..count]);
        copy_jobs(more, &mut self.lists.removed);
        let start = insert_all(work, instance, &options, self.lists.removed.as_slice());
        // Called for its contract, which says that the jobs of a sequence are distinct.
        let _size = work.seq.size();
        let span = improve(work, instance, &options, list, passes, start);
        order.copy_from_slice(work.seq.as_slice());
        span
    }
}

// The options with a rule for equally good places and no held jobs.
fn by_ties(ties: u32) -> Options
    ensures { result ≡ by_ties ties }
{
    Options {
        seed: 0,
        take: 0,
        held: 0,
        first: 0,
        count: 0,
        partial: 0,
        passes: 0,
        ties,
    }
}

// Replaces the jobs of a list that has room for them.
fn copy_jobs(jobs: &[u32], list: &mut Vec<usize>)
    requires { length jobs.now ≤ vec_capacity list.old }
    ensures items { list.new.items ≡ jobs.now }
    ensures room { vec_capacity list.old ≤ vec_capacity list.new }
{
    list.clear();
    for job in jobs {
        list.push_reserved(*job as usize);
    }
}
