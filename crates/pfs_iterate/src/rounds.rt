//! The steps of a round.
ghost use Rattle.std.specs.Prelude.{◌≡◌, ◌+◌, ◌≤◌, ◌++◌, ◌⊎◌, ◌<◌, ◌^◌, filter, length, map, take as front, fold, vec_capacity};
ghost use Rattle.std.specs.List.{All};
ghost use Rattle.pfs_base.specs.Paths.{makespan};
ghost use Rattle.pfs_order.specs.Sequence.{IsSequence, all_jobs};
ghost use Rattle.pfs_search.specs.Greedy.{jobs_taken};
ghost use Rattle.pfs_iterate.specs.Iterated.{after_round, after_rounds, order_of_round, settled};
ghost use Rattle.pfs_iterate.specs.Iterated.{is_accepted, is_free, movable, put};
ghost use Rattle.pfs_iterate.specs.Private.Steps.{IsRearranged, renumbered};
ghost use Rattle.pfs_iterate.specs.Private.Keeping.{IsLater, IsReady, orders_of};
ghost use Rattle.pfs_iterate.specs.Private.Memory.{AreLists, IsWorkAfter, IsWorkFor};
ghost use Rattle.pfs_iterate.specs.Rounds.{CanIterate, staying};

use crate::destroy::{draw, generator, take_jobs};
use crate::improve::improve;
use crate::iterated::Iterated;
use crate::options::Options;
use crate::places::put;
use crate::stay::keep_free;
use crate::work::{Lists, Work};
use pfs_base::Instance;
use pfs_base::heads::span_of;
use pfs_order::Order;

/// Inserts jobs one after another, each at its first best place from `held` on, and returns the makespan.
#[inline(always)]
pub(crate) fn insert_all(
    work: &mut Work,
    instance: &Instance,
    options: &Options,
    jobs: &[usize],
) -> u64
    requires work { IsWorkFor instance.now.shop work.old }
    requires held { options.now.held ≤ length work.old.seq.jobs }
    requires together { IsSequence instance.now.shop.jobs (jobs.now ++ work.old.seq.jobs) }
    ensures jobs { work.new.seq.jobs ≡ fold (put instance.now.shop options.now) work.old.seq.jobs jobs.now }
    ensures span { result ≡ makespan instance.now.shop work.new.seq.jobs }
    ensures count { length work.new.seq.jobs ≡ length work.old.seq.jobs + length jobs.now }
    ensures front { front options.now.held work.new.seq.jobs ≡ front options.now.held work.old.seq.jobs }
    ensures work { IsWorkAfter instance.now.shop work.old work.new }
{
    if jobs.is_empty() {
        return span_of(instance, work.seq.as_slice());
    }
    let mut span = 0;
    for job in jobs {
        span = put(work, instance, options, *job).span;
    }
    span
}

// Whether a word accepts a makespan in the place of an old one.
fn accepts(accept: &[u32], old: u64, new: u64, word: u32) -> bool
    ensures { result ≡ is_accepted accept.now old new word }
{
    if new <= old {
        return true;
    }
    let longer = new - old;
    longer < accept.len() as u64 && word < accept[longer as usize]
}

// Makes the numbers of jobs among all but one their numbers among all. Its number is less than `count`, the number of
// all, and theirs are less than that of the others.
#[inline(always)]
fn renumber(jobs: &mut [u32], one: u32, count: u32)
    requires { All (λ job. job + 1 < count) jobs.old }
    ensures jobs { jobs.new ≡ map (renumbered one) jobs.old }
{
    for index in 0..jobs.len() {
        jobs[index] += u32::from(one <= jobs[index]);
    }
}

// Lists the jobs that a pass visits, in the order in which random words remove them from all jobs. The last word comes
// first: what it names are numbers among the jobs that are left then.
#[inline(always)]
fn list_jobs(list: &mut Vec<u32>, size: usize, stay: &[u8], words: &[u32])
    requires few { length words.now ≤ size }
    requires size { size < 2 ^ 32 }
    requires room { size ≤ vec_capacity list.old }
    ensures list { list.new.items ≡ filter (is_free stay.now) (jobs_taken (all_jobs size) words.now) }
    ensures room { vec_capacity list.old ≤ vec_capacity list.new }
{
    list.clear();
    for done in 0..words.len() {
        let place = words.len() - 1 - done;
        let count = (size - place) as u32;
        let job = words[place] % count;
        renumber(list.as_mut_slice(), job, count);
        list.push_reserved(job);
    }
    list.as_mut_slice().reverse();
    keep_free(list, stay);
}

// Makes the passes over the jobs that are left after a removal.
#[inline(always)]
fn improve_left(work: &mut Work, instance: &Instance, options: &Options, list: &[u32])
    requires work { IsWorkFor instance.now.shop work.old }
    requires held { options.now.held ≤ length work.old.seq.jobs }
    ensures jobs { work.new.seq.jobs ≡ settled instance.now.shop options.now list.now options.now.partial work.old.seq.jobs }
    ensures same { IsRearranged options.now.held work.old.seq work.new.seq }
    ensures work { IsWorkAfter instance.now.shop work.old work.new }
{
    if options.partial == 0 {
        return;
    }
    let span = span_of(instance, work.seq.as_slice());
    improve(work, instance, options, list, options.partial, span);
}

// Makes the sequence of `work` the order that a round finds by its words after the first, and returns its makespan.
#[inline(always)]
fn find(
    work: &mut Work,
    lists: &mut Lists,
    instance: &Instance,
    options: &Options,
    stay: &[u8],
    order: &Order,
    words: &[u32],
) -> u64
    requires work { IsWorkFor instance.now.shop work.old }
    requires lists { AreLists instance.now.shop lists.old }
    requires options { CanIterate instance.now.shop options.now }
    requires order { length order.now ≡ instance.now.shop.jobs }
    requires free { options.now.take ≤ length (movable options.now.held stay.now order.now) }
    requires some { options.now.take ≤ length words.now }
    requires few { length words.now ≤ options.now.take + instance.now.shop.jobs }
    ensures order { work.new.seq.jobs ≡ order_of_round instance.now.shop options.now stay.now order.now words.now }
    ensures span { result ≡ makespan instance.now.shop work.new.seq.jobs }
    ensures all { length work.new.seq.jobs ≡ instance.now.shop.jobs }
    ensures front { front options.now.held work.new.seq.jobs ≡ front options.now.held order.now }
    ensures staying { staying stay.now work.new.seq.jobs ≡ staying stay.now order.now }
    ensures work { IsWorkAfter instance.now.shop work.old work.new }
    ensures lists { AreLists instance.now.shop lists.new }
{
    let (removing, shuffling) = words.split_at(options.take);
    list_jobs(&mut lists.visits, instance.jobs(), stay, shuffling);
    take_jobs(
        order,
        &mut work.seq,
        &mut lists.removed,
        &mut lists.ranks,
        options.held,
        stay,
        removing,
    );
    let visits = lists.visits.as_slice();
    improve_left(work, instance, options, visits);
    let rebuilt = insert_all(work, instance, options, lists.removed.as_slice());
    improve(work, instance, options, visits, options.passes, rebuilt)
}

// How many words of a round decide: where no pass is made, none of those that name the jobs that it visits.
fn words_used(options: &Options, each: usize) -> usize
    requires { options.now.take + 1 ≤ each }
    ensures some { options.now.take + 1 ≤ result }
    ensures few { result ≤ each }
    ensures all { (result ≡ each) ⊎ ((options.now.partial ≡ 0) × (options.now.passes ≡ 0)) }
{
    if options.partial == 0 && options.passes == 0 {
        options.take + 1
    } else {
        each
    }
}

impl Iterated {
    // One round, with the first `used` words.
    #[inline(always)]
    fn round(
        &mut self,
        instance: &Instance,
        options: &Options,
        accept: &[u32],
        stay: &[u8],
        used: usize,
    )
        requires options { CanIterate instance.now.shop options.now }
        requires some { options.now.take + 1 ≤ used }
        requires few { used ≤ instance.now.shop.jobs + options.now.take + 1 }
        requires ready { IsReady instance.now.shop options.now stay.now self.old }
        ensures done { orders_of self.new ≡ after_round instance.now.shop options.now accept.now stay.now
            (orders_of self.old) (front used self.old.words.items) }
        ensures ready { IsReady instance.now.shop options.now stay.now self.new }
        ensures later { IsLater options.now.held stay.now self.old self.new }
    {
        let Iterated {
            work,
            lists,
            words,
            current,
            best,
        } = self;
        let words = &words[..used];
        let order = &current.order;
        let span = find(work, lists, instance, options, stay, order, &words[1..]);
        if span < best.span {
            best.order.copy_from(&work.seq);
            best.span = span;
        }
        if accepts(accept, current.span, span, words[0]) {
            current.order.copy_from(&work.seq);
            current.span = span;
        }
    }

    /// Makes rounds of a seed on the orders that are kept.
    pub(crate) fn play(
        &mut self,
        instance: &Instance,
        options: &Options,
        accept: &[u32],
        stay: &[u8],
    )
        requires options { CanIterate instance.now.shop options.now }
        requires ready { IsReady instance.now.shop options.now stay.now self.old }
        ensures done { orders_of self.new ≡ after_rounds instance.now.shop options.now accept.now stay.now
            options.now.first options.now.count (orders_of self.old) }
        ensures ready { IsReady instance.now.shop options.now stay.now self.new }
        ensures later { IsLater options.now.held stay.now self.old self.new }
    {
        let each = instance.jobs() + options.take + 1;
        let used = words_used(options, each);
        let mut rng = generator(options.seed, options.first, each);
        for _done in 0..options.count {
            draw(&mut rng, &mut self.words, used, each);
            self.round(instance, options, accept, stay, used);
        }
    }
}
