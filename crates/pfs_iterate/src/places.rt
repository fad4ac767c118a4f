//! The makespans with a job at each place, and the best one of the places that may change.
ghost use Rattle.std.specs.Prelude.{◌≡◌, ℕ, ◌+◌, ◌-◌, ◌<◌, ◌≤◌, length, take as front, Contains, insert};
ghost use Rattle.std.specs.Prelude.{IfOk};
ghost use Rattle.std.specs.List.{slice_index_or};
ghost use Rattle.pfs_insert.specs.Insertion.{IsFirstLeast, makespan_with};
ghost use Rattle.pfs_search.specs.Search.{IsSearchOf};
ghost use Rattle.pfs_iterate.specs.Iterated.{total_delay};
ghost use Rattle.pfs_iterate.specs.Private.Steps.{IsBestFrom, IsLeastFrom, IsPlaceFor};
ghost use Rattle.pfs_iterate.specs.Private.Memory.{AreHeads, IsPlacesFor, IsSearchAfter, IsWorkAfter, IsWorkFor};

use crate::heads::Heads;
use crate::options::{Options, TIES_FIRST, TIES_IDLE};
use crate::work::Work;
use pfs_base::Instance;
use pfs_insert::Placed;
use pfs_order::Seq;
use pfs_search::Search;
use std::alloc::{AllocError, Global};

// Which part of a sequence few held jobs are, at most: the others evaluate all places once instead of twice.
const FEW_HELD: usize = 8;

/// What a place is chosen with: the makespans with a job at each place, and heads.
#[derive(Drop)]
pub(crate) struct Places {
    pub(crate) spans: Vec<u64>,
    pub(crate) heads: Heads,
}

impl Places {
    /// Reserves the memory.
    pub(crate) fn new(alloc: Global, instance: &Instance) -> Result<Places, AllocError>
        ensures { IfOk result (IsPlacesFor instance.now.shop) }
    {
        Ok(Places {
            spans: vec![in alloc; 0; instance.jobs() + 1]?,
            heads: Heads::new(alloc, instance)?,
        })
    }
}

// The first and the last place of the least makespan.
#[derive(Clone, Copy)]
struct Least {
    place: usize,
    last: usize,
    span: u64,
}

// The first place of the least makespan, from a place on.
#[inline(always)]
fn first_least(spans: &[u64], held: usize) -> Placed<u64>
    requires { held < length spans.now }
    ensures least { IsLeastFrom (λ place. slice_index_or spans.now place 0) held (length spans.now) result.place
        (length spans.now - 1) }
    ensures span { result.span ≡ slice_index_or spans.now result.place 0 }
{
    let mut found = Placed {
        place: held,
        span: spans[held],
    };
    for place in held + 1..spans.len() {
        let span = spans[place];
        if span < found.span {
            found = Placed { place, span };
        }
    }
    found
}

// The first place of the least makespan, from a place on, and the last one. `best` is the first of all places.
#[inline(always)]
fn least_from(spans: &[u64], held: usize, best: Placed<u64>) -> Least
    requires held { held < length spans.now }
    requires best { IsFirstLeast (λ place. slice_index_or spans.now place 0) (length spans.now) best.place }
    requires span { best.span ≡ slice_index_or spans.now best.place 0 }
    ensures least { IsLeastFrom (λ place. slice_index_or spans.now place 0) held (length spans.now) result.place result.last }
    ensures span { result.span ≡ slice_index_or spans.now result.place 0 }
{
    let Placed { place, span } = if held <= best.place {
        best
    } else {
        first_least(spans, held)
    };
    for last in (place + 1..spans.len()).rev() {
        if spans[last] == span {
            return Least { place, last, span };
        }
    }
    Least {
        place,
        last: place,
        span,
    }
}

// Of the places with the makespan of `best`, the first with the least total delay.
fn least_delay(
    instance: &Instance,
    heads: &mut Heads,
    spans: &[u64],
    seq: &Seq,
    job: usize,
    best: &Least,
    held: usize,
) -> usize
    requires heads { AreHeads instance.now.shop heads.old }
    requires size { seq.now.size ≡ instance.now.shop.jobs }
    requires job { job < instance.now.shop.jobs }
    requires long { length spans.now ≡ length seq.now.jobs + 1 }
    requires least { IsLeastFrom (λ place. slice_index_or spans.now place 0) held (length spans.now) best.now.place
        best.now.last }
    requires span { best.now.span ≡ slice_index_or spans.now best.now.place 0 }
    ensures best { IsBestFrom (λ place. slice_index_or spans.now place 0) (total_delay instance.now.shop seq.now.jobs job)
        held (length spans.now) result }
    ensures span { slice_index_or spans.now result 0 ≡ best.now.span }
    ensures heads { AreHeads instance.now.shop heads.new }
{
    heads.follow(instance, seq.as_slice(), seq.len().min(best.last + 1));
    let mut found = best.place;
    let mut least = heads.delay(instance, job, found);
    for place in best.place + 1..best.last + 1 {
        if spans[place] == best.span {
            let delay = heads.delay(instance, job, place);
            if delay < least {
                found = place;
                least = delay;
            }
        }
    }
    found
}

// The best place of a job by the makespans at all places, of which `best` is the first of the least, and its makespan.
#[inline(always)]
fn choose(
    instance: &Instance,
    heads: &mut Heads,
    spans: &[u64],
    best: Placed<u64>,
    seq: &Seq,
    job: usize,
    options: &Options,
) -> Placed<u64>
    requires heads { AreHeads instance.now.shop heads.old }
    requires size { seq.now.size ≡ instance.now.shop.jobs }
    requires held { options.now.held ≤ length seq.now.jobs }
    requires job { job < instance.now.shop.jobs }
    requires spans { (place : ℕ) → place ≤ length seq.now.jobs
        → slice_index_or spans.now place 0 ≡ makespan_with instance.now.shop seq.now.jobs job place }
    requires long { length spans.now ≡ length seq.now.jobs + 1 }
    requires best { IsFirstLeast (makespan_with instance.now.shop seq.now.jobs job) (length seq.now.jobs + 1) best.place }
    requires span { best.span ≡ makespan_with instance.now.shop seq.now.jobs job best.place }
    ensures place { IsPlaceFor instance.now.shop options.now seq.now.jobs job result.place result.span }
    ensures heads { AreHeads instance.now.shop heads.new }
{
    let best = least_from(spans, options.held, best);
    let span = best.span;
    if options.ties != TIES_IDLE || best.last == best.place {
        return Placed {
            place: best.place,
            span,
        };
    }
    let place = least_delay(instance, heads, spans, seq, job, &best, options.held);
    Placed { place, span }
}

// The first of all places with the least makespan. `spans` gets the makespans with the job at the first places, as many
// as it has room for.
#[inline(always)]
fn best_of_all(
    search: &mut Search,
    instance: &Instance,
    seq: &Seq,
    job: usize,
    spans: &mut [u64],
) -> Placed<u64>
    requires search { IsSearchOf instance.now.shop search.old }
    requires size { seq.now.size ≡ instance.now.shop.jobs }
    requires job { job < instance.now.shop.jobs }
    requires absent { Contains seq.now.jobs job → ⊥ }
    ensures best { IsFirstLeast (makespan_with instance.now.shop seq.now.jobs job) (length seq.now.jobs + 1) result.place }
    ensures span { result.span ≡ makespan_with instance.now.shop seq.now.jobs job result.place }
    ensures spans { (place : ℕ) → place ≤ length seq.now.jobs → place < length spans.old
        → slice_index_or spans.new place 0 ≡ makespan_with instance.now.shop seq.now.jobs job place }
    ensures long { length spans.new ≡ length spans.old }
    ensures search { IsSearchAfter instance.now.shop search.old search.new }
{
    // Called for its contract, which says that no place before the best one is as good.
    pfs_insert::laws::best_place();
    let mut bench = instance.metered();
    let count = spans.len().min(seq.len() + 1);
    let best = search.best(&mut bench, seq.as_slice(), job, &mut spans[..count]);
    Placed {
        place: best.place,
        span: bench.reveal(best.span),
    }
}

// The chosen place for a job, and the makespan with the job there.
#[inline(always)]
fn find_place(work: &mut Work, instance: &Instance, options: &Options, job: usize) -> Placed<u64>
    requires work { IsWorkFor instance.now.shop work.old }
    requires held { options.now.held ≤ length work.old.seq.jobs }
    requires job { job < instance.now.shop.jobs }
    requires absent { Contains work.old.seq.jobs job → ⊥ }
    ensures place { IsPlaceFor instance.now.shop options.now work.old.seq.jobs job result.place result.span }
    ensures seq { work.new.seq ≡ work.old.seq }
    ensures work { IsWorkAfter instance.now.shop work.old work.new }
{
    let Work {
        search,
        seq,
        places,
    } = work;
    // Few held jobs seldom have the best place among them.
    if options.ties == TIES_FIRST && options.held <= seq.len() / FEW_HELD {
        let best = best_of_all(search, instance, seq, job, &mut []);
        if options.held <= best.place {
            return best;
        }
    }
    let best = best_of_all(search, instance, seq, job, &mut places.spans);
    let spans = &places.spans[..seq.len() + 1];
    choose(instance, &mut places.heads, spans, best, seq, job, options)
}

/// Inserts a job at its best place, and returns the place and the makespan.
#[inline(always)]
pub(crate) fn put(
    work: &mut Work,
    instance: &Instance,
    options: &Options,
    job: usize,
) -> Placed<u64>
    requires work { IsWorkFor instance.now.shop work.old }
    requires held { options.now.held ≤ length work.old.seq.jobs }
    requires job { job < instance.now.shop.jobs }
    requires absent { Contains work.old.seq.jobs job → ⊥ }
    ensures place { IsPlaceFor instance.now.shop options.now work.old.seq.jobs job result.place result.span }
    ensures jobs { work.new.seq ≡ record work.old.seq { jobs = insert work.old.seq.jobs result.place job } }
    ensures work { IsWorkAfter instance.now.shop work.old work.new }
{
    let best = find_place(work, instance, options, job);
    work.seq.insert_at(best.place, job);
    best
}
