//! One round of iterated greedy, and the random words of the next.
ghost use Rattle.std.specs.Prelude.{◌≡◌, ◌+◌, ◌<◌, ◌≤◌, ◌^◌, length, take as front};
ghost use Rattle.std.specs.Prelude.{vec_len, vec_capacity, MatchResult};
ghost use Rattle.pfs_search.specs.Costs.{round_cost_on};
ghost use Rattle.pfs_search.specs.Greedy.{after_round};
ghost use Rattle.pfs_search.specs.Private.Steps.{AreNextWords, AreTaken, CanTake};
ghost use Rattle.pfs_search.specs.SearcherView.{IsKeptSpan, MayPlay, Searches};

use crate::insertions::insert_all;
use crate::kept::Kept;
use crate::passes::make_passes;
use crate::workspace::Workspace;
use pfs_base::{Bench, Length};
use pfs_insert::{InsertFault, Inserter};
use pfs_order::Seq;
use rand_core::Rng;
use std::alloc::Global;

/// One round. It returns an error where allocation fails in the inserter, and then `kept` is unchanged.
#[inline(always)]
pub(crate) fn play_round<B: Bench, I: Inserter<B>>(
    alloc: Global,
    work: &mut Workspace<I>,
    bench: &mut B,
    kept: &mut Kept<B::Span>,
    words: &[u32],
    passes: u32,
) -> Result<(), InsertFault>
    requires ready { MayPlay (B.shop bench.old) I.sizes work.old kept.old.order (B.Span.number kept.old.span)
        (length words.now) passes }
    requires room { B.counted bench.old
        + round_cost_on I.cost (B.shop bench.old) (length words.now) passes < 2 ^ 64 }
    ensures order { MatchResult result
        (λ _. kept.new.order ≡ after_round (B.shop bench.old) passes kept.old.order words.now)
        (λ _. kept.new ≡ kept.old) }
    ensures span { IsKeptSpan (B.shop bench.old) (B.Span.number kept.old.span) kept.new.order
        (B.Span.number kept.new.span) }
    ensures effect { Searches result I.can_refuse (B.counted bench.old) (B.counted bench.new)
        (round_cost_on I.cost (B.shop bench.old) (length words.now) passes)
        (B.shop bench.old) (B.shop bench.new) I.sizes work.new kept.new.order }
{
    take_jobs(kept.order.seq(), &mut work.seq, &mut work.queue, words);
    let rebuilt = insert_all(alloc, &mut work.inserter, bench, &mut work.seq, &work.queue)?;
    let span = make_passes(
        alloc,
        &mut work.inserter,
        bench,
        &mut work.seq,
        rebuilt,
        passes,
    )?;
    if span <= kept.span {
        kept.order.copy_from(&work.seq);
        kept.span = span;
    }
    Ok(())
}

// Copies an order, and removes the jobs that the random words name from the copy.
#[inline(always)]
fn take_jobs(order: &Seq, seq: &mut Seq, taken: &mut Vec<usize>, words: &[u32])
    requires ready { CanTake order.now seq.old words.now }
    requires room { length words.now ≤ vec_capacity taken.old }
    ensures taken { AreTaken order.now words.now taken.old taken.new seq.new }
{
    seq.copy_from(order);
    taken.clear();
    for word in words {
        let place = *word as usize % seq.len();
        let job = seq.remove_at(place);
        taken.push_reserved(job);
    }
}

/// Writes the next `take` random words of a generator, one for each job that a round removes, over the first words of a
/// list.
pub(crate) fn draw_words<R: Rng>(rng: &mut R, words: &mut Vec<u32>, take: usize)
    requires { take ≤ vec_len words.old }
    ensures drawn { AreNextWords take (R.stream rng.old) (R.stream rng.new) (front take words.new.items) }
    ensures len { vec_len words.new ≡ vec_len words.old }
{
    for place in 0..take {
        words[place] = rng.next_u32();
    }
}
