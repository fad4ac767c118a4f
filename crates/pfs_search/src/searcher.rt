//! The searcher: NEH and rounds of iterated greedy.
ghost use Rattle.std.specs.Prelude.{◌≡◌, ◌+◌, ◌*◌, ◌<◌, ◌≤◌, ◌^◌, length, IfOk, OnOk, OnErr, IfErr};
ghost use Rattle.pfs_base.specs.Paths.{makespan};
ghost use Rattle.pfs_search.specs.Neh.{neh_order};
ghost use Rattle.pfs_search.specs.Costs.{neh_cost_on, round_cost_on};
ghost use Rattle.pfs_search.specs.Greedy.{after_round, after_rounds, stream_after, words_of};
ghost use Rattle.pfs_search.specs.RoundsStop.{RoundsStop};
ghost use Rattle.pfs_search.specs.SearcherView.{AllFit, IsKeptSpan, MayPlay, Searches};

use crate::fault::SearchFault;
use crate::greedy::{draw_words, play_round};
use crate::insertions::{clear, insert_all};
use crate::kept::Kept;
use crate::rankings::rank_jobs;
use crate::workspace::Workspace;
use pfs_base::{Bench, Length, MOST_JOBS, MOST_PASSES, Shop};
use pfs_insert::Inserter;
use pfs_order::Seq;
use rand_core::Rng;
use std::alloc::Global;
use std::cmp::Reverse;
use std::marker::Model;

/// Searches with an inserter, for shops of one number of jobs. A searcher reserves all its own memory when it is made;
/// only the inserter can allocate after that.
#[derive(Drop)]
pub struct Searcher<I> {
    work: Workspace<I>,
    ranked: Vec<(Reverse<u64>, usize)>,
    words: Vec<u32>,
}

impl<I> Model for Searcher<I> {
    ghost use Rattle.std.specs.Prelude.{◌≤◌, vec_len, vec_capacity};
    ghost use Rattle.pfs_search.specs.SearcherView.{SearcherView};

    ghost Value = { SearcherView I };

    ghost view = { λ a. a.work };

    ghost invariant = { λ a. record {
      ranked : a.work.size ≤ vec_capacity a.ranked;
      words : a.work.size ≤ vec_len a.words;
    } };
}

impl<I> Searcher<I> {
    /// A searcher for shops of `size` jobs. It returns `Memory` with `done` 0 where allocation fails, and then drops
    /// the inserter.
    pub fn new(alloc: Global, size: usize, inserter: I) -> Result<Searcher<I>, SearchFault>
    where
        I: Drop,
        requires some { 1 ≤ size }
        requires few { size ≤ MOST_JOBS }
        ensures made { IfOk result (λ made. made ≡ record { size = size; inserter = inserter }) }
        ensures memory { IfErr result (λ fault. fault ≡ SearchFault.Memory 0) }
    {
        let Ok(seq) = Seq::new(alloc, size) else {
            return Err(SearchFault::Memory { done: 0 });
        };
        let Ok(ranked) = Vec::with_capacity(alloc, size) else {
            return Err(SearchFault::Memory { done: 0 });
        };
        let Ok(queue) = Vec::with_capacity(alloc, size) else {
            return Err(SearchFault::Memory { done: 0 });
        };
        let mut words = Vec::new(alloc);
        if words.resize(size, 0).is_err() {
            return Err(SearchFault::Memory { done: 0 });
        }
        Ok(Searcher {
            work: Workspace {
                inserter,
                seq,
                queue,
            },
            ranked,
            words,
        })
    }

    /// NEH (Nawaz, Enscore, Ham 1983): takes the jobs by decreasing total time, at equal totals the lower number
    /// first, and inserts each at the place that gives the least makespan of the jobs so far; of equal places, the
    /// first. The order that `kept` had before makes no difference. It returns `Memory` with `done` 0 where allocation
    /// fails in the inserter, and then `kept` is unchanged.
    #[inline(always)]
    pub fn neh<B: Shop>(
        &mut self,
        alloc: Global,
        bench: &mut B,
        kept: &mut Kept<B::Span>,
    ) -> Result<(), SearchFault>
    where
        I: Inserter<B>,
        requires fit { AllFit (B.shop bench.old) I.sizes self.old kept.old.order }
        requires room { B.counted bench.old + neh_cost_on I.cost (B.shop bench.old) < 2 ^ 64 }
        ensures order { OnOk result (kept.new.order ≡ neh_order (B.shop bench.old)) }
        ensures span { OnOk result (B.Span.number kept.new.span ≡ makespan (B.shop bench.old) kept.new.order) }
        ensures effect { Searches result I.can_refuse (B.counted bench.old) (B.counted bench.new)
            (neh_cost_on I.cost (B.shop bench.old))
            (B.shop bench.old) (B.shop bench.new) I.sizes self.new kept.new.order }
        ensures fault { IfErr result (λ fault. fault ≡ SearchFault.Memory 0) }
        ensures unchanged { OnErr result (kept.new ≡ kept.old) }
    {
        let work = &mut self.work;
        rank_jobs(bench, &mut self.ranked, &mut work.queue);
        clear(&mut work.seq);
        let Ok(span) = insert_all(alloc, &mut work.inserter, bench, &mut work.seq, &work.queue)
        else {
            return Err(SearchFault::Memory { done: 0 });
        };
        kept.order.copy_from(&work.seq);
        kept.span = span;
        Ok(())
    }

    /// One round of iterated greedy (Ruiz and Stützle 2007). For each random word in turn it removes the job at the
    /// place that is the word modulo the number of jobs left, counted from 0. Then it inserts the removed jobs in this
    /// order, each at its best place, and makes `passes` passes; in a pass each job in turn, by increasing number, is
    /// removed and inserted at its best place. It keeps the new order where that isn't longer than the one before. It
    /// returns `Memory` with `done` 0 where allocation fails in the inserter, and then `kept` is unchanged.
    #[inline(always)]
    pub fn round<B: Bench>(
        &mut self,
        alloc: Global,
        bench: &mut B,
        kept: &mut Kept<B::Span>,
        words: &[u32],
        passes: u32,
    ) -> Result<(), SearchFault>
    where
        I: Inserter<B>,
        requires ready { MayPlay (B.shop bench.old) I.sizes self.old kept.old.order (B.Span.number kept.old.span)
            (length words.now) passes }
        requires room { B.counted bench.old
            + round_cost_on I.cost (B.shop bench.old) (length words.now) passes < 2 ^ 64 }
        ensures order { OnOk result (kept.new.order ≡ after_round (B.shop bench.old) passes kept.old.order words.now) }
        ensures span { IsKeptSpan (B.shop bench.old) (B.Span.number kept.old.span) kept.new.order
            (B.Span.number kept.new.span) }
        ensures effect { Searches result I.can_refuse (B.counted bench.old) (B.counted bench.new)
            (round_cost_on I.cost (B.shop bench.old) (length words.now) passes)
            (B.shop bench.old) (B.shop bench.new) I.sizes self.new kept.new.order }
        ensures fault { IfErr result (λ fault. fault ≡ SearchFault.Memory 0) }
        ensures unchanged { OnErr result (kept.new ≡ kept.old) }
    {
        match play_round(alloc, &mut self.work, bench, kept, words, passes) {
            Ok(()) => Ok(()),
            Err(_) => Err(SearchFault::Memory { done: 0 }),
        }
    }

    /// `count` rounds, each with the next `take` random words of a generator, one for each job that it removes. Where
    /// allocation fails in a round, the function returns `Memory` with `done`, the number of rounds before it. Then
    /// `kept` has the order after these rounds, and the random words of the failed round are drawn too.
    #[inline(always)]
    pub fn rounds<B: Bench, R: Rng>(
        &mut self,
        alloc: Global,
        bench: &mut B,
        kept: &mut Kept<B::Span>,
        count: u32,
        take: usize,
        passes: u32,
        rng: &mut R,
    ) -> Result<(), SearchFault>
    where
        I: Inserter<B>,
        requires ready { MayPlay (B.shop bench.old) I.sizes self.old kept.old.order (B.Span.number kept.old.span)
            take passes }
        requires room { B.counted bench.old + count * round_cost_on I.cost (B.shop bench.old) take passes < 2 ^ 64 }
        ensures order { OnOk result (kept.new.order ≡ after_rounds (B.shop bench.old) passes count take
            kept.old.order (words_of (count * take) (R.stream rng.old))) }
        ensures span { IsKeptSpan (B.shop bench.old) (B.Span.number kept.old.span) kept.new.order
            (B.Span.number kept.new.span) }
        ensures effect { Searches result I.can_refuse (B.counted bench.old) (B.counted bench.new)
            (count * round_cost_on I.cost (B.shop bench.old) take passes)
            (B.shop bench.old) (B.shop bench.new) I.sizes self.new kept.new.order }
        ensures words { OnOk result (R.stream rng.new ≡ stream_after (count * take) (R.stream rng.old)) }
        ensures fault { IfErr result (RoundsStop (B.shop bench.old) passes count take
            kept.old.order kept.new.order (R.stream rng.old) (R.stream rng.new)) }
    {
        for done in 0..count {
            draw_words(rng, &mut self.words, take);
            let drawn = &self.words[..take];
            match play_round(alloc, &mut self.work, bench, kept, drawn, passes) {
                Ok(()) => {}
                Err(_) => return Err(SearchFault::Memory { done }),
            }
        }
        Ok(())
    }
}
