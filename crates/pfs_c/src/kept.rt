//! What is prepared: an instance, and the memory of the calls on it.
ghost use Rattle.std.specs.Prelude.{◌≡◌, ◌+◌, ◌<◌, ◌≤◌, ◌++◌, length, take, filter, not, nat_eq, Contains, IfOk, IfErr};
ghost use Rattle.std.specs.List.{All};
ghost use Rattle.pfs_base.specs.FlowShop.{IsWithin};
ghost use Rattle.pfs_base.specs.Limits.{limits};
ghost use Rattle.pfs_base.specs.Paths.{makespan};
ghost use Rattle.pfs_insert.specs.Inserter.{IsBestPlace};
ghost use Rattle.pfs_order.specs.Sequence.{IsSequence};
ghost use Rattle.pfs_iterate.specs.Alone.{IsBuilt, IsChosen};
ghost use Rattle.pfs_iterate.specs.Iterated.{movable};
ghost use Rattle.pfs_iterate.specs.Rounds.{CanIterate, IsIterated};
ghost use Rattle.pfs_search.specs.Solution.{IsImproved, IsNeh};
ghost use Rattle.pfs_search.specs.Greedy.{passes_over};
ghost use Rattle.pfs_c.specs.Inserting.{AreInsertions, insertions_fault};
ghost use Rattle.pfs_c.specs.Iterating.{or_ties_fault};
ghost use Rattle.pfs_c.specs.Makespans.{AreMakespans, makespans_fault};
ghost use Rattle.pfs_c.specs.Searching.{rounds_fault};
ghost use Rattle.pfs_c.specs.Validation.{insertion_fault};
ghost use Rattle.pfs_c.specs.Private.Outcomes.{Validates};

use crate::given::{copy_sequence, validate, validate_insertion, validate_jobs};
use crate::iterating::IterateOptions;
use crate::many::{fill_makespans, validate_many};
use crate::numbers::CallFault;
use crate::searching::RoundsOptions;
use pfs_base::heads::span_of;
use pfs_base::{Bench, Instance, MOST_JOBS, MOST_PASSES, MOST_ROUNDS};
use pfs_batch::Batch;
use pfs_insert::Placed;
use pfs_iterate::{Iterated, MOST_TIES, Makespans, TIES_FIRST};
use pfs_search::Rounds;
use std::alloc::Global;
use std::marker::Model;

/// The makespan of the order that a search has found, and the number of cells that it takes.
#[derive(Clone, Copy)]
pub(crate) struct Searched {
    pub(crate) span: u64,
    pub(crate) cells: u64,
}

/// A prepared instance.
#[derive(Drop)]
pub(crate) struct Kept {
    instance: Instance,
    iterated: Iterated,
    // Whether the makespan that its search keeps is that of its order.
    is_span_known: bool,
    // None if a time is above 65,535.
    batch: Option<Batch>,
}

impl Model for Kept {
    ghost use Rattle.std.specs.Prelude.{◌≡◌, IfSome, IsTrue};
    ghost use Rattle.pfs_base.specs.FlowShop.{FlowShop, IsWithin};
    ghost use Rattle.pfs_base.specs.Limits.{limits};
    ghost use Rattle.pfs_base.specs.Paths.{makespan};
    ghost use Rattle.pfs_iterate.specs.Rounds.{IsIteratedFor};

    ghost Value = { FlowShop };

    ghost view = { λ a. a.instance.shop };

    ghost invariant = { λ a. record {
      within : IsWithin limits a.instance.shop;
      iterated : IsIteratedFor a.instance.shop a.iterated;
      span : IsTrue a.is_span_known
          → a.iterated.work.search.kept.span ≡ makespan a.instance.shop a.iterated.work.search.kept.order;
      batch : IfSome a.batch (λ batch. batch ≡ a.instance.shop);
    } };
}

impl Kept {
    /// Prepares an instance. The only error is `Memory`, if an allocation fails.
    pub(crate) fn new(alloc: Global, instance: Instance) -> Result<Kept, CallFault>
        ensures made { IfOk result (λ made. made ≡ instance.shop) }
        ensures memory { IfErr result (λ why. why ≡ CallFault.Memory) }
    {
        let Ok(iterated) = Iterated::new(alloc, &instance) else {
            return Err(CallFault::Memory);
        };
        let Ok(batch) = Batch::new(alloc, &instance) else {
            return Err(CallFault::Memory);
        };
        Ok(Kept {
            instance,
            iterated,
            is_span_known: false,
            batch,
        })
    }

    /// The instance.
    pub(crate) fn instance(&self) -> &Instance
        ensures value { result.now.shop ≡ self.now }
        ensures within { IsWithin limits self.now }
    {
        &self.instance
    }

    /// The number of jobs.
    pub(crate) fn jobs(&self) -> usize
        ensures value { result ≡ self.now.jobs }
        ensures few { result ≤ MOST_JOBS }
    {
        self.instance.jobs()
    }

    /// Writes NEH's order.
    pub(crate) fn neh(&mut self, alloc: Global, order: &mut [u32]) -> Searched
        requires { length order.old ≡ self.old.jobs }
        ensures found { IsNeh self.old order.new result.span result.cells }
        ensures shop { self.new ≡ self.old }
    {
        let search = &mut self.iterated.work.search;
        search.cells = 0;
        let bench = search.neh(alloc, self.instance.metered());
        self.is_span_known = true;
        copy_sequence(search.kept.order.seq(), order);
        Searched {
            span: bench.reveal(search.kept.span),
            cells: bench.cells(),
        }
    }

    /// Makes rounds from an order, which it overwrites.
    pub(crate) fn rounds(
        &mut self,
        alloc: Global,
        options: &RoundsOptions,
        order: &mut [u32],
    ) -> Result<Searched, CallFault>
        ensures validated { Validates result (rounds_fault self.old order.old options.now) }
        ensures found { IfOk result (λ found. IsImproved self.old order.old options.now.first options.now.count
            options.now.take options.now.passes options.now.seed order.new found.span found.cells) }
        ensures shop { self.new ≡ self.old }
        ensures kept { IfErr result (λ _. order.new ≡ order.old) }
    {
        let jobs = self.instance.jobs();
        validate(order.len() == jobs, CallFault::Length)?;
        validate_jobs(jobs, order)?;
        validate(1 <= options.take, CallFault::Take)?;
        validate(options.take <= jobs, CallFault::Take)?;
        validate(options.passes <= MOST_PASSES, CallFault::Passes)?;
        let last = options.first as u64 + options.count as u64;
        validate(last <= MOST_ROUNDS as u64, CallFault::Rounds)?;
        let rounds = Rounds {
            count: options.count,
            take: options.take,
            passes: options.passes,
            seed: options.seed,
        };
        let start_span = self.span_of(order);
        let search = &mut self.iterated.work.search;
        // The cells of the makespan that the rounds begin with are not theirs, so another bench counts them.
        search.start(&mut self.instance.metered(), order, start_span);
        search.cells = 0;
        let bench = search.rounds(alloc, self.instance.metered(), options.first, rounds);
        self.is_span_known = true;
        copy_sequence(search.kept.order.seq(), order);
        Ok(Searched {
            span: bench.reveal(search.kept.span),
            cells: bench.cells(),
        })
    }

    /// Makes rounds that also accept longer orders from two orders, which it overwrites, and returns their makespans.
    pub(crate) fn iterate(
        &mut self,
        options: &IterateOptions,
        current: &mut [u32],
        best: &mut [u32],
    ) -> Makespans
        requires options { CanIterate self.old options.now.rounds }
        requires current_all { length current.old ≡ self.old.jobs }
        requires current { IsSequence self.old.jobs current.old }
        requires best_all { length best.old ≡ self.old.jobs }
        requires best { IsSequence self.old.jobs best.old }
        requires front { take options.now.rounds.held best.old ≡ take options.now.rounds.held current.old }
        requires free { options.now.rounds.take
            ≤ length (movable options.now.rounds.held options.now.stay.now current.old) }
        ensures done { IsIterated self.old options.now.rounds options.now.accept.now options.now.stay.now
            current.old best.old current.new result.current best.new result.best }
        ensures shop { self.new ≡ self.old }
    {
        self.iterated.rounds(
            &self.instance,
            &options.rounds,
            options.accept,
            options.stay,
            current,
            best,
        )
    }

    // The makespan of a sequence, which is known if the search has just found this sequence.
    #[tactic(auto, using(crate::proofs::Jobs::few_jobs))]
    fn span_of(&self, sequence: &[u32]) -> u64
        requires { IsSequence self.now.jobs sequence.now }
        ensures { result ≡ makespan self.now sequence.now }
    {
        let kept = &self.iterated.work.search.kept;
        if self.is_span_known && kept.order.seq().as_slice() == sequence {
            self.instance.metered().reveal(kept.span)
        } else {
            span_of(&self.instance, sequence)
        }
    }

    /// Finds the best place for a job in a sequence, and the makespan with the job there.
    pub(crate) fn insert(&mut self, sequence: &[u32], job: u32) -> Result<Placed<u64>, CallFault>
        ensures validated { Validates result (insertion_fault self.old sequence.now job) }
        ensures best { IfOk result (λ best. IsBestPlace self.old sequence.now job best.place best.span) }
        ensures shop { self.new ≡ self.old }
    {
        validate_insertion(self.instance.jobs(), sequence, job)?;
        let mut bench = self.instance.metered();
        let search = &mut self.iterated.work.search;
        let best = search.best(&mut bench, sequence, job as usize, &mut []);
        Ok(Placed {
            place: best.place,
            span: bench.reveal(best.span),
        })
    }

    /// Finds the best place for a job in a sequence by a rule for equally good places, and the makespan with the job
    /// there.
    pub(crate) fn choose(
        &mut self,
        ties: u32,
        sequence: &[u32],
        job: u32,
    ) -> Result<Placed<u64>, CallFault>
        ensures validated { Validates result (or_ties_fault (insertion_fault self.old sequence.now job) ties) }
        ensures chosen { IfOk result (λ best. IsChosen self.old ties sequence.now job best.place best.span) }
        ensures shop { self.new ≡ self.old }
    {
        validate_insertion(self.instance.jobs(), sequence, job)?;
        validate(ties <= MOST_TIES, CallFault::Ties)?;
        let job = job as usize;
        Ok(self.iterated.choose(&self.instance, ties, sequence, job))
    }

    /// Inserts more jobs into the first `count` of `order`, and makes passes over a list of jobs until one makes the
    /// sequence no shorter, at most `passes`, each by a rule for equally good places. Overwrites `order` with the
    /// sequence, and returns the makespan.
    pub(crate) fn build(
        &mut self,
        ties: u32,
        more: &[u32],
        list: &[u32],
        passes: u32,
        order: &mut [u32],
        count: usize,
    ) -> u64
        requires long { length order.old ≡ count + length more.now }
        requires together { IsSequence self.old.jobs (more.now ++ take count order.old) }
        requires list { IsSequence self.old.jobs list.now }
        ensures built { IsBuilt self.old ties (take count order.old) more.now list.now passes order.new result }
        ensures shop { self.new ≡ self.old }
    {
        self.iterated
            .build(&self.instance, ties, more, list, passes, order, count)
    }

    /// Writes the makespan with a job at each place of a sequence.
    pub(crate) fn insertions(
        &mut self,
        sequence: &[u32],
        job: u32,
        makespans: &mut [u64],
    ) -> Result<(), CallFault>
        ensures validated { Validates result
            (insertions_fault self.old sequence.now job (length makespans.old)) }
        ensures done { IfOk result (λ _. AreInsertions self.old sequence.now job makespans.new) }
        ensures shop { self.new ≡ self.old }
        ensures kept { IfErr result (λ _. makespans.new ≡ makespans.old) }
    {
        validate(makespans.len() == sequence.len() + 1, CallFault::Length)?;
        validate_insertion(self.instance.jobs(), sequence, job)?;
        let mut bench = self.instance.metered();
        let search = &mut self.iterated.work.search;
        let _best = search.best(&mut bench, sequence, job as usize, makespans);
        Ok(())
    }

    /// Writes the makespan of each of many sequences of `long` jobs.
    pub(crate) fn makespans(
        &mut self,
        sequences: &[u32],
        long: usize,
        makespans: &mut [u64],
    ) -> Result<(), CallFault>
        ensures validated { Validates result
            (makespans_fault self.old sequences.now long (length makespans.old)) }
        ensures done { IfOk result (λ _. AreMakespans self.old sequences.now long makespans.new) }
        ensures shop { self.new ≡ self.old }
        ensures kept { IfErr result (λ _. makespans.new ≡ makespans.old) }
    {
        validate_many(self.instance.jobs(), sequences, long, makespans.len())?;
        fill_makespans(&self.instance, &mut self.batch, sequences, long, makespans);
        Ok(())
    }

    /// Makes passes over a list of jobs of a sequence, which it overwrites. Returns the makespan.
    pub(crate) fn visit(&mut self, list: &[u32], passes: u32, order: &mut [u32]) -> u64
        requires sequence { IsSequence self.old.jobs order.old }
        requires list { IsSequence self.old.jobs list.now }
        requires members { All (λ job. Contains order.old job) list.now }
        ensures order { order.new ≡ passes_over self.old list.now passes order.old }
        ensures span { result ≡ makespan self.old order.new }
        ensures shop { self.new ≡ self.old }
    {
        pfs_iterate::laws::first();
        let count = order.len();
        let mut span = self.build(TIES_FIRST, &[], list, 0, order, count);
        for _pass in 0..passes {
            span = self.build(TIES_FIRST, &[], list, 1, order, count);
        }
        span
    }
}
