//! Rounds of iterated greedy that also accept longer orders, for C.
ghost use Rattle.std.specs.Prelude.{◌≡◌, ◌≢◌, IfOk, IfErr, IfSome};
ghost use Rattle.pfs_iterate.specs.Rounds.{IsIterated};
ghost use Rattle.pfs_c.specs.Iterating.{iterate_fault};
ghost use Rattle.pfs_c.specs.Numbers.{number_returned};
ghost use Rattle.pfs_c.specs.Validation.{on_shop};
ghost use Rattle.pfs_c.specs.Private.Outcomes.{Validates};

use crate::given::{validate, validate_jobs};
use crate::handle::Prepared;
use crate::kept::Kept;
use crate::numbers::{CallFault, PFS_OK};
use pfs_base::{MOST_PASSES, MOST_ROUNDS};
use pfs_iterate::{MOST_TIES, Makespans, Options, count_movable};
use std::alloc::Global;

/// The struct `pfs_iterate_options` of C.
#[repr(C)]
pub struct IterateOptions<'a> {
    /// Which rounds are made.
    pub rounds: Options,
    /// The chances of longer orders.
    pub accept: &'a [u32],
    /// For each job 0, or another number if it keeps its order.
    pub stay: &'a [u8],
}

/// Makes the rounds `first` to `first + count - 1`, counted from 0, of an iterated greedy search of a seed that also
/// accepts longer orders (Ruiz and Stützle 2007) and moves the jobs that are left after a removal (Dubois-Lacoste,
/// Pagnozzi and Stützle 2017). Jobs with a number above 0 in `stay` keep their order. `current` and `best` are
/// overwritten with the order after these rounds and with the shortest one so far, `current_span` and `best_span` with
/// their makespans.
#[unsafe(no_mangle)]
#[tactic(auto, using(crate::proofs::Returning::failed, crate::proofs::Returning::passed))]
pub extern "C" fn pfs_iterate(
    alloc: Global,
    instance: &mut Prepared,
    options: &IterateOptions,
    current: &mut [u32],
    current_span: &mut u64,
    best: &mut [u32],
    best_span: &mut u64,
) -> i32
    ensures number { result ≡ number_returned
        (on_shop instance.old.shop (λ shop. iterate_fault shop current.old best.old options.now)) }
    ensures done { result ≡ PFS_OK → IfSome instance.old.shop (λ shop. IsIterated shop options.now.rounds
        options.now.accept.now options.now.stay.now current.old best.old current.new current_span.new best.new
        best_span.new) }
    ensures shop { instance.new.shop ≡ instance.old.shop }
    ensures kept_current { result ≢ PFS_OK → current.new ≡ current.old }
    ensures kept_current_span { result ≢ PFS_OK → current_span.new ≡ current_span.old }
    ensures kept_best { result ≢ PFS_OK → best.new ≡ best.old }
    ensures kept_best_span { result ≢ PFS_OK → best_span.new ≡ best_span.old }
{
    let Some(mut kept) = instance.take(alloc) else {
        return CallFault::NotPrepared.number();
    };
    let done = iterate_in(&mut kept, options, current, best);
    instance.put(kept);
    match done {
        Ok(spans) => {
            *current_span = spans.current;
            *best_span = spans.best;
            PFS_OK
        }
        Err(why) => why.number(),
    }
}

fn iterate_in(
    kept: &mut Kept,
    options: &IterateOptions,
    current: &mut [u32],
    best: &mut [u32],
) -> Result<Makespans, CallFault>
    ensures validated { Validates result (iterate_fault kept.old current.old best.old options.now) }
    ensures done { IfOk result (λ spans. IsIterated kept.old options.now.rounds options.now.accept.now
        options.now.stay.now current.old best.old current.new spans.current best.new spans.best) }
    ensures shop { kept.new ≡ kept.old }
    ensures kept_current { IfErr result (λ _. current.new ≡ current.old) }
    ensures kept_best { IfErr result (λ _. best.new ≡ best.old) }
{
    let jobs = kept.jobs();
    let rounds = &options.rounds;
    validate(current.len() == jobs, CallFault::Length)?;
    validate(best.len() == jobs, CallFault::Length)?;
    validate_jobs(jobs, current)?;
    validate_jobs(jobs, best)?;
    validate(1 <= rounds.take, CallFault::Take)?;
    validate(rounds.held <= jobs, CallFault::Take)?;
    let movable = count_movable(current, rounds.held, options.stay);
    validate(rounds.take <= movable, CallFault::Take)?;
    let same = best[..rounds.held] == current[..rounds.held];
    validate(same, CallFault::Held)?;
    validate(rounds.partial <= MOST_PASSES, CallFault::Passes)?;
    validate(rounds.passes <= MOST_PASSES, CallFault::Passes)?;
    validate(rounds.ties <= MOST_TIES, CallFault::Ties)?;
    let last = rounds.first as u64 + rounds.count as u64;
    validate(last <= MOST_ROUNDS as u64, CallFault::Rounds)?;
    Ok(kept.iterate(options, current, best))
}
