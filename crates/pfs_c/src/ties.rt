//! Insertions and local search by a rule for equally good places, for C.
ghost use Rattle.std.specs.Prelude.{◌≡◌, ◌≢◌, [], IfOk, IfErr, IfSome};
ghost use Rattle.pfs_iterate.specs.Alone.{IsBuilt, IsChosen};
ghost use Rattle.pfs_c.specs.Building.{add_fault, in_front, local_search_fault};
ghost use Rattle.pfs_c.specs.Iterating.{or_ties_fault};
ghost use Rattle.pfs_c.specs.Numbers.{number_returned};
ghost use Rattle.pfs_c.specs.Validation.{insertion_fault, on_shop};
ghost use Rattle.pfs_c.specs.Private.Outcomes.{Validates};

use crate::given::{validate, validate_jobs, validate_more};
use crate::handle::Prepared;
use crate::kept::Kept;
use crate::numbers::{CallFault, PFS_OK, number_and_place, number_and_span};
use crate::searching::validate_members;
use pfs_base::MOST_PASSES;
use pfs_iterate::MOST_TIES;
use std::alloc::Global;

/// Finds the best place of a job in a sequence of others, by a rule for equally good places, and the makespan with the
/// job there.
#[unsafe(no_mangle)]
pub extern "C" fn pfs_insert_ties(
    alloc: Global,
    instance: &mut Prepared,
    ties: u32,
    sequence: &[u32],
    job: u32,
    place: &mut usize,
    span: &mut u64,
) -> i32
    ensures number { result ≡ number_returned
        (on_shop instance.old.shop (λ shop. or_ties_fault (insertion_fault shop sequence.now job) ties)) }
    ensures done { result ≡ PFS_OK →
        IfSome instance.old.shop (λ shop. IsChosen shop ties sequence.now job place.new span.new) }
    ensures shop { instance.new.shop ≡ instance.old.shop }
    ensures kept_place { result ≢ PFS_OK → place.new ≡ place.old }
    ensures kept_span { result ≢ PFS_OK → span.new ≡ span.old }
{
    let Some(mut kept) = instance.take(alloc) else {
        return CallFault::NotPrepared.number();
    };
    let done = kept.choose(ties, sequence, job);
    instance.put(kept);
    number_and_place(done, place, span)
}

/// Inserts jobs into a sequence one after the other, each at its best place by a rule for equally good places. The
/// sequence is in the front of `order`, which is overwritten with the result, and `span` with its makespan.
#[unsafe(no_mangle)]
pub extern "C" fn pfs_construct_ties(
    alloc: Global,
    instance: &mut Prepared,
    ties: u32,
    more: &[u32],
    order: &mut [u32],
    span: &mut u64,
) -> i32
    ensures number { result ≡ number_returned (on_shop instance.old.shop
        (λ shop. or_ties_fault (add_fault shop more.now order.old) ties)) }
    ensures done { result ≡ PFS_OK → IfSome instance.old.shop
        (λ shop. IsBuilt shop ties (in_front more.now order.old) more.now [] 0 order.new span.new) }
    ensures shop { instance.new.shop ≡ instance.old.shop }
    ensures kept_order { result ≢ PFS_OK → order.new ≡ order.old }
    ensures kept_span { result ≢ PFS_OK → span.new ≡ span.old }
{
    let Some(mut kept) = instance.take(alloc) else {
        return CallFault::NotPrepared.number();
    };
    let done = construct_by(&mut kept, ties, more, order);
    instance.put(kept);
    number_and_span(done, span)
}

fn construct_by(
    kept: &mut Kept,
    ties: u32,
    more: &[u32],
    order: &mut [u32],
) -> Result<u64, CallFault>
    ensures validated { Validates result (or_ties_fault (add_fault kept.old more.now order.old) ties) }
    ensures done { IfOk result
        (λ span. IsBuilt kept.old ties (in_front more.now order.old) more.now [] 0 order.new span) }
    ensures shop { kept.new ≡ kept.old }
    ensures kept_order { IfErr result (λ _. order.new ≡ order.old) }
{
    let jobs = kept.jobs();
    validate(more.len() <= order.len(), CallFault::Length)?;
    let count = order.len() - more.len();
    validate_jobs(jobs, &order[..count])?;
    validate_more(jobs, &order[..count], more)?;
    validate(ties <= MOST_TIES, CallFault::Ties)?;
    Ok(kept.build(ties, more, &[], 0, order, count))
}

/// Makes passes over a list of jobs of a sequence until one makes it no shorter, at most `passes`: in the order of the
/// list, each job leaves its place for its best one by a rule for equally good places. `sequence` is overwritten with
/// the result, which is no longer than before, and `span` with its makespan.
#[unsafe(no_mangle)]
pub extern "C" fn pfs_local_search_ties(
    alloc: Global,
    instance: &mut Prepared,
    ties: u32,
    list: &[u32],
    passes: u32,
    sequence: &mut [u32],
    span: &mut u64,
) -> i32
    ensures number { result ≡ number_returned (on_shop instance.old.shop
        (λ shop. or_ties_fault (local_search_fault shop sequence.old list.now passes) ties)) }
    ensures done { result ≡ PFS_OK → IfSome instance.old.shop
        (λ shop. IsBuilt shop ties sequence.old [] list.now passes sequence.new span.new) }
    ensures shop { instance.new.shop ≡ instance.old.shop }
    ensures kept_sequence { result ≢ PFS_OK → sequence.new ≡ sequence.old }
    ensures kept_span { result ≢ PFS_OK → span.new ≡ span.old }
{
    let Some(mut kept) = instance.take(alloc) else {
        return CallFault::NotPrepared.number();
    };
    let done = improve_by(&mut kept, ties, list, passes, sequence);
    instance.put(kept);
    number_and_span(done, span)
}

fn improve_by(
    kept: &mut Kept,
    ties: u32,
    list: &[u32],
    passes: u32,
    sequence: &mut [u32],
) -> Result<u64, CallFault>
    ensures validated { Validates result
        (or_ties_fault (local_search_fault kept.old sequence.old list.now passes) ties) }
    ensures done { IfOk result (λ span. IsBuilt kept.old ties sequence.old [] list.now passes sequence.new span) }
    ensures shop { kept.new ≡ kept.old }
    ensures kept_sequence { IfErr result (λ _. sequence.new ≡ sequence.old) }
{
    let jobs = kept.jobs();
    validate_jobs(jobs, sequence)?;
    validate_jobs(jobs, list)?;
    validate_members(sequence, list)?;
    validate(passes <= MOST_PASSES, CallFault::Passes)?;
    validate(ties <= MOST_TIES, CallFault::Ties)?;
    let count = sequence.len();
    Ok(kept.build(ties, &[], list, passes, sequence, count))
}
