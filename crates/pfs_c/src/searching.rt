//! NEH, the rounds of a search, construction and local search by insertions, for C.
ghost use Rattle.std.specs.Prelude.{◌≡◌, ◌≢◌, ◌+◌, ◌<◌, ◌≤◌, ◌++◌, length, All, Contains, IfOk, IfErr, IfSome};
ghost use Rattle.pfs_order.specs.Sequence.{IsSequence};
ghost use Rattle.pfs_search.specs.Solution.{IsImproved, IsNeh};
ghost use Rattle.pfs_c.specs.Building.{IsConstructed, IsLocalSearch};
ghost use Rattle.pfs_c.specs.Building.{construct_fault, local_search_fault, members_fault};
ghost use Rattle.pfs_c.specs.Numbers.{number_returned};
ghost use Rattle.pfs_c.specs.Searching.{rounds_fault};
ghost use Rattle.pfs_c.specs.Validation.{jobs_fault, length_fault, on_shop};
ghost use Rattle.pfs_c.specs.Private.Outcomes.{Validates};

use crate::given::{validate, validate_jobs, validate_more};
use crate::handle::Prepared;
use crate::kept::Kept;
use crate::numbers::{CallFault, PFS_OK, number_and_span, number_of};
use pfs_base::{MOST_JOBS, MOST_PASSES};
use pfs_iterate::TIES_FIRST;
use std::alloc::Global;

/// Computes the order of NEH (Nawaz, Enscore and Ham 1983) by heads and tails (Taillard 1990), its makespan, and the
/// number of table cells that this takes.
#[unsafe(no_mangle)]
pub extern "C" fn pfs_neh(
    alloc: Global,
    instance: &mut Prepared,
    order: &mut [u32],
    span: &mut u64,
    cells: &mut u64,
) -> i32
    ensures number { result ≡ number_returned
        (on_shop instance.old.shop (λ shop. length_fault (length order.old) shop.jobs)) }
    ensures done { result ≡ PFS_OK → IfSome instance.old.shop (λ shop. IsNeh shop order.new span.new cells.new) }
    ensures shop { instance.new.shop ≡ instance.old.shop }
    ensures kept_order { result ≢ PFS_OK → order.new ≡ order.old }
    ensures kept_span { result ≢ PFS_OK → span.new ≡ span.old }
    ensures kept_cells { result ≢ PFS_OK → cells.new ≡ cells.old }
{
    let Some(mut kept) = instance.take(alloc) else {
        return CallFault::NotPrepared.number();
    };
    let valid = validate(order.len() == kept.jobs(), CallFault::Length);
    if valid.is_ok() {
        let found = kept.neh(alloc, order);
        *span = found.span;
        *cells = found.cells;
    }
    instance.put(kept);
    number_of(valid)
}

/// The struct `pfs_rounds_options` of C: which rounds `pfs_rounds` makes.
#[repr(C)]
#[derive(Clone, Copy)]
pub struct RoundsOptions {
    /// The seed of the random words.
    pub seed: u64,
    /// The number of jobs that a round removes.
    pub take: usize,
    /// The first round, counted from 0.
    pub first: u32,
    /// The number of rounds.
    pub count: u32,
    /// The number of passes in each round.
    pub passes: u32,
}

/// Makes the rounds `first` to `first + count - 1`, counted from 0, of the iterated greedy search (Ruiz and Stützle
/// 2007) of a seed, from a given order of all jobs. `order` is overwritten with the order after these rounds, `span`
/// with its makespan, and `cells` with the number of table cells that these rounds take.
#[unsafe(no_mangle)]
#[tactic(auto, using(crate::proofs::Returning::failed, crate::proofs::Returning::passed))]
pub extern "C" fn pfs_rounds(
    alloc: Global,
    instance: &mut Prepared,
    options: &RoundsOptions,
    order: &mut [u32],
    span: &mut u64,
    cells: &mut u64,
) -> i32
    ensures number { result ≡ number_returned
        (on_shop instance.old.shop (λ shop. rounds_fault shop order.old options.now)) }
    ensures done { result ≡ PFS_OK → IfSome instance.old.shop (λ shop. IsImproved shop order.old options.now.first
        options.now.count options.now.take options.now.passes options.now.seed order.new span.new cells.new) }
    ensures shop { instance.new.shop ≡ instance.old.shop }
    ensures kept_order { result ≢ PFS_OK → order.new ≡ order.old }
    ensures kept_span { result ≢ PFS_OK → span.new ≡ span.old }
    ensures kept_cells { result ≢ PFS_OK → cells.new ≡ cells.old }
{
    let Some(mut kept) = instance.take(alloc) else {
        return CallFault::NotPrepared.number();
    };
    let done = kept.rounds(alloc, options, order);
    instance.put(kept);
    match done {
        Ok(found) => {
            *span = found.span;
            *cells = found.cells;
            PFS_OK
        }
        Err(why) => why.number(),
    }
}

/// Inserts jobs into a sequence one after the other, each at its first best place, as NEH does with its ranking. The
/// result and its makespan are written to `order` and `span`.
#[unsafe(no_mangle)]
pub extern "C" fn pfs_construct(
    alloc: Global,
    instance: &mut Prepared,
    sequence: &[u32],
    more: &[u32],
    order: &mut [u32],
    span: &mut u64,
) -> i32
    ensures number { result ≡ number_returned (on_shop instance.old.shop
        (λ shop. construct_fault shop sequence.now more.now (length order.old))) }
    ensures done { result ≡ PFS_OK →
        IfSome instance.old.shop (λ shop. IsConstructed shop sequence.now more.now order.new span.new) }
    ensures shop { instance.new.shop ≡ instance.old.shop }
    ensures kept_order { result ≢ PFS_OK → order.new ≡ order.old }
    ensures kept_span { result ≢ PFS_OK → span.new ≡ span.old }
{
    let Some(mut kept) = instance.take(alloc) else {
        return CallFault::NotPrepared.number();
    };
    let done = construct_in(&mut kept, sequence, more, order);
    instance.put(kept);
    number_and_span(done, span)
}

fn construct_in(
    kept: &mut Kept,
    sequence: &[u32],
    more: &[u32],
    order: &mut [u32],
) -> Result<u64, CallFault>
    ensures validated { Validates result (construct_fault kept.old sequence.now more.now (length order.old)) }
    ensures done { IfOk result (λ span. IsConstructed kept.old sequence.now more.now order.new span) }
    ensures shop { kept.new ≡ kept.old }
    ensures kept_order { IfErr result (λ _. order.new ≡ order.old) }
{
    let jobs = kept.jobs();
    let all = sequence.len() + more.len();
    validate(order.len() == all, CallFault::Length)?;
    validate_jobs(jobs, sequence)?;
    validate_more(jobs, sequence, more)?;
    order[..sequence.len()].copy_from_slice(sequence);
    pfs_iterate::laws::first();
    Ok(kept.build(TIES_FIRST, more, &[], 0, order, sequence.len()))
}

/// Makes passes over a list of jobs of a sequence: in the order of the list, each job leaves its place for its first
/// best one. `sequence` is overwritten with the result, which is no longer than before, and `span` with its makespan.
#[unsafe(no_mangle)]
pub extern "C" fn pfs_local_search(
    alloc: Global,
    instance: &mut Prepared,
    list: &[u32],
    passes: u32,
    sequence: &mut [u32],
    span: &mut u64,
) -> i32
    ensures number { result ≡ number_returned (on_shop instance.old.shop
        (λ shop. local_search_fault shop sequence.old list.now passes)) }
    ensures done { result ≡ PFS_OK → IfSome instance.old.shop
        (λ shop. IsLocalSearch shop sequence.old list.now passes sequence.new span.new) }
    ensures shop { instance.new.shop ≡ instance.old.shop }
    ensures kept_sequence { result ≢ PFS_OK → sequence.new ≡ sequence.old }
    ensures kept_span { result ≢ PFS_OK → span.new ≡ span.old }
{
    let Some(mut kept) = instance.take(alloc) else {
        return CallFault::NotPrepared.number();
    };
    let done = local_search_in(&mut kept, list, passes, sequence);
    instance.put(kept);
    number_and_span(done, span)
}

fn local_search_in(
    kept: &mut Kept,
    list: &[u32],
    passes: u32,
    sequence: &mut [u32],
) -> Result<u64, CallFault>
    ensures validated { Validates result (local_search_fault kept.old sequence.old list.now passes) }
    ensures done { IfOk result (λ span. IsLocalSearch kept.old sequence.old list.now passes sequence.new span) }
    ensures shop { kept.new ≡ kept.old }
    ensures kept_sequence { IfErr result (λ _. sequence.new ≡ sequence.old) }
{
    let jobs = kept.jobs();
    validate_jobs(jobs, sequence)?;
    validate_jobs(jobs, list)?;
    validate_members(sequence, list)?;
    validate(passes <= MOST_PASSES, CallFault::Passes)?;
    Ok(kept.visit(list, passes, sequence))
}

/// Validates that each job of a list is in a sequence: `Job` if one is not.
pub(crate) fn validate_members(sequence: &[u32], list: &[u32]) -> Result<(), CallFault>
    ensures validated { Validates result (members_fault sequence.now list.now) }
    ensures members { IfOk result (λ done. All (λ job. Contains sequence.now job) list.now) }
{
    for job in list {
        if !sequence.contains(job) {
            return Err(CallFault::Job);
        }
    }
    Ok(())
}
