//! Makespans, bounds, insertions, time tables, and heads and tails, for C.
ghost use Rattle.std.specs.Prelude.{◌≡◌, ◌≢◌, ℕ, ◌+◌, ◌*◌, ◌<◌, ◌≤◌, [], ◌∷◌, length, IfOk, IfErr, IfSome};
ghost use Rattle.std.specs.declared.option.Option.TheVariants.{None};
ghost use Rattle.pfs_audit.specs.Bound.{bound_of, IsLowerBound};
ghost use Rattle.pfs_audit.specs.Schedule.{IsLeastSchedule};
ghost use Rattle.pfs_base.specs.Paths.{makespan};
ghost use Rattle.pfs_insert.specs.Inserter.{IsBestPlace};
ghost use Rattle.pfs_c.specs.HeadsTails.{AreRowHeads, AreRowTails, heads_tails_fault};
ghost use Rattle.pfs_c.specs.Inserting.{AreInsertions, insertions_fault};
ghost use Rattle.pfs_c.specs.Makespans.{AreMakespans, makespans_fault};
ghost use Rattle.pfs_c.specs.Numbers.{Returns, number_returned};
ghost use Rattle.pfs_c.specs.Tables.{EndAfterTimes, table_entry, table_fault};
ghost use Rattle.pfs_c.specs.Validation.{insertion_fault, jobs_fault, on_shop};
ghost use Rattle.pfs_c.specs.Private.Outcomes.{Rejects, Validates};

use crate::given::{order_of, validate, validate_jobs, validate_product};
use crate::handle::Prepared;
use crate::numbers::{CallFault, PFS_OK, number_and_place, number_of};
use crate::rows::{fill_heads, fill_tails};
use pfs_audit::{TimeTable, bound, table};
use pfs_base::Instance;
use pfs_base::heads::span_of;
use pfs_exact::bound_by_pairs;
use std::alloc::Global;

/// Computes the makespan of a sequence of distinct jobs, which need not be all jobs. That of no jobs is 0.
#[unsafe(no_mangle)]
#[tactic(auto, using(crate::proofs::Jobs::few_jobs))]
pub extern "C" fn pfs_makespan(
    alloc: Global,
    instance: &mut Prepared,
    sequence: &[u32],
    span: &mut u64,
) -> i32
    ensures number { result ≡ number_returned
        (on_shop instance.old.shop (λ shop. jobs_fault shop.jobs sequence.now)) }
    ensures done { result ≡ PFS_OK → IfSome instance.old.shop (λ shop. span.new ≡ makespan shop sequence.now) }
    ensures shop { instance.new.shop ≡ instance.old.shop }
    ensures kept { result ≢ PFS_OK → span.new ≡ span.old }
{
    let Some(kept) = instance.take(alloc) else {
        return CallFault::NotPrepared.number();
    };
    let valid = validate_jobs(kept.jobs(), sequence);
    if valid.is_ok() {
        *span = span_of(kept.instance(), sequence);
    }
    instance.put(kept);
    number_of(valid)
}

/// Computes a lower bound of the makespan of every order (Taillard 1993).
#[unsafe(no_mangle)]
pub extern "C" fn pfs_bound(alloc: Global, instance: &mut Prepared, least: &mut u64) -> i32
    ensures number { result ≡ number_returned (on_shop instance.old.shop (λ _. None)) }
    ensures done { result ≡ PFS_OK → IfSome instance.old.shop (λ shop. least.new ≡ bound_of shop) }
    ensures shop { instance.new.shop ≡ instance.old.shop }
    ensures kept { result ≢ PFS_OK → least.new ≡ least.old }
{
    let Some(kept) = instance.take(alloc) else {
        return CallFault::NotPrepared.number();
    };
    *least = bound(kept.instance());
    instance.put(kept);
    PFS_OK
}

/// Computes a lower bound of the makespan of every order, by pairs of machines (Johnson 1954; Lageweg, Lenstra and
/// Rinnooy Kan 1978). It is at least that of `pfs_bound`.
#[unsafe(no_mangle)]
pub extern "C" fn pfs_pairs_bound(alloc: Global, instance: &mut Prepared, least: &mut u64) -> i32
    ensures number { Returns result (on_shop instance.old.shop (λ _. None)) }
    ensures low { result ≡ PFS_OK → IfSome instance.old.shop (λ shop. IsLowerBound shop least.new) }
    ensures raised { result ≡ PFS_OK → IfSome instance.old.shop (λ shop. bound_of shop ≤ least.new) }
    ensures shop { instance.new.shop ≡ instance.old.shop }
    ensures kept { result ≢ PFS_OK → least.new ≡ least.old }
{
    let Some(kept) = instance.take(alloc) else {
        return CallFault::NotPrepared.number();
    };
    let found = bound_by_pairs(alloc, kept.instance());
    instance.put(kept);
    match found {
        Ok(number) => {
            *least = number;
            PFS_OK
        }
        Err(_) => CallFault::Memory.number(),
    }
}

/// Computes the makespans of many sequences, which are stored one after the other. Each has `len` distinct jobs, which
/// need not be all jobs; with `len` 0, each makespan is 0. If one sequence is invalid, no makespan is written.
#[unsafe(no_mangle)]
pub extern "C" fn pfs_makespans(
    alloc: Global,
    instance: &mut Prepared,
    sequences: &[u32],
    len: usize,
    makespans: &mut [u64],
) -> i32
    ensures number { result ≡ number_returned (on_shop instance.old.shop
        (λ shop. makespans_fault shop sequences.now len (length makespans.old))) }
    ensures done { result ≡ PFS_OK →
        IfSome instance.old.shop (λ shop. AreMakespans shop sequences.now len makespans.new) }
    ensures shop { instance.new.shop ≡ instance.old.shop }
    ensures kept { result ≢ PFS_OK → makespans.new ≡ makespans.old }
{
    let Some(mut kept) = instance.take(alloc) else {
        return CallFault::NotPrepared.number();
    };
    let done = kept.makespans(sequences, len, makespans);
    instance.put(kept);
    number_of(done)
}

/// Finds the best place of a job in a sequence of others, of equal ones the first, and the makespan with the job there.
#[unsafe(no_mangle)]
pub extern "C" fn pfs_insert(
    alloc: Global,
    instance: &mut Prepared,
    sequence: &[u32],
    job: u32,
    place: &mut usize,
    span: &mut u64,
) -> i32
    ensures number { result ≡ number_returned
        (on_shop instance.old.shop (λ shop. insertion_fault shop sequence.now job)) }
    ensures done { result ≡ PFS_OK →
        IfSome instance.old.shop (λ shop. IsBestPlace shop sequence.now job place.new span.new) }
    ensures shop { instance.new.shop ≡ instance.old.shop }
    ensures kept_place { result ≢ PFS_OK → place.new ≡ place.old }
    ensures kept_span { result ≢ PFS_OK → span.new ≡ span.old }
{
    let Some(mut kept) = instance.take(alloc) else {
        return CallFault::NotPrepared.number();
    };
    let done = kept.insert(sequence, job);
    instance.put(kept);
    number_and_place(done, place, span)
}

/// Computes the makespan with a job at each place of a sequence of others. `makespans[place]` is that with the job
/// before the one at this place, and the last entry that with the job after the last one.
#[unsafe(no_mangle)]
pub extern "C" fn pfs_insertions(
    alloc: Global,
    instance: &mut Prepared,
    sequence: &[u32],
    job: u32,
    makespans: &mut [u64],
) -> i32
    ensures number { result ≡ number_returned (on_shop instance.old.shop
        (λ shop. insertions_fault shop sequence.now job (length makespans.old))) }
    ensures done { result ≡ PFS_OK →
        IfSome instance.old.shop (λ shop. AreInsertions shop sequence.now job makespans.new) }
    ensures shop { instance.new.shop ≡ instance.old.shop }
    ensures kept { result ≢ PFS_OK → makespans.new ≡ makespans.old }
{
    let Some(mut kept) = instance.take(alloc) else {
        return CallFault::NotPrepared.number();
    };
    let done = kept.insertions(sequence, job, makespans);
    instance.put(kept);
    number_of(done)
}

/// Computes when each operation of an order of all jobs starts and ends, each as early as possible. Both tables are
/// stored row by row: row r belongs to the job at place r of the order, and has an entry for each machine.
#[unsafe(no_mangle)]
#[tactic(auto, using(crate::proofs::Returning::rejected))]
pub extern "C" fn pfs_table(
    alloc: Global,
    instance: &mut Prepared,
    order: &[u32],
    starts: &mut [u64],
    ends: &mut [u64],
) -> i32
    ensures number { Returns result (on_shop instance.old.shop
        (λ shop. table_fault shop order.now (length starts.old) (length ends.old))) }
    ensures starts { result ≡ PFS_OK → IfSome instance.old.shop (λ shop.
        IsLeastSchedule shop order.now (table_entry shop.machines starts.new)) }
    ensures ends { result ≡ PFS_OK → IfSome instance.old.shop (λ shop.
        EndAfterTimes shop order.now starts.new ends.new) }
    ensures shop { instance.new.shop ≡ instance.old.shop }
    ensures kept_starts { result ≢ PFS_OK → starts.new ≡ starts.old }
    ensures kept_ends { result ≢ PFS_OK → ends.new ≡ ends.old }
{
    let Some(kept) = instance.take(alloc) else {
        return CallFault::NotPrepared.number();
    };
    let table = table_in(alloc, kept.instance(), order, starts.len(), ends.len());
    instance.put(kept);
    match table {
        Ok(table) => {
            starts.copy_from_slice(table.starts());
            ends.copy_from_slice(table.ends());
            PFS_OK
        }
        Err(why) => why.number(),
    }
}

// The time table, for output lists with `starts` and `ends` entries.
fn table_in(
    alloc: Global,
    instance: &Instance,
    order: &[u32],
    starts: usize,
    ends: usize,
) -> Result<TimeTable, CallFault>
    ensures rejected { Rejects result (table_fault instance.now.shop order.now starts ends) }
    ensures starts { IfOk result (λ table. length table.starts ≡ starts) }
    ensures ends { IfOk result (λ table. length table.ends ≡ ends) }
    ensures least { IfOk result (λ table.
        IsLeastSchedule instance.now.shop order.now (table_entry instance.now.shop.machines table.starts)) }
    ensures timed { IfOk result (λ table. EndAfterTimes instance.now.shop order.now table.starts table.ends) }
{
    let (jobs, machines) = (instance.jobs(), instance.machines());
    validate(order.len() == jobs, CallFault::Length)?;
    validate(starts == jobs * machines, CallFault::Length)?;
    validate(ends == jobs * machines, CallFault::Length)?;
    validate_jobs(jobs, order)?;
    let order = order_of(alloc, order)?;
    table(alloc, instance, &order).or(Err(CallFault::Memory))
}

/// The heads and tails of a sequence of distinct jobs, row by row: row r is the job at place r of the sequence, and has
/// an entry for each machine. A head is the earliest end of the operation. A tail is the longest path from the start of
/// the operation to the end of the sequence.
#[unsafe(no_mangle)]
pub extern "C" fn pfs_heads_tails(
    alloc: Global,
    instance: &mut Prepared,
    sequence: &[u32],
    heads: &mut [u64],
    tails: &mut [u64],
) -> i32
    ensures number { result ≡ number_returned (on_shop instance.old.shop
        (λ shop. heads_tails_fault (length heads.old) (length tails.old) shop sequence.now)) }
    ensures heads { result ≡ PFS_OK → IfSome instance.old.shop (λ shop. AreRowHeads shop sequence.now heads.new) }
    ensures tails { result ≡ PFS_OK → IfSome instance.old.shop (λ shop. AreRowTails shop sequence.now tails.new) }
    ensures shop { instance.new.shop ≡ instance.old.shop }
    ensures kept_heads { result ≢ PFS_OK → heads.new ≡ heads.old }
    ensures kept_tails { result ≢ PFS_OK → tails.new ≡ tails.old }
{
    let Some(kept) = instance.take(alloc) else {
        return CallFault::NotPrepared.number();
    };
    let done = heads_tails_in(kept.instance(), sequence, heads, tails);
    instance.put(kept);
    number_of(done)
}

fn heads_tails_in(
    instance: &Instance,
    sequence: &[u32],
    heads: &mut [u64],
    tails: &mut [u64],
) -> Result<(), CallFault>
    ensures validated { Validates result
        (heads_tails_fault (length heads.old) (length tails.old) instance.now.shop sequence.now) }
    ensures heads { IfOk result (λ _. AreRowHeads instance.now.shop sequence.now heads.new) }
    ensures tails { IfOk result (λ _. AreRowTails instance.now.shop sequence.now tails.new) }
    ensures kept_heads { IfErr result (λ _. heads.new ≡ heads.old) }
    ensures kept_tails { IfErr result (λ _. tails.new ≡ tails.old) }
{
    let machines = instance.machines();
    validate_product(heads.len(), sequence.len(), machines)?;
    validate_product(tails.len(), sequence.len(), machines)?;
    validate_jobs(instance.jobs(), sequence)?;
    fill_heads(instance, sequence, heads);
    fill_tails(instance, sequence, tails);
    Ok(())
}
