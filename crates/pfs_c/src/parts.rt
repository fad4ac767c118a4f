//! Searches of parts of all orders, for C.
ghost use Rattle.std.specs.Prelude.{◌≡◌, ◌≢◌, ℕ, ◌+◌, ◌*◌, ◌/◌, ◌<◌, ◌≤◌, ◌++◌, length, take, drop, All};
ghost use Rattle.std.specs.Prelude.{IfOk, IfErr, IfSome, slice_index};
ghost use Rattle.pfs_batch.specs.SequenceLists.{sequence_at};
ghost use Rattle.pfs_exact.specs.Parts.{IsPart};
ghost use Rattle.pfs_order.specs.Sequence.{IsSequence};
ghost use Rattle.pfs_c.specs.Numbers.{Returns};
ghost use Rattle.pfs_c.specs.Parts.{IsSearched, jobs_of, prove_parts_fault, rows_fault};
ghost use Rattle.pfs_c.specs.Validation.{jobs_fault, on_shop};
ghost use Rattle.pfs_c.specs.Private.Outcomes.{Rejects, Validates};
ghost use Rattle.pfs_c.specs.Private.PartRows.{AreBounds, AreRows, IsRow};

use crate::given::{
    copy_sequence, order_of, validate, validate_jobs, validate_more, validate_product,
};
use crate::handle::Prepared;
use crate::numbers::{CallFault, PFS_OK};
use pfs_base::{Instance, MOST_JOBS};
use pfs_exact::{MOST_PROVED_JOBS, MOST_PROVED_MACHINES, Part, prove_parts};
use pfs_order::Seq;
use std::alloc::Global;

/// What a part has at each place between its first and its last jobs.
pub const PFS_OPEN: u32 = 4_294_967_295;

/// The struct `pfs_proof` of C.
#[repr(C)]
#[derive(Clone, Copy)]
pub struct Proof {
    /// Only an order with a makespan below it is searched for.
    pub limit: u64,
    /// The greatest number of nodes.
    pub nodes: u64,
    /// The number of parts.
    pub count: u64,
    /// The makespan of the order that was found.
    pub makespan: u64,
    /// No order of the given parts has a makespan below it.
    pub bound: u64,
    /// The nodes that are left.
    pub left: u64,
}

/// Searches the orders of some parts, one part after the other, for one that is shorter than the given order and than a
/// limit, and for a proof that there is none. A part is a row of `parts`: its first jobs, `PFS_OPEN` at each place between,
/// and its last jobs. `order` is overwritten with the order that was found, `parts` with the parts that are left, `bounds`
/// with a number for each that none of its orders is shorter than, and `proof` with what was proved.
#[unsafe(no_mangle)]
#[tactic(auto, using(crate::proofs::Returning::rejected))]
pub extern "C" fn pfs_prove_parts(
    alloc: Global,
    instance: &mut Prepared,
    order: &mut [u32],
    parts: &mut [u32],
    bounds: &mut [u64],
    proof: &mut Proof,
) -> i32
    ensures number { Returns result (on_shop instance.old.shop
        (λ shop. prove_parts_fault shop order.old parts.old (length bounds.old) proof.old.count)) }
    ensures done { result ≡ PFS_OK → IfSome instance.old.shop
        (λ shop. IsSearched shop order.old parts.old proof.old order.new parts.new bounds.new proof.new) }
    ensures shop { instance.new.shop ≡ instance.old.shop }
    ensures kept_order { result ≢ PFS_OK → order.new ≡ order.old }
    ensures kept_parts { result ≢ PFS_OK → parts.new ≡ parts.old }
    ensures kept_bounds { result ≢ PFS_OK → bounds.new ≡ bounds.old }
    ensures kept_proof { result ≢ PFS_OK → proof.new ≡ proof.old }
{
    let Some(kept) = instance.take(alloc) else {
        return CallFault::NotPrepared.number();
    };
    let done = search_in(alloc, kept.instance(), order, parts, bounds, proof);
    instance.put(kept);
    match done {
        Ok(()) => PFS_OK,
        Err(why) => why.number(),
    }
}

fn search_in(
    alloc: Global,
    instance: &Instance,
    order: &mut [u32],
    parts: &mut [u32],
    bounds: &mut [u64],
    proof: &mut Proof,
) -> Result<(), CallFault>
    ensures rejected { Rejects result
        (prove_parts_fault instance.now.shop order.old parts.old (length bounds.old) proof.old.count) }
    ensures done { IfOk result (λ _. IsSearched instance.now.shop order.old parts.old proof.old order.new parts.new
        bounds.new proof.new) }
    ensures kept_order { IfErr result (λ _. order.new ≡ order.old) }
    ensures kept_parts { IfErr result (λ _. parts.new ≡ parts.old) }
    ensures kept_bounds { IfErr result (λ _. bounds.new ≡ bounds.old) }
    ensures kept_proof { IfErr result (λ _. proof.new ≡ proof.old) }
{
    let jobs = instance.jobs();
    validate_parts(instance, order, parts, bounds.len(), proof.count)?;
    let mut best = order_of(alloc, order)?;
    let given = read_parts(alloc, instance, parts, proof.count as usize)?;
    let Ok(searched) = prove_parts(alloc, instance, &given, &mut best, proof.limit, proof.nodes)
    else {
        return Err(CallFault::Memory);
    };
    copy_sequence(best.seq(), order);
    write_parts(&searched.parts, jobs, parts, bounds);
    proof.count = searched.parts.len() as u64;
    proof.makespan = searched.proved.makespan;
    proof.bound = searched.proved.bound;
    proof.left = searched.proved.left;
    Ok(())
}

// Validates the arguments of a search with room for some rows, of which `count` are given.
fn validate_parts(
    instance: &Instance,
    order: &[u32],
    rows: &[u32],
    room: usize,
    count: u64,
) -> Result<(), CallFault>
    ensures validated { Validates result (prove_parts_fault instance.now.shop order.now rows.now room count) }
    ensures jobs { IfOk result (λ done. instance.now.shop.jobs ≤ MOST_PROVED_JOBS) }
    ensures machines { IfOk result (λ done. instance.now.shop.machines ≤ MOST_PROVED_MACHINES) }
    ensures full { IfOk result (λ done. length order.now ≡ instance.now.shop.jobs) }
    ensures sequence { IfOk result (λ done. IsSequence instance.now.shop.jobs order.now) }
    ensures long { IfOk result (λ done. length rows.now ≡ room * instance.now.shop.jobs) }
    ensures room { IfOk result (λ done. count + instance.now.shop.jobs * (instance.now.shop.jobs + 1) / 2 ≤ room) }
    ensures each { IfOk result (λ done. (index : ℕ) → index < count
        → IsSequence instance.now.shop.jobs (jobs_of (sequence_at instance.now.shop.jobs rows.now index))) }
{
    let jobs = instance.jobs();
    validate(order.len() == jobs, CallFault::Length)?;
    validate_product(rows.len(), room, jobs)?;
    validate_jobs(jobs, order)?;
    validate(jobs <= MOST_PROVED_JOBS, CallFault::Size)?;
    validate(instance.machines() <= MOST_PROVED_MACHINES, CallFault::Size)?;
    let more = jobs * (jobs + 1) / 2;
    let fits = more <= room && count <= (room - more) as u64;
    validate(fits, CallFault::Room)?;
    validate_rows(jobs, rows, count as usize)
}

// Validates the first rows.
fn validate_rows(jobs: usize, rows: &[u32], count: usize) -> Result<(), CallFault>
    requires jobs { jobs ≤ MOST_JOBS }
    requires long { count * jobs ≤ length rows.now }
    ensures validated { Validates result (rows_fault jobs count rows.now) }
    ensures each { IfOk result (λ done. (index : ℕ) → index < count
        → IsSequence jobs (jobs_of (sequence_at jobs rows.now index))) }
{
    for index in 0..count {
        let first = index * jobs;
        validate_row(jobs, &rows[first..first + jobs])?;
    }
    Ok(())
}

// Validates the jobs of a row from the left.
fn validate_row(jobs: usize, row: &[u32]) -> Result<(), CallFault>
    requires { jobs ≤ MOST_JOBS }
    ensures { Validates result (jobs_fault jobs (jobs_of row.now)) }
{
    let (first, last) = open_run(row);
    validate_jobs(jobs, &row[..first])?;
    validate_more(jobs, &row[..first], &row[last..])
}

// The first run of `PFS_OPEN` in a row.
fn open_run(row: &[u32]) -> (usize, usize)
    ensures within { (result.0 ≤ result.1) × (result.1 ≤ length row.now) }
    ensures run { (place : ℕ) → result.0 ≤ place → place < result.1 → slice_index row.now place ≡ PFS_OPEN }
    ensures jobs { jobs_of row.now ≡ take result.0 row.now ++ drop result.1 row.now }
{
    let mut first = 0;
    while first < row.len() && row[first] != PFS_OPEN {
        first += 1;
    }
    let mut last = first;
    while last < row.len() && row[last] == PFS_OPEN {
        last += 1;
    }
    (first, last)
}

// Reads the parts of the first rows.
fn read_parts(
    alloc: Global,
    instance: &Instance,
    rows: &[u32],
    count: usize,
) -> Result<Vec<Part>, CallFault>
    requires long { count * instance.now.shop.jobs ≤ length rows.now }
    requires each { (index : ℕ) → index < count
        → IsSequence instance.now.shop.jobs (jobs_of (sequence_at instance.now.shop.jobs rows.now index)) }
    ensures count { IfOk result (λ parts. length parts.items ≡ count) }
    ensures parts { IfOk result (λ parts. All (IsPart instance.now.shop) parts.items) }
    ensures rows { IfOk result (λ parts. AreRows instance.now.shop.jobs parts.items rows.now) }
    ensures memory { IfErr result (λ why. why ≡ CallFault.Memory) }
{
    let jobs = instance.jobs();
    let mut parts = Vec::new(alloc);
    for index in 0..count {
        let first = index * jobs;
        let part = read_part(alloc, instance, &rows[first..first + jobs])?;
        let Ok(()) = parts.push(part) else {
            return Err(CallFault::Memory);
        };
    }
    Ok(parts)
}

// Reads the part of a row, with the bound 0.
fn read_part(alloc: Global, instance: &Instance, row: &[u32]) -> Result<Part, CallFault>
    requires long { length row.now ≡ instance.now.shop.jobs }
    requires sequence { IsSequence instance.now.shop.jobs (jobs_of row.now) }
    ensures part { IfOk result (λ part. IsPart instance.now.shop part) }
    ensures row { IfOk result (λ part. IsRow instance.now.shop.jobs part row.now) }
    ensures memory { IfErr result (λ why. why ≡ CallFault.Memory) }
{
    let jobs = instance.jobs();
    let (first, last) = open_run(row);
    let Ok(front) = Seq::from_jobs(alloc, jobs, &row[..first]) else {
        return Err(CallFault::Memory);
    };
    let Ok(back) = Seq::from_jobs(alloc, jobs, &row[last..]) else {
        return Err(CallFault::Memory);
    };
    Ok(Part {
        front,
        back,
        bound: 0,
    })
}

// Writes parts into the first rows, and their bounds.
fn write_parts(parts: &[Part], jobs: usize, rows: &mut [u32], bounds: &mut [u64])
    requires rows { length parts.now * jobs ≤ length rows.old }
    requires bounds { length parts.now ≤ length bounds.old }
    requires few { All (λ part. length part.front.jobs + length part.back.jobs ≤ jobs) parts.now }
    ensures rows { AreRows jobs parts.now rows.new }
    ensures bounds { AreBounds parts.now bounds.new }
{
    for index in 0..parts.len() {
        let part = &parts[index];
        let first = index * jobs;
        write_part(part, &mut rows[first..first + jobs]);
        bounds[index] = part.bound;
    }
}

// Writes a part into a row.
fn write_part(part: &Part, row: &mut [u32])
    requires { length part.now.front.jobs + length part.now.back.jobs ≤ length row.old }
    ensures { IsRow (length row.old) part.now row.new }
{
    let (front, rest) = row.split_at_mut(part.front.len());
    let (open, back) = rest.split_at_mut(rest.len() - part.back.len());
    front.copy_from_slice(part.front.as_slice());
    open.fill(PFS_OPEN);
    back.copy_from_slice(part.back.as_slice());
}
