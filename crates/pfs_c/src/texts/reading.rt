//! Reading instance files and order files in memory.
ghost use Rattle.std.specs.Prelude.{◌≡◌, ◌≢◌, ℕ, ◌*◌, ◌<◌, ◌≤◌, ◌<ℤ◌, ◌≤ℤ◌, List, ◌++◌, length, take, drop};
ghost use Rattle.std.specs.Prelude.{IfOk, IfErr};
ghost use Rattle.pfs_base.specs.Limits.{limits};
ghost use Rattle.pfs_layout.specs.File.{IsInstanceFile};
ghost use Rattle.pfs_layout.specs.Rejection.{RejectsInstance};
ghost use Rattle.pfs_layout.specs.declared.fault.LayoutFault.{LayoutFault};
ghost use Rattle.pfs_order.specs.OrderFile.{IsText, IsOrderFile, RejectsOrder};
ghost use Rattle.pfs_order.specs.declared.fault.OrderFault.{OrderFault};
ghost use Rattle.pfs_c.specs.Numbers.{fault_number};
ghost use Rattle.pfs_c.specs.Texts.{file_fault, file_place, given_problem, order_fault, order_file_of, order_place};
ghost use Rattle.pfs_c.specs.Texts.{HoldsProblem, HasFault, NeedsMemory, ReturnsRead, ReturnsReadOrder};

use crate::given::copy_sequence;
use crate::numbers::{CallFault, PFS_NO_BLOCK, PFS_OK, PFS_ROOM, PFS_SYNTAX};
use crate::texts::bytes::Bytes;
use crate::texts::{PfsBlock, layout_of};
use pfs_base::{Instance, MOST_BLOCKS};
use pfs_layout::{Layout, LayoutFault, read_block};
use pfs_order::{OrderFault, OrderFile, read_order};
use std::alloc::Global;

/// Reads a block, counted from 1, of an instance file in memory, in the layout that a number names. The processing
/// times are stored in the front of `times`, job by job. If they do not fit, it returns `PFS_ROOM` and sets `found`.
///
/// It returns `PFS_LAYOUT` if no layout has the number, `PFS_BLOCK` if the block's number is invalid, and a number from
/// `PFS_NO_BLOCK` on if the file has a fault; then `place` is the fault's count, line or offset. Memory for the times
/// is allocated at the end of the block's size line, so `PFS_MEMORY` says nothing about the bytes after it.
#[unsafe(no_mangle)]
pub extern "C" fn pfs_read(
    alloc: Global,
    bytes: &[u8],
    layout: u32,
    block: usize,
    found: &mut PfsBlock,
    times: &mut [u32],
    place: &mut u64,
) -> i32
    ensures number { ReturnsRead result bytes.now layout block (length times.old) }
    ensures done { result ≡ PFS_OK → HoldsProblem bytes.now layout block
        (given_problem found.new (take (found.new.jobs * found.new.machines) times.new)) }
    ensures rest { result ≡ PFS_OK → drop (found.new.jobs * found.new.machines) times.new
        ≡ drop (found.new.jobs * found.new.machines) times.old }
    ensures room { result ≡ PFS_ROOM → length times.old < found.new.jobs * found.new.machines }
    ensures reported { result ≡ PFS_ROOM → (all : List ℕ)
        × HoldsProblem bytes.now layout block (given_problem found.new all) }
    ensures fault { PFS_NO_BLOCK ≤ℤ result → (fault : LayoutFault) × (HasFault bytes.now layout block fault
        × (result ≡ fault_number (file_fault fault)) × (place.new ≡ file_place fault)) }
    ensures times_kept { result ≢ PFS_OK → times.new ≡ times.old }
    ensures found_kept { result ≢ PFS_OK → result ≢ PFS_ROOM → found.new ≡ found.old }
    ensures place_kept { result <ℤ PFS_NO_BLOCK → place.new ≡ place.old }
{
    let Some(named) = layout_of(layout) else {
        return CallFault::Layout.number();
    };
    if block < 1 || block > MOST_BLOCKS {
        return CallFault::Block.number();
    }
    let instance = match read_file(alloc, bytes, named, block) {
        Ok(instance) => instance,
        Err(LayoutFault::Memory) => return CallFault::Memory.number(),
        Err(fault) => {
            let (why, at) = file_answer(fault);
            *place = at;
            return why.number();
        }
    };
    *found = PfsBlock {
        jobs: instance.jobs(),
        machines: instance.machines(),
        notes: instance.notes(),
    };
    let read = instance.times();
    if times.len() < read.len() {
        return CallFault::Room.number();
    }
    times[..read.len()].copy_from_slice(read);
    PFS_OK
}

// Reads the block with this number, counted from 1, of an instance file.
fn read_file(
    alloc: Global,
    bytes: &[u8],
    layout: Layout,
    block: usize,
) -> Result<Instance, LayoutFault>
    requires some { 1 ≤ block }
    requires few { block ≤ MOST_BLOCKS }
    ensures file { IfOk result (λ instance. IsInstanceFile limits layout bytes.now block instance) }
    ensures rejected { IfErr result (λ fault. fault ≢ LayoutFault.Memory
        → RejectsInstance layout bytes.now block fault) }
    ensures memory { result ≡ Err LayoutFault.Memory → NeedsMemory bytes.now layout block }
    ensures read { result ≢ Err LayoutFault.Read }
    ensures seed { result ≢ Err LayoutFault.SeedRange }
{
    let mut source = Bytes::new(bytes);
    read_block(alloc, &mut source, layout, block)
}

// How C receives a fault of an instance file, and its count, line or offset, or 0 if it has none.
fn file_answer(fault: LayoutFault) -> (CallFault, u64)
    ensures why { result.0 ≡ file_fault fault }
    ensures place { result.1 ≡ file_place fault }
{
    match fault {
        LayoutFault::NoBlock { found } => (CallFault::NoBlock, found as u64),
        LayoutFault::SizeCount { line } => (CallFault::SizeCount, line as u64),
        LayoutFault::SizeRange { line } => (CallFault::SizeRange, line as u64),
        LayoutFault::MixedLine { offset } => (CallFault::MixedLine, offset as u64),
        LayoutFault::TimeRange { offset } => (CallFault::TimeRange, offset as u64),
        LayoutFault::MachineNumber { offset } => (CallFault::MachineNumber, offset as u64),
        LayoutFault::ExtraNumber { offset } => (CallFault::ExtraNumber, offset as u64),
        LayoutFault::Truncated { have } => (CallFault::Truncated, have as u64),
        LayoutFault::TooLong => (CallFault::InputTooLong, 0),
        LayoutFault::SeedRange => (CallFault::Seed, 0),
        LayoutFault::Read | LayoutFault::Memory => (CallFault::Memory, 0),
    }
}

/// Reads an order file of version 1 or 2 in memory. The order is stored in the front of `order`, where jobs count from
/// 0. `machines` is 0 if the file states none. The makespan is the one that the file states, right or wrong. If the
/// order does not fit, the function returns `PFS_ROOM` and still sets jobs, machines and makespan.
///
/// It returns a number from `PFS_SYNTAX` on if the file has a fault; then `place` is the fault's offset, or its place
/// in the order, counted from 1. Memory is allocated once the text matches the grammar, before its jobs are validated.
#[unsafe(no_mangle)]
pub extern "C" fn pfs_read_order(
    alloc: Global,
    bytes: &[u8],
    order: &mut [u32],
    jobs: &mut usize,
    machines: &mut usize,
    makespan: &mut u64,
    place: &mut u64,
) -> i32
    ensures number { ReturnsReadOrder result bytes.now (length order.old) }
    ensures done { result ≡ PFS_OK
        → IsOrderFile bytes.now (order_file_of (take jobs.new order.new) machines.new makespan.new) }
    ensures fits { result ≡ PFS_OK → jobs.new ≤ length order.old }
    ensures rest { result ≡ PFS_OK → drop jobs.new order.new ≡ drop jobs.new order.old }
    ensures room { result ≡ PFS_ROOM → length order.old < jobs.new }
    ensures reported { result ≡ PFS_ROOM → (all : List ℕ) × ((length all ≡ jobs.new)
        × IsOrderFile bytes.now (order_file_of all machines.new makespan.new)) }
    ensures fault { PFS_SYNTAX ≤ℤ result → (fault : OrderFault) × (RejectsOrder bytes.now fault
        × (result ≡ fault_number (order_fault fault)) × (place.new ≡ order_place fault)) }
    ensures order_kept { result ≢ PFS_OK → order.new ≡ order.old }
    ensures sizes_kept { result ≢ PFS_OK → result ≢ PFS_ROOM
        → (jobs.new ≡ jobs.old) × (machines.new ≡ machines.old) × (makespan.new ≡ makespan.old) }
    ensures place_kept { result <ℤ PFS_SYNTAX → place.new ≡ place.old }
{
    let file = match read_text(alloc, bytes) {
        Ok(file) => file,
        Err(OrderFault::Memory) => return CallFault::Memory.number(),
        Err(fault) => {
            let (why, at) = order_answer(fault);
            *place = at;
            return why.number();
        }
    };
    *jobs = file.order().len();
    *machines = file.machines().unwrap_or(0);
    *makespan = file.makespan();
    if order.len() < file.order().len() {
        return CallFault::Room.number();
    }
    copy_sequence(file.order().seq(), order);
    PFS_OK
}

// Reads what an order file states.
fn read_text(alloc: Global, bytes: &[u8]) -> Result<OrderFile, OrderFault>
    ensures file { IfOk result (λ file. IsOrderFile bytes.now file) }
    ensures rejected { IfErr result (λ fault. fault ≢ OrderFault.Memory → RejectsOrder bytes.now fault) }
    ensures memory { result ≡ Err OrderFault.Memory → IsText bytes.now }
    ensures read { result ≢ Err OrderFault.Read }
{
    let mut source = Bytes::new(bytes);
    read_order(alloc, &mut source)
}

// How C receives a fault of an order file, and its offset or place, or 0 if it has none.
fn order_answer(fault: OrderFault) -> (CallFault, u64)
    ensures why { result.0 ≡ order_fault fault }
    ensures place { result.1 ≡ order_place fault }
{
    match fault {
        OrderFault::Syntax { offset } => (CallFault::Syntax, offset as u64),
        OrderFault::JobRange { place } => (CallFault::JobRange, place as u64),
        OrderFault::Repeated { place } => (CallFault::JobTwice, place as u64),
        OrderFault::TooLong => (CallFault::FileTooLong, 0),
        OrderFault::Read | OrderFault::Memory => (CallFault::Memory, 0),
    }
}
