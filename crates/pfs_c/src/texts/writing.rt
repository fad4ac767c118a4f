//! Writing instance files and order files into memory.
ghost use Rattle.std.specs.Prelude.{◌≡◌, ◌≢◌, length, IfOk};
ghost use Rattle.pfs_order.specs.OrderText.{file_text};
ghost use Rattle.pfs_c.specs.Private.Outcomes.{Rejects};
ghost use Rattle.pfs_c.specs.Texts.{layout_fault, machines_stated, put_in_front, text_in, written};
ghost use Rattle.pfs_c.specs.Texts.{write_order_fault, ReturnsWrite};
ghost use Rattle.pfs_c.specs.Validation.{on_shop};

use crate::given::{instance_of, order_of, validate_jobs};
use crate::handle::Prepared;
use crate::numbers::{CallFault, PFS_OK, PFS_ROOM};
use crate::texts::bytes::return_text;
use crate::texts::layout_of;
use pfs_base::{Instance, MOST_JOBS, MOST_MACHINES, Notes, ToWrite};
use pfs_layout::write_block;
use pfs_order::write_order;
use std::alloc::Global;

/// The greatest makespan that an order file can state.
const MOST_MAKESPAN: u64 = 999_999_999_999_999_999;

/// Writes an instance as a file of one block into the front of `text`, in the layout that a number names, with single
/// spaces and no leading zeros. The layout of the OR-Library has no notes. `len` is set to the number of bytes of the
/// file; if they do not fit into `text`, it is set too and the function returns `PFS_ROOM`.
///
/// The file is written to a buffer first, so `PFS_MEMORY` comes before `PFS_ROOM`.
#[unsafe(no_mangle)]
pub extern "C" fn pfs_write(
    alloc: Global,
    instance: &mut Prepared,
    notes: &Notes,
    layout: u32,
    text: &mut [u8],
    len: &mut usize,
) -> i32
    ensures number { ReturnsWrite result (on_shop instance.old.shop (λ _. layout_fault layout)) (length text.old)
        (length (written instance.old.shop layout notes.now)) }
    ensures done { result ≡ PFS_OK → text.new ≡ put_in_front (written instance.old.shop layout notes.now) text.old }
    ensures reported { result ≡ PFS_OK → len.new ≡ length (written instance.old.shop layout notes.now) }
    ensures wanted { result ≡ PFS_ROOM → len.new ≡ length (written instance.old.shop layout notes.now) }
    ensures shop { instance.new.shop ≡ instance.old.shop }
    ensures text_kept { result ≢ PFS_OK → text.new ≡ text.old }
    ensures len_kept { result ≢ PFS_OK → result ≢ PFS_ROOM → len.new ≡ len.old }
{
    let Some(kept) = instance.take(alloc) else {
        return CallFault::NotPrepared.number();
    };
    let file = file_in(alloc, kept.instance(), notes, layout);
    instance.put(kept);
    match file {
        Ok(file) => return_text(&file, text, len),
        Err(why) => why.number(),
    }
}

// The file of an instance, in the layout that a number names.
fn file_in(
    alloc: Global,
    instance: &Instance,
    notes: &Notes,
    layout: u32,
) -> Result<Vec<u8>, CallFault>
    ensures rejected { Rejects result (layout_fault layout) }
    ensures text { IfOk result (λ file.
        file.items ≡ text_in layout (record { shop = instance.now.shop; notes = notes.now })) }
    ensures room { result ≢ Err CallFault.Room }
{
    let named = layout_of(layout).ok_or(CallFault::Layout)?;
    let (times, jobs, machines) = (instance.times(), instance.jobs(), instance.machines());
    let noted = instance_of(alloc, times, jobs, machines, *notes)?;
    let mut text = ToWrite::new(Vec::new(alloc));
    write_block(&mut text, &noted, named).or(Err(CallFault::Memory))?;
    Ok(text.into_writer())
}

/// Writes an order of all jobs and a makespan as an order file into the front of `text`: a file of version 1 if
/// `machines` is 0, otherwise one of version 2. Jobs count from 0 in `order` and from 1 in the file. `len` is set to
/// the number of bytes of the file; if they do not fit into `text`, it is set too and the function returns `PFS_ROOM`.
///
/// The file is written to a buffer first, so `PFS_MEMORY` comes before `PFS_ROOM`.
#[unsafe(no_mangle)]
pub extern "C" fn pfs_write_order(
    alloc: Global,
    order: &[u32],
    machines: usize,
    makespan: u64,
    text: &mut [u8],
    len: &mut usize,
) -> i32
    ensures number { ReturnsWrite result (write_order_fault order.now machines makespan) (length text.old)
        (length (file_text order.now (machines_stated machines) makespan)) }
    ensures done { result ≡ PFS_OK
        → text.new ≡ put_in_front (file_text order.now (machines_stated machines) makespan) text.old }
    ensures reported { result ≡ PFS_OK → len.new ≡ length (file_text order.now (machines_stated machines) makespan) }
    ensures wanted { result ≡ PFS_ROOM → len.new ≡ length (file_text order.now (machines_stated machines) makespan) }
    ensures text_kept { result ≢ PFS_OK → text.new ≡ text.old }
    ensures len_kept { result ≢ PFS_OK → result ≢ PFS_ROOM → len.new ≡ len.old }
{
    match order_file_in(alloc, order, machines, makespan) {
        Ok(file) => return_text(&file, text, len),
        Err(why) => why.number(),
    }
}

// The order file of an order that C passes.
fn order_file_in(
    alloc: Global,
    order: &[u32],
    machines: usize,
    makespan: u64,
) -> Result<Vec<u8>, CallFault>
    ensures rejected { Rejects result (write_order_fault order.now machines makespan) }
    ensures text { IfOk result (λ file. file.items ≡ file_text order.now (machines_stated machines) makespan) }
    ensures room { result ≢ Err CallFault.Room }
{
    if order.len() < 1 || order.len() > MOST_JOBS || machines > MOST_MACHINES {
        return Err(CallFault::Size);
    }
    validate_jobs(order.len(), order)?;
    if makespan > MOST_MAKESPAN {
        return Err(CallFault::Makespan);
    }
    let order = order_of(alloc, order)?;
    let stated = if machines == 0 { None } else { Some(machines) };
    let mut text = ToWrite::new(Vec::new(alloc));
    write_order(&mut text, &order, stated, makespan).or(Err(CallFault::Memory))?;
    Ok(text.into_writer())
}
