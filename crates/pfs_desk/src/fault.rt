//! How a command ends: its outcome, or a fault, which is reported in one line and by the exit status.
ghost use Rattle.std.specs.Prelude.{◌≡◌, ◌<◌, false, length, codes};
ghost use Rattle.pfs_base.specs.Sends.{Sends, Prints};
ghost use Rattle.pfs_base.specs.Text.{number_between};
ghost use Rattle.pfs_desk.specs.declared.fault.DeskFault.TheVariants.{Layout, Order, Write, Memory};
ghost use Rattle.pfs_desk.specs.FaultText.{fault_text, layout_fault_text, order_fault_text, take_fault_text, status_of};
ghost use Rattle.pfs_desk.specs.FaultText.{layout_status_of, order_status_of};

use pfs_audit::AuditFault;
use pfs_base::print::{put_between, put_line, put_named, put_number};
use pfs_base::{Sink, WriteFault, put};
use pfs_layout::LayoutFault;
use pfs_order::OrderFault;
use pfs_search::SearchFault;
use thiserror::Error;

/// How a command ended that reports no fault.
#[derive(Clone, Copy, Debug, PartialEq, Eq)]
pub enum Outcome {
    /// It printed its whole result.
    Done,
    /// It printed why the order file doesn't fit the instance: its size, its number of machines or its makespan is
    /// wrong.
    CheckFailed,
}

/// Why a command has no result, or could not write it.
#[derive(Clone, Copy, Debug, PartialEq, Eq, Error)]
pub enum DeskFault {
    /// The instance file is rejected or a read of it failed, a generator's seed is out of range, or an allocation
    /// for the instance failed.
    #[error("Layout")]
    Layout(LayoutFault),
    /// The order file is rejected, a read of it failed, or an allocation for it failed.
    #[error("Order")]
    Order(OrderFault),
    /// The stated destruction size, `take`, is above the instance's number of jobs.
    #[error("TakeRange")]
    TakeRange { take: usize, jobs: usize },
    /// A write of the output failed.
    #[error("Write")]
    Write(WriteFault),
    /// An allocation failed after all files were read, or before a file was read.
    #[error("Memory")]
    Memory,
}

impl From<WriteFault> for DeskFault {
    ghost from_gives = { λ fault made. made ≡ Write fault };

    fn from(fault: WriteFault) -> DeskFault {
        DeskFault::Write(fault)
    }
}

impl From<LayoutFault> for DeskFault {
    ghost from_gives = { λ fault made. made ≡ Layout fault };

    fn from(fault: LayoutFault) -> DeskFault {
        DeskFault::Layout(fault)
    }
}

impl From<OrderFault> for DeskFault {
    ghost from_gives = { λ fault made. made ≡ Order fault };

    fn from(fault: OrderFault) -> DeskFault {
        DeskFault::Order(fault)
    }
}

impl From<SearchFault> for DeskFault {
    ghost from_gives = { λ fault made. made ≡ Memory };

    fn from(_fault: SearchFault) -> DeskFault {
        DeskFault::Memory
    }
}

impl From<AuditFault> for DeskFault {
    ghost from_gives = { λ fault made. made ≡ Memory };

    fn from(_fault: AuditFault) -> DeskFault {
        DeskFault::Memory
    }
}

/// Returns the exit status of the program for a fault: 2 if a file or a seed is rejected, 3 if the destruction
/// size is above the number of jobs, and 4 if a read, a write or an allocation failed.
pub fn status(fault: &DeskFault) -> u8
    ensures { result ≡ status_of fault.now }
{
    match fault {
        DeskFault::Layout(fault) => layout_status(fault),
        DeskFault::Order(fault) => order_status(fault),
        DeskFault::TakeRange { .. } => 3,
        DeskFault::Write(_) | DeskFault::Memory => 4,
    }
}

fn layout_status(fault: &LayoutFault) -> u8
    ensures { result ≡ layout_status_of fault.now }
{
    match fault {
        LayoutFault::NoBlock { .. }
        | LayoutFault::SizeCount { .. }
        | LayoutFault::SizeRange { .. }
        | LayoutFault::MixedLine { .. }
        | LayoutFault::TimeRange { .. }
        | LayoutFault::MachineNumber { .. }
        | LayoutFault::ExtraNumber { .. }
        | LayoutFault::Truncated { .. }
        | LayoutFault::TooLong
        | LayoutFault::SeedRange => 2,
        LayoutFault::Read | LayoutFault::Memory => 4,
    }
}

fn order_status(fault: &OrderFault) -> u8
    ensures { result ≡ order_status_of fault.now }
{
    match fault {
        OrderFault::Syntax { .. }
        | OrderFault::JobRange { .. }
        | OrderFault::Repeated { .. }
        | OrderFault::TooLong => 2,
        OrderFault::Read | OrderFault::Memory => 4,
    }
}

/// Writes the line that reports a fault. It allocates no memory, and its only error is a failed write.
pub fn write_fault<W: Sink>(writer: &mut W, fault: &DeskFault) -> Result<(), WriteFault>
    requires { W.has_failed writer.old ≡ false }
    ensures { Prints (W.written writer.old) (W.written writer.new) (W.has_failed writer.new)
        (fault_text fault.now) result }
{
    match fault {
        DeskFault::Layout(fault) => put_layout_fault(writer, fault)?,
        DeskFault::Order(fault) => put_order_fault(writer, fault)?,
        DeskFault::TakeRange { take, jobs } => put_take_fault(writer, *take, *jobs)?,
        DeskFault::Write(fault) => {
            put_between(
                writer,
                b"pfs: write failed after ",
                fault.written,
                b" bytes",
                0,
            )?
        }
        DeskFault::Memory => put_line(writer, b"pfs: no memory", 0)?,
    };
    Ok(())
}

fn put_layout_fault<W: Sink>(writer: &mut W, fault: &LayoutFault) -> Result<u64, WriteFault>
    requires { W.has_failed writer.old ≡ false }
    ensures { Sends (W.written writer.old) (W.written writer.new) (W.has_failed writer.new)
        0 (layout_fault_text fault.now) result }
{
    match fault {
        LayoutFault::NoBlock { found } => {
            put_named(writer, b"pfs: no block, found", *found as u64, 0)
        }
        LayoutFault::SizeCount { line } => put_size_fault(writer, *line, b" has a wrong count"),
        LayoutFault::SizeRange { line } => put_size_fault(writer, *line, b" is out of range"),
        LayoutFault::MixedLine { offset } => {
            put_named(writer, b"pfs: mixed line at", *offset as u64, 0)
        }
        LayoutFault::TimeRange { offset } => {
            put_named(writer, b"pfs: time out of range at", *offset as u64, 0)
        }
        LayoutFault::MachineNumber { offset } => {
            put_named(writer, b"pfs: wrong machine number at", *offset as u64, 0)
        }
        LayoutFault::ExtraNumber { offset } => {
            put_named(writer, b"pfs: extra number at", *offset as u64, 0)
        }
        LayoutFault::Truncated { have } => {
            put_between(writer, b"pfs: truncated after ", *have as u64, b" times", 0)
        }
        LayoutFault::TooLong => put_line(writer, b"pfs: input too long", 0),
        LayoutFault::SeedRange => put_line(writer, b"pfs: seed out of range", 0),
        LayoutFault::Read => put_line(writer, b"pfs: read failed", 0),
        LayoutFault::Memory => put_line(writer, b"pfs: no memory", 0),
    }
}

// Writes the line for a fault of a size line. `wrong` is the text after the line's number.
fn put_size_fault<W: Sink>(writer: &mut W, line: usize, wrong: &[u8]) -> Result<u64, WriteFault>
    requires working { W.has_failed writer.old ≡ false }
    requires short { length wrong.now < 100 }
    ensures { Sends (W.written writer.old) (W.written writer.new) (W.has_failed writer.new)
        0 (number_between (codes "pfs: size line ") line wrong.now) result }
{
    put_between(writer, b"pfs: size line ", line as u64, wrong, 0)
}

fn put_take_fault<W: Sink>(writer: &mut W, take: usize, jobs: usize) -> Result<u64, WriteFault>
    requires { W.has_failed writer.old ≡ false }
    ensures { Sends (W.written writer.old) (W.written writer.new) (W.has_failed writer.new)
        0 (take_fault_text take jobs) result }
{
    let sent = put(writer, b"pfs: take ", 0)?;
    let sent = put_number(writer, take as u64, sent)?;
    put_between(writer, b" exceeds ", jobs as u64, b" jobs", sent)
}

fn put_order_fault<W: Sink>(writer: &mut W, fault: &OrderFault) -> Result<u64, WriteFault>
    requires { W.has_failed writer.old ≡ false }
    ensures { Sends (W.written writer.old) (W.written writer.new) (W.has_failed writer.new)
        0 (order_fault_text fault.now) result }
{
    match fault {
        OrderFault::Syntax { offset } => {
            put_named(writer, b"pfs: order file syntax at", *offset as u64, 0)
        }
        OrderFault::JobRange { place } => {
            let line = b"pfs: order file job out of range at place";
            put_named(writer, line, *place as u64, 0)
        }
        OrderFault::Repeated { place } => {
            let line = b"pfs: order file job repeated at place";
            put_named(writer, line, *place as u64, 0)
        }
        OrderFault::TooLong => put_line(writer, b"pfs: order file too long", 0),
        OrderFault::Read => put_line(writer, b"pfs: order file read failed", 0),
        OrderFault::Memory => put_line(writer, b"pfs: no memory", 0),
    }
}
