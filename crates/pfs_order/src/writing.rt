//! Writing an order file.
ghost use Rattle.std.specs.Prelude.{◌≡◌, ◌+◌, ◌<◌, ◌≤◌, ◌^◌, false, length, map, IfOk};
ghost use Rattle.pfs_order.specs.OrderText.{file_text, first_line};
ghost use Rattle.pfs_order.specs.Sequence.{AreMachines};
ghost use Rattle.pfs_base.specs.Text.{with_line_end, spaced};
ghost use Rattle.pfs_base.specs.Sends.{Sends};

use crate::order::Order;
use pfs_base::print::{put_entry, put_named, put_next};
use pfs_base::{Sink, WriteFault, put};

/// Writes the order file of an order and a makespan, in which jobs count from 1, and returns its number of
/// bytes. The file is of version 2 if the number of machines is given, and of version 1 otherwise. If a write
/// fails, a prefix of the file was sent, and the fault has the length of that prefix.
pub fn write_order<W: Sink>(
    writer: &mut W,
    order: &Order,
    machines: Option<usize>,
    makespan: u64,
) -> Result<u64, WriteFault>
    requires working { W.has_failed writer.old ≡ false }
    requires machines { AreMachines machines }
    requires stated { makespan < 10 ^ 18 }
    ensures { Sends (W.written writer.old) (W.written writer.new) (W.has_failed writer.new)
        0 (file_text order.now machines makespan) result }
{
    let sent = put_first_line(writer, order.len(), machines)?;
    let sent = put_jobs(writer, order, sent)?;
    put_named(writer, b"makespan", makespan, sent)
}

// Writes the first line: the number of jobs and, if it is given, the number of machines.
fn put_first_line<W: Sink>(
    writer: &mut W,
    jobs: usize,
    machines: Option<usize>,
) -> Result<u64, WriteFault>
    requires working { W.has_failed writer.old ≡ false }
    ensures { Sends (W.written writer.old) (W.written writer.new) (W.has_failed writer.new)
        0 (first_line jobs machines) result }
{
    match machines {
        None => put_named(writer, b"order", jobs as u64, 0),
        Some(machines) => {
            let sent = put(writer, b"order2", 0)?;
            let sent = put_next(writer, jobs as u64, sent)?;
            let sent = put_next(writer, machines as u64, sent)?;
            put(writer, b"\n", sent)
        }
    }
}

// Writes the line of the jobs, whose numbers count from 1.
fn put_jobs<W: Sink>(writer: &mut W, order: &Order, sent: u64) -> Result<u64, WriteFault>
    requires working { W.has_failed writer.old ≡ false }
    requires fits { sent + length (with_line_end (spaced (map (λ job. job + 1) order.now))) < 2 ^ 64 }
    ensures { Sends (W.written writer.old) (W.written writer.new) (W.has_failed writer.new)
        sent (with_line_end (spaced (map (λ job. job + 1) order.now))) result }
{
    let mut reached = sent;
    for place in 0..order.len() {
        reached = put_entry(writer, place, order.at(place) as u64 + 1, reached)?;
    }
    put(writer, b"\n", reached)
}
