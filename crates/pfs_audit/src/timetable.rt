//! Time tables of orders.
ghost use Rattle.std.specs.Prelude.{◌≡◌, ◌+◌, ◌*◌, ◌<◌, ◌≤◌, [], ◌∷◌, ◌++◌, length, slice_index, IfOk};
ghost use Rattle.std.specs.Prelude.{vec_capacity};
ghost use Rattle.pfs_base.specs.Paths.{makespan};
ghost use Rattle.pfs_audit.specs.Schedule.{EndsBy, IsLeastSchedule, NoneEndsBefore, least_end, least_start};
ghost use Rattle.pfs_audit.specs.Schedule.{start_in, end_in, EndsInTime, last_end, IsWhole};
ghost use Rattle.pfs_audit.specs.Private.Rows.{AreRows};

use crate::fault::AuditFault;
use pfs_base::Instance;
use pfs_order::Order;
use std::alloc::{AllocError, Global};
use std::marker::Model;

/// When each operation of an order starts and ends, if each starts as early as possible. Rows, which are the
/// places of the order, and machines count from 0. Times are in the instance's own unit.
#[derive(Drop)]
pub struct TimeTable {
    machines: usize,
    jobs: Vec<usize>,
    starts: Vec<u64>,
    ends: Vec<u64>,
}

impl Model for TimeTable {
    ghost use Rattle.pfs_audit.specs.Schedule.{Timing, IsWhole};

    ghost Value = { Timing };

    ghost view = { λ a. record {
      jobs = a.jobs.items;
      machines = a.machines;
      starts = a.starts.items;
      ends = a.ends.items;
    } };

    ghost invariant = { λ a. IsWhole (record {
      jobs = a.jobs.items;
      machines = a.machines;
      starts = a.starts.items;
      ends = a.ends.items;
    }) };
}

impl TimeTable {
    /// The number of rows: one for each job.
    pub fn rows(&self) -> usize
        ensures value { result ≡ length self.now.jobs }
        ensures whole { IsWhole self.now }
    {
        self.jobs.len()
    }

    /// The number of machines.
    pub fn machines(&self) -> usize
        ensures value { result ≡ self.now.machines }
        ensures whole { IsWhole self.now }
    {
        self.machines
    }

    /// The job of a row.
    pub fn job(&self, row: usize) -> usize
        requires { row < length self.now.jobs }
        ensures { result ≡ slice_index self.now.jobs row }
    {
        self.jobs[row]
    }

    /// When a row's job starts on a machine.
    pub fn start(&self, row: usize, machine: usize) -> u64
        requires row { row < length self.now.jobs }
        requires machine { machine < self.now.machines }
        ensures { result ≡ start_in self.now row machine }
    {
        self.starts[row * self.machines + machine]
    }

    /// When a row's job ends on a machine.
    pub fn end(&self, row: usize, machine: usize) -> u64
        requires row { row < length self.now.jobs }
        requires machine { machine < self.now.machines }
        ensures { result ≡ end_in self.now row machine }
    {
        self.ends[row * self.machines + machine]
    }

    /// All starts: those of the first row on each machine, then those of the second one, and so on.
    pub fn starts(&self) -> &[u64]
        ensures value { result.now ≡ self.now.starts }
        ensures whole { IsWhole self.now }
    {
        &self.starts
    }

    /// All ends: those of the first row on each machine, then those of the second one, and so on.
    pub fn ends(&self) -> &[u64]
        ensures value { result.now ≡ self.now.ends }
        ensures whole { IsWhole self.now }
    {
        &self.ends
    }

    /// When the last job ends on the last machine, which is the order's makespan.
    pub fn makespan(&self) -> u64
        ensures { result ≡ last_end self.now }
    {
        self.end(self.rows() - 1, self.machines() - 1)
    }
}

/// The time table of an order, which is its least schedule. All memory is allocated before any time is
/// computed; the only error is that an allocation fails.
pub fn table(alloc: Global, instance: &Instance, order: &Order) -> Result<TimeTable, AuditFault>
    requires { length order.now ≡ instance.now.shop.jobs }
    ensures jobs { IfOk result (λ table. table.jobs ≡ order.now) }
    ensures machines { IfOk result (λ table. table.machines ≡ instance.now.shop.machines) }
    ensures starts { IfOk result (λ table. IsLeastSchedule instance.now.shop order.now (start_in table)) }
    ensures ends { IfOk result (λ table. EndsInTime instance.now.shop order.now table) }
    ensures makespan { IfOk result (λ table. last_end table ≡ makespan instance.now.shop order.now) }
    ensures ends_by { IfOk result (λ table. EndsBy instance.now.shop order.now (start_in table) (last_end table)) }
    ensures earliest { IfOk result (λ table. NoneEndsBefore instance.now.shop order.now (last_end table)) }
{
    let machines = instance.machines();
    let rows = order.len();
    let jobs = copy_of(alloc, order)?;
    let mut starts = room_for(alloc, rows * machines)?;
    let mut ends = room_for(alloc, rows * machines)?;
    for row in 0..rows {
        add_row(instance, order, row, &mut starts, &mut ends);
    }
    Ok(TimeTable {
        machines,
        jobs,
        starts,
        ends,
    })
}

// A copy of the jobs of an order.
fn copy_of(alloc: Global, order: &Order) -> Result<Vec<usize>, AuditFault>
    ensures { IfOk result (λ jobs. jobs.items ≡ order.now) }
{
    let mut jobs = match Vec::with_capacity(alloc, order.len()) {
        Ok(jobs) => jobs,
        Err(AllocError) => return Err(AuditFault::Memory),
    };
    for row in 0..order.len() {
        jobs.push_reserved(order.at(row));
    }
    Ok(jobs)
}

// An empty list with room for `many` times.
fn room_for(alloc: Global, many: usize) -> Result<Vec<u64>, AuditFault>
    ensures empty { IfOk result (λ times. times.items ≡ []) }
    ensures room { IfOk result (λ times. vec_capacity times ≡ many) }
{
    match Vec::with_capacity(alloc, many) {
        Ok(times) => Ok(times),
        Err(AllocError) => Err(AuditFault::Memory),
    }
}

// Adds the starts and the ends of the next row, for which there is room. `add_head` of `pfs_base` has no starts.
fn add_row(
    instance: &Instance,
    order: &Order,
    row: usize,
    starts: &mut Vec<u64>,
    ends: &mut Vec<u64>,
)
    requires sizes { length order.now ≡ instance.now.shop.jobs }
    requires row { row < length order.now }
    requires room_for_starts { (row + 1) * instance.now.shop.machines ≤ vec_capacity starts.old }
    requires room_for_ends { (row + 1) * instance.now.shop.machines ≤ vec_capacity ends.old }
    requires starts { let shop = instance.now.shop in
        AreRows (least_start shop order.now) shop.machines row starts.old.items }
    requires ends { AreRows (least_end instance.now.shop order.now) instance.now.shop.machines row ends.old.items }
    ensures starts { let shop = instance.now.shop in
        AreRows (least_start shop order.now) shop.machines (row + 1) starts.new.items }
    ensures ends { AreRows (least_end instance.now.shop order.now) instance.now.shop.machines (row + 1) ends.new.items }
    ensures room_of_starts { vec_capacity starts.old ≤ vec_capacity starts.new }
    ensures room_of_ends { vec_capacity ends.old ≤ vec_capacity ends.new }
{
    let machines = instance.machines();
    let job = order.at(row);
    let mut before: u64 = 0;
    for machine in 0..machines {
        let above = if row == 0 {
            0
        } else {
            ends[ends.len() - machines]
        };
        let start = before.max(above);
        before = start + u64::from(instance.time(job, machine));
        starts.push_reserved(start);
        ends.push_reserved(before);
    }
}
