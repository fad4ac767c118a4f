//! A program for tests. Its argument names a call, which it runs on a worked example, and whose result it prints. If an
//! allocation fails, it prints `memory`, and what the failure has left if the call has changed something or could have.
//! `tests/program/test_growths.py` runs each call once for each of its allocations, and makes that one fail.
#![tactic(auto)]

ghost use Rattle.std.specs.Prelude.{◌≡◌, ◌+◌, ◌*◌, ◌<◌, ◌≤◌, ◌^◌, length};

mod prints;
mod search;
mod still;

use pfs_audit::{AuditFault, Verdict, check, makespan, table};
use pfs_base::{BaseFault, Bench, Instance, Metered, ToWrite, put};
use pfs_insert::InsertFault;
use pfs_layout::{BlockReader, Layout, LayoutFault};
use pfs_order::{Order, OrderFault, OrderFile, Seq, read_order};
use pfs_search::SearchFault;
use pfs_tests::fakes::{Pieces, Taken};
use pfs_tests::shops::three_jobs;
use pfs_tests::tasks::Task;
use pfs_tests::texts::{BY_MACHINE, ORDER2};
use prints::{print_instance, print_layout_fault, print_number, print_progress};
use search::{afresh_call, rounds_call};
use std::alloc::{AllocError, Global};
use std::{env, io};
use still::{still_best, still_layout, still_order, still_search};

/// The order of `ORDER2`, with another number of machines.
const OTHER_MACHINES: &[u8] = b"order2 3 3\n2 1 3\nmakespan 10\n";

/// An order of fewer jobs.
const TWO_JOBS: &[u8] = b"order 2\n2 1\nmakespan 10\n";

/// Why a call has no result.
#[derive(Clone, Copy)]
enum Stop {
    /// An allocation failed.
    Memory,
    /// An allocation failed after this number of rounds, which isn't 0.
    Rounds(u32),
    /// Something else: an argument is invalid, or the call returned a fault other than a failed allocation.
    Other,
}

impl From<AllocError> for Stop {
    fn from(_fault: AllocError) -> Stop {
        Stop::Memory
    }
}

impl From<BaseFault> for Stop {
    fn from(fault: BaseFault) -> Stop {
        match fault {
            BaseFault::Memory => Stop::Memory,
            BaseFault::Size => Stop::Other,
        }
    }
}

impl From<OrderFault> for Stop {
    fn from(fault: OrderFault) -> Stop {
        match fault {
            OrderFault::Memory => Stop::Memory,
            _ => Stop::Other,
        }
    }
}

impl From<AuditFault> for Stop {
    fn from(_fault: AuditFault) -> Stop {
        Stop::Memory
    }
}

impl From<InsertFault> for Stop {
    fn from(_fault: InsertFault) -> Stop {
        Stop::Memory
    }
}

impl From<SearchFault> for Stop {
    fn from(fault: SearchFault) -> Stop {
        match fault {
            SearchFault::Memory { done: 0 } => Stop::Memory,
            SearchFault::Memory { done } => Stop::Rounds(done),
        }
    }
}

impl From<io::Error> for Stop {
    fn from(_fault: io::Error) -> Stop {
        Stop::Other
    }
}

fn main(rt: HostRuntime) -> io::Result<()> {
    let returned = match first_word(&rt) {
        Ok(name) => worked_call(&rt, name.as_str()),
        Err(stop) => Err(stop),
    };
    match returned {
        Ok(()) => Ok(()),
        Err(Stop::Memory) => println!(rt; "memory"),
        Err(Stop::Rounds(done)) => println!(rt; "memory after {done} rounds"),
        Err(Stop::Other) => println!(rt; "another fault"),
    }
}

// Returns the argument after the program's name.
fn first_word(rt: &HostRuntime) -> Result<String, Stop> {
    let Ok(args) = env::args(rt) else {
        return Err(Stop::Memory);
    };
    args.skip(1).next().ok_or(Stop::Other)
}

// Runs a call on a worked example.
fn worked_call(rt: &HostRuntime, name: &str) -> Result<(), Stop> {
    match name {
        "of_times" => of_times_call(rt),
        "feed" => feed_call(rt),
        "makespan" => makespan_call(rt),
        "table" => table_call(rt),
        "check" => check_call(rt, ORDER2),
        "check_size" => check_call(rt, TWO_JOBS),
        "check_machines" => check_call(rt, OTHER_MACHINES),
        "afresh" => afresh_call(rt),
        "rounds" => rounds_call(rt),
        "still_best" => still_best(rt),
        "still_layout" => still_layout(rt),
        "still_order" => still_order(rt),
        "still_search" => still_search(rt),
        "run_value" => task_call(rt, Task::Value, ORDER2),
        "run_check" => task_call(rt, Task::Check, ORDER2),
        "run_table" => task_call(rt, Task::Table, ORDER2),
        "run_table_machines" => task_call(rt, Task::Table, OTHER_MACHINES),
        "run_solve" => task_call(rt, Task::Solve, ORDER2),
        "run_convert" => task_call(rt, Task::Convert, ORDER2),
        "run_generate" => task_call(rt, Task::Generate, ORDER2),
        _ => Err(Stop::Other),
    }
}

fn read_the_order(alloc: Global, text: &[u8]) -> Result<OrderFile, Stop> {
    Ok(read_order(alloc, &mut Pieces::whole(text))?)
}

// Copies an instance.
fn of_times_call(rt: &HostRuntime) -> Result<(), Stop> {
    let shop = three_jobs(rt.alloc())?;
    let (jobs, machines, times) = (shop.jobs(), shop.machines(), shop.times());
    let copy = Instance::of_times(rt.alloc(), jobs, machines, times, shop.notes())?;
    print_instance(rt, &copy)
}

// Passes a whole file to a reader in one piece.
fn feed_call(rt: &HostRuntime) -> Result<(), Stop> {
    let mut reader = BlockReader::new(rt.alloc(), Layout::Taillard, 1);
    match reader.feed(BY_MACHINE) {
        Ok(progress) => {
            print_progress(rt, progress)?;
            print_number(rt, "times", reader.held() as u64)?;
            match reader.finish() {
                Ok(instance) => print_instance(rt, &instance),
                Err(fault) => print_layout_fault(rt, fault),
            }
        }
        Err(fault) => print_repeated(rt, reader, fault),
    }
}

// Prints a reader's fault, the number of processing times that it holds, and the faults of its next calls.
fn print_repeated(rt: &HostRuntime, reader: BlockReader, fault: LayoutFault) -> Result<(), Stop> {
    let mut reader = reader;
    print_layout_fault(rt, fault)?;
    print_number(rt, "times", reader.held() as u64)?;
    if let Err(fault) = reader.feed(BY_MACHINE) {
        print_layout_fault(rt, fault)?;
    }
    match reader.finish() {
        Ok(instance) => print_instance(rt, &instance),
        Err(fault) => print_layout_fault(rt, fault),
    }
}

// Prints the cells that were counted, and then the makespan or what failed.
fn print_makespan(rt: &HostRuntime, bench: &mut Metered<'_>, seq: &Seq) -> Result<(), Stop>
    requires size { seq.now.size ≡ (⟦<Metered<'static> as Bench>⟧.shop bench.old).jobs }
    requires room { ⟦<Metered<'static> as Bench>⟧.counted bench.old
        + length seq.now.jobs * (⟦<Metered<'static> as Bench>⟧.shop bench.old).machines < 2 ^ 64 }
    ensures counted { ⟦<Metered<'static> as Bench>⟧.counted bench.new ≤ ⟦<Metered<'static> as Bench>⟧.counted bench.old
        + length seq.now.jobs * (⟦<Metered<'static> as Bench>⟧.shop bench.old).machines }
    ensures shop { ⟦<Metered<'static> as Bench>⟧.shop bench.new ≡ ⟦<Metered<'static> as Bench>⟧.shop bench.old }
{
    let span = makespan(rt.alloc(), bench, seq);
    print_number(rt, "cells", bench.cells())?;
    print_number(rt, "makespan", bench.reveal(span?))
}

// Computes the makespan of the jobs in the order of their numbers, and again if an allocation fails.
fn makespan_call(rt: &HostRuntime) -> Result<(), Stop> {
    let instance = three_jobs(rt.alloc())?;
    let order = Order::identity(rt.alloc(), 3)?;
    let mut bench = instance.metered();
    match print_makespan(rt, &mut bench, order.seq()) {
        Err(Stop::Memory) => {
            print_instance(rt, &instance)?;
            print_makespan(rt, &mut bench, order.seq())
        }
        returned => returned,
    }
}

// Prints the size and the makespan of the time table of the jobs in the order of their numbers.
fn print_table(rt: &HostRuntime, instance: &Instance, order: &Order) -> Result<(), Stop>
    requires { length order.now ≡ instance.now.shop.jobs }
{
    let table = table(rt.alloc(), instance, order)?;
    print_number(rt, "rows", table.rows() as u64)?;
    print_number(rt, "makespan", table.makespan())
}

// Makes the time table, and again if an allocation fails.
fn table_call(rt: &HostRuntime) -> Result<(), Stop> {
    let instance = three_jobs(rt.alloc())?;
    let order = Order::identity(rt.alloc(), 3)?;
    match print_table(rt, &instance, &order) {
        Err(Stop::Memory) => {
            print_instance(rt, &instance)?;
            print_table(rt, &instance, &order)
        }
        returned => returned,
    }
}

// Prints what a check of an order returns.
fn print_verdict(rt: &HostRuntime, instance: &Instance, file: &OrderFile) -> Result<(), Stop> {
    match check(rt.alloc(), instance, file)? {
        Verdict::Valid { makespan, bound } => {
            print_number(rt, "valid", makespan)?;
            print_number(rt, "bound", bound)
        }
        Verdict::WrongSize { order, .. } => print_number(rt, "wrong size", order as u64),
        Verdict::WrongMachines { order, .. } => print_number(rt, "wrong machines", order as u64),
        Verdict::WrongMakespan { .. } => Err(Stop::Other),
    }
}

// Checks an order, and again if an allocation fails.
fn check_call(rt: &HostRuntime, order: &[u8]) -> Result<(), Stop> {
    let instance = three_jobs(rt.alloc())?;
    let file = read_the_order(rt.alloc(), order)?;
    match print_verdict(rt, &instance, &file) {
        Err(Stop::Memory) => {
            print_instance(rt, &instance)?;
            print_verdict(rt, &instance, &file)
        }
        returned => returned,
    }
}

// Runs an engine. Prints what it writes, and its fault if it has one. The fault says which allocation failed: one for
// the instance, one for the order, or a later one.
fn task_call(rt: &HostRuntime, task: Task, order: &[u8]) -> Result<(), Stop> {
    let (mut reader, mut orders) = (Pieces::whole(BY_MACHINE), Pieces::whole(order));
    let mut writer = Taken::new(256, 256);
    let returned = task.run(rt.alloc(), &mut reader, &mut orders, &mut writer);
    if put(&mut ToWrite::new(io::writer(rt)), writer.bytes(), 0).is_err() {
        return Err(Stop::Other);
    }
    if let Err(fault) = returned {
        println!(rt; "{fault:?}")?;
    }
    Ok(())
}
