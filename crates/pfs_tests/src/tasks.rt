//! Tasks that read and write by devices of `fakes.rt`: the engines, and calls below them whose text no engine writes.
ghost use Rattle.std.specs.Prelude.{◌≡◌, false};

use crate::fakes::{Pieces, Taken};
use crate::texts::{BY_JOB, BY_MACHINE, FIVE_JOBS};
use pfs_base::{Sink, Source, put};
use pfs_desk::{
    DeskFault, Outcome, SolveOptions, run_check, run_convert, run_generate, run_solve, run_table,
    run_value, write_fault,
};
use pfs_layout::{Layout, LayoutFault};
use pfs_order::{Order, write_order};
use std::alloc::Global;

/// What a task does. The engines read the instance of three jobs in Taillard's layout, `Check` and `Table` also its
/// order file, and `Later` the second block of a file in the OR-Library's layout.
#[derive(Clone, Copy)]
pub enum Task {
    Value,
    Solve,
    Check,
    Table,
    Convert,
    Later,
    Generate,
    Put,
    Order,
    Fault,
}

const OPTIONS: SolveOptions = SolveOptions {
    rounds: 5,
    take: Some(2),
    seed: 7,
    passes: 0,
    cells: true,
};

impl Task {
    /// Runs this task, which reads what it needs of `reader` and `orders`.
    pub fn run<'a>(
        self,
        alloc: Global,
        reader: &mut Pieces<'a>,
        orders: &mut Pieces<'a>,
        writer: &mut Taken,
    ) -> Result<Outcome, DeskFault>
        requires reading { ⟦<Pieces<'a> as Source>⟧.has_failed reader.old ≡ false }
        requires reading_order { ⟦<Pieces<'a> as Source>⟧.has_failed orders.old ≡ false }
        requires writing { ⟦<Taken as Sink>⟧.has_failed writer.old ≡ false }
    {
        let layout = Layout::Taillard;
        match self {
            Task::Value => run_value(alloc, reader, layout, 1, writer),
            Task::Solve => run_solve(alloc, reader, layout, 1, &OPTIONS, writer),
            Task::Check => run_check(alloc, reader, layout, 1, orders, writer),
            Task::Table => run_table(alloc, reader, layout, 1, orders, writer),
            Task::Convert => run_convert(alloc, reader, layout, Layout::OrLib, 1, writer),
            Task::Later => run_convert(alloc, reader, Layout::OrLib, layout, 2, writer),
            _ => self.write(alloc, writer),
        }
    }

    // Runs a task that reads nothing.
    fn write(self, alloc: Global, writer: &mut Taken) -> Result<Outcome, DeskFault>
        requires writing { ⟦<Taken as Sink>⟧.has_failed writer.old ≡ false }
    {
        match self {
            Task::Generate => return run_generate(alloc, 5, 1, 873_654_221, writer),
            Task::Order => {
                let order = Order::identity(alloc, 3)?;
                write_order(writer, &order, None, 11)?;
            }
            Task::Fault => {
                let fault = DeskFault::Layout(LayoutFault::MixedLine { offset: 118 });
                write_fault(writer, &fault)?;
            }
            _ => {
                put(writer, self.text(), 0)?;
            }
        }
        Ok(Outcome::Done)
    }

    /// Returns what this task writes, given the order file in either version.
    pub fn text(self) -> &'static [u8] {
        match self {
            Task::Value => b"makespan 11\n",
            Task::Solve => b"order2 3 2\n2 1 3\nmakespan 10\ncells 196\n",
            Task::Check => b"valid\nmakespan 10\nbound 10\noptimal\n",
            Task::Table => b"table 3 2\n2 0 2 2 7\n1 2 5 7 9\n3 5 9 9 10\nmakespan 10\n",
            Task::Convert => BY_JOB,
            Task::Later => BY_MACHINE,
            Task::Generate => FIVE_JOBS,
            Task::Put => b"any text\n",
            Task::Order => b"order 3\n1 2 3\nmakespan 11\n",
            Task::Fault => b"pfs: mixed line at 118\n",
        }
    }

    /// Returns how often this task calls each reader, given how many calls read an instance and how many an order file.
    pub fn reads(self, instance: u64, order: u64) -> (u64, u64) {
        match self {
            Task::Check | Task::Table => (instance, order),
            Task::Generate | Task::Put | Task::Order | Task::Fault => (0, 0),
            _ => (instance, 0),
        }
    }
}
