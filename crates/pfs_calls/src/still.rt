//! Calls that allocate no memory. Each prints `ready` after all that it needs was made, and then its result. Nothing is
//! allocated after `ready`.
ghost use Rattle.std.specs.Prelude.{◌≡◌};
ghost use Rattle.pfs_search.specs.SearcherView.{AllFit};

use crate::Stop;
use crate::prints::{print_instance, print_layout_fault, print_number, print_progress};
use crate::search::print_kept;
use pfs_base::{Bench, Instance, Metered, Span};
use pfs_insert::{HeadsTails, Inserter};
use pfs_layout::{BlockReader, Layout, LayoutFault, generate, read_block};
use pfs_order::{Order, OrderFault, OrderFile, read_order};
use pfs_search::{Kept, Searcher};
use pfs_tests::fakes::{Endless, Pieces};
use pfs_tests::shops::{second_and_first, three_jobs, three_machines};
use pfs_tests::texts::{BY_MACHINE, ORDER};
use pfs_tests::words::Counting;

fn print_ready(rt: &HostRuntime) -> Result<(), Stop> {
    println!(rt; "ready")?;
    Ok(())
}

/// Finds the best place of a job with heads and tails.
pub(crate) fn still_best(rt: &HostRuntime) -> Result<(), Stop> {
    let instance = three_jobs(rt.alloc())?;
    let seq = second_and_first(rt.alloc())?;
    let mut bench = instance.metered();
    let mut inserter = HeadsTails::new(rt.alloc(), &bench)?;
    print_ready(rt)?;
    let best = inserter.best(rt.alloc(), &mut bench, &seq, 2)?;
    print_number(rt, "place", best.place as u64)?;
    print_number(rt, "makespan", bench.reveal(best.span))?;
    print_number(rt, "cells", bench.cells())
}

// Runs NEH and twenty rounds of one pass, and prints what each keeps.
fn print_search<'a>(
    rt: &HostRuntime,
    bench: &mut Metered<'a>,
    searcher: &mut Searcher<HeadsTails<Metered<'a>>>,
    kept: &mut Kept<Span>,
) -> Result<(), Stop>
    requires jobs { (⟦<Metered<'static> as Bench>⟧.shop bench.old).jobs ≡ 3 }
    requires machines { (⟦<Metered<'static> as Bench>⟧.shop bench.old).machines ≡ 3 }
    requires uncounted { ⟦<Metered<'static> as Bench>⟧.counted bench.old ≡ 0 }
    requires fit { AllFit (⟦<Metered<'static> as Bench>⟧.shop bench.old)
        ⟦<HeadsTails<Metered<'static>> as Inserter<Metered<'static>>>⟧.sizes searcher.old kept.old.order }
{
    searcher.neh(rt.alloc(), bench, kept)?;
    print_kept(rt, bench, kept)?;
    let mut rng = Counting::new(1, 2);
    searcher.rounds(rt.alloc(), bench, kept, 20, 3, 1, &mut rng)?;
    print_kept(rt, bench, kept)?;
    print_number(rt, "cells", bench.cells())
}

/// Runs a search with heads and tails.
pub(crate) fn still_search(rt: &HostRuntime) -> Result<(), Stop> {
    let instance = three_machines(rt.alloc())?;
    let mut bench = instance.metered();
    let inserter = HeadsTails::new(rt.alloc(), &bench)?;
    let mut searcher = Searcher::new(rt.alloc(), 3, inserter)?;
    let mut kept = Kept::new(Order::identity(rt.alloc(), 3)?, bench.zero());
    print_ready(rt)?;
    print_search(rt, &mut bench, &mut searcher, &mut kept)
}

fn print_made(rt: &HostRuntime, made: Result<Instance, LayoutFault>) -> Result<(), Stop> {
    match made {
        Ok(instance) => print_instance(rt, &instance),
        Err(fault) => print_layout_fault(rt, fault),
    }
}

/// Generates instances from seeds that are out of range; passes to a reader a whole block before the one that it is to
/// read; and reads files whose fault comes before the end of the size line of the block that is read.
pub(crate) fn still_layout(rt: &HostRuntime) -> Result<(), Stop> {
    print_ready(rt)?;
    for seed in [0, 2147483647] {
        print_made(rt, generate(rt.alloc(), 1, 1, seed))?;
    }
    let mut reader = BlockReader::new(rt.alloc(), Layout::Taillard, 2);
    if let Ok(progress) = reader.feed(BY_MACHINE) {
        print_progress(rt, progress)?;
        print_number(rt, "times", reader.held() as u64)?;
    }
    print_made(rt, reader.finish())?;
    for (text, fails_at) in [
        (BY_MACHINE, Some(1)),
        (b"".as_slice(), None),
        (b"3 2 0 0".as_slice(), None),
    ] {
        let mut source = Pieces::new(text, 64, fails_at);
        print_made(rt, read_block(rt.alloc(), &mut source, Layout::Taillard, 1))?;
    }
    Ok(())
}

fn print_read(rt: &HostRuntime, read: Result<OrderFile, OrderFault>) -> Result<(), Stop> {
    match read {
        Ok(file) => print_number(rt, "makespan", file.makespan()),
        Err(fault) => {
            println!(rt; "{fault:?}")?;
            Ok(())
        }
    }
}

// Reads this order file, 4 bytes a call.
fn print_short(rt: &HostRuntime, text: &[u8], fails_at: Option<u64>) -> Result<(), Stop> {
    let mut source = Pieces::new(text, 4, fails_at);
    print_read(rt, read_order(rt.alloc(), &mut source))
}

/// Reads order files that fail: one whose read fails, two that aren't texts of the grammar, and one that is too long.
pub(crate) fn still_order(rt: &HostRuntime) -> Result<(), Stop> {
    print_ready(rt)?;
    print_short(rt, ORDER, Some(1))?;
    print_short(rt, b"", None)?;
    print_short(rt, b"order 3\n2 1\n", None)?;
    let mut source = Endless::new(b'o', 65_537, false);
    print_read(rt, read_order(rt.alloc(), &mut source))
}
