//! The calls of an inserter and of a search that allocate memory while they run: those of `Afresh`.
ghost use Rattle.std.specs.Prelude.{◌≡◌};
ghost use Rattle.pfs_search.specs.SearcherView.{AllFit};

use crate::Stop;
use crate::prints::print_number;
use pfs_base::{Bench, Metered, Span};
use pfs_insert::{Afresh, Inserter};
use pfs_order::Order;
use pfs_search::{Kept, Searcher};
use pfs_tests::shops::{one_machine, second_and_first, three_jobs};
use pfs_tests::words::Counting;
use rand_core::Rng;

/// Prints the order and the makespan that a search keeps.
pub(crate) fn print_kept(
    rt: &HostRuntime,
    bench: &Metered<'_>,
    kept: &Kept<Span>,
) -> Result<(), Stop> {
    for place in 0..kept.order.len() {
        print_number(rt, "job", kept.order.at(place) as u64 + 1)?;
    }
    print_number(rt, "makespan", bench.reveal(kept.span))
}

/// Finds the best place for the third job in the sequence of the second and the first. If an allocation fails, the same
/// inserter tries again, on the same bench.
pub(crate) fn afresh_call(rt: &HostRuntime) -> Result<(), Stop> {
    let instance = three_jobs(rt.alloc())?;
    let seq = second_and_first(rt.alloc())?;
    let mut bench = instance.metered();
    let mut inserter = Afresh::new(rt.alloc(), &bench)?;
    let mut best = inserter.best(rt.alloc(), &mut bench, &seq, 2);
    if best.is_err() {
        print_number(rt, "cells", bench.cells())?;
        best = inserter.best(rt.alloc(), &mut bench, &seq, 2);
    }
    let best = best?;
    print_number(rt, "place", best.place as u64)?;
    print_number(rt, "makespan", bench.reveal(best.span))?;
    print_number(rt, "cells", bench.cells())
}

// Runs NEH, then five rounds of two random words each, and then a round of the words 0 and 0 with one pass. Prints what
// each of them keeps, also if it fails, and the next random word.
fn print_rounds<'a>(
    rt: &HostRuntime,
    bench: &mut Metered<'a>,
    searcher: &mut Searcher<Afresh<Metered<'a>>>,
    kept: &mut Kept<Span>,
) -> Result<(), Stop>
    requires jobs { (⟦<Metered<'static> as Bench>⟧.shop bench.old).jobs ≡ 3 }
    requires machines { (⟦<Metered<'static> as Bench>⟧.shop bench.old).machines ≡ 1 }
    requires uncounted { ⟦<Metered<'static> as Bench>⟧.counted bench.old ≡ 0 }
    requires fit { AllFit (⟦<Metered<'static> as Bench>⟧.shop bench.old)
        ⟦<Afresh<Metered<'static>> as Inserter<Metered<'static>>>⟧.sizes searcher.old kept.old.order }
{
    let returned = searcher.neh(rt.alloc(), bench, kept);
    print_kept(rt, bench, kept)?;
    returned?;
    let mut rng = Counting::new(1, 2);
    let returned = searcher.rounds(rt.alloc(), bench, kept, 5, 2, 0, &mut rng);
    print_number(rt, "next word", rng.next_u32() as u64)?;
    print_kept(rt, bench, kept)?;
    returned?;
    let returned = searcher.round(rt.alloc(), bench, kept, &[0, 0], 1);
    print_kept(rt, bench, kept)?;
    returned?;
    print_number(rt, "cells", bench.cells())
}

/// Runs a search on three jobs whose orders all have the same makespan, so that each round keeps another order than the
/// one before. If an allocation fails, NEH and a single round leave what was kept before, and rounds have drawn the
/// words of the failed one.
pub(crate) fn rounds_call(rt: &HostRuntime) -> Result<(), Stop> {
    let instance = one_machine(rt.alloc())?;
    let mut bench = instance.metered();
    let inserter = Afresh::new(rt.alloc(), &bench)?;
    let mut searcher = Searcher::new(rt.alloc(), 3, inserter)?;
    let mut kept = Kept::new(Order::identity(rt.alloc(), 3)?, bench.zero());
    print_rounds(rt, &mut bench, &mut searcher, &mut kept)
}
