//! The passes of an insertion, what pays for them, and the best place.
ghost use Rattle.std.specs.Prelude.{◌≡◌, ℕ, ◌+◌, ◌-◌, ◌*◌, ◌<◌, ◌≤◌, ◌^◌, List, length, map};
ghost use Rattle.std.specs.List.{slice_index_or};
ghost use Rattle.pfs_base.specs.FlowShop.{FlowShop};
ghost use Rattle.pfs_insert.specs.Insertion.{heads_tails_cost};
ghost use Rattle.pfs_wave.specs.Private.Payment.{IsFound, IsInsertion, IsPaid};
ghost use Rattle.pfs_wave.specs.Private.Least.{IsLeastSoFar};

use crate::band::Band;
use crate::sums::fill_sums;
use crate::tails::fill_tails;
use pfs_base::{Bench, Metered, Paid, Permit};
use pfs_insert::Placed;

/// A permit for each pass of an insertion. They can't be dropped: the passes spend them.
pub struct Permits {
    pub tails: Permit,
    pub sums: Permit,
    ghost some: { 1 ≤ sums },
}

impl Permits {
    /// Counts the cells of an insertion into a sequence of this length: one for each tail and each head of the
    /// sequence, and for each value of the inserted row and each sum at each place, of each job and machine. Lanes
    /// that contain no value of a table are not counted, and putting times in the lanes' order is not counted either,
    /// since it computes no sum.
    #[inline(always)]
    pub fn count(bench: &mut Metered, len: usize) -> Permits
        requires room { ⟦<Metered<'static> as Bench>⟧.counted bench.old
            + heads_tails_cost (len + 1) (⟦<Metered<'static> as Bench>⟧.shop bench.old).machines < 2 ^ 64 }
        ensures paid { IsPaid result.tails result.sums len (⟦<Metered<'static> as Bench>⟧.shop bench.old).machines }
        ensures counted { ⟦<Metered<'static> as Bench>⟧.counted bench.new
            ≡ ⟦<Metered<'static> as Bench>⟧.counted bench.old + heads_tails_cost (len + 1)
            (⟦<Metered<'static> as Bench>⟧.shop bench.old).machines }
        ensures shop { ⟦<Metered<'static> as Bench>⟧.shop bench.new ≡ ⟦<Metered<'static> as Bench>⟧.shop bench.old }
    {
        let jobs = len as u64;
        let machines = bench.machines() as u64;
        let tails = bench.count(jobs * machines);
        let sums = bench.count((3 * jobs + 2) * machines);
        Permits { tails, sums }
    }
}

/// The first place of the least sum, and that sum.
pub fn first_least(sums: &[u64]) -> Placed<u64>
    requires { 1 ≤ length sums.now }
    ensures { IsLeastSoFar (λ place. slice_index_or sums.now place 0) (length sums.now) result.place result.span }
{
    let mut found = Placed {
        place: 0,
        span: sums[0],
    };
    for place in 1..sums.len() {
        if sums[place] < found.span {
            found = Placed {
                place,
                span: sums[place],
            };
        }
    }
    found
}

// A key that orders places by their sums, and places of equal sums by their numbers.
#[inline(always)]
fn key(place: usize, sum: u16) -> u32
    requires { place < 2 ^ 16 }
    ensures { result ≡ sum * 65536 + place }
{
    u32::from(sum) * 65536 + place as u32
}

/// The same for sums of 16 bits: it is the place of the least key. The compiler vectorizes the loop.
pub fn first_least_key(sums: &[u16]) -> Placed<u64>
    requires some { 1 ≤ length sums.now }
    requires few { length sums.now ≤ 2 ^ 16 }
    ensures { IsLeastSoFar (λ place. slice_index_or sums.now place 0) (length sums.now) result.place result.span }
{
    let mut least = key(0, sums[0]);
    for place in 1..sums.len() {
        least = least.min(key(place, sums[place]));
    }
    Placed {
        place: (least % 65536) as usize,
        span: u64::from(least / 65536),
    }
}

// Writes the first sums, as many as there is room for.
#[inline(always)]
fn write_spans<V: Band>(sums: &[V::Number], spans: &mut [u64])
    requires { length spans.old ≤ length sums.now }
    ensures { (place : ℕ) → place < length spans.old
        → slice_index_or spans.new place 0 ≡ slice_index_or (map V.number sums.now) place 0 }
{
    for place in 0..spans.len() {
        spans[place] = V::wide(sums[place]);
    }
}

/// The first place of the least sum of a job in a sequence, and that sum, from the skewed times of the sequence. Sums
/// hold the makespans. There are as many steps more than jobs as `lanes` have machines. `sums` gets the sums from index
/// 7 on, and `spans` the first ones, as many as it has room for.
#[inline(always)]
pub fn best_place<V: Band, const N: usize>(
    permits: Permits,
    lanes: usize,
    steps: usize,
    times: &[V::Times],
    job: &[V::Times],
    tails: &mut [V],
    sums: &mut [V::Number],
    spans: &mut [u64],
) -> Placed<Paid>
    requires some { 1 ≤ N }
    requires some_lanes { 1 ≤ lanes }
    requires eight { lanes ≤ 8 }
    requires steps { lanes ≤ steps }
    requires few { steps ≤ 2 ^ 16 }
    requires small { steps * N + N < 2 ^ 32 }
    requires times { length times.now ≡ steps * N }
    requires job { length job.now ≡ N }
    requires tails { steps * N + N ≤ length tails.old }
    requires sums { steps + 7 ≤ length sums.old }
    requires room { length spans.old + lanes ≤ steps + 1 }
    ensures tails { length tails.new ≡ length tails.old }
    ensures sums { length sums.new ≡ length sums.old }
    ensures found { (shop : FlowShop) (jobs : List ℕ) (inserted : ℕ)
        → IsInsertion V.Holds shop jobs inserted N lanes steps permits.tails permits.sums
        (map V.Times.lanes times.now) (map V.Times.lanes job.now)
        → IsFound V.Holds shop jobs inserted result.place result.span (length spans.old) spans.new }
{
    let Permits {
        tails: for_tails,
        sums: for_sums,
    } = permits;
    let tails = &mut tails[..steps * N + N];
    fill_tails::<V, N>(for_tails, steps, times, tails);
    let paid = fill_sums::<V, N>(for_sums, steps, times, tails, job, &mut sums[..steps + 7]);
    let sums = &sums[7..steps + 8 - lanes];
    write_spans::<V>(sums, spans);
    let found = V::first_least(sums);
    Placed {
        place: found.place,
        span: paid.with(found.span),
    }
}
