//! The bounds of the children of a node, eight jobs at a time, in lanes of 16 bits.
ghost use Rattle.std.specs.Prelude.{◌≡◌, ℕ, true, false, ◌+◌, ◌-◌, ◌*◌, ◌<◌, ◌≤◌, List, [], ◌∷◌, ◌++◌, length, slice_index};
ghost use Rattle.std.specs.List.{slice_index_or};
ghost use Rattle.pfs_base.specs.FlowShop.{time_of};
ghost use Rattle.pfs_audit.specs.Bound.{IsLowerBound};
ghost use Rattle.pfs_exact.specs.Private.Nodes.{AreBounds, AreEnds, AreLeast, AreOpen, IsNode, IsOpen, NoneShorter};
ghost use Rattle.pfs_exact.specs.Private.Ahead.{AreAhead, AreBehind};
ghost use Rattle.pfs_exact.specs.Private.Blocks.{AreShut, HasTimes, IsAtMost, IsTable};

use crate::children::{CLOSED, Room};
use crate::ends::{Ends, mark_open};
use crate::lanes::Lanes;
use crate::node::{Node, plus, raise};
use crate::prove::{MOST_PROVED_JOBS, MOST_PROVED_MACHINES};
use crate::table::{SHUT, Table};
use pfs_base::Instance;
use std::simd::prelude::*;

/// Finds the numbers of the children as `children_of` does, where the table has blocks.
pub(crate) fn eights_of(
    instance: &Instance,
    ends: &Ends,
    floor: u64,
    table: &mut Table,
    node: &mut Node,
    room: &mut Room,
) -> bool
    requires jobs { instance.now.shop.jobs ≤ MOST_PROVED_JOBS }
    requires machines { instance.now.shop.machines ≤ MOST_PROVED_MACHINES }
    requires ends { AreEnds instance.now.shop.jobs ends.now }
    requires some { length ends.now.front.jobs + length ends.now.back.jobs < instance.now.shop.jobs }
    requires table { IsTable instance.now.shop table.old }
    requires blocks { 1 ≤ table.old.blocks }
    requires node { IsNode instance.now.shop ends.now.front.jobs ends.now.back.jobs node.old }
    requires floor { IsLowerBound instance.now.shop floor }
    ensures table { IsTable instance.now.shop table.new }
    ensures node { IsNode instance.now.shop ends.now.front.jobs ends.now.back.jobs node.new }
    ensures bounds { AreBounds instance.now.shop ends.now result instance.now.shop.jobs room.new.bounds }
{
    let (jobs, machines, blocks) = (instance.jobs(), instance.machines(), table.blocks);
    let times = table.times.as_slice();
    let (starts, rests) = (table.starts.as_mut_slice(), table.rests.as_mut_slice());
    let least = table.least.as_mut_slice();
    let (ahead, behind) = (table.ahead.as_mut_slice(), table.behind.as_mut_slice());
    let shut = table.shut.as_mut_slice();
    let (bounds, others) = (table.bounds.as_mut_slice(), table.others.as_mut_slice());
    mark_open(instance, ends, &mut room.marks);
    shut_others(&room.marks, shut, jobs);
    least_times_of(instance, ends, blocks, times, shut, &mut room.least);
    raise(instance, ends, &room.least, node);
    spread(&node.starts, machines, starts);
    spread_back(&node.rests, machines, rests);
    spread(&room.least, machines, least);
    spread_sums(&node.left, rests, machines, ahead);
    spread_sums(&node.left, starts, machines, behind);
    let low = floor.min(65_535) as u16;
    bounds_ahead(instance, blocks, times, starts, least, ahead, low, bounds);
    bounds_behind(instance, blocks, times, rests, least, behind, low, others);
    let forward = is_forward(blocks, shut, bounds, others);
    widen(shut, pick(forward, bounds, others), &mut room.bounds, jobs);
    forward
}

// One of two lists.
#[inline(always)]
fn pick<'a>(first: bool, one: &'a [u16], other: &'a [u16]) -> &'a [u16]
    ensures first { first ≡ true → result.now ≡ one.now }
    ensures other { first ≡ false → result.now ≡ other.now }
{
    if first { one } else { other }
}

// Shuts the jobs that are at an end.
fn shut_others(marks: &[bool; MOST_PROVED_JOBS], shut: &mut [u16], jobs: usize)
    requires few { jobs ≤ MOST_PROVED_JOBS }
    requires shut { jobs ≤ length shut.old }
    ensures length { length shut.new ≡ length shut.old }
    ensures shut { AreShut jobs marks.now shut.new }
{
    for job in 0..jobs {
        shut[job] = if marks[job] { 0 } else { SHUT };
    }
}

// Finds the least times of the jobs between.
fn least_times_of(
    instance: &Instance,
    ends: &Ends,
    blocks: usize,
    times: &[Lanes],
    shut: &[u16],
    least: &mut [u64; MOST_PROVED_MACHINES],
)
    requires jobs { instance.now.shop.jobs ≤ MOST_PROVED_JOBS }
    requires machines { instance.now.shop.machines ≤ MOST_PROVED_MACHINES }
    requires blocks { instance.now.shop.jobs ≤ 8 * blocks }
    requires room { 64 * blocks ≤ length times.now }
    requires room_shut { 8 * blocks ≤ length shut.now }
    requires times { HasTimes instance.now.shop blocks times.now }
    requires ends { AreEnds instance.now.shop.jobs ends.now }
    requires shut { (job : ℕ) → job < instance.now.shop.jobs → IsOpen ends.now.front.jobs ends.now.back.jobs job
        → slice_index shut.now job ≡ 0 }
    ensures { AreLeast instance.now.shop ends.now.front.jobs ends.now.back.jobs least.new }
{
    *least = [0; MOST_PROVED_MACHINES];
    if ends.front.len() + ends.back.len() + 1 < instance.jobs() {
        for machine in 0..instance.machines() {
            least[machine] = u64::from(least_on(instance, blocks, times, shut, machine));
        }
    }
}

// The least time on a machine of the jobs that are not shut.
#[inline(always)]
fn least_on(
    instance: &Instance,
    blocks: usize,
    times: &[Lanes],
    shut: &[u16],
    machine: usize,
) -> u16
    requires few { instance.now.shop.jobs ≤ MOST_PROVED_JOBS }
    requires machines { instance.now.shop.machines ≤ MOST_PROVED_MACHINES }
    requires machine { machine < instance.now.shop.machines }
    requires room { 64 * blocks ≤ length times.now }
    requires room_shut { 8 * blocks ≤ length shut.now }
    requires times { HasTimes instance.now.shop blocks times.now }
    requires blocks { instance.now.shop.jobs ≤ 8 * blocks }
    ensures { (job : ℕ) → job < instance.now.shop.jobs → slice_index shut.now job ≡ 0
        → result ≤ time_of instance.now.shop job machine }
{
    let mut least = Lanes::splat(SHUT);
    for block in 0..blocks {
        let closed = Lanes::load(shut, 8 * block);
        least = least.min(times[64 * block + machine].max(closed));
    }
    least.least()
}

// Each number in all lanes, if it fits, or else less.
#[inline(always)]
fn spread(numbers: &[u64; MOST_PROVED_MACHINES], machines: usize, lanes: &mut [Lanes])
    requires few { machines ≤ MOST_PROVED_MACHINES }
    requires room { machines ≤ length lanes.old }
    ensures length { length lanes.new ≡ length lanes.old }
    ensures least { IsAtMost machines (λ machine. slice_index numbers.now machine) lanes.new }
{
    for machine in 0..machines {
        lanes[machine] = Lanes::splat((numbers[machine] % 65_536) as u16);
    }
}

// The same from the last machine on.
#[inline(always)]
fn spread_back(numbers: &[u64; MOST_PROVED_MACHINES], machines: usize, lanes: &mut [Lanes])
    requires few { machines ≤ MOST_PROVED_MACHINES }
    requires room { machines ≤ length lanes.old }
    ensures length { length lanes.new ≡ length lanes.old }
    ensures least { IsAtMost machines (λ machine. slice_index numbers.now (machines - 1 - machine)) lanes.new }
{
    for machine in 0..machines {
        let number = numbers[machines - 1 - machine];
        lanes[machine] = Lanes::splat((number % 65_536) as u16);
    }
}

// The sums of numbers with those of lanes.
#[inline(always)]
fn spread_sums(
    numbers: &[u64; MOST_PROVED_MACHINES],
    others: &[Lanes],
    machines: usize,
    lanes: &mut [Lanes],
)
    requires few { machines ≤ MOST_PROVED_MACHINES }
    requires room { machines ≤ length lanes.old }
    requires others { machines ≤ length others.now }
    ensures length { length lanes.new ≡ length lanes.old }
    ensures least { (sums : ℕ → ℕ) → IsAtMost machines sums others.now
        → IsAtMost machines (λ machine. slice_index numbers.now machine + sums machine) lanes.new }
{
    for machine in 0..machines {
        let number = Lanes::splat((numbers[machine] % 65_536) as u16);
        lanes[machine] = number.plus(others[machine]);
    }
}

// Finds the bounds of the children that have one more of the first jobs.
fn bounds_ahead(
    instance: &Instance,
    blocks: usize,
    times: &[Lanes],
    starts: &[Lanes],
    least: &[Lanes],
    sums: &[Lanes],
    low: u16,
    bounds: &mut [u16],
)
    requires machines { instance.now.shop.machines ≤ MOST_PROVED_MACHINES }
    requires blocks { blocks ≤ 64 }
    requires room { 64 * blocks ≤ length times.now }
    requires room_bounds { 8 * blocks ≤ length bounds.old }
    requires room_starts { instance.now.shop.machines ≤ length starts.now }
    requires room_least { instance.now.shop.machines ≤ length least.now }
    requires room_sums { instance.now.shop.machines ≤ length sums.now }
    requires times { HasTimes instance.now.shop blocks times.now }
    requires low { IsLowerBound instance.now.shop low }
    ensures length { length bounds.new ≡ length bounds.old }
    ensures bounds { (front back : List ℕ) → AreAhead instance.now.shop front back starts.now least.now sums.now
        → (job : ℕ) → job < 8 * blocks → job < instance.now.shop.jobs
        → NoneShorter instance.now.shop (front ++ job ∷ []) back (slice_index bounds.new job) }
{
    for block in 0..blocks {
        bound_ahead(instance, block, times, starts, least, sums, low).store(bounds, 8 * block);
    }
}

// The bounds of eight of them.
#[inline(always)]
fn bound_ahead(
    instance: &Instance,
    block: usize,
    times: &[Lanes],
    starts: &[Lanes],
    least: &[Lanes],
    sums: &[Lanes],
    low: u16,
) -> Lanes
    requires machines { instance.now.shop.machines ≤ MOST_PROVED_MACHINES }
    requires block { block < 64 }
    requires room { 64 * block + 64 ≤ length times.now }
    requires room_starts { instance.now.shop.machines ≤ length starts.now }
    requires room_least { instance.now.shop.machines ≤ length least.now }
    requires room_sums { instance.now.shop.machines ≤ length sums.now }
    requires times { HasTimes instance.now.shop (block + 1) times.now }
    requires low { IsLowerBound instance.now.shop low }
    ensures { (front back : List ℕ) → AreAhead instance.now.shop front back starts.now least.now sums.now
        → (lane : ℕ) → lane < 8 → 8 * block + lane < instance.now.shop.jobs
        → NoneShorter instance.now.shop (front ++ (8 * block + lane) ∷ []) back (slice_index_or result.values lane 0) }
{
    let mut most = Lanes::splat(low);
    let mut before = Lanes::splat(0);
    let mut next = Lanes::splat(0);
    for machine in 0..instance.machines() {
        let time = times[64 * block + machine];
        before = before.max(starts[machine]).plus(time);
        next = next.max(before);
        most = most.max(next.plus(sums[machine]).minus(time));
        next = next.plus(least[machine]);
    }
    most
}

// Finds the bounds of the children that have one more of the last jobs.
fn bounds_behind(
    instance: &Instance,
    blocks: usize,
    times: &[Lanes],
    rests: &[Lanes],
    least: &[Lanes],
    sums: &[Lanes],
    low: u16,
    bounds: &mut [u16],
)
    requires machines { instance.now.shop.machines ≤ MOST_PROVED_MACHINES }
    requires blocks { blocks ≤ 64 }
    requires room { 64 * blocks ≤ length times.now }
    requires room_bounds { 8 * blocks ≤ length bounds.old }
    requires room_rests { instance.now.shop.machines ≤ length rests.now }
    requires room_least { instance.now.shop.machines ≤ length least.now }
    requires room_sums { instance.now.shop.machines ≤ length sums.now }
    requires times { HasTimes instance.now.shop blocks times.now }
    requires low { IsLowerBound instance.now.shop low }
    ensures length { length bounds.new ≡ length bounds.old }
    ensures bounds { (front back : List ℕ) → AreBehind instance.now.shop front back rests.now least.now sums.now
        → (job : ℕ) → job < 8 * blocks → job < instance.now.shop.jobs
        → NoneShorter instance.now.shop front (job ∷ back) (slice_index bounds.new job) }
{
    for block in 0..blocks {
        bound_behind(instance, block, times, rests, least, sums, low).store(bounds, 8 * block);
    }
}

// The bounds of eight of them.
#[inline(always)]
fn bound_behind(
    instance: &Instance,
    block: usize,
    times: &[Lanes],
    rests: &[Lanes],
    least: &[Lanes],
    sums: &[Lanes],
    low: u16,
) -> Lanes
    requires machines { instance.now.shop.machines ≤ MOST_PROVED_MACHINES }
    requires block { block < 64 }
    requires room { 64 * block + 64 ≤ length times.now }
    requires room_rests { instance.now.shop.machines ≤ length rests.now }
    requires room_least { instance.now.shop.machines ≤ length least.now }
    requires room_sums { instance.now.shop.machines ≤ length sums.now }
    requires times { HasTimes instance.now.shop (block + 1) times.now }
    requires low { IsLowerBound instance.now.shop low }
    ensures { (front back : List ℕ) → AreBehind instance.now.shop front back rests.now least.now sums.now
        → (lane : ℕ) → lane < 8 → 8 * block + lane < instance.now.shop.jobs
        → NoneShorter instance.now.shop front ((8 * block + lane) ∷ back) (slice_index_or result.values lane 0) }
{
    let machines = instance.machines();
    let mut most = Lanes::splat(low);
    let mut after = Lanes::splat(0);
    let mut last = Lanes::splat(0);
    for turn in 0..machines {
        let machine = machines - 1 - turn;
        let time = times[64 * block + machine];
        after = after.max(rests[machine]).plus(time);
        last = last.max(after);
        most = most.max(last.plus(sums[machine]).minus(time));
        last = last.plus(least[machine]);
    }
    most
}

// Which end to grow, as in `children_of`. The search is right either way.
fn is_forward(blocks: usize, shut: &[u16], ahead: &[u16], behind: &[u16]) -> bool
    requires few { blocks ≤ 64 }
    requires shut { 8 * blocks ≤ length shut.now }
    requires ahead { 8 * blocks ≤ length ahead.now }
    requires behind { 8 * blocks ≤ length behind.now }
{
    let mut least = Lanes::splat(SHUT);
    for block in 0..blocks {
        let lesser = Lanes::load(ahead, 8 * block).min(Lanes::load(behind, 8 * block));
        least = least.min(lesser.max(Lanes::load(shut, 8 * block)));
    }
    let (low, one) = (Lanes::splat(least.least()), Lanes::splat(1));
    let mut fronts = Lanes::splat(0);
    let mut backs = Lanes::splat(0);
    let mut front_sum = u32x8::splat(0);
    let mut back_sum = u32x8::splat(0);
    for block in 0..blocks {
        let closed = Lanes::load(shut, 8 * block);
        let front = Lanes::load(ahead, 8 * block).max(closed);
        let back = Lanes::load(behind, 8 * block).max(closed);
        fronts = fronts.plus(front.minus(low).min(one));
        backs = backs.plus(back.minus(low).min(one));
        front_sum += front.values.cast::<u32>();
        back_sum += back.values.cast::<u32>();
    }
    let (more_fronts, more_backs) = (fronts.values.reduce_sum(), backs.values.reduce_sum());
    more_fronts > more_backs
        || (more_fronts == more_backs && front_sum.reduce_sum() >= back_sum.reduce_sum())
}

// Copies the bounds of the jobs that are not shut.
fn widen(shut: &[u16], numbers: &[u16], bounds: &mut [u64; MOST_PROVED_JOBS], jobs: usize)
    requires few { jobs ≤ MOST_PROVED_JOBS }
    requires shut { jobs ≤ length shut.now }
    requires numbers { jobs ≤ length numbers.now }
    ensures length { length bounds.new ≡ MOST_PROVED_JOBS }
    ensures shut { (job : ℕ) → job < jobs → slice_index bounds.new job < CLOSED → slice_index shut.now job ≡ 0 }
    ensures open { (job : ℕ) → job < jobs → slice_index shut.now job ≡ 0
        → slice_index bounds.new job ≡ slice_index numbers.now job }
{
    for job in 0..jobs {
        let number = u64::from(numbers[job]);
        bounds[job] = if shut[job] == 0 { number } else { CLOSED };
    }
}
