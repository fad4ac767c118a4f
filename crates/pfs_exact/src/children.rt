//! The nodes with one more job at an end, and numbers that none of their orders is shorter than.
ghost use Rattle.std.specs.Prelude.{◌≡◌, ℕ, ◌+◌, ◌<◌, ◌≤◌, List, [], ◌∷◌, ◌++◌, length, slice_index};
ghost use Rattle.pfs_audit.specs.Bound.{IsLowerBound};
ghost use Rattle.pfs_exact.specs.Private.Blocks.{IsTable};
ghost use Rattle.pfs_exact.specs.Private.Nodes.{AreBounds, AreEnds, AreLeast, IsNode, NoneShorter};

use crate::eights::eights_of;
use crate::ends::{Ends, mark_open};
use crate::node::{Node, copy, least_times, plus, raise};
use crate::prove::{MOST_PROVED_JOBS, MOST_PROVED_MACHINES};
use crate::table::Table;
use pfs_base::Instance;

/// The number of a job that is at an end.
pub(crate) const CLOSED: u64 = 18_446_744_073_709_551_615;

/// The room of a node: the marks of the jobs between and their least times; job by job a number that none of the orders
/// with one more job is shorter than; and the child that is searched. `others` are the numbers of the other end.
#[derive(Clone, Copy)]
pub(crate) struct Room {
    pub(crate) marks: [bool; MOST_PROVED_JOBS],
    pub(crate) least: [u64; MOST_PROVED_MACHINES],
    pub(crate) bounds: [u64; MOST_PROVED_JOBS],
    pub(crate) others: [u64; MOST_PROVED_JOBS],
    pub(crate) child: Node,
}

/// Finds the numbers of the children of a node that has some, and returns whether these have one more of the first jobs,
/// and not of the last: at the end at which fewer of them have the least number (Gmys and others 2020), or else at which
/// their numbers have the greater sum.
pub(crate) fn children_of(
    instance: &Instance,
    ends: &Ends,
    floor: u64,
    table: &mut Table,
    node: &mut Node,
    room: &mut Room,
) -> bool
    requires jobs { instance.now.shop.jobs ≤ MOST_PROVED_JOBS }
    requires machines { instance.now.shop.machines ≤ MOST_PROVED_MACHINES }
    requires ends { AreEnds instance.now.shop.jobs ends.now }
    requires some { length ends.now.front.jobs + length ends.now.back.jobs < instance.now.shop.jobs }
    requires table { IsTable instance.now.shop table.old }
    requires node { IsNode instance.now.shop ends.now.front.jobs ends.now.back.jobs node.old }
    requires floor { IsLowerBound instance.now.shop floor }
    ensures table { IsTable instance.now.shop table.new }
    ensures node { IsNode instance.now.shop ends.now.front.jobs ends.now.back.jobs node.new }
    ensures bounds { AreBounds instance.now.shop ends.now result instance.now.shop.jobs room.new.bounds }
{
    if table.blocks > 0 {
        return eights_of(instance, ends, floor, table, node, room);
    }
    mark_open(instance, ends, &mut room.marks);
    least_times(instance, ends, &room.marks, &mut room.least);
    raise(instance, ends, &room.least, node);
    for job in 0..instance.jobs() {
        if room.marks[job] {
            room.bounds[job] = bound_ahead(instance, node, &room.least, floor, job);
            room.others[job] = bound_behind(instance, node, &room.least, floor, job);
        } else {
            room.bounds[job] = CLOSED;
            room.others[job] = CLOSED;
        }
    }
    if is_forward(&room.bounds, &room.others, instance.jobs()) {
        return true;
    }
    copy(&room.others, &mut room.bounds, instance.jobs());
    false
}

// Which end to grow. The search is right either way.
fn is_forward(
    ahead: &[u64; MOST_PROVED_JOBS],
    behind: &[u64; MOST_PROVED_JOBS],
    jobs: usize,
) -> bool
    requires { jobs ≤ MOST_PROVED_JOBS }
{
    let mut low = CLOSED;
    for job in 0..jobs {
        low = low.min(ahead[job]).min(behind[job]);
    }
    let mut fronts: u64 = 0;
    let mut backs: u64 = 0;
    let mut front_sum: u64 = 0;
    let mut back_sum: u64 = 0;
    for job in 0..jobs {
        fronts = fronts.wrapping_add(u64::from(ahead[job] == low));
        backs = backs.wrapping_add(u64::from(behind[job] == low));
        front_sum = front_sum.wrapping_add(ahead[job]);
        back_sum = back_sum.wrapping_add(behind[job]);
    }
    fronts < backs || (fronts == backs && front_sum >= back_sum)
}

// A number that no order is shorter than which has a job after the first ones: on each machine, the earliest time at which
// the job after it starts, the times of the jobs between without it, and the rest.
fn bound_ahead(
    instance: &Instance,
    node: &Node,
    least: &[u64; MOST_PROVED_MACHINES],
    floor: u64,
    job: usize,
) -> u64
    requires machines { instance.now.shop.machines ≤ MOST_PROVED_MACHINES }
    requires job { job < instance.now.shop.jobs }
    requires floor { IsLowerBound instance.now.shop floor }
    ensures { (front back : List ℕ) → IsNode instance.now.shop front back node.now
        → AreLeast instance.now.shop front back least.now
        → NoneShorter instance.now.shop (front ++ job ∷ []) back result }
{
    let machines = instance.machines();
    let mut most = floor;
    let mut before: u64 = 0;
    let mut next: u64 = 0;
    for machine in 0..machines {
        let time = u64::from(instance.time(job, machine));
        before = plus(before.max(node.starts[machine]), time);
        next = next.max(before);
        let rest = plus(node.left[machine], node.rests[machines - 1 - machine]);
        most = most.max(plus(next, rest).saturating_sub(time));
        next = plus(next, least[machine]);
    }
    most
}

// The same of the orders that have a job before the last ones: on each machine, the earliest time at which a job between
// starts, the times of those without this one, and the rest from its start on.
fn bound_behind(
    instance: &Instance,
    node: &Node,
    least: &[u64; MOST_PROVED_MACHINES],
    floor: u64,
    job: usize,
) -> u64
    requires machines { instance.now.shop.machines ≤ MOST_PROVED_MACHINES }
    requires job { job < instance.now.shop.jobs }
    requires floor { IsLowerBound instance.now.shop floor }
    ensures { (front back : List ℕ) → IsNode instance.now.shop front back node.now
        → AreLeast instance.now.shop front back least.now
        → NoneShorter instance.now.shop front (job ∷ back) result }
{
    let machines = instance.machines();
    let mut most = floor;
    let mut after: u64 = 0;
    let mut last: u64 = 0;
    for turn in 0..machines {
        let machine = machines - 1 - turn;
        let time = u64::from(instance.time(job, machine));
        after = plus(after.max(node.rests[turn]), time);
        last = last.max(after);
        let rest = plus(node.left[machine], node.starts[machine]);
        most = most.max(plus(last, rest).saturating_sub(time));
        last = plus(last, least[machine]);
    }
    most
}
