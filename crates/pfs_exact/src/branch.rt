//! The recursion.
ghost use Rattle.std.specs.Prelude.{◌≡◌, ℕ, ◌+◌, ◌-◌, ◌<◌, ◌≤◌, [], ◌∷◌, ◌++◌, length, slice_index, OnOk};
ghost use Rattle.pfs_exact.specs.MostNodes.{most_nodes};
ghost use Rattle.pfs_exact.specs.Private.Nodes.{AreEnds, Continues, Every, IsDone, IsNode, IsWork, NoneShorter, most_more};

use crate::children::{CLOSED, Room, children_of};
use crate::ends::{Ends, put, take};
use crate::node::{Node, child};
use crate::parts::{Part, leave};
use crate::prove::{MOST_PROVED_JOBS, MOST_PROVED_MACHINES};
use crate::table::Table;
use pfs_base::Instance;
use pfs_base::heads::span_of;
use pfs_order::Seq;
use std::alloc::{AllocError, Global};

/// The ends of a node, the best order of all jobs so far with its makespan, a number below which the makespan of a wanted
/// order is, a number that no order is shorter than, the nodes that are left of the budget, and what is left to search. The
/// other sequence and the table are only room.
#[derive(Drop)]
pub(crate) struct Work {
    pub(crate) ends: Ends,
    pub(crate) best: Seq,
    pub(crate) spare: Seq,
    pub(crate) table: Table,
    pub(crate) makespan: u64,
    pub(crate) limit: u64,
    pub(crate) floor: u64,
    pub(crate) left: u64,
    pub(crate) parts: Vec<Part>,
}

/// Searches the orders of a node, none of which is shorter than its bound. What is not searched when the budget is used up
/// is added to the parts, the deepest node's children first. There is a room for each job between.
pub(crate) fn branch(
    alloc: Global,
    instance: &Instance,
    work: &mut Work,
    bound: u64,
    node: &mut Node,
    rooms: &mut [Room],
) -> Result<(), AllocError>
    requires jobs { instance.now.shop.jobs ≤ MOST_PROVED_JOBS }
    requires machines { instance.now.shop.machines ≤ MOST_PROVED_MACHINES }
    requires work { IsWork instance.now.shop work.old }
    requires bound { NoneShorter instance.now.shop work.old.ends.front.jobs work.old.ends.back.jobs bound }
    requires rooms { instance.now.shop.jobs
        ≤ length work.old.ends.front.jobs + length work.old.ends.back.jobs + length rooms.old }
    requires node { IsNode instance.now.shop work.old.ends.front.jobs work.old.ends.back.jobs node.old }
    ensures work { OnOk result (IsWork instance.now.shop work.new) }
    ensures ends { OnOk result (work.new.ends ≡ work.old.ends) }
    ensures continues { OnOk result (Continues instance.now.shop work.old work.new) }
    ensures floor { OnOk result (work.new.floor ≡ work.old.floor) }
    ensures spent { OnOk result (1 ≤ work.old.left → work.new.left < work.old.left) }
    ensures untouched { OnOk result (work.old.left ≡ 0 → work.new.best ≡ work.old.best) }
    ensures unsearched { OnOk result (work.old.left ≡ 0 → work.new.parts.items ≡ work.old.parts.items
        ++ record { front = work.old.ends.front; back = work.old.ends.back; bound = bound } ∷ []) }
    ensures few { OnOk result (work.old.left ≤ work.new.left + most_nodes (instance.now.shop.jobs
        - (length work.old.ends.front.jobs + length work.old.ends.back.jobs))) }
    ensures room { OnOk result (length work.new.parts.items ≤ length work.old.parts.items + 1 + most_more
        (instance.now.shop.jobs - (length work.old.ends.front.jobs + length work.old.ends.back.jobs))) }
    ensures done { OnOk result (Every instance.now.shop (IsDone instance.now.shop work.new)
        work.old.ends.front.jobs work.old.ends.back.jobs) }
{
    if work.left == 0 {
        return leave(alloc, &work.ends, bound, &mut work.parts);
    }
    work.left -= 1;
    if work.ends.front.len() + work.ends.back.len() >= instance.jobs() {
        finish(instance, work);
        return Ok(());
    }
    let (own, below) = rooms.split_at_mut(1);
    let room = &mut own[0];
    let forward = children_of(
        instance,
        &work.ends,
        work.floor,
        &mut work.table,
        node,
        room,
    );
    'each: loop {
        let job = least_of(&room.bounds, instance.jobs());
        let number = room.bounds[job];
        let goal = work.makespan.min(work.limit);
        if number >= goal {
            return Ok(());
        }
        child(instance, node, forward, job, &mut room.child);
        put(&mut work.ends, forward, job);
        branch(alloc, instance, work, number, &mut room.child, below)?;
        room.bounds[job] = work.makespan;
        take(&mut work.ends, forward);
    }
}

// The job with the least number.
fn least_of(bounds: &[u64; MOST_PROVED_JOBS], jobs: usize) -> usize
    requires some { 1 ≤ jobs }
    requires few { jobs ≤ MOST_PROVED_JOBS }
    ensures within { result < jobs }
    ensures least { (job : ℕ) → job < jobs
        → slice_index bounds.now result ≤ slice_index bounds.now job }
{
    let mut least = 0;
    let mut number = bounds[0];
    for job in 1..jobs {
        let (before, other) = (least, bounds[job]);
        least = if other < number { job } else { before };
        number = number.min(other);
    }
    least
}

// Keeps the order of both ends, which have all jobs, if it is shorter than the best one.
fn finish(instance: &Instance, work: &mut Work)
    requires machines { instance.now.shop.machines ≤ MOST_PROVED_MACHINES }
    requires work { IsWork instance.now.shop work.old }
    requires all { instance.now.shop.jobs ≤ length work.old.ends.front.jobs + length work.old.ends.back.jobs }
    ensures work { IsWork instance.now.shop work.new }
    ensures ends { work.new.ends ≡ work.old.ends }
    ensures left { work.new.left ≡ work.old.left }
    ensures limit { work.new.limit ≡ work.old.limit }
    ensures floor { work.new.floor ≡ work.old.floor }
    ensures parts { work.new.parts ≡ work.old.parts }
    ensures no_longer { work.new.makespan ≤ work.old.makespan }
    ensures low { NoneShorter instance.now.shop work.old.ends.front.jobs work.old.ends.back.jobs work.new.makespan }
{
    join(&mut work.spare, &work.ends);
    let span = span_of(instance, work.spare.as_slice());
    if span < work.makespan {
        work.best.copy_from(&work.spare);
        work.makespan = span;
    }
}

// The jobs of both ends.
fn join(whole: &mut Seq, ends: &Ends)
    requires size { whole.old.size ≡ ends.now.front.size }
    requires ends { AreEnds ends.now.front.size ends.now }
    ensures size { whole.new.size ≡ whole.old.size }
    ensures jobs { whole.new.jobs ≡ ends.now.front.jobs ++ ends.now.back.jobs }
{
    whole.copy_from(&ends.front);
    for place in 0..ends.back.len() {
        let end = whole.len();
        whole.insert_at(end, ends.back.at(place));
    }
}
