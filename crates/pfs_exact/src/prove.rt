//! The search of a user.
ghost use Rattle.std.specs.Prelude.{◌≡◌, ℕ, ◌+◌, ◌*◌, ◌/◌, ◌<◌, ◌≤◌, ◌-◌, [], ◌∷◌, ◌++◌, length, min, All, IfOk, OnErr, OnOk, vec_len};
ghost use Rattle.pfs_base.specs.Paths.{makespan};
ghost use Rattle.pfs_audit.specs.Bound.{bound_of, IsLowerBound};
ghost use Rattle.pfs_exact.specs.MostNodes.{most_nodes};
ghost use Rattle.pfs_order.specs.Sequence.{IsSequence};
ghost use Rattle.pfs_exact.specs.Private.Nodes.{Continues, Every, IsDone, IsNode, IsWork, most_more};
ghost use Rattle.pfs_exact.specs.Parts.{CoversSome, IsPart, most_of};

use crate::branch::{Work, branch};
use crate::children::Room;
use crate::ends::Ends;
use crate::node::{Node, child, root};
use crate::pairs::bound_by_pairs;
use crate::parts::{Part, least_bound};
use crate::table::Table;
use pfs_audit::bound;
use pfs_base::Instance;
use pfs_base::heads::span_of;
use pfs_order::{Order, OrderFault, Seq};
use std::alloc::{AllocError, Global};

/// The greatest number of jobs: the search calls itself once for each job of an order, on a stack of 512 KiB.
pub const MOST_PROVED_JOBS: usize = 256;

/// The greatest number of machines.
pub const MOST_PROVED_MACHINES: usize = 64;

/// What a search proved.
#[derive(Clone, Copy, Debug)]
pub struct Proved {
    /// The makespan of the order that was found.
    pub makespan: u64,
    /// No order of all jobs has a makespan below this number. If it is the makespan, the order is optimal.
    pub bound: u64,
    /// The nodes that are left of the budget.
    pub left: u64,
}

/// What a search of some orders proved, and what is left of them.
#[derive(Drop)]
pub struct Searched {
    /// What was proved of them.
    pub proved: Proved,
    /// What is left, the orders that were to be searched next first.
    pub parts: Vec<Part>,
}

/// Searches for a shorter order, and for a proof that there is none (branch and bound from both ends: Ladhari and Haouari
/// 2005; Gmys, Mezmaz, Melab and Tuyttens 2020). A node is a set of orders that begin with some jobs and end with some; at
/// most `nodes` of them are searched. Unless all of these are used, the order that was found is optimal. A search has at
/// most as many nodes as there are sequences of distinct jobs, of any length: 9,864,101 for 10 jobs. The only error is that
/// memory could not be allocated; then the order is as it was.
pub fn prove_order(
    alloc: Global,
    instance: &Instance,
    order: &mut Order,
    nodes: u64,
) -> Result<Proved, AllocError>
    requires jobs { instance.now.shop.jobs ≤ MOST_PROVED_JOBS }
    requires machines { instance.now.shop.machines ≤ MOST_PROVED_MACHINES }
    requires full { length order.old ≡ instance.now.shop.jobs }
    ensures full { length order.new ≡ length order.old }
    ensures no_longer { makespan instance.now.shop order.new ≤ makespan instance.now.shop order.old }
    ensures exact { IfOk result (λ proved. proved.makespan ≡ makespan instance.now.shop order.new) }
    ensures low { IfOk result (λ proved. IsLowerBound instance.now.shop proved.bound) }
    ensures raised { IfOk result (λ proved. bound_of instance.now.shop ≤ proved.bound) }
    ensures ended { IfOk result (λ proved. proved.bound < proved.makespan → proved.left ≡ 0) }
    ensures budget { IfOk result (λ proved. proved.left ≤ nodes) }
    ensures few { IfOk result (λ proved. nodes ≤ proved.left + most_nodes instance.now.shop.jobs) }
    ensures untouched { nodes ≡ 0 → order.new ≡ order.old }
    ensures kept { OnErr result (order.new ≡ order.old) }
{
    let parts = whole(alloc, instance.jobs())?;
    let searched = prove_parts(alloc, instance, &parts, order, u64::MAX, nodes)?;
    Ok(searched.proved)
}

// The part of all orders.
fn whole(alloc: Global, jobs: usize) -> Result<Vec<Part>, AllocError>
    requires some { 1 ≤ jobs }
    requires few { jobs ≤ MOST_PROVED_JOBS }
    ensures { IfOk result (λ parts. parts.items ≡ record {
      front = record { size = jobs; jobs = [] };
      back = record { size = jobs; jobs = [] };
      bound = 0;
    } ∷ []) }
{
    let Ok(front) = Seq::new(alloc, jobs) else {
        return Err(AllocError);
    };
    let Ok(back) = Seq::new(alloc, jobs) else {
        return Err(AllocError);
    };
    let mut parts = Vec::new(alloc);
    parts.push(Part {
        front,
        back,
        bound: 0,
    })?;
    Ok(parts)
}

/// Searches the orders of some parts, one part after the other, for one that is shorter than an order of all jobs and than
/// a limit, and for a proof that there is none, by at most `nodes` nodes. Unless these are used up, nothing is left; else
/// what is left can be searched by further calls, in any order and at the same time. The only error is that memory could
/// not be allocated; then the order is as it was.
pub fn prove_parts(
    alloc: Global,
    instance: &Instance,
    parts: &[Part],
    order: &mut Order,
    limit: u64,
    nodes: u64,
) -> Result<Searched, AllocError>
    requires jobs { instance.now.shop.jobs ≤ MOST_PROVED_JOBS }
    requires machines { instance.now.shop.machines ≤ MOST_PROVED_MACHINES }
    requires parts { All (IsPart instance.now.shop) parts.now }
    requires full { length order.old ≡ instance.now.shop.jobs }
    ensures full { length order.new ≡ length order.old }
    ensures no_longer { makespan instance.now.shop order.new ≤ makespan instance.now.shop order.old }
    ensures exact { IfOk result (λ searched. searched.proved.makespan ≡ makespan instance.now.shop order.new) }
    ensures covered { IfOk result (λ searched. CoversSome instance.now.shop parts.now
        (min searched.proved.makespan limit) searched.parts.items) }
    ensures parts { IfOk result (λ searched. All (IsPart instance.now.shop) searched.parts.items) }
    ensures low { IfOk result (λ searched. CoversSome instance.now.shop parts.now searched.proved.bound []) }
    ensures raised { IfOk result (λ searched. bound_of instance.now.shop ≤ searched.proved.bound) }
    ensures ended { IfOk result (λ searched. 1 ≤ searched.proved.left → searched.parts.items ≡ []) }
    ensures closed { IfOk result (λ searched. searched.parts.items ≡ []
        → min searched.proved.makespan limit ≤ searched.proved.bound) }
    ensures budget { IfOk result (λ searched. searched.proved.left ≤ nodes) }
    ensures few { IfOk result (λ searched. nodes ≤ searched.proved.left + most_of instance.now.shop.jobs parts.now) }
    ensures room { IfOk result (λ searched. length searched.parts.items
        ≤ length parts.now + instance.now.shop.jobs * (instance.now.shop.jobs + 1) / 2) }
    ensures untouched { nodes ≡ 0 → order.new ≡ order.old }
    ensures kept { OnErr result (order.new ≡ order.old) }
{
    let Ok(mut work) = work_of(alloc, instance, order, limit, nodes) else {
        return Err(AllocError);
    };
    if work.floor < work.makespan.min(limit) {
        let mut rooms = rooms_of(alloc, instance.jobs(), root(instance))?;
        for part in parts {
            search(alloc, instance, &mut work, part, &mut rooms)?;
        }
    }
    order.copy_from(&work.best);
    let least = least_bound(work.makespan.min(limit), &work.parts);
    Ok(Searched {
        proved: Proved {
            makespan: work.makespan,
            bound: work.floor.max(least),
            left: work.left,
        },
        parts: work.parts,
    })
}

// Searches the orders of a part, if some may be wanted.
fn search(
    alloc: Global,
    instance: &Instance,
    work: &mut Work,
    part: &Part,
    rooms: &mut [Room],
) -> Result<(), AllocError>
    requires jobs { instance.now.shop.jobs ≤ MOST_PROVED_JOBS }
    requires machines { instance.now.shop.machines ≤ MOST_PROVED_MACHINES }
    requires work { IsWork instance.now.shop work.old }
    requires part { IsPart instance.now.shop part.now }
    requires rooms { instance.now.shop.jobs ≤ length rooms.old }
    ensures work { OnOk result (IsWork instance.now.shop work.new) }
    ensures continues { OnOk result (Continues instance.now.shop work.old work.new) }
    ensures floor { OnOk result (work.new.floor ≡ work.old.floor) }
    ensures untouched { OnOk result (work.old.left ≡ 0 → work.new.best ≡ work.old.best) }
    ensures few { OnOk result (work.old.left ≤ work.new.left
        + most_nodes (instance.now.shop.jobs - (length part.now.front.jobs + length part.now.back.jobs))) }
    ensures one { OnOk result (work.old.left ≡ 0 → length work.new.parts.items ≤ length work.old.parts.items + 1) }
    ensures room { OnOk result (length work.new.parts.items
        ≤ length work.old.parts.items + 1 + most_more instance.now.shop.jobs) }
    ensures done { OnOk result (Every instance.now.shop (IsDone instance.now.shop work.new)
        part.now.front.jobs part.now.back.jobs) }
{
    if part.bound >= work.makespan.min(work.limit) {
        return Ok(());
    }
    work.ends.front.copy_from(&part.front);
    work.ends.back.copy_from(&part.back);
    let mut node = node_of(instance, &part.front, &part.back);
    branch(alloc, instance, work, part.bound, &mut node, rooms)
}

// The node of the orders that begin and end with some jobs.
fn node_of(instance: &Instance, front: &Seq, back: &Seq) -> Node
    requires machines { instance.now.shop.machines ≤ MOST_PROVED_MACHINES }
    requires front { front.now.size ≡ instance.now.shop.jobs }
    requires back { back.now.size ≡ instance.now.shop.jobs }
    ensures { IsNode instance.now.shop front.now.jobs back.now.jobs result }
{
    let mut node = root(instance);
    for place in 0..front.len() {
        let before = node;
        child(instance, &before, true, front.at(place), &mut node);
    }
    let many = back.len();
    for turn in 0..many {
        let before = node;
        child(
            instance,
            &before,
            false,
            back.at(many - 1 - turn),
            &mut node,
        );
    }
    node
}

// A room for each job.
fn rooms_of(alloc: Global, jobs: usize, child: Node) -> Result<Vec<Room>, AllocError>
    ensures { IfOk result (λ rooms. vec_len rooms ≡ jobs) }
{
    let room = Room {
        marks: [false; MOST_PROVED_JOBS],
        least: [0; MOST_PROVED_MACHINES],
        bounds: [0; MOST_PROVED_JOBS],
        others: [0; MOST_PROVED_JOBS],
        child,
    };
    vec![in alloc; room; jobs]
}

// What a search works with that begins with an order.
fn work_of(
    alloc: Global,
    instance: &Instance,
    order: &Order,
    limit: u64,
    nodes: u64,
) -> Result<Work, OrderFault>
    requires jobs { instance.now.shop.jobs ≤ MOST_PROVED_JOBS }
    requires machines { instance.now.shop.machines ≤ MOST_PROVED_MACHINES }
    requires full { length order.now ≡ instance.now.shop.jobs }
    ensures work { IfOk result (λ work. IsWork instance.now.shop work) }
    ensures best { IfOk result (λ work. work.best.jobs ≡ order.now) }
    ensures makespan { IfOk result (λ work. work.makespan ≡ makespan instance.now.shop order.now) }
    ensures raised { IfOk result (λ work. bound_of instance.now.shop ≤ work.floor) }
    ensures limit { IfOk result (λ work. work.limit ≡ limit) }
    ensures nodes { IfOk result (λ work. work.left ≡ nodes) }
    ensures parts { IfOk result (λ work. work.parts.items ≡ []) }
{
    let spare = Seq::new(alloc, instance.jobs())?;
    let mut best = Seq::new(alloc, instance.jobs())?;
    best.copy_from(order.seq());
    let makespan = span_of(instance, best.as_slice());
    let ends = Ends {
        front: Seq::new(alloc, instance.jobs())?,
        back: Seq::new(alloc, instance.jobs())?,
    };
    let Ok(floor) = floor_of(alloc, instance, makespan) else {
        return Err(OrderFault::Memory);
    };
    let Ok(table) = Table::new(alloc, instance) else {
        return Err(OrderFault::Memory);
    };
    Ok(Work {
        ends,
        best,
        spare,
        table,
        makespan,
        limit,
        floor,
        left: nodes,
        parts: Vec::new(alloc),
    })
}

// A number that no order is shorter than. Pairs of machines raise it if it is below the makespan.
fn floor_of(alloc: Global, instance: &Instance, makespan: u64) -> Result<u64, AllocError>
    ensures low { IfOk result (λ floor. IsLowerBound instance.now.shop floor) }
    ensures raised { IfOk result (λ floor. bound_of instance.now.shop ≤ floor) }
{
    let floor = bound(instance);
    if floor >= makespan {
        return Ok(floor);
    }
    bound_by_pairs(alloc, instance)
}
