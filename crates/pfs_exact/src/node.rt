//! What is known of the orders of a node, machine by machine.
ghost use Rattle.std.specs.Prelude.{◌≡◌, ℕ, ◌+◌, ◌-◌, ◌<◌, ◌≤◌, List, [], ◌∷◌, ◌++◌, length, slice_index};
ghost use Rattle.pfs_base.specs.FlowShop.{time_of};
ghost use Rattle.pfs_exact.specs.Private.Nodes.{AreEnds, AreLeast, AreLeft, AreOpen, IsNode, IsOpen, put_of};
ghost use Rattle.pfs_exact.specs.Times.{AreRests, AreStarts};
ghost use Rattle.pfs_exact.specs.declared.ends.Ends.{Ends};

use crate::ends::Ends;
use crate::prove::{MOST_PROVED_JOBS, MOST_PROVED_MACHINES};
use pfs_audit::sums_of;
use pfs_base::Instance;

/// Machine by machine: a time before which the next job does not start; the time from the end of the jobs between to the
/// end of the order, from the last machine on; and the times of the jobs between. Each is a lower bound.
#[derive(Clone, Copy)]
pub(crate) struct Node {
    pub(crate) starts: [u64; MOST_PROVED_MACHINES],
    pub(crate) rests: [u64; MOST_PROVED_MACHINES],
    pub(crate) left: [u64; MOST_PROVED_MACHINES],
}

/// The sum, or less if it does not fit, as of any lower bounds.
pub fn plus(one: u64, other: u64) -> u64
    ensures { result ≤ one + other }
{
    one.wrapping_add(other)
}

/// The node of all orders.
pub(crate) fn root(instance: &Instance) -> Node
    requires { instance.now.shop.machines ≤ MOST_PROVED_MACHINES }
    ensures { IsNode instance.now.shop [] [] result }
{
    let mut left = [0; MOST_PROVED_MACHINES];
    copy(&sums_of(instance).load, &mut left, instance.machines());
    Node {
        starts: [0; MOST_PROVED_MACHINES],
        rests: [0; MOST_PROVED_MACHINES],
        left,
    }
}

/// Makes `next` the node with one more job at an end.
pub(crate) fn child(instance: &Instance, node: &Node, forward: bool, job: usize, next: &mut Node)
    requires machines { instance.now.shop.machines ≤ MOST_PROVED_MACHINES }
    requires job { job < instance.now.shop.jobs }
    ensures { (ends : Ends) → IsNode instance.now.shop ends.front.jobs ends.back.jobs node.now
        → IsNode instance.now.shop (put_of forward ends job).front.jobs (put_of forward ends job).back.jobs next.new }
{
    if forward {
        grow_front(instance, &node.starts, job, &mut next.starts);
        copy(&node.rests, &mut next.rests, instance.machines());
    } else {
        copy(&node.starts, &mut next.starts, instance.machines());
        grow_back(instance, &node.rests, job, &mut next.rests);
    }
    leave(instance, &node.left, job, &mut next.left);
}

/// Copies the first numbers.
pub(crate) fn copy(from: &[u64], to: &mut [u64], many: usize)
    requires from { many ≤ length from.now }
    requires to { many ≤ length to.old }
    ensures { (at : ℕ) → at < many → slice_index to.new at ≡ slice_index from.now at }
{
    for at in 0..many {
        to[at] = from[at];
    }
}

/// The starts after one more of the first jobs. They are bounds, so a sum that does not fit is a bound too.
pub fn grow_front(instance: &Instance, starts: &[u64], job: usize, next: &mut [u64])
    requires job { job < instance.now.shop.jobs }
    requires starts { instance.now.shop.machines ≤ length starts.now }
    requires next { instance.now.shop.machines ≤ length next.old }
    ensures len { length next.new ≡ length next.old }
    ensures starts { (front back : List ℕ) → AreStarts instance.now.shop front back starts.now
        → AreStarts instance.now.shop (front ++ job ∷ []) back next.new }
{
    let mut before: u64 = 0;
    for machine in 0..instance.machines() {
        before = plus(
            before.max(starts[machine]),
            u64::from(instance.time(job, machine)),
        );
        next[machine] = before;
    }
}

/// The rests before one more of the last jobs.
pub fn grow_back(instance: &Instance, rests: &[u64], job: usize, next: &mut [u64])
    requires job { job < instance.now.shop.jobs }
    requires rests { instance.now.shop.machines ≤ length rests.now }
    requires next { instance.now.shop.machines ≤ length next.old }
    ensures len { length next.new ≡ length next.old }
    ensures rests { (front back : List ℕ) → AreRests instance.now.shop front back rests.now
        → AreRests instance.now.shop front (job ∷ back) next.new }
{
    let machines = instance.machines();
    let mut after: u64 = 0;
    for turn in 0..machines {
        after = plus(
            after.max(rests[turn]),
            u64::from(instance.time(job, machines - 1 - turn)),
        );
        next[turn] = after;
    }
}

/// The times of the jobs between without a job.
pub fn leave(instance: &Instance, left: &[u64], job: usize, next: &mut [u64])
    requires job { job < instance.now.shop.jobs }
    requires left { instance.now.shop.machines ≤ length left.now }
    requires next { instance.now.shop.machines ≤ length next.old }
    ensures len { length next.new ≡ length next.old }
    ensures left { (machine : ℕ) → machine < instance.now.shop.machines
        → slice_index next.new machine ≤ slice_index left.now machine - time_of instance.now.shop job machine }
{
    for machine in 0..instance.machines() {
        next[machine] = left[machine].saturating_sub(u64::from(instance.time(job, machine)));
    }
}

/// Finds the least times of the jobs between.
pub(crate) fn least_times(
    instance: &Instance,
    ends: &Ends,
    marks: &[bool; MOST_PROVED_JOBS],
    least: &mut [u64; MOST_PROVED_MACHINES],
)
    requires jobs { instance.now.shop.jobs ≤ MOST_PROVED_JOBS }
    requires machines { instance.now.shop.machines ≤ MOST_PROVED_MACHINES }
    requires ends { AreEnds instance.now.shop.jobs ends.now }
    requires marks { AreOpen instance.now.shop.jobs ends.now marks.now }
    ensures { AreLeast instance.now.shop ends.now.front.jobs ends.now.back.jobs least.new }
{
    *least = [0; MOST_PROVED_MACHINES];
    if ends.front.len() + ends.back.len() + 1 < instance.jobs() {
        for machine in 0..instance.machines() {
            least[machine] = least_on(instance, marks, machine);
        }
    }
}

// The least time of the jobs between on a machine.
fn least_on(instance: &Instance, marks: &[bool; MOST_PROVED_JOBS], machine: usize) -> u64
    requires jobs { instance.now.shop.jobs ≤ MOST_PROVED_JOBS }
    requires machine { machine < instance.now.shop.machines }
    ensures { (ends : Ends) → AreOpen instance.now.shop.jobs ends marks.now
        → (job : ℕ) → job < instance.now.shop.jobs → IsOpen ends.front.jobs ends.back.jobs job
        → result ≤ time_of instance.now.shop job machine }
{
    let mut least = u64::MAX;
    for job in 0..instance.jobs() {
        let time = u64::from(instance.time(job, machine));
        least = least.min(if marks[job] { time } else { u64::MAX });
    }
    least
}

/// Raises a node's times by the least times of the jobs between, of which there is one.
pub(crate) fn raise(
    instance: &Instance,
    ends: &Ends,
    least: &[u64; MOST_PROVED_MACHINES],
    node: &mut Node,
)
    requires machines { instance.now.shop.machines ≤ MOST_PROVED_MACHINES }
    requires some { length ends.now.front.jobs + length ends.now.back.jobs < instance.now.shop.jobs }
    requires least { AreLeast instance.now.shop ends.now.front.jobs ends.now.back.jobs least.now }
    requires node { IsNode instance.now.shop ends.now.front.jobs ends.now.back.jobs node.old }
    ensures { IsNode instance.now.shop ends.now.front.jobs ends.now.back.jobs node.new }
{
    let machines = instance.machines();
    for machine in 1..machines {
        node.starts[machine] = node.starts[machine].max(plus(
            node.starts[machine - 1],
            least[machine - 1],
        ));
        let other = machines - machine;
        node.rests[machine] = node.rests[machine].max(plus(node.rests[machine - 1], least[other]));
    }
}
