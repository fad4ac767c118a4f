//! The jobs that the orders of a node begin and end with.
ghost use Rattle.std.specs.Prelude.{◌≡◌, ◌<◌, ◌≤◌};
ghost use Rattle.pfs_exact.specs.Private.Nodes.{AreCleared, AreEnds, AreOpen, IsOpen, IsSome, put_of, taken_of};

use crate::prove::MOST_PROVED_JOBS;
use pfs_base::Instance;
use pfs_order::Seq;

/// The jobs that an order begins with, and those that it ends with.
#[derive(Drop)]
pub(crate) struct Ends {
    pub(crate) front: Seq,
    pub(crate) back: Seq,
}

/// Puts a job after the first jobs or before the last.
pub(crate) fn put(ends: &mut Ends, forward: bool, job: usize)
    requires absent { IsOpen ends.old.front.jobs ends.old.back.jobs job }
    requires front_size { job < ends.old.front.size }
    requires back_size { job < ends.old.back.size }
    ensures { ends.new ≡ put_of forward ends.old job }
{
    if forward {
        let place = ends.front.len();
        ends.front.insert_at(place, job);
    } else {
        ends.back.insert_at(0, job);
    }
}

/// Takes the job that was put last.
pub(crate) fn take(ends: &mut Ends, forward: bool)
    requires { IsSome forward ends.old }
    ensures { ends.new ≡ taken_of forward ends.old }
{
    if forward {
        let place = ends.front.len() - 1;
        ends.front.remove_at(place);
    } else {
        ends.back.remove_at(0);
    }
}

/// Marks the jobs at neither end.
pub(crate) fn mark_open(instance: &Instance, ends: &Ends, marks: &mut [bool; MOST_PROVED_JOBS])
    requires jobs { instance.now.shop.jobs ≤ MOST_PROVED_JOBS }
    requires ends { AreEnds instance.now.shop.jobs ends.now }
    ensures { AreOpen instance.now.shop.jobs ends.now marks.new }
{
    let _jobs = instance.jobs();
    *marks = [true; MOST_PROVED_JOBS];
    clear(&ends.front, marks);
    clear(&ends.back, marks);
}

// Clears the marks of the jobs of a sequence.
fn clear(seq: &Seq, marks: &mut [bool; MOST_PROVED_JOBS])
    requires { seq.now.size ≤ MOST_PROVED_JOBS }
    ensures { AreCleared seq.now.jobs marks.old marks.new }
{
    for place in 0..seq.len() {
        marks[seq.at(place)] = false;
    }
}
