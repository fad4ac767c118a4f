//! Laws of the definitions alone: each function's contract is one of them.
ghost use Rattle.pfs_audit.specs.Bound.{BoundLaw};
ghost use Rattle.pfs_audit.specs.Schedule.{LeastScheduleLaw, NoneEndsEarlier, OneLeastSchedule};

/// The bound is at most the makespan of every order of all jobs.
pub fn bound_law()
    ensures { BoundLaw }
{}

/// The heaviest paths to the operations give the least schedule, which ends by the makespan.
pub fn least_schedule()
    ensures { LeastScheduleLaw }
{}

/// An order has only one least schedule.
pub fn one_least_schedule()
    ensures { OneLeastSchedule }
{}

/// No feasible schedule ends before the makespan.
pub fn none_ends_earlier()
    ensures { NoneEndsEarlier }
{}
