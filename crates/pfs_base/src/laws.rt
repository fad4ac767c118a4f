//! Laws of the definitions alone: each function's contract is one of them.
ghost use Rattle.std.specs.Prelude.{◌≡◌, ◌≤◌};
ghost use Rattle.pfs_base.specs.Longest.{longest_makespan, NoneLonger};
ghost use Rattle.pfs_base.specs.Paths.{HeaviestLaw, MakespanLaw, OneMakespan, RecurrenceLaw};

use crate::bench::SPAN_MAX;
use crate::limits::{
    GREATEST_NOTE, LONGEST_INPUT, LONGEST_ORDER_FILE, LONGEST_TIME, MOST_BLOCKS, MOST_JOBS,
    MOST_MACHINES, MOST_PASSES, MOST_ROUNDS,
};

/// Between any two cells, of which the second is neither above nor before the first, some path weighs what
/// `heaviest` says, and no path weighs more.
pub fn heaviest()
    ensures { HeaviestLaw }
{}

/// The makespan is the weight of a path from the first operation to the last, and no path weighs more. It is
/// 0 for no jobs.
pub fn makespan()
    ensures { MakespanLaw }
{}

/// The makespan is unique: only one number is the weight of a path that no path exceeds.
pub fn one_makespan()
    ensures { OneMakespan }
{}

/// The usual recurrence gives the makespan: each operation ends its own time after the later of two ends,
/// that of the same job on the machine before and that of the job before on the same machine.
pub fn recurrence()
    ensures { RecurrenceLaw }
{}

/// Within the limits no makespan is greater than 5,199,000,000,000, which is far below the greatest duration
/// that a bench makes.
pub fn makespans_fit()
    ensures none_longer { NoneLonger }
    ensures number { longest_makespan ≡ 5199000000000 }
    ensures in_limit { longest_makespan ≤ SPAN_MAX }
{}

/// The limits as numbers. Definitions cite the constants by name, so a changed constant changes what they say.
pub fn numbers()
    ensures jobs { MOST_JOBS ≡ 5_000 }
    ensures machines { MOST_MACHINES ≡ 200 }
    ensures time { LONGEST_TIME ≡ 1_000_000_000 }
    ensures note { GREATEST_NOTE ≡ 4_294_967_295 }
    ensures input { LONGEST_INPUT ≡ 67_108_864 }
    ensures order_file { LONGEST_ORDER_FILE ≡ 65_536 }
    ensures blocks { MOST_BLOCKS ≡ 1_000 }
    ensures passes { MOST_PASSES ≡ 100 }
    ensures rounds { MOST_ROUNDS ≡ 1_000_000 }
    ensures span { SPAN_MAX ≡ 1_000_000_000_000_000 }
{}
