//! What the definitions say of some small instances.
ghost use Rattle.std.specs.Prelude.{◌≡◌, [], ◌∷◌, Some, None};
ghost use Rattle.pfs_base.specs.Paths.{makespan};
ghost use Rattle.pfs_audit.specs.Bound.{bound_of};
ghost use Rattle.pfs_base.specs.Shops.{three_jobs, unit_times};
ghost use Rattle.pfs_audit.specs.Examples.{stated, table_of};
ghost use Rattle.pfs_audit.specs.Schedule.{least_end, least_start};
ghost use Rattle.pfs_audit.specs.Verdicts.{verdict_on};

use crate::verdicts::Verdict;

/// The makespans of two orders, and the bound.
pub fn makespans()
    ensures first { makespan three_jobs (0 ∷ 1 ∷ 2 ∷ []) ≡ 11 }
    ensures second { makespan three_jobs (1 ∷ 0 ∷ 2 ∷ []) ≡ 10 }
    ensures none { makespan three_jobs [] ≡ 0 }
    ensures bound { bound_of three_jobs ≡ 10 }
    ensures units { bound_of unit_times ≡ 4 }
{}

/// The least schedule of an order, row by row.
pub fn schedule()
    ensures starts { table_of (least_start three_jobs (1 ∷ 0 ∷ 2 ∷ [])) ≡ 0 ∷ 2 ∷ 2 ∷ 7 ∷ 5 ∷ 9 ∷ [] }
    ensures ends { table_of (least_end three_jobs (1 ∷ 0 ∷ 2 ∷ [])) ≡ 2 ∷ 7 ∷ 5 ∷ 9 ∷ 9 ∷ 10 ∷ [] }
{}

/// Verdicts of each kind, and which of two faults is reported.
pub fn verdicts()
    ensures shortest { verdict_on three_jobs (stated (1 ∷ 0 ∷ 2 ∷ []) None 10) ≡ Verdict.Valid 10 10 }
    ensures longer { verdict_on three_jobs (stated (0 ∷ 1 ∷ 2 ∷ []) None 11) ≡ Verdict.Valid 11 10 }
    ensures wrong { verdict_on three_jobs (stated (1 ∷ 0 ∷ 2 ∷ []) None 9) ≡ Verdict.WrongMakespan 9 10 }
    ensures size { verdict_on three_jobs (stated (1 ∷ 0 ∷ []) None 10) ≡ Verdict.WrongSize 2 3 }
    ensures for_two { verdict_on three_jobs (stated (1 ∷ 0 ∷ 2 ∷ []) (Some 2) 10) ≡ Verdict.Valid 10 10 }
    ensures for_three { verdict_on three_jobs (stated (1 ∷ 0 ∷ 2 ∷ []) (Some 3) 9) ≡ Verdict.WrongMachines 3 2 }
    ensures size_first { verdict_on three_jobs (stated (0 ∷ 1 ∷ []) (Some 3) 9) ≡ Verdict.WrongSize 2 3 }
{}
