//! Values of the definitions for a small shop.
ghost use Rattle.std.specs.Prelude.{◌≡◌, [], ◌∷◌};
ghost use Rattle.pfs_base.specs.Shops.{three_jobs, unit_times};
ghost use Rattle.pfs_insert.specs.Examples.{row_of, two_rows};
ghost use Rattle.pfs_insert.specs.Exchange.{heaviest_back, heaviest_front};
ghost use Rattle.pfs_insert.specs.Insertion.{afresh_cost, best_place, heads_tails_cost, makespan_with, with_job};

/// The makespans with the third job at each place of the sequence that has the second job and then the
/// first, and the best place. Where all places give the same makespan, the best is place 0.
pub fn insertion()
    ensures before_both { makespan_with three_jobs (1 ∷ 0 ∷ []) 2 0 ≡ 13 }
    ensures between { makespan_with three_jobs (1 ∷ 0 ∷ []) 2 1 ≡ 11 }
    ensures after_both { makespan_with three_jobs (1 ∷ 0 ∷ []) 2 2 ≡ 10 }
    ensures best { best_place three_jobs (1 ∷ 0 ∷ []) 2 ≡ 2 }
    ensures with_it { with_job three_jobs (1 ∷ 0 ∷ []) 2 ≡ 1 ∷ 0 ∷ 2 ∷ [] }
    ensures tie { best_place unit_times (1 ∷ 0 ∷ []) 2 ≡ 0 }
{}

/// The heads and tails of the sequence that has the second job and then the first, and the row of the
/// third job at each of its three places, machine by machine.
pub fn rows()
    ensures heads { two_rows (heaviest_front three_jobs (1 ∷ 0 ∷ [])) ≡ 2 ∷ 7 ∷ 5 ∷ 9 ∷ [] }
    ensures tails { two_rows (heaviest_back three_jobs (1 ∷ 0 ∷ [])) ≡ 9 ∷ 7 ∷ 5 ∷ 2 ∷ [] }
    ensures first { row_of (heaviest_front three_jobs (2 ∷ 1 ∷ 0 ∷ [])) 0 ≡ 4 ∷ 5 ∷ [] }
    ensures second { row_of (heaviest_front three_jobs (1 ∷ 2 ∷ 0 ∷ [])) 1 ≡ 6 ∷ 8 ∷ [] }
    ensures third { row_of (heaviest_front three_jobs (1 ∷ 0 ∷ 2 ∷ [])) 2 ≡ 9 ∷ 10 ∷ [] }
{}

/// The cells of one insertion that evaluates each place from scratch, and of one by heads and tails.
pub fn costs()
    ensures afresh { afresh_cost 3 2 ≡ 18 }
    ensures heads_tails { heads_tails_cost 3 2 ≡ 20 }
    ensures one_job { heads_tails_cost 1 1 ≡ 2 }
{}
