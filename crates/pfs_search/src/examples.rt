//! Values of the definitions for small shops.
ghost use Rattle.std.specs.Prelude.{◌≡◌, ◌+◌, ◌*◌, [], ◌∷◌};
ghost use Rattle.pfs_base.specs.Paths.{makespan};
ghost use Rattle.pfs_base.specs.Shops.{three_jobs, unit_times};
ghost use Rattle.pfs_insert.specs.Insertion.{heads_tails_cost};
ghost use Rattle.pfs_search.specs.Costs.{neh_cost, round_cost};
ghost use Rattle.pfs_search.specs.Examples.{one_job, one_machine, three_machines};
ghost use Rattle.pfs_search.specs.Greedy.{after_round, jobs_left, jobs_taken, rebuilt};
ghost use Rattle.pfs_search.specs.Neh.{neh_order};
ghost use Rattle.pfs_search.specs.Ranking.{ranking};

/// The ranking and NEH's order, also with equal totals, on one machine and on three.
pub fn neh()
    ensures ranking { ranking three_jobs ≡ 1 ∷ 0 ∷ 2 ∷ [] }
    ensures order { neh_order three_jobs ≡ 1 ∷ 0 ∷ 2 ∷ [] }
    ensures makespan { makespan three_jobs (1 ∷ 0 ∷ 2 ∷ []) ≡ 10 }
    ensures tied_ranking { ranking unit_times ≡ 0 ∷ 1 ∷ 2 ∷ [] }
    ensures tied_order { neh_order unit_times ≡ 2 ∷ 1 ∷ 0 ∷ [] }
    ensures one_machine { neh_order one_machine ≡ 1 ∷ 0 ∷ [] }
    ensures three_machines { neh_order three_machines ≡ 2 ∷ 1 ∷ 0 ∷ [] }
{}

/// The jobs that random words remove and leave, and the order after a round without passes: rebuilt as before; of equal
/// makespan, and kept; with jobs inserted in the order of their removal; longer, and not kept; of one job alone.
pub fn rounds()
    ensures left { jobs_left (1 ∷ 0 ∷ 2 ∷ []) (0 ∷ 0 ∷ []) ≡ 2 ∷ [] }
    ensures taken { jobs_taken (1 ∷ 0 ∷ 2 ∷ []) (0 ∷ 0 ∷ []) ≡ 1 ∷ 0 ∷ [] }
    ensures same { after_round three_jobs 0 (1 ∷ 0 ∷ 2 ∷ []) (0 ∷ 0 ∷ []) ≡ 1 ∷ 0 ∷ 2 ∷ [] }
    ensures equal { after_round one_machine 0 (1 ∷ 0 ∷ []) (1 ∷ []) ≡ 0 ∷ 1 ∷ [] }
    ensures in_order { after_round one_machine 0 (1 ∷ 0 ∷ []) (0 ∷ 0 ∷ []) ≡ 0 ∷ 1 ∷ [] }
    ensures longer { rebuilt three_machines (2 ∷ 1 ∷ 0 ∷ []) (1 ∷ 1 ∷ 0 ∷ []) ≡ 2 ∷ 0 ∷ 1 ∷ [] }
    ensures not_kept { after_round three_machines 0 (2 ∷ 1 ∷ 0 ∷ []) (1 ∷ 1 ∷ 0 ∷ []) ≡ 2 ∷ 1 ∷ 0 ∷ [] }
    ensures alone { after_round one_job 0 (0 ∷ []) (7 ∷ []) ≡ 0 ∷ [] }
{}

/// An order after a round without a pass, and with one.
pub fn passes()
    ensures without { after_round three_machines 0 (0 ∷ 1 ∷ 2 ∷ []) (0 ∷ []) ≡ 1 ∷ 2 ∷ 0 ∷ [] }
    ensures with_one { after_round three_machines 1 (0 ∷ 1 ∷ 2 ∷ []) (0 ∷ []) ≡ 2 ∷ 1 ∷ 0 ∷ [] }
    ensures cells { round_cost heads_tails_cost 3 3 1 1 ≡ 120 }
{}

/// The cells of searches by heads and tails.
pub fn costs()
    ensures neh { neh_cost heads_tails_cost 3 2 ≡ 36 }
    ensures round { round_cost heads_tails_cost 3 2 2 0 ≡ 32 }
    ensures whole_round { round_cost heads_tails_cost 3 3 3 0 ≡ 54 }
    ensures five_rounds { neh_cost heads_tails_cost 3 2 + 5 * round_cost heads_tails_cost 3 2 2 0 ≡ 196 }
    ensures five_whole_rounds { neh_cost heads_tails_cost 3 2 + 5 * round_cost heads_tails_cost 3 2 3 0 ≡ 216 }
{}
