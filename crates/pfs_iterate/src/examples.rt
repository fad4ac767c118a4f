//! Values of the definitions for small shops.
ghost use Rattle.std.specs.Prelude.{◌≡◌, [], ◌∷◌};
ghost use Rattle.pfs_base.specs.Shops.{three_jobs};
ghost use Rattle.pfs_search.specs.Examples.{three_machines};
ghost use Rattle.pfs_iterate.specs.Alone.{by_ties};
ghost use Rattle.pfs_iterate.specs.Examples.{one_and_pass, three_alone};
ghost use Rattle.pfs_iterate.specs.Iterated.{after_round, chosen, is_free, left_among, place_among, removed, total_delay, visits};
ghost use Rattle.pfs_iterate.specs.declared.options.TheConstants.{TIES_FIRST, TIES_IDLE};

/// Jobs 0 and 1 end at 3 and 5, and at 5 and 10. With job 2 between them job 1 ends at 9 and 14, so 8 later. Job 2 at the
/// end ends at 9 and 11, which is 5 later than 5 and 10.
pub fn delays()
    ensures middle { total_delay three_jobs (0 ∷ 1 ∷ []) 2 1 ≡ 8 }
    ensures end { total_delay three_jobs (0 ∷ 1 ∷ []) 2 2 ≡ 5 }
{}

/// Job 0 ends at 3, 4 and 4. With job 1 on either side the makespan is 7. Before job 0 it makes job 0 end at 6, 7 and 7,
/// 9 later, and behind it it ends at 6, 6 and 7, 8 later.
pub fn places()
    ensures first { chosen three_machines (by_ties TIES_FIRST) (0 ∷ []) 1 ≡ 0 }
    ensures idle { chosen three_machines (by_ties TIES_IDLE) (0 ∷ []) 1 ≡ 1 }
{}

/// Job 1 has a mark, so it stays: jobs 0 and 2 are those with the numbers 0 and 1.
pub fn numbers()
    ensures behind { place_among (is_free (0 ∷ 1 ∷ [])) (0 ∷ 1 ∷ 2 ∷ []) 1 ≡ 2 }
    ensures first { place_among (is_free (0 ∷ 1 ∷ [])) (1 ∷ 0 ∷ 2 ∷ []) 0 ≡ 1 }
    ensures left { left_among (is_free (0 ∷ 1 ∷ [])) (0 ∷ 1 ∷ 2 ∷ []) (3 ∷ []) ≡ 0 ∷ 1 ∷ [] }
{}

/// The word 0 removes job 0, and the words 2, 0 and 0 name the jobs 2, 0 and 1. Of the makespans 11, 10 and 11 with job 0
/// at each place between jobs 1 and 2 the second is the least, and no job that a pass visits has a better place.
pub fn round()
    ensures removed { removed one_and_pass [] (0 ∷ 1 ∷ 2 ∷ []) (0 ∷ 2 ∷ 0 ∷ 0 ∷ []) ≡ 0 ∷ [] }
    ensures visits { visits three_jobs one_and_pass [] (0 ∷ 2 ∷ 0 ∷ 0 ∷ []) ≡ 2 ∷ 0 ∷ 1 ∷ [] }
    ensures after { after_round three_jobs one_and_pass [] []
        (record { current = 0 ∷ 1 ∷ 2 ∷ []; best = 0 ∷ 1 ∷ 2 ∷ [] }) (9 ∷ 0 ∷ 2 ∷ 0 ∷ 0 ∷ [])
        ≡ record { current = 1 ∷ 0 ∷ 2 ∷ []; best = 1 ∷ 0 ∷ 2 ∷ [] } }
{}

/// The words 1, 1 and 0 remove the jobs 1, 0 and 2. Inserted in this order they are in the order 2, 0, 1, whose makespan 8
/// is longer by 1 than that of 2, 1, 0. A first word below the chance 5 takes it.
pub fn longer()
    ensures taken { after_round three_machines three_alone (0 ∷ 5 ∷ []) []
        (record { current = 2 ∷ 1 ∷ 0 ∷ []; best = 2 ∷ 1 ∷ 0 ∷ [] }) (4 ∷ 1 ∷ 1 ∷ 0 ∷ [])
        ≡ record { current = 2 ∷ 0 ∷ 1 ∷ []; best = 2 ∷ 1 ∷ 0 ∷ [] } }
    ensures not_taken { after_round three_machines three_alone (0 ∷ 5 ∷ []) []
        (record { current = 2 ∷ 1 ∷ 0 ∷ []; best = 2 ∷ 1 ∷ 0 ∷ [] }) (5 ∷ 1 ∷ 1 ∷ 0 ∷ [])
        ≡ record { current = 2 ∷ 1 ∷ 0 ∷ []; best = 2 ∷ 1 ∷ 0 ∷ [] } }
{}
