//! What the definitions say of eight orders of three jobs.
ghost use Rattle.std.specs.Prelude.{◌≡◌, [], ◌∷◌};
ghost use Rattle.pfs_base.specs.Paths.{makespan};
ghost use Rattle.pfs_base.specs.Shops.{three_jobs};
ghost use Rattle.pfs_batch.specs.Examples.{eight_orders};
ghost use Rattle.pfs_batch.specs.SequenceLists.{sequence_at};

/// The second of the orders and the last one, and their makespans.
pub fn orders()
    ensures second { sequence_at 3 eight_orders 1 ≡ 1 ∷ 0 ∷ 2 ∷ [] }
    ensures last { sequence_at 3 eight_orders 7 ≡ 2 ∷ 1 ∷ 0 ∷ [] }
    ensures second_makespan { makespan three_jobs (sequence_at 3 eight_orders 1) ≡ 10 }
    ensures last_makespan { makespan three_jobs (sequence_at 3 eight_orders 7) ≡ 13 }
{}
