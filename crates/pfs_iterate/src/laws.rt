//! Laws of the definitions. They are about no code.
ghost use Rattle.pfs_iterate.specs.Laws.{DelayLaw, FirstLaw, GreedyLaw, PartsLaw};

/// Rounds in two parts have the state that all of them have at once.
pub fn parts()
    ensures { PartsLaw }
{}

/// Where all jobs may move, with no passes, the first of equally good places and an empty table a round is one of `pfs_search` on
/// the words that remove jobs.
pub fn greedy()
    ensures { GreedyLaw }
{}

/// No machine ends earlier than before where a job is inserted, so a total delay is not negative.
pub fn delays()
    ensures { DelayLaw }
{}

/// With the first of equally good places a job is inserted at its best place.
pub fn first()
    ensures { FirstLaw }
{}
