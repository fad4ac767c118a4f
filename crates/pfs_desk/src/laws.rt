//! Laws of the definitions alone: each function's contract is one of them.
ghost use Rattle.pfs_desk.specs.Laws.{SolvedIsValid};

/// What `solve` prints for an instance file, without `--cells`, is an order file that `check` calls valid, with the same
/// makespan.
pub fn solved_is_valid()
    ensures { SolvedIsValid }
{}
