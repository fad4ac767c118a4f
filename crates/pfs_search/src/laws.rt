//! Laws of the definitions. They are about no code.
ghost use Rattle.std.specs.Prelude.{◌≡◌, ◌+◌, ◌<◌, ◌^◌};
ghost use Rattle.pfs_search.specs.Costs.{CostsLaw};
ghost use Rattle.pfs_search.specs.Greedy.{NoLongerLaw, PassLaw, PassesLaw};
ghost use Rattle.pfs_search.specs.MostCells.{most_neh_cells, most_rounds_cells, FewNehCells, FewRoundsCells};
ghost use Rattle.pfs_search.specs.Ranking.{RankingLaw};
ghost use Rattle.pfs_search.specs.Solution.{JoinedPartsLaw, LongerSearchLaw, PartsLaw, SearchedLaw};

/// For each shop exactly one list is the ranking: all jobs, greater totals first, and the lower number first
/// at equal totals.
pub fn ranking()
    ensures { RankingLaw }
{}

/// Where an insertion costs (4k - 2)m cells, as it does by heads and tails, with k jobs after it, on m machines:
/// NEH of n jobs costs 2mn² cells, a pass nm(4n - 2), a round that removes d jobs and makes L passes
/// 2dm(2n - d) + Lnm(4n - 2), and R such rounds cost at most R(d + Ln)m(4n - 2).
pub fn costs()
    ensures { CostsLaw }
{}

/// A pass over an order of all jobs doesn't increase its makespan, nor do passes over a list of jobs of a sequence.
pub fn pass_no_longer()
    ensures all { PassLaw }
    ensures list { PassesLaw }
{}

/// Rounds don't increase the makespan of an order, for any random words.
pub fn no_longer()
    ensures { NoLongerLaw }
{}

/// Within the limits NEH counts at most 10,000,000,000 cells, and rounds with passes count at most
/// 2,019,798,000,000,000,000. A count of 64 bits has room for both together, so that a new bench has room for every
/// search.
pub fn cells_fit()
    ensures neh { FewNehCells }
    ensures rounds { FewRoundsCells }
    ensures neh_number { most_neh_cells ≡ 10000000000 }
    ensures rounds_number { most_rounds_cells ≡ 2019798000000000000 }
    ensures room { most_neh_cells + most_rounds_cells < 2 ^ 64 }
{}

/// Rounds can be made in parts, where each part begins with the order that the part before it found. The order and the
/// makespan are then those of all rounds at once, and the count of all cells is the sum of the parts' counts.
pub fn parts()
    ensures order { PartsLaw }
    ensures joined { JoinedPartsLaw }
{}

/// A search is NEH followed by its rounds from round 0 on. And a search can stop after any number of rounds: where its
/// later rounds continue from the order that it found, the result is that of the whole search.
pub fn longer_search()
    ensures order { SearchedLaw }
    ensures joined { LongerSearchLaw }
{}
