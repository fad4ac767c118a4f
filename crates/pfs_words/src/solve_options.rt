//! The options of a search.

/// The options of a search: NEH (Nawaz, Enscore, Ham 1983), followed by rounds of iterated greedy (Ruiz,
/// Stützle 2007).
#[derive(Clone, Copy, Debug, PartialEq, Eq)]
pub struct SolveOptions {
    /// How many rounds of iterated greedy follow NEH, at most `MOST_ROUNDS`.
    pub rounds: u32,
    /// The destruction size: how many jobs each round removes, from 1 to `MOST_JOBS`. `None` means
    /// `DEFAULT_TAKE`, or all jobs if the instance has fewer.
    pub take: Option<usize>,
    /// The seed of the Pcg32 whose random words choose the jobs that are removed.
    pub seed: u64,
    /// How many passes each round makes, at most `MOST_PASSES`. A pass removes each job in turn, in the order of
    /// the job numbers, and inserts it at its best place.
    pub passes: u32,
    /// Whether the number of table cells that were computed is printed too.
    pub cells: bool,
}

/// The destruction size if none is stated; all jobs if the instance has fewer.
pub const DEFAULT_TAKE: usize = 4;
