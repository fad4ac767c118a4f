//! The rounds that a search makes.

/// How many rounds of iterated greedy a search makes, and of which kind.
#[derive(Clone, Copy, Debug, PartialEq, Eq)]
pub struct Rounds {
    /// The number of rounds, at most `MOST_ROUNDS`.
    pub count: u32,
    /// The destruction size: how many jobs each round removes, from 1 to the number of jobs.
    pub take: usize,
    /// How many passes each round makes, at most `MOST_PASSES`. A pass removes each job in turn, in the order of the job
    /// numbers, and inserts it at its best place.
    pub passes: u32,
    /// The seed of the Pcg32 whose random words choose the jobs that are removed.
    pub seed: u64,
}
