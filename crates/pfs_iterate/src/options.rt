//! Which rounds are made.

/// Of equally good places the first is taken.
pub const TIES_FIRST: u32 = 0;

/// Of equally good places the first with the least total delay is taken (Fernandez-Viagas and Framinan, 2014).
pub const TIES_IDLE: u32 = 1;

/// The greatest number of a rule for equally good places.
pub const MOST_TIES: u32 = TIES_IDLE;

/// Which rounds are made, and of which kind: the struct `pfs_iterate_options` of C.
#[repr(C)]
#[derive(Clone, Copy, Debug, PartialEq, Eq)]
pub struct Options {
    /// The seed of the random words.
    pub seed: u64,
    /// The number of jobs that a round removes.
    pub take: usize,
    /// The number of jobs at the front of the order that stay.
    pub held: usize,
    /// The first round, counted from 0.
    pub first: u32,
    /// The number of rounds.
    pub count: u32,
    /// The most passes over the jobs that are left after the removal.
    pub partial: u32,
    /// The most passes over the whole order.
    pub passes: u32,
    /// The rule for equally good places, `TIES_FIRST` or `TIES_IDLE`.
    pub ties: u32,
}
