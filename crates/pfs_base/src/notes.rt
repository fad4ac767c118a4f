//! What a size line of Taillard's layout states besides the sizes.

/// The seed that an instance was generated from, and the bounds of its makespan that were published with it.
/// They are kept as they were read; nothing is computed from them.
#[repr(C)]
#[derive(Clone, Copy, Debug, PartialEq, Eq)]
pub struct Notes {
    /// The generator's initial seed.
    pub seed: u32,
    /// The upper bound: some order's makespan is at most this.
    pub upper: u32,
    /// The lower bound: every order's makespan is at least this.
    pub lower: u32,
}
