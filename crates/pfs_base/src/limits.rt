//! The limits of what is accepted.

/// The greatest number of jobs.
pub const MOST_JOBS: usize = 5000;

/// The greatest number of machines.
pub const MOST_MACHINES: usize = 200;

/// The longest time of a job on a machine, in the instance's own unit of time.
pub const LONGEST_TIME: u32 = 1_000_000_000;

/// The greatest seed, and the greatest published bound, in a size line of Taillard's layout.
pub const GREATEST_NOTE: u32 = 4_294_967_295;

/// The greatest number of bytes that are read of an instance file, up to the end of the requested block.
pub const LONGEST_INPUT: usize = 67_108_864;

/// The greatest number of a block that can be requested. Blocks count from 1.
pub const MOST_BLOCKS: usize = 1000;

/// The greatest number of passes that a round can have.
pub const MOST_PASSES: u32 = 100;

/// The greatest number of rounds that a search can have.
pub const MOST_ROUNDS: u32 = 1_000_000;

/// The greatest number of bytes that an order file can have.
pub const LONGEST_ORDER_FILE: usize = 65_536;
