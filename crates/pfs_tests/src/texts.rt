//! Files that tests share.

/// An instance of three jobs on two machines in Taillard's layout, 121 bytes long.
pub const BY_MACHINE: &[u8] =
    b"number of jobs, number of machines, initial seed, upper bound and lower bound :\n\
      3 2 0 0 0\nprocessing times :\n3 2 4\n2 5 1\n";

/// The same three jobs in the OR-Library's layout.
pub const BY_JOB: &[u8] = b"flow shop instance\n3 2\n0 3 1 2\n0 2 1 5\n0 4 1 1\n";

/// The same again, as the second of three blocks.
pub const LATER: &[u8] = b"first\n1 1\n0 7\nsecond\n3 2\n0 3 1 2\n0 2 1 5\n0 4 1 1\nthird\n";

/// Five jobs on one machine, drawn from the published seed.
pub const FIVE_JOBS: &[u8] =
    b"number of jobs, number of machines, initial seed, upper bound and lower bound :\n\
      5 1 873654221 0 0\nprocessing times :\n54 83 15 71 77\n";

/// An order file of version 1.
pub const ORDER: &[u8] = b"order 3\n2 1 3\nmakespan 10\n";

/// The same order in version 2, which also states the number of machines.
pub const ORDER2: &[u8] = b"order2 3 2\n2 1 3\nmakespan 10\n";
