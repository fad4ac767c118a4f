//! Command lines: the job that the arguments ask for, or why they ask for none.
#![tactic(auto)]

mod examples;
mod job;
pub mod laws;
mod planning;
mod solve_options;
mod usage;

pub use job::{Job, PathText};
pub use pfs_base::MOST_ROUNDS;
pub use planning::plan;
pub use solve_options::{DEFAULT_TAKE, SolveOptions};
pub use usage::UsageFault;
