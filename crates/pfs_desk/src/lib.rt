//! The commands: what each reads, computes and prints, and the faults that it reports.
#![tactic(auto)]

mod dispatch;
mod engines;
pub mod fault;
mod files;
pub mod laws;
mod program;
mod stop;

pub use dispatch::run_job;
pub use engines::check::run_check;
pub use engines::convert::run_convert;
pub use engines::generate::run_generate;
pub use engines::solve::run_solve;
pub use engines::table::run_table;
pub use engines::value::run_value;
pub use fault::{DeskFault, Outcome, status, write_fault};
pub use files::{Files, OpenFault};
pub use pfs_words::{Job, MOST_ROUNDS, PathText, SolveOptions, UsageFault, plan};
pub use program::run_program;
pub use stop::{Stop, finish};
