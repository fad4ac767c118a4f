//! Audits of orders: the makespan, a lower bound of every makespan, the time table, and the verdict on an order file.
#![tactic(auto)]

mod bounds;
mod examples;
mod fault;
pub mod laws;
mod recurrence;
mod timetable;
mod verdicts;

pub use bounds::{Sums, bound, sums_of};
pub use fault::AuditFault;
pub use recurrence::makespan;
pub use timetable::{TimeTable, table};
pub use verdicts::{Verdict, check};
