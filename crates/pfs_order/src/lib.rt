//! Sequences of jobs, orders of all jobs, and order files.
#![tactic(auto)]

mod fault;
mod file;
pub mod laws;
mod order;
mod reading;
mod scan;
mod seq;
mod writing;

pub use fault::OrderFault;
pub use file::OrderFile;
pub use order::Order;
pub use reading::read_order;
pub use seq::Seq;
pub use writing::write_order;
