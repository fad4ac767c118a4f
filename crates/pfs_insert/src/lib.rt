//! The best place for a job in a sequence: the contract of an inserter, and the inserters that satisfy it.
#![tactic(auto)]

mod afresh;
mod examples;
mod fault;
mod heads_tails;
mod inserter;
pub mod laws;
mod rows;

pub use afresh::Afresh;
pub use fault::InsertFault;
pub use heads_tails::HeadsTails;
pub use inserter::{Inserter, Placed};
