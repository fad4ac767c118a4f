//! Makespans of eight sequences at once, one in each lane of a vector.
#![tactic(auto)]

mod batch;
mod examples;
mod lanes;
mod rows;
mod spans;
mod transpose;

pub use batch::{Batch, WIDTH};
