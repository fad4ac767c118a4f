//! The best place for a job in a sequence, by a wavefront: the anti-diagonals of the tables of heads and tails, in
//! lanes of 16, 32 or 64 bits.
#![tactic(auto)]

mod band;
mod best;
mod blends;
mod blocks;
mod hold;
pub mod laws;
mod long;
mod metered;
mod mixed;
mod rows;
mod short;
mod sums;
mod tables;
mod tails;
mod times;
mod vectors;

pub use metered::{MeteredLanes, Wavefront};
pub use tables::{LaneTables, OfShop};
