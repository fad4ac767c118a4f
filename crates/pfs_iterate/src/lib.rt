//! Rounds of iterated greedy that also accept longer orders, by a table of chances.
#![tactic(auto)]

mod alone;
mod destroy;
mod examples;
mod found;
mod heads;
mod improve;
mod iterated;
pub mod laws;
mod options;
mod places;
mod rounds;
mod stay;
mod work;

pub use iterated::{Iterated, Makespans};
pub use options::{MOST_TIES, Options, TIES_FIRST, TIES_IDLE};
pub use stay::count_movable;
pub use work::Work;
