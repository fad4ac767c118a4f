//! A search that proves how short an order of all jobs can be. Orders grow from both ends, depth first; a bound of each
//! machine ends them early. Before the first node, pairs of machines raise the bound of all orders (Johnson's rule with
//! lags: Johnson 1954; Lageweg, Lenstra and Rinnooy Kan 1978).
#![tactic(auto)]

mod branch;
mod children;
mod eights;
mod ends;
mod examples;
mod lanes;
mod node;
mod pairs;
mod parts;
mod prove;
mod table;

pub use node::{grow_back, grow_front, leave, plus};
pub use pairs::bound_by_pairs;
pub use parts::{Part, nothing_left, part_bounded, part_searched, parts_bounded};
pub use prove::{
    MOST_PROVED_JOBS, MOST_PROVED_MACHINES, Proved, Searched, prove_order, prove_parts,
};
