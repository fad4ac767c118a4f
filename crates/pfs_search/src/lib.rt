//! NEH and rounds of iterated greedy, for any inserter and any bench.
#![tactic(auto)]

mod examples;
mod fault;
mod greedy;
mod insertions;
mod kept;
pub mod laws;
mod passes;
mod rankings;
mod rounds;
mod search;
mod searcher;
mod solution;
mod workspace;

pub use fault::SearchFault;
pub use kept::Kept;
pub use pfs_base::MOST_PASSES;
pub use rounds::Rounds;
pub use search::Search;
pub use searcher::Searcher;
pub use solution::{Solution, improve, solve};
