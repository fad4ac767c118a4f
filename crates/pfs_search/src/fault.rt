//! The error of a search.

use thiserror::Error;

/// Why a searcher could not be made, or a search could not be completed.
#[derive(Clone, Copy, Debug, PartialEq, Eq, Error)]
pub enum SearchFault {
    /// Memory allocation failed. The call had completed `done` rounds before.
    #[error("Memory")]
    Memory { done: u32 },
}
