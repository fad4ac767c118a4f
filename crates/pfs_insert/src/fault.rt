//! The error of an inserter.

use thiserror::Error;

/// Why an inserter could not be made, or could not find a place.
#[derive(Clone, Copy, Debug, PartialEq, Eq, Error)]
pub enum InsertFault {
    /// Memory allocation failed.
    #[error("Memory")]
    Memory,
}
