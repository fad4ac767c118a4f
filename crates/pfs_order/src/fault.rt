//! Errors of sequences, orders and order files.

use thiserror::Error;

/// Why a sequence or an order could not be created, or an order file could not be read.
#[derive(Clone, Copy, Debug, PartialEq, Eq, Error)]
pub enum OrderFault {
    /// The input is not a text of the grammar of order files, in either version. The offset is the length of
    /// the longest prefix of the input with which some text of that grammar begins.
    #[error("Syntax")]
    Syntax { offset: usize },
    /// The job number at a place, counted from 1, is 0 or greater than the number of jobs.
    #[error("JobRange")]
    JobRange { place: usize },
    /// The job at a place, counted from 1, is also at an earlier place.
    #[error("Repeated")]
    Repeated { place: usize },
    /// The input is longer than `LONGEST_ORDER_FILE` bytes.
    #[error("TooLong")]
    TooLong,
    /// A read failed.
    #[error("Read")]
    Read,
    /// Memory allocation failed.
    #[error("Memory")]
    Memory,
}
