//! Errors of audits.

use thiserror::Error;

/// Why an audit failed.
#[derive(Clone, Copy, Debug, PartialEq, Eq, Error)]
pub enum AuditFault {
    /// Memory allocation failed.
    #[error("Memory")]
    Memory,
}
