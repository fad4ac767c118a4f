//! The errors of planning a job.
ghost use Rattle.std.specs.Prelude.{◌≡◌, ◌≢◌};
ghost use Rattle.clap.specs.Words.{kind_of};
ghost use Rattle.clap.specs.declared.error.kind.ErrorKind.TheVariants.{OutOfMemory};
ghost use Rattle.pfs_words.specs.declared.usage.UsageFault.TheVariants.{Usage, Memory};

use clap::error::ErrorKind;
use std::alloc::AllocError;
use thiserror::Error;

/// Why `plan` returns no job.
#[derive(Clone, Copy, Debug, PartialEq, Eq, Error)]
pub enum UsageFault {
    /// The first argument names no command, or its command rejects the other arguments. A request for help is
    /// rejected too.
    #[error("Usage")]
    Usage,
    /// An allocation failed.
    #[error("Memory")]
    Memory,
}

impl From<AllocError> for UsageFault {
    ghost from_gives = { λ _ made. made ≡ Memory };

    fn from(_error: AllocError) -> UsageFault {
        UsageFault::Memory
    }
}

impl From<clap::Error> for UsageFault {
    ghost from_gives = { λ error made. (kind_of error ≡ OutOfMemory → made ≡ Memory)
        × (kind_of error ≢ OutOfMemory → made ≡ Usage) };

    fn from(error: clap::Error) -> UsageFault {
        match error.kind() {
            ErrorKind::OutOfMemory => UsageFault::Memory,
            _ => UsageFault::Usage,
        }
    }
}
