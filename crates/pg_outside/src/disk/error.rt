//! Why a file was not written.
ghost use Rattle.std.specs.Prelude.{◌≡◌};

use super::system::CallFailed;
use std::alloc::AllocError;
use thiserror::Error;

/// Why a file was not written.
#[derive(Clone, Copy, Debug, PartialEq, Eq, Error)]
pub enum WriteError {
    /// A call of the system failed.
    #[error("a call of the system failed")]
    Failed,
    /// The name leads to a regular file that was read or written before.
    #[error("the file was read or written before")]
    Kept,
    /// The name leads through a link of the system to an open file, as `/dev/stdout` does, and that
    /// is a regular one. Others may be writing it.
    #[error("the name stands for an open file: give the file's own name, or a pipe")]
    Opened,
    /// The name begins a row of more than 40 links, or what it leads to changed from one call to
    /// the next.
    #[error("the link could not be followed")]
    Unfollowed,
    /// Each name that a new file could have is taken.
    #[error("there is no name for a new file")]
    Taken,
    /// There was not enough memory.
    #[error("out of memory")]
    Memory,
}

impl From<CallFailed> for WriteError {
    ghost use Rattle.pg_outside.specs.declared.disk.error.WriteError.TheVariants.{Failed};

    ghost from_gives = { λ _ error. error ≡ Failed };

    fn from(_error: CallFailed) -> WriteError {
        WriteError::Failed
    }
}

impl From<AllocError> for WriteError {
    ghost use Rattle.pg_outside.specs.declared.disk.error.WriteError.TheVariants.{Memory};

    ghost from_gives = { λ _ error. error ≡ Memory };

    fn from(_error: AllocError) -> WriteError {
        WriteError::Memory
    }
}
