//! Why no table is made.
ghost use Rattle.std.specs.Prelude.{◌≡◌};
ghost use Rattle.pg_table.specs.declared.error.TableError.TheVariants.{Memory};

use std::alloc::{AllocError, AllocFailed};
use thiserror::Error;

/// Why no table is made.
#[derive(Debug, Drop, Error)]
pub enum TableError {
    /// The file would have more than [`TABLE_MAX`](pg_types::packed_table::TABLE_MAX) bytes.
    #[error("the table is too long")]
    TooLong,
    /// There was not enough memory.
    #[error("out of memory")]
    Memory,
}

impl From<AllocError> for TableError {
    ghost from_gives = { λ _ e. e ≡ Memory };

    fn from(_error: AllocError) -> TableError {
        TableError::Memory
    }
}

impl<T: Drop> From<AllocFailed<T>> for TableError {
    ghost from_gives = { λ _ e. e ≡ Memory };

    fn from(_error: AllocFailed<T>) -> TableError {
        TableError::Memory
    }
}
