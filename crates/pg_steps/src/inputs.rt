//! The files that a command reads, and why it stops at one of them.
ghost use Rattle.std.specs.Prelude.{◌≡◌};
ghost use Rattle.pg_steps.specs.declared.inputs.Stop.TheVariants.{Memory};

use pg_types::Refusal;
use std::alloc::AllocError;

/// A file that `generate` writes. `audit` compares all of them but the cells file.
#[derive(Clone, Copy)]
pub enum Given {
    /// The pattern file.
    Patterns,
    /// The hyphenated list.
    Pattmp,
    Cells,
    Report,
}

/// What a file is read as.
#[derive(Clone, Copy)]
pub enum Input {
    /// The translate file.
    Translate,
    Parameters,
    /// A pattern file: the starting patterns, or the finished ones of `pack` and `prune`.
    Patterns,
    Dictionary,
    /// One of several parameter files, by its number from 1.
    Set(u8),
    /// A packed table.
    Table,
    /// A file that is compared.
    Given(Given),
}

/// Why a command stopped before it wrote.
#[derive(Clone, Copy)]
pub enum Stop<'a> {
    /// This input breaks its rules.
    Refused(Input, Refusal),
    /// The file of this name could not be read.
    Unread(&'a str),
    /// There was not enough memory.
    Memory,
}

impl<'a> From<AllocError> for Stop<'a> {
    ghost from_gives = { λ _ stop. stop ≡ Memory };

    fn from(_error: AllocError) -> Stop<'a> {
        Stop::Memory
    }
}
