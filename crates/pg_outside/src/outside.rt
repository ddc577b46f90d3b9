//! The two traits through which a command reads, writes and prints.
ghost use Rattle.std.specs.Prelude.{◌≡◌, ◌-◌, ◌^◌, ◌<◌, ◌≤◌, [], OnOk, OnErr};
ghost use Rattle.pg_outside.specs.Content.{FilesShown, SinkShown};
ghost use Rattle.pg_outside.specs.Inside.ToldFiles.{WasPut, WasPartPut, IsReadOf, IsWriteOf};
ghost use Rattle.pg_outside.specs.Faults.{next_count, Rose};

use std::alloc::{AllocError, Global};
use thiserror::Error;

/// Why a read gave no file.
#[derive(Clone, Copy, Debug, PartialEq, Eq, Error)]
pub enum ReadError {
    /// The file could not be read; the read faults of its name rose.
    #[error("the file could not be read")]
    Failed,
    /// The file has more bytes than the limit.
    #[error("the file is longer than its limit")]
    TooLong,
    /// There was not enough memory.
    #[error("out of memory")]
    Memory,
}

impl From<AllocError> for ReadError {
    ghost use Rattle.pg_outside.specs.declared.outside.ReadError.TheVariants.{Memory};

    ghost from_gives = { λ _ error. error ≡ Memory };

    fn from(_error: AllocError) -> ReadError {
        ReadError::Memory
    }
}

/// A write or a put failed; the count of faults rose.
#[derive(Clone, Copy, Debug, PartialEq, Eq, Error)]
#[error("the bytes could not be written")]
pub struct Failed;

/// Files that are read and written whole, by name.
///
/// An object shows, as `shown`, the counts of the faults of reading and of writing each name. No
/// count ever falls. A count rose where it is greater than before, or has reached 2^64 - 1. The
/// object also shows the calls that there were, each with its name, in their order. Where it tells
/// what it holds, it shows this too.
pub trait Files {
    ghost shown: { Self → FilesShown };

    /// Reads a file of at most `limit` bytes into `into`, which is empty before. The limit is below
    /// 2^64 - 1.
    ///
    /// # Errors
    /// `TooLong` where the file has more than `limit` bytes; `into` then has its first
    /// `limit + 1` bytes. `Failed` where the read faults of `name` rose. `Memory` may always
    /// come. After `Failed` and `Memory` nothing is said of `into`.
    fn read(
        &mut self,
        alloc: Global,
        name: &str,
        limit: usize,
        into: &mut Vec<u8>,
    ) -> Result<(), ReadError>
        requires empty { into.old.items ≡ [] }
        requires limit { limit < 2 ^ 64 - 1 }
        ensures { IsReadOf result name.now limit into.new.items
            (shown self.old) (shown self.new) };

    /// Sets the file of this name to `bytes`, and leaves all others as they were.
    ///
    /// # Errors
    /// Where the write faults of `name` rose; the file is then as before or a prefix of `bytes`.
    fn write(&mut self, name: &str, bytes: &[u8]) -> Result<(), Failed>
        ensures { IsWriteOf result name.now bytes.now (shown self.old) (shown self.new) };
}

/// Where lines are printed.
///
/// An object shows, as `shown`, how many puts there were, and the count of its faults. No count
/// ever falls. Where it tells what was put, it shows this too.
pub trait Sink {
    ghost shown: { Self → SinkShown };

    /// Appends `bytes`.
    ///
    /// # Errors
    /// Where the faults rose; a prefix of `bytes` was then appended.
    fn put(&mut self, bytes: &[u8]) -> Result<(), Failed>
        ensures whole { OnOk result (WasPut (shown self.old).text (shown self.new).text bytes.now) }
        ensures part { OnErr result
            (WasPartPut (shown self.old).text (shown self.new).text bytes.now) }
        ensures later { (shown self.old).faults ≤ (shown self.new).faults }
        ensures failed { OnErr result (Rose (shown self.old).faults (shown self.new).faults) }
        ensures puts { (shown self.new).puts ≡ next_count (shown self.old).puts };
}
