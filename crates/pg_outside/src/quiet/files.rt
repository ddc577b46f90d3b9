//! Files in memory that never fail.
ghost use Rattle.std.specs.Prelude.{◌≡◌, ◌^◌, ◌-◌, ◌<◌, ◌≤◌, [], length, Option, Some, None, true, false, OnOk, OnErr, IsOk, IsErrOf};
ghost use Rattle.std.specs.Option.{option_copied};
ghost use Rattle.std.specs.FinMap as fin;
ghost use Rattle.pg_outside.specs.Inside.ToldFiles.{IsReadOf, IsWriteOf};
ghost use Rattle.pg_outside.specs.Inside.NameFaults.{NoneFell, SameCounts};
ghost use Rattle.pg_outside.specs.Inside.memory.StoredFile.{room_in};

use crate::call_log::{Call, CallLog};
use crate::memory::stored::{StoredFile, bytes_of, read_bytes, store};
use crate::outside::{Failed, Files, ReadError};
use std::alloc::{AllocError, Global};

/// Files in memory whose writes always succeed and whose reads never answer `Failed`. So their
/// counts of faults are always 0. A read may still answer `TooLong` or `Memory`.
///
/// It tells its files until a name is read that is not there, or a write finds no memory. From then
/// on it tells nothing.
#[derive(Drop)]
pub struct QuietFiles {
    alloc: Global,
    files: Vec<StoredFile>,
    is_told: bool,
    calls: CallLog,
}

impl QuietFiles {
    ghost use Rattle.pg_outside.specs.Inside.quiet.QuietFiles.{quiet_files_of, quiet_calls_of, is_telling, told_file, StaysTelling};

    /// No file; it tells this.
    pub fn new(alloc: Global) -> QuietFiles
        ensures files { quiet_files_of result ≡ fin.empty }
        ensures told { is_telling result ≡ true }
        ensures calls { quiet_calls_of result ≡ [] }
    {
        QuietFiles {
            alloc,
            files: Vec::new(alloc),
            is_told: true,
            calls: CallLog::new(),
        }
    }

    /// Sets the file of this name, with room for at least `room` bytes.
    ///
    /// # Errors
    /// Where there is not enough memory; all is then as before.
    pub fn add(&mut self, name: &str, bytes: &[u8], room: usize) -> Result<(), AllocError>
        ensures ok { OnOk result
            (quiet_files_of self.new ≡ fin.insert (quiet_files_of self.old) name.now bytes.now) }
        ensures room { OnOk result (room ≤ room_in self.new.files.items name.now) }
        ensures rooms { NoneFell (room_in self.old.files.items) (room_in self.new.files.items) }

        // Where memory is short, the files and their room are as before.
        ensures err { OnErr result (quiet_files_of self.new ≡ quiet_files_of self.old) }
        ensures err_rooms { OnErr result
            (SameCounts (room_in self.old.files.items) (room_in self.new.files.items)) }

        ensures told { StaysTelling self.old self.new }
        ensures calls { quiet_calls_of self.new ≡ quiet_calls_of self.old }
    {
        store(self.alloc, &mut self.files, name, bytes, room)
    }

    /// Whether it tells its files.
    pub fn told(&self) -> bool
        ensures { result ≡ is_telling self.now }
    {
        self.is_told
    }

    /// Lends the file of this name. `None` comes exactly where it tells nothing or the name is
    /// missing.
    pub fn bytes(&self, name: &str) -> Option<&[u8]>
        ensures { option_copied result ≡ told_file self.now name.now }
    {
        if !self.is_told {
            return None;
        }
        bytes_of(&self.files, name)
    }
}

impl Files for QuietFiles {
    ghost use Rattle.pg_outside.specs.Inside.quiet.QuietFiles.{quiet_files_of, is_telling, quiet_shown, StoresFile, LacksFile, StaysTelling};

    ghost shown = { quiet_shown };

    fn read(
        &mut self,
        _alloc: Global,
        name: &str,
        limit: usize,
        into: &mut Vec<u8>,
    ) -> Result<(), ReadError>
        requires empty { into.old.items ≡ [] }
        requires limit { limit < 2 ^ 64 - 1 }

        // As for all files.
        ensures all { IsReadOf result name.now limit into.new.items
            (quiet_shown self.old) (quiet_shown self.new) }

        // A name that is not there is read as no byte, and nothing is told from then on.
        ensures missing { LacksFile self.old name.now → IsOk result }
        ensures missing_bytes { LacksFile self.old name.now → into.new.items ≡ [] }
        ensures missing_ends { LacksFile self.old name.now → is_telling self.new ≡ false }

        // No read answers `Failed`, and one of a name that is there changes nothing.
        ensures quiet { IsErrOf result ReadError.Failed → ⊥ }
        ensures found { StoresFile self.old name.now → StaysTelling self.old self.new }
        ensures files { quiet_files_of self.new ≡ quiet_files_of self.old }
        ensures rooms { SameCounts (room_in self.old.files.items) (room_in self.new.files.items) }
    {
        self.calls = self.calls.and(&Call::Read(name));
        match bytes_of(&self.files, name) {
            Some(bytes) => read_bytes(bytes, limit, into),
            None => {
                self.is_told = false;
                Ok(())
            }
        }
    }

    fn write(&mut self, name: &str, bytes: &[u8]) -> Result<(), Failed>
        // As for all files.
        ensures all { IsWriteOf result name.now bytes.now
            (quiet_shown self.old) (quiet_shown self.new) }

        // Every write succeeds, and one to a name that is there stays told within its room.
        ensures succeeds { IsOk result }
        ensures within { StoresFile self.old name.now
            → length bytes.now ≤ room_in self.old.files.items name.now
            → StaysTelling self.old self.new }
        ensures rooms { NoneFell (room_in self.old.files.items) (room_in self.new.files.items) }
    {
        self.calls = self.calls.and(&Call::Write(name));
        if store(self.alloc, &mut self.files, name, bytes, 0).is_err() {
            self.is_told = false;
        }
        Ok(())
    }
}
