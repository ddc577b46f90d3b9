//! Files in memory that can fail at a chosen call.
ghost use Rattle.std.specs.Prelude.{◌≡◌, ℕ, ◌+◌, ◌-◌, ◌^◌, ◌<◌, ◌≤◌, ◌⊎◌, List, [], take, length, min, Option, Some, None, OnOk, OnErr, IsOk, IsErr, IsSome, IfNone, OnSome, IsErrOf};
ghost use Rattle.std.specs.Option.{option_copied, option_map};
ghost use Rattle.std.specs.FinMap as fin;
ghost use Rattle.pg_outside.specs.Content.{HasPart};
ghost use Rattle.pg_outside.specs.Inside.ToldFiles.{file_at, IsTooLong, IsReadOf, IsWriteOf};
ghost use Rattle.pg_outside.specs.Inside.memory.MissingNames.{times_in};
ghost use Rattle.pg_outside.specs.Inside.memory.StoredFile.{file_map, room_in};
ghost use Rattle.pg_outside.specs.Faults.{next_count};
ghost use Rattle.pg_outside.specs.Inside.NameFaults.{RoseByOneAtMost, NoneFell, SameCounts, SameOthers};

use super::missing::note_name;
use super::plans::{Plan, Plans};
use super::stored::{StoredFile, bytes_of, read_bytes, store};
use crate::call_log::{Call, CallLog};
use crate::outside::{Failed, Files, ReadError};
use std::alloc::{AllocError, Global};

/// Files in memory. They always tell what they hold, and their reads and writes can be made to
/// fail.
///
/// A listed call raises both counts of every name. A read of a missing name raises the read
/// faults of that name alone. A write that finds no memory raises the write faults of every name.
/// Nothing else raises a count.
#[derive(Drop)]
pub struct MemoryFiles {
    alloc: Global,
    files: Vec<StoredFile>,
    /// The names of the reads that found no file.
    missing: Vec<String>,
    plans: Plans,
    log: CallLog,
    /// The faults that count for every name.
    reads_failed: u64,
    writes_failed: u64,
}

impl MemoryFiles {
    ghost use Rattle.pg_outside.specs.Inside.memory.MemoryFiles.{files_of, reads_failed_of, writes_failed_of, calls_of, made_of, listed_of, next_listed};

    /// No file, no call so far and none that is to fail.
    pub fn new(alloc: Global) -> MemoryFiles
        ensures files { files_of result ≡ fin.empty }
        ensures listed { listed_of result ≡ fin.empty }
        ensures calls { calls_of result ≡ 0 }
        ensures made { made_of result ≡ [] }
        ensures reads { (name : List ℕ) → reads_failed_of result name ≡ 0 }
        ensures writes { (name : List ℕ) → writes_failed_of result name ≡ 0 }
    {
        MemoryFiles {
            alloc,
            files: Vec::new(alloc),
            missing: Vec::new(alloc),
            plans: Plans::new(alloc),
            log: CallLog::new(),
            reads_failed: 0,
            writes_failed: 0,
        }
    }

    /// Sets the file of this name, with room for at least `room` bytes. It does not count as a
    /// call.
    ///
    /// # Errors
    /// Where there is not enough memory; all is then as before.
    pub fn add(&mut self, name: &str, bytes: &[u8], room: usize) -> Result<(), AllocError>
        ensures ok { OnOk result
            (files_of self.new ≡ fin.insert (files_of self.old) name.now bytes.now) }
        ensures room { OnOk result (room ≤ room_in self.new.files.items name.now) }
        ensures rooms { NoneFell (room_in self.old.files.items) (room_in self.new.files.items) }

        // Where memory is short, the files and their room are as before.
        ensures err { OnErr result (files_of self.new ≡ files_of self.old) }
        ensures err_rooms { OnErr result
            (SameCounts (room_in self.old.files.items) (room_in self.new.files.items)) }

        // Calls and counts are as before in both cases.
        ensures listed { listed_of self.new ≡ listed_of self.old }
        ensures calls { calls_of self.new ≡ calls_of self.old }
        ensures made { made_of self.new ≡ made_of self.old }
        ensures reads { SameCounts (reads_failed_of self.old) (reads_failed_of self.new) }
        ensures writes { SameCounts (writes_failed_of self.old) (writes_failed_of self.new) }
    {
        store(self.alloc, &mut self.files, name, bytes, room)
    }

    /// Lets the read or write with this number fail, counted from 1 over both kinds. A failing
    /// write leaves the file as before for `None`. For `Some(k)` it sets the file to the first `k`
    /// bytes of those handed to it, at most all. A call that is listed again has the later `keep`.
    ///
    /// # Errors
    /// Where there is not enough memory; all is then as before.
    pub fn fail_at(&mut self, call: u64, keep: Option<usize>) -> Result<(), AllocError>
        ensures ok { OnOk result (listed_of self.new ≡ fin.insert (listed_of self.old) call keep) }
        ensures err { OnErr result (listed_of self.new ≡ listed_of self.old) }

        // All else is as before in both cases.
        ensures files { files_of self.new ≡ files_of self.old }
        ensures rooms { SameCounts (room_in self.old.files.items) (room_in self.new.files.items) }
        ensures calls { calls_of self.new ≡ calls_of self.old }
        ensures made { made_of self.new ≡ made_of self.old }
        ensures reads { SameCounts (reads_failed_of self.old) (reads_failed_of self.new) }
        ensures writes { SameCounts (writes_failed_of self.old) (writes_failed_of self.new) }
    {
        self.plans.list(call, keep)
    }

    /// Lends the file of this name. `None` comes exactly where it is missing.
    pub fn bytes(&self, name: &str) -> Option<&[u8]>
        ensures { option_copied result ≡ file_at (files_of self.now) name.now }
    {
        bytes_of(&self.files, name)
    }

    /// Counts a call. Where it is listed, it gives its plan and raises both counts of every name.
    fn next_plan(&mut self) -> Option<Plan>
        ensures plan { option_map (λ plan. plan.keep) result ≡ next_listed self.old }
        ensures files { self.new.files ≡ self.old.files }
        ensures alloc { self.new.alloc ≡ self.old.alloc }
        ensures missing { self.new.missing ≡ self.old.missing }
        ensures made { made_of self.new ≡ made_of self.old }
        ensures listed { listed_of self.new ≡ listed_of self.old }
        ensures calls { calls_of self.new ≡ next_count (calls_of self.old) }
        ensures reads { self.old.reads_failed ≤ self.new.reads_failed }
        ensures writes { self.old.writes_failed ≤ self.new.writes_failed }
        ensures reads_by_one { self.new.reads_failed ≤ self.old.reads_failed + 1 }
        ensures writes_by_one { self.new.writes_failed ≤ self.old.writes_failed + 1 }
        ensures reads_rose { OnSome result
            (self.new.reads_failed ≡ next_count self.old.reads_failed) }
        ensures writes_rose { OnSome result
            (self.new.writes_failed ≡ next_count self.old.writes_failed) }
        ensures reads_same { IfNone result (self.new.reads_failed ≡ self.old.reads_failed) }
        ensures writes_same { IfNone result (self.new.writes_failed ≡ self.old.writes_failed) }
    {
        let plan = self.plans.next();
        if plan.is_some() {
            self.reads_failed = self.reads_failed.saturating_add(1);
            self.writes_failed = self.writes_failed.saturating_add(1);
        }
        plan
    }
}

/// Reads the file of this name, or notes the name where there is none.
fn read_or_note(
    alloc: Global,
    files: &[StoredFile],
    missing: &mut Vec<String>,
    name: &str,
    limit: usize,
    into: &mut Vec<u8>,
) -> Result<(), ReadError>
    requires empty { into.old.items ≡ [] }
    requires limit { limit < 2 ^ 64 - 1 }
    ensures fits { OnOk result (length into.new.items ≤ limit) }
    ensures cut { IsErrOf result ReadError.TooLong → length into.new.items ≡ limit + 1 }
    ensures file { OnOk result (file_at (file_map files.now) name.now ≡ Some into.new.items) }
    ensures cut_file { IsErrOf result ReadError.TooLong
        → IsTooLong (file_at (file_map files.now) name.now) limit into.new.items }

    // The name is noted where its file is missing, and nothing else changes the noted names.
    ensures failed { IsErrOf result ReadError.Failed
        → times_in missing.new.items name.now ≡ times_in missing.old.items name.now + 1 }
    ensures found { IsSome (file_at (file_map files.now) name.now)
        → IsErrOf result ReadError.Failed → ⊥ }
    ensures same { IsSome (file_at (file_map files.now) name.now)
        → missing.new.items ≡ missing.old.items }
    ensures memory { IsErrOf result ReadError.Memory → missing.new.items ≡ missing.old.items }
    ensures others { SameOthers (times_in missing.old.items) (times_in missing.new.items) name.now }
    ensures later { NoneFell (times_in missing.old.items) (times_in missing.new.items) }
    ensures by_one { RoseByOneAtMost (times_in missing.old.items) (times_in missing.new.items) }
{
    match bytes_of(files, name) {
        Some(bytes) => read_bytes(bytes, limit, into),
        None => {
            note_name(alloc, missing, name)?;
            Err(ReadError::Failed)
        }
    }
}

/// Sets the file of this name to the first `keep` bytes of those that a listed write was handed,
/// where it keeps any and there is memory.
fn store_front(
    alloc: Global,
    files: &mut Vec<StoredFile>,
    name: &str,
    bytes: &[u8],
    keep: Option<usize>,
)
    ensures part { HasPart (file_map files.old.items)
        (file_map files.new.items) name.now bytes.now }
    ensures none { keep ≡ None → file_map files.new.items ≡ file_map files.old.items }
    ensures front { (kept : ℕ) → keep ≡ Some kept
        → (file_map files.new.items ≡ file_map files.old.items)
        ⊎ (file_map files.new.items
        ≡ fin.insert (file_map files.old.items) name.now (take kept bytes.now)) }
    ensures within { (kept : ℕ) → keep ≡ Some kept
        → IsSome (file_at (file_map files.old.items) name.now)
        → min kept (length bytes.now) ≤ room_in files.old.items name.now
        → file_map files.new.items
        ≡ fin.insert (file_map files.old.items) name.now (take kept bytes.now) }
    ensures rooms { NoneFell (room_in files.old.items) (room_in files.new.items) }
{
    if let Some(keep) = keep {
        let front = &bytes[..keep.min(bytes.len())];
        let _ = store(alloc, files, name, front, 0);
    }
}

impl Files for MemoryFiles {
    ghost use Rattle.pg_outside.specs.Inside.memory.MemoryFiles.{memory_shown, reads_failed_of, calls_of, listed_of, next_listed, IsListed, IsUnlisted, HasFile, SameFiles, SameReads, SameWrites, ReadsRose, WritesRose, ReadsByOne, WritesByOne, KeepsFront, KeepsFrontWithin};

    ghost shown = { memory_shown };

    fn read(
        &mut self,
        alloc: Global,
        name: &str,
        limit: usize,
        into: &mut Vec<u8>,
    ) -> Result<(), ReadError>
        requires empty { into.old.items ≡ [] }
        requires limit { limit < 2 ^ 64 - 1 }

        // As for all files.
        ensures all { IsReadOf result name.now limit into.new.items
            (memory_shown self.old) (memory_shown self.new) }

        // The call is counted, and the calls that are to fail stay listed.
        ensures calls { calls_of self.new ≡ next_count (calls_of self.old) }
        ensures listed { listed_of self.new ≡ listed_of self.old }
        ensures rooms { SameCounts (room_in self.old.files.items) (room_in self.new.files.items) }

        // A listed read fails and raises both counts of every name.
        ensures listed_fails { IsListed self.old → IsErrOf result ReadError.Failed }
        ensures listed_reads { IsListed self.old → ReadsRose self.old self.new }
        ensures listed_writes { IsListed self.old → WritesRose self.old self.new }

        // Else only a missing name fails, and raises its own read faults alone.
        ensures found { IsUnlisted self.old → HasFile self.old name.now
            → IsErrOf result ReadError.Failed → ⊥ }
        ensures found_reads { IsUnlisted self.old
            → HasFile self.old name.now → SameReads self.old self.new }
        ensures missing_reads { IsUnlisted self.old
            → SameOthers (reads_failed_of self.old) (reads_failed_of self.new) name.now }
        ensures memory_reads { IsErrOf result ReadError.Memory → SameReads self.old self.new }
        ensures unlisted_writes { IsUnlisted self.old → SameWrites self.old self.new }

        // No count rises by more than one.
        ensures reads_by_one { ReadsByOne self.old self.new }
        ensures writes_by_one { WritesByOne self.old self.new }
    {
        self.log = self.log.and(&Call::Read(name));
        match self.next_plan() {
            Some(_) => Err(ReadError::Failed),
            None => read_or_note(alloc, &self.files, &mut self.missing, name, limit, into),
        }
    }

    fn write(&mut self, name: &str, bytes: &[u8]) -> Result<(), Failed>
        // As for all files.
        ensures all { IsWriteOf result name.now bytes.now
            (memory_shown self.old) (memory_shown self.new) }

        // The call is counted, and the calls that are to fail stay listed.
        ensures calls { calls_of self.new ≡ next_count (calls_of self.old) }
        ensures listed { listed_of self.new ≡ listed_of self.old }
        ensures rooms { NoneFell (room_in self.old.files.items) (room_in self.new.files.items) }

        // A listed write fails. The file is then as before, or has the bytes that the call keeps.
        // It has these if it was there and they fit into its room.
        ensures listed_fails { IsListed self.old → IsErr result }
        ensures listed_reads { IsListed self.old → ReadsRose self.old self.new }
        ensures keeps_none { next_listed self.old ≡ Some None → SameFiles self.old self.new }
        ensures keeps { KeepsFront self.old self.new name.now bytes.now }
        ensures keeps_within { KeepsFrontWithin self.old self.new name.now bytes.now }

        // Any other write fails only where memory is short, and then changes no file.
        ensures within { IsUnlisted self.old → HasFile self.old name.now
            → length bytes.now ≤ room_in self.old.files.items name.now → IsOk result }
        ensures unlisted_files { IsUnlisted self.old → OnErr result (SameFiles self.old self.new) }

        // A failed write raises the write faults of every name. Nothing else raises a count.
        ensures failed_writes { OnErr result (WritesRose self.old self.new) }
        ensures ok_writes { OnOk result (SameWrites self.old self.new) }
        ensures unlisted_reads { IsUnlisted self.old → SameReads self.old self.new }

        // No count rises by more than one.
        ensures reads_by_one { ReadsByOne self.old self.new }
        ensures writes_by_one { WritesByOne self.old self.new }
    {
        self.log = self.log.and(&Call::Write(name));
        match self.next_plan() {
            Some(plan) => {
                store_front(self.alloc, &mut self.files, name, bytes, plan.keep);
                Err(Failed)
            }
            None => {
                if store(self.alloc, &mut self.files, name, bytes, 0).is_err() {
                    self.writes_failed = self.writes_failed.saturating_add(1);
                    return Err(Failed);
                }
                Ok(())
            }
        }
    }
}
