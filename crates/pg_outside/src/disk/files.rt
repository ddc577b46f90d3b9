//! Files by name over a system of files: which file is read, replaced or written in place, and what
//! is a fault.
ghost use Rattle.std.specs.Prelude.{◌≡◌, ◌≢◌, ℕ, ◌+◌, ◌-◌, ◌^◌, ◌<◌, ◌≤◌, [], ◌∷◌, ◌++◌, length, true, Option, Some, None, IsSome, OnOk, OnErr, IfOk, IfErr, IfSome, IsErrOf, ◌⊎◌, vec_len, vec_capacity};
ghost use Rattle.pg_outside.specs.Faults.{next_count, Rose};
ghost use Rattle.pg_outside.specs.FilesCalls.{Writes};
ghost use Rattle.pg_outside.specs.Inside.disk.Causes.{IsCauseOf};
ghost use Rattle.pg_outside.specs.Inside.disk.Disks.{KeepsDisk, HoldsNow, IsOpened, IsWritable};
ghost use Rattle.pg_outside.specs.Inside.disk.Moments.{RunsCalls, WhereDirect, AtMoment, IsWritten, IsAsBefore};
ghost use Rattle.pg_outside.specs.Inside.disk.Writes.{IsIn, KeepsAll, KeepsOnly, IsContent, IsContentCut, IsNoted, IsOld, IsSeenMode, LeadsThroughOpen, IsDeep, IsFull, IsWrite, IsDiskWrite, AreAllTaken, WasKept};

use super::error::WriteError;
use super::links::follow;
use super::new_file::{replace, write_all};
use super::read::read_within;
use super::system::{FileId, FileStatus, System};
use crate::call_log::{Call, CallLog};
use crate::outside::{Failed, Files, ReadError};
use std::alloc::{AllocError, Global};

/// Files by name over a system of files, with one count of faults for every name.
///
/// A read of a missing file is a fault. So are a folder, a file that cannot be opened, and a read
/// or write that fails. A write to a name that leads to no file makes one. A write replaces a
/// regular file as a whole: the bytes go into a new file in the same folder, which takes the name
/// once the device has them. Where that fails, the old file stands as before, and the new one is
/// removed, unless the system refuses that. A link is followed, and the file that it leads to is
/// replaced in the same way. A device and a pipe are written in place. A regular file that was read
/// or written is not written again, whatever its name: such a write is a fault. So is one to a
/// regular file by a link of the system to an open file, as `/dev/stdout`, since others may still
/// write into that file.
#[derive(Drop)]
pub struct DiskFiles<S: System + Drop> {
    alloc: Global,
    system: S,
    /// The regular files that were read or written.
    kept: Vec<FileId>,
    failed: u64,
    /// Why the last write that failed did so.
    reason: Option<WriteError>,
    calls: CallLog,
}

/// Keeps in mind which regular file this is.
fn keep_regular(kept: &mut Vec<FileId>, seen: FileStatus) -> Result<(), AllocError>
    ensures all { KeepsAll kept.old.items kept.new.items }
    ensures noted { OnOk result (seen.is_regular ≡ true → IsIn seen.id kept.new.items) }
    ensures only { (kept.new.items ≡ kept.old.items) ⊎
        (kept.new.items ≡ kept.old.items ++ seen.id ∷ []) }
{
    if seen.is_regular {
        kept.push(seen.id)?;
    }
    Ok(())
}

/// The permissions of the old file that was seen, where the file that was found is the same; `None`
/// where neither was there.
///
/// # Errors
/// `Unfollowed` where they are not the same. Then somebody changed the name or a link meanwhile.
fn mode_of_found(found: Option<FileId>, old: Option<FileStatus>) -> Result<Option<u32>, WriteError>
    ensures mode { IfOk result (λ mode. IsSeenMode found old mode) }
    ensures other { OnErr result ((mode : Option ℕ) → IsSeenMode found old mode → ⊥) }
    ensures error { IfErr result (λ error. error ≡ WriteError.Unfollowed) }
{
    match (found, old) {
        (None, None) => Ok(None),
        (Some(id), Some(seen)) if id == seen.id => Ok(Some(seen.mode)),
        _ => Err(WriteError::Unfollowed),
    }
}

/// Reads the file of this name, and keeps in mind which file it is.
fn read_named<S: System>(
    system: &mut S,
    kept: &mut Vec<FileId>,
    name: &str,
    limit: usize,
    into: &mut Vec<u8>,
) -> Result<(), ReadError>
    requires empty { into.old.items ≡ [] }
    requires limit { limit < 2 ^ 64 - 1 }
    ensures same { KeepsDisk (S.told system.old) (S.told system.new)
        × KeepsAll kept.old.items kept.new.items
        × HoldsNow (S.told system.new) (KeepsOnly name.now kept.old.items kept.new.items) }
    ensures all { OnOk result ((S.failures system.new ≡ S.failures system.old)
        × (length into.new.items ≤ limit)
        × HoldsNow (S.told system.new) (IsContent name.now into.new.items)
        × HoldsNow (S.told system.new) (IsNoted name.now kept.new.items)) }
    ensures front { IsErrOf result ReadError.TooLong → (length into.new.items ≡ limit + 1)
        × HoldsNow (S.told system.new) (IsContentCut name.now limit into.new.items)
        × HoldsNow (S.told system.new) (IsNoted name.now kept.new.items) }
    ensures failed { IsErrOf result ReadError.Failed
        → Rose (S.failures system.old) (S.failures system.new) }
    ensures other_failures { IfErr result
        (λ error. error ≢ ReadError.Failed → S.failures system.new ≡ S.failures system.old) }
{
    let Ok(mut file) = system.open(name) else {
        return Err(ReadError::Failed);
    };
    let Ok(seen) = system.stat(&file) else {
        return Err(ReadError::Failed);
    };
    keep_regular(kept, seen)?;
    read_within(system, &mut file, limit, into)
}

/// Keeps in mind which new file this is. There is room for it.
fn keep_new(kept: &mut Vec<FileId>, id: FileId)
    requires { vec_len kept.old < vec_capacity kept.old }
    ensures { kept.new.items ≡ kept.old.items ++ id ∷ [] }
{
    if kept.push(id).is_err() {
        unreachable!();
    }
}

/// Lets a new file take this name, which is no link, and keeps in mind which file that is.
fn replace_kept<S: System>(
    alloc: Global,
    system: &mut S,
    kept: &mut Vec<FileId>,
    name: &str,
    mode: Option<u32>,
    bytes: &[u8],
) -> Result<(), WriteError>
    requires { vec_len kept.old < vec_capacity kept.old }
    ensures ok { OnOk result ((S.failures system.new ≡ S.failures system.old)
        × (id : FileId) × (kept.new.items ≡ kept.old.items ++ id ∷ [])
        × RunsCalls (S.told system.old) (S.told system.new)
        (WhereDirect name.now (AtMoment name.now bytes.now mode))
        (WhereDirect name.now (IsWritten name.now bytes.now mode id))) }
    ensures err { OnErr result ((kept.new.items ≡ kept.old.items)
        × RunsCalls (S.told system.old) (S.told system.new)
        (WhereDirect name.now (AtMoment name.now bytes.now mode))
        (WhereDirect name.now (IsAsBefore name.now))) }
    ensures cause { IfErr result (IsCauseOf (S.failures system.old) (S.failures system.new)
        ⊥ ⊥ ⊥ (KeepsDisk (S.told system.old) (S.told system.new)
        × HoldsNow (S.told system.new) (AreAllTaken name.now))) }
{
    let id = replace(alloc, system, name, mode, bytes)?;
    keep_new(kept, id);
    Ok(())
}

/// Writes the regular file of this name, which was seen, or makes one where the name leads to none.
/// It was neither read nor written.
fn write_regular<S: System>(
    alloc: Global,
    system: &mut S,
    kept: &mut Vec<FileId>,
    name: &str,
    old: Option<FileStatus>,
    bytes: &[u8],
) -> Result<(), WriteError>
    requires room { vec_len kept.old < vec_capacity kept.old }
    requires old { HoldsNow (S.told system.old) (IsOld name.now old) }
    requires regular { IfSome old (λ seen. seen.is_regular ≡ true) }
    requires free { IfSome old (λ seen. IsIn seen.id kept.old.items → ⊥) }
    ensures { IsWrite result (S.failures system.old) (S.failures system.new) kept.old.items
        kept.new.items (S.told system.old) (S.told system.new) name.now bytes.now }
{
    let found = follow(alloc, system, name)?;
    let mode = mode_of_found(found.file, old)?;
    replace_kept(alloc, system, kept, found.name.as_str(), mode, bytes)
}

/// Writes the file of this name, which was opened. The toolchain's files close without an answer.
/// So an error that the system tells only when a device or a pipe is closed is lost. A regular file
/// is synced before.
fn write_opened<S: System>(
    alloc: Global,
    system: &mut S,
    kept: &mut Vec<FileId>,
    file: &mut S::File,
    name: &str,
    bytes: &[u8],
) -> Result<(), WriteError>
    requires room { vec_len kept.old < vec_capacity kept.old }
    requires opened { HoldsNow (S.told system.old) (IsOpened name.now (S.id file.old)) }
    requires writable { HoldsNow (S.told system.old) (IsWritable (S.id file.old)) }
    ensures { IsWrite result (S.failures system.old) (S.failures system.new) kept.old.items
        kept.new.items (S.told system.old) (S.told system.new) name.now bytes.now }
{
    let seen = system.stat(file)?;
    if !seen.is_regular {
        write_all(system, file, bytes)?;
        return Ok(());
    }
    if kept.contains(&seen.id) {
        return Err(WriteError::Kept);
    }
    write_regular(alloc, system, kept, name, Some(seen), bytes)
}

/// Writes the file of this name: a regular file is replaced, and any other is written in place. The
/// name is opened before its links are followed. So an output costs three calls of the system more
/// than a replacement alone would, and five where its name is a link.
fn write_named<S: System>(
    alloc: Global,
    system: &mut S,
    kept: &mut Vec<FileId>,
    name: &str,
    bytes: &[u8],
) -> Result<(), WriteError>
    ensures { IsWrite result (S.failures system.old) (S.failures system.new) kept.old.items
        kept.new.items (S.told system.old) (S.told system.new) name.now bytes.now }
{
    kept.reserve(1)?;
    match system.open_to_write(name)? {
        None => write_regular(alloc, system, kept, name, None, bytes),
        Some(mut file) => write_opened(alloc, system, kept, &mut file, name, bytes),
    }
}

/// Counts a write that failed, and keeps why it did.
fn count_write(failed: &mut u64, reason: &mut Option<WriteError>, outcome: &Result<(), WriteError>)
    ensures later { failed.old ≤ failed.new }
    ensures err { OnErr outcome.now (failed.new ≡ next_count failed.old) }
    ensures ok { OnOk outcome.now (failed.new ≡ failed.old) }
    ensures reason { IfErr outcome.now (λ error. reason.new ≡ Some error) }
    ensures ok_reason { OnOk outcome.now (reason.new ≡ reason.old) }
{
    if let Err(error) = outcome {
        *failed = failed.saturating_add(1);
        *reason = Some(*error);
    }
}

/// Counts a read that failed.
fn count_read(failed: &mut u64, outcome: &Result<(), ReadError>)
    ensures later { failed.old ≤ failed.new }
    ensures failed { IsErrOf outcome.now ReadError.Failed → failed.new ≡ next_count failed.old }
    ensures ok { OnOk outcome.now (failed.new ≡ failed.old) }
    ensures long { IsErrOf outcome.now ReadError.TooLong → failed.new ≡ failed.old }
    ensures memory { IsErrOf outcome.now ReadError.Memory → failed.new ≡ failed.old }
{
    if let Err(ReadError::Failed) = outcome {
        *failed = failed.saturating_add(1);
    }
}

impl<S: System + Drop> DiskFiles<S> {
    ghost use Rattle.pg_outside.specs.Inside.disk.WhatDiskShows.{all_faults, disk_calls};

    /// The files of this system, with no read, no write and no fault so far.
    pub fn new(alloc: Global, system: S) -> DiskFiles<S>
        ensures system { result.system ≡ system }
        ensures kept { result.kept.items ≡ [] }
        ensures faults { all_faults result ≡ 0 }
        ensures reason { result.reason ≡ None }
        ensures calls { disk_calls result ≡ [] }
    {
        DiskFiles {
            alloc,
            system,
            kept: Vec::new(alloc),
            failed: 0,
            reason: None,
            calls: CallLog::new(),
        }
    }

    /// Lends the system.
    pub fn system(&self) -> &S
        ensures { result.now ≡ self.now.system }
    {
        &self.system
    }

    /// Why the last write that failed did so, where one failed.
    pub fn reason(&self) -> Option<WriteError>
        ensures { result ≡ self.now.reason }
    {
        self.reason
    }

    /// Sets the file of this name to `bytes`.
    ///
    /// # Errors
    /// Each is a fault. `Failed` where a call of the system failed, as on a file that may not be
    /// written. `Kept` where the name leads to a regular file that was read or written before.
    /// `Opened` where it leads to one, or to none, through a link of the system to an open file.
    /// `Unfollowed` where it begins a row of more than 40 links, or leads to another file than it
    /// did a call before. `Taken` where each of a thousand names that a new file could have is
    /// taken. `Memory` may always come.
    pub fn write_file(&mut self, name: &str, bytes: &[u8]) -> Result<(), WriteError>
        // What it leaves.
        ensures disk { IsDiskWrite S.told S.failures result
            self.old self.new name.now bytes.now }

        // Each failure has its cause, and `Failed` alone comes where a call of the system failed.
        ensures cause { IfErr result
            (IsCauseOf (S.failures self.old.system) (S.failures self.new.system)
            (HoldsNow (S.told self.new.system) (WasKept name.now self.old.kept.items))
            (HoldsNow (S.told self.new.system) (LeadsThroughOpen name.now))
            (HoldsNow (S.told self.new.system) (IsDeep name.now))
            (HoldsNow (S.told self.new.system) (IsFull name.now))) }

        // The error is kept until another write fails.
        ensures reason { IfErr result (λ error. self.new.reason ≡ Some error) }
        ensures ok_reason { OnOk result (self.new.reason ≡ self.old.reason) }

        // No count of faults falls, and the call is one more.
        ensures later { all_faults self.old ≤ all_faults self.new }
        ensures calls { disk_calls self.new ≡ disk_calls self.old ++ Writes name.now ∷ [] }
    {
        self.calls = self.calls.and(&Call::Write(name));
        let result = write_named(self.alloc, &mut self.system, &mut self.kept, name, bytes);
        count_write(&mut self.failed, &mut self.reason, &result);
        result
    }
}

impl<S: System + Drop> Files for DiskFiles<S> {
    ghost use Rattle.pg_outside.specs.Inside.ToldFiles.{IsReadOf, IsWriteOf};
    ghost use Rattle.pg_outside.specs.Inside.disk.WhatDiskShows.{all_faults, disk_shown};

    ghost shown = { disk_shown S.told };

    fn read(
        &mut self,
        _alloc: Global,
        name: &str,
        limit: usize,
        into: &mut Vec<u8>,
    ) -> Result<(), ReadError>
        requires empty { into.old.items ≡ [] }
        requires limit { limit < 2 ^ 64 - 1 }

        // As for all files.
        ensures all { IsReadOf result name.now limit into.new.items
            (disk_shown S.told self.old) (disk_shown S.told self.new) }

        // The disk is as before, and where it is told, the bytes are those of the file that the
        // name leads to.
        ensures same { KeepsDisk (S.told self.old.system) (S.told self.new.system) }
        ensures content { OnOk result
            (HoldsNow (S.told self.new.system) (IsContent name.now into.new.items)) }
        ensures content_cut { IsErrOf result ReadError.TooLong
            → HoldsNow (S.told self.new.system) (IsContentCut name.now limit into.new.items) }

        // A regular file that the name leads to is kept in mind, with those that were, and no
        // other.
        ensures kept { KeepsAll self.old.kept.items self.new.kept.items }
        ensures noted { OnOk result
            (HoldsNow (S.told self.new.system) (IsNoted name.now self.new.kept.items)) }
        ensures cut_noted { IsErrOf result ReadError.TooLong
            → HoldsNow (S.told self.new.system) (IsNoted name.now self.new.kept.items) }
        ensures only { HoldsNow (S.told self.new.system)
            (KeepsOnly name.now self.old.kept.items self.new.kept.items) }

        // It fails only where a call of the system failed.
        ensures cause { IsErrOf result ReadError.Failed
            → Rose (S.failures self.old.system) (S.failures self.new.system) }

        // Where it is done no call of the system failed, so none was tried again. Nor did one where
        // the file is too long or memory is short.
        ensures ok_failures { OnOk result
            (S.failures self.new.system ≡ S.failures self.old.system) }
        ensures other_failures { IfErr result (λ error. error ≢ ReadError.Failed
            → S.failures self.new.system ≡ S.failures self.old.system) }

        // A read that fails is one fault, and no other read is one.
        ensures one_fault { IsErrOf result ReadError.Failed
            → all_faults self.new ≡ next_count (all_faults self.old) }
        ensures ok_faults { OnOk result (all_faults self.new ≡ all_faults self.old) }
        ensures long_faults { IsErrOf result ReadError.TooLong
            → all_faults self.new ≡ all_faults self.old }
        ensures memory_faults { IsErrOf result ReadError.Memory
            → all_faults self.new ≡ all_faults self.old }
    {
        self.calls = self.calls.and(&Call::Read(name));
        let result = read_named(&mut self.system, &mut self.kept, name, limit, into);
        count_read(&mut self.failed, &result);
        result
    }

    fn write(&mut self, name: &str, bytes: &[u8]) -> Result<(), Failed>
        // As for all files.
        ensures all { IsWriteOf result name.now bytes.now
            (disk_shown S.told self.old) (disk_shown S.told self.new) }

        // What it leaves.
        ensures disk { IsDiskWrite S.told S.failures result
            self.old self.new name.now bytes.now }

        // The reason of a write that fails is kept until another one fails.
        ensures reason { OnErr result (IsSome self.new.reason) }
        ensures ok_reason { OnOk result (self.new.reason ≡ self.old.reason) }
    {
        match self.write_file(name, bytes) {
            Ok(()) => Ok(()),
            Err(_) => Err(Failed),
        }
    }
}
