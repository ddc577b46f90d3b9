//! A new file takes the place of an old one as a whole, or not at all.
ghost use Rattle.std.specs.Prelude.{◌≡◌, ◌≢◌, OnOk, OnErr, IfOk, IfErr, string_bytes};
ghost use Rattle.pg_outside.specs.Faults.{Rose};
ghost use Rattle.pg_outside.specs.Inside.disk.Causes.{IsCauseOf};
ghost use Rattle.pg_outside.specs.Inside.disk.Disks.{KeepsDisk, ChangesDisk, HoldsNow, MakesFile, AppendsBytes, AppendsFront, ChangesOnlyFile};
ghost use Rattle.pg_outside.specs.Inside.disk.Moments.{RunsCalls, HasMode, FillsFile, PlacesFileAs, AtPlacing, WhereDirect, AtMoment, IsWritten, IsAsBefore};
ghost use Rattle.pg_outside.specs.Inside.disk.NewNames.{IsNewName};
ghost use Rattle.pg_outside.specs.Inside.disk.Writes.{AreAllTaken};

use super::error::WriteError;
use super::links::folder_of;
use super::system::{CallFailed, FileId, System};
use std::alloc::Global;

/// What the name of a new file begins with.
const NEW_NAME: &str = "patgen-new-";

/// How many names are tried for a new file.
const NEW_NAMES_MAX: u32 = 1000;

/// A new file, and the name under which it was made.
#[derive(Drop)]
struct NewFile<F: Drop> {
    file: F,
    own: String,
}

/// Makes a file in the folder of `name`, under a name of its own that no file has. An output that
/// is itself called so is replaced like any other, since the name is passed over.
fn make_beside<S: System>(
    alloc: Global,
    system: &mut S,
    name: &str,
) -> Result<NewFile<S::File>, WriteError>
    ensures ok { IfOk result (λ made. ChangesDisk (S.told system.old) (S.told system.new)
        (MakesFile (string_bytes made.own) (S.id made.file))) }
    ensures err { OnErr result (KeepsDisk (S.told system.old) (S.told system.new)) }
    ensures own { IfOk result (λ made. IsNewName (string_bytes made.own) name.now) }
    ensures apart { IfOk result (λ made. string_bytes made.own ≢ name.now) }
    ensures ok_failures { OnOk result (S.failures system.new ≡ S.failures system.old) }
    ensures cause { IfErr result (IsCauseOf (S.failures system.old) (S.failures system.new)
        ⊥ ⊥ ⊥ (HoldsNow (S.told system.new) (AreAllTaken name.now))) }
{
    let folder = folder_of(name);
    for number in 0..NEW_NAMES_MAX {
        let own = format!(in alloc; "{folder}{NEW_NAME}{number}")?;
        if own.as_str() == name {
            continue;
        }
        if let Some(file) = system.make(own.as_str())? {
            return Ok(NewFile { file, own });
        }
    }
    Err(WriteError::Taken)
}

/// Writes all bytes, in as many calls as it takes.
pub(crate) fn write_all<S: System>(
    system: &mut S,
    file: &mut S::File,
    bytes: &[u8],
) -> Result<(), CallFailed>
    ensures file { S.id file.new ≡ S.id file.old }
    ensures ok { OnOk result ((S.failures system.new ≡ S.failures system.old)
        × RunsCalls (S.told system.old) (S.told system.new)
        (AppendsFront (S.id file.old) bytes.now) (AppendsBytes (S.id file.old) bytes.now)) }
    ensures err { OnErr result (Rose (S.failures system.old) (S.failures system.new)
        × RunsCalls (S.told system.old) (S.told system.new)
        (AppendsFront (S.id file.old) bytes.now) (AppendsFront (S.id file.old) bytes.now)) }
{
    let mut rest = bytes;
    while !rest.is_empty() {
        let count = system.write_some(file, rest)?;
        if count == 0 {
            return Err(CallFailed);
        }
        rest = &rest[count..];
    }
    Ok(())
}

/// Gives the file these permissions, where they are given.
fn keep_mode<S: System>(
    system: &mut S,
    file: &mut S::File,
    mode: Option<u32>,
) -> Result<(), CallFailed>
    ensures file { S.id file.new ≡ S.id file.old }
    ensures ok { OnOk result ((S.failures system.new ≡ S.failures system.old)
        × RunsCalls (S.told system.old) (S.told system.new)
        (ChangesOnlyFile (S.id file.old)) (HasMode (S.id file.old) mode)) }
    ensures err { OnErr result (Rose (S.failures system.old) (S.failures system.new)
        × RunsCalls (S.told system.old) (S.told system.new)
        (ChangesOnlyFile (S.id file.old)) (ChangesOnlyFile (S.id file.old))) }
{
    match mode {
        Some(mode) => system.set_mode(file, mode),
        None => Ok(()),
    }
}

/// Gives the file these bytes, and these permissions where they are given. It then waits until the
/// device has the file.
fn fill<S: System>(
    system: &mut S,
    file: &mut S::File,
    mode: Option<u32>,
    bytes: &[u8],
) -> Result<(), CallFailed>
    ensures file { S.id file.new ≡ S.id file.old }
    ensures ok { OnOk result ((S.failures system.new ≡ S.failures system.old)
        × RunsCalls (S.told system.old) (S.told system.new)
        (ChangesOnlyFile (S.id file.old)) (FillsFile (S.id file.old) mode bytes.now)) }
    ensures err { OnErr result (Rose (S.failures system.old) (S.failures system.new)
        × RunsCalls (S.told system.old) (S.told system.new)
        (ChangesOnlyFile (S.id file.old)) (ChangesOnlyFile (S.id file.old))) }
{
    keep_mode(system, file, mode)?;
    write_all(system, file, bytes)?;
    system.sync(file)
}

/// Fills the file, and lets it take the name once the device has it. The answer is which file it
/// is.
fn place<S: System>(
    system: &mut S,
    new: &mut NewFile<S::File>,
    name: &str,
    mode: Option<u32>,
    bytes: &[u8],
) -> Result<FileId, CallFailed>
    ensures own { string_bytes new.new.own ≡ string_bytes new.old.own }
    ensures ok { IfOk result (λ id. (S.failures system.new ≡ S.failures system.old)
        × RunsCalls (S.told system.old) (S.told system.new)
        (AtPlacing (string_bytes new.old.own) name.now (S.id new.old.file) mode bytes.now)
        (PlacesFileAs (string_bytes new.old.own) name.now (S.id new.old.file) mode bytes.now id)) }
    ensures err { OnErr result (Rose (S.failures system.old) (S.failures system.new)
        × RunsCalls (S.told system.old) (S.told system.new)
        (ChangesOnlyFile (S.id new.old.file)) (ChangesOnlyFile (S.id new.old.file))) }
{
    fill(system, &mut new.file, mode, bytes)?;
    let seen = system.stat(&new.file)?;
    system.rename(new.own.as_str(), name)?;
    Ok(seen.id)
}

/// Lets a new file with these bytes take this name, which is no link. The file gets these
/// permissions, where they are given. The answer is which file it is. The folder is not synced. So
/// after a power failure the name may lead to the old file, and no clause says what a disk holds
/// after a crash of the machine.
///
/// # Errors
/// Each name then leads to what it led to before. A new file that was made is removed, unless the
/// system refuses that.
pub(crate) fn replace<S: System>(
    alloc: Global,
    system: &mut S,
    name: &str,
    mode: Option<u32>,
    bytes: &[u8],
) -> Result<FileId, WriteError>
    ensures ok { IfOk result (λ id. (S.failures system.new ≡ S.failures system.old)
        × RunsCalls (S.told system.old) (S.told system.new)
        (WhereDirect name.now (AtMoment name.now bytes.now mode))
        (WhereDirect name.now (IsWritten name.now bytes.now mode id))) }
    ensures err { OnErr result (RunsCalls (S.told system.old) (S.told system.new)
        (WhereDirect name.now (AtMoment name.now bytes.now mode))
        (WhereDirect name.now (IsAsBefore name.now))) }
    ensures cause { IfErr result (IsCauseOf (S.failures system.old) (S.failures system.new)
        ⊥ ⊥ ⊥ (KeepsDisk (S.told system.old) (S.told system.new)
        × HoldsNow (S.told system.new) (AreAllTaken name.now))) }
{
    let mut new = make_beside(alloc, system, name)?;
    match place(system, &mut new, name, mode, bytes) {
        Ok(id) => Ok(id),
        Err(CallFailed) => {
            let _ = system.remove(new.own.as_str());
            Err(WriteError::Failed)
        }
    }
}
