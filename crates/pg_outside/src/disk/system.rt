//! A system of files, whose every call is one call of the operating system.
ghost use Rattle.std.specs.Prelude.{◌≡◌, ℕ, ◌+◌, ◌-◌, ◌^◌, ◌<◌, ◌≤◌, List, take, length, Option, Some, None, MatchOption, OnOk, OnErr, IfOk, IfSome, IfNone, string_bytes};
ghost use Rattle.pg_outside.specs.declared.disk.system.FileId.{FileId};
ghost use Rattle.pg_outside.specs.Faults.{Rose};
ghost use Rattle.pg_outside.specs.Inside.disk.Disks.{DiskHistory, KeepsDisk, ChangesDisk, HoldsNow, MakesFile, AppendsBytes, AppendsFront, ChangesOnlyFile, SyncsFile, SetsMode, RenamesUnlessLink, RemovesUnlessLink, RefusesRemoval, IsNameTaken, IsKindOf, IsFollowedBy, IsOpened, IsWritable, LeadsToNone, IsStat, HasPiece, KnowsPlain, KnowsNewNames};

use std::alloc::Global;
use thiserror::Error;

/// A call of the system failed.
#[derive(Clone, Copy, Debug, PartialEq, Eq, Error)]
#[error("a call of the system failed")]
pub struct CallFailed;

/// Which file this is, whatever its name.
#[derive(Clone, Copy, PartialEq, Eq)]
pub struct FileId {
    /// The device that the file is on.
    pub device: u64,
    /// Its number on that device.
    pub inode: u64,
}

/// What a name is, before a link is followed.
#[derive(Clone, Copy)]
pub enum NameKind {
    /// Nothing has this name.
    Missing,
    /// A symbolic link, but none to an open file.
    Link,
    /// A link of the system to a file that is open, as `/proc/self/fd/1`.
    OpenFile,
    /// Anything else, as a file or a folder.
    File(FileId),
}

/// What the system says of an opened file.
#[derive(Clone, Copy)]
pub struct FileStatus {
    /// Which file it is.
    pub id: FileId,
    /// Whether it is a regular file, and no folder, device or pipe.
    pub is_regular: bool,
    /// Its permissions, as bits.
    pub mode: u32,
}

/// A system of files, which may tell the disk and what it held after each call before.
///
/// Each call is one call of the operating system. Where the disk is told, a call that may change it
/// adds the disk before it to the past. Any other leaves the disk and its past as they are.
pub trait System {
    /// An opened file.
    type File: Drop;

    ghost told: { Self → Option DiskHistory };

    /// How many calls failed. It stands still at the last value of u64.
    ghost failures: { Self → ℕ };

    /// The file that was opened.
    ghost id: { Self.File → FileId };

    /// How many of the file's bytes were read since it was opened.
    ghost at: { Self.File → ℕ };

    /// What the name is. A link at its end is not followed.
    fn look(&mut self, name: &str) -> Result<NameKind, CallFailed>
        ensures same { KeepsDisk (told self.old) (told self.new) }
        ensures kind { IfOk result (λ kind. HoldsNow (told self.new) (IsKindOf name.now kind)) }
        ensures later { failures self.old ≤ failures self.new }
        ensures ok_failures { OnOk result (failures self.new ≡ failures self.old) }
        ensures failed { OnErr result (Rose (failures self.old) (failures self.new)) };

    /// The text of a link. It is a name, seen from the folder of the link.
    fn read_link(&mut self, alloc: Global, name: &str) -> Result<String, CallFailed>
        ensures same { KeepsDisk (told self.old) (told self.new) }
        ensures text { IfOk result
            (λ text. HoldsNow (told self.new) (IsFollowedBy name.now (string_bytes text))) }
        ensures later { failures self.old ≤ failures self.new }
        ensures ok_failures { OnOk result (failures self.new ≡ failures self.old) }
        ensures failed { OnErr result (Rose (failures self.old) (failures self.new)) };

    /// Opens the file that the name leads to at its start, to be read.
    fn open(&mut self, name: &str) -> Result<Self::File, CallFailed>
        ensures same { KeepsDisk (told self.old) (told self.new) }
        ensures opened { IfOk result
            (λ file. HoldsNow (told self.new) (IsOpened name.now (id file))) }
        ensures start { IfOk result (λ file. at file ≡ 0) }
        ensures later { failures self.old ≤ failures self.new }
        ensures ok_failures { OnOk result (failures self.new ≡ failures self.old) }
        ensures failed { OnErr result (Rose (failures self.old) (failures self.new)) };

    /// Opens the file that the name leads to, to be written behind its bytes. `None` comes where it
    /// leads to none. A file that may not be written is not opened.
    fn open_to_write(&mut self, name: &str) -> Result<Option<Self::File>, CallFailed>
        ensures same { KeepsDisk (told self.old) (told self.new) }
        ensures opened { IfOk result
            (λ opened. MatchOption opened (HoldsNow (told self.new) (LeadsToNone name.now))
            (λ file. HoldsNow (told self.new) (IsOpened name.now (id file)))) }
        ensures writable { IfOk result (λ opened. IfSome opened (λ file.
            HoldsNow (told self.new) (IsWritable (id file)))) }
        ensures later { failures self.old ≤ failures self.new }
        ensures ok_failures { OnOk result (failures self.new ≡ failures self.old) }
        ensures failed { OnErr result (Rose (failures self.old) (failures self.new)) };

    /// Which file this is, and of what kind.
    fn stat(&mut self, file: &Self::File) -> Result<FileStatus, CallFailed>
        ensures same { KeepsDisk (told self.old) (told self.new) }
        ensures seen { IfOk result (λ seen. HoldsNow (told self.new) (IsStat (id file.now) seen)) }
        ensures later { failures self.old ≤ failures self.new }
        ensures ok_failures { OnOk result (failures self.new ≡ failures self.old) }
        ensures failed { OnErr result (Rose (failures self.old) (failures self.new)) };

    /// Reads some of the next bytes, and none only at the end.
    fn read_some(&mut self, file: &mut Self::File, buffer: &mut [u8]) -> Result<usize, CallFailed>
        ensures same { KeepsDisk (told self.old) (told self.new) }
        ensures file { id file.new ≡ id file.old }
        ensures bound { IfOk result (λ count. count ≤ length buffer.old) }
        ensures bytes { IfOk result (λ count. HoldsNow (told self.new)
            (HasPiece (id file.old) (at file.old)
            (at file.new) count (length buffer.old) buffer.new)) }
        ensures later { failures self.old ≤ failures self.new }
        ensures ok_failures { OnOk result (failures self.new ≡ failures self.old) }
        ensures failed { OnErr result (Rose (failures self.old) (failures self.new)) };

    /// Makes a regular file under a name that is not taken. `None` comes where the name is taken.
    fn make(&mut self, name: &str) -> Result<Option<Self::File>, CallFailed>
        ensures ok { IfOk result (λ made. MatchOption made
            (KeepsDisk (told self.old) (told self.new))
            (λ file. ChangesDisk (told self.old) (told self.new) (MakesFile name.now (id file)))) }
        ensures err { OnErr result (KeepsDisk (told self.old) (told self.new)) }
        ensures later { failures self.old ≤ failures self.new }
        ensures taken { IfOk result
            (λ made. IfNone made (HoldsNow (told self.new) (IsNameTaken name.now))) }
        ensures ok_failures { OnOk result (failures self.new ≡ failures self.old) }
        ensures failed { OnErr result (Rose (failures self.old) (failures self.new)) };

    /// Gives the file these permissions.
    fn set_mode(&mut self, file: &mut Self::File, mode: u32) -> Result<(), CallFailed>
        ensures file { id file.new ≡ id file.old }
        ensures ok { OnOk result
            (ChangesDisk (told self.old) (told self.new) (SetsMode (id file.old) mode)) }
        ensures err { OnErr result
            (ChangesDisk (told self.old) (told self.new) (ChangesOnlyFile (id file.old))) }
        ensures later { failures self.old ≤ failures self.new }
        ensures ok_failures { OnOk result (failures self.new ≡ failures self.old) }
        ensures failed { OnErr result (Rose (failures self.old) (failures self.new)) };

    /// Appends some of the bytes. A call that takes none of them failed. One that gives no number
    /// may have appended a first part.
    fn write_some(&mut self, file: &mut Self::File, bytes: &[u8]) -> Result<usize, CallFailed>
        ensures file { id file.new ≡ id file.old }
        ensures bound { IfOk result (λ count. count ≤ length bytes.now) }
        ensures ok { IfOk result (λ count. ChangesDisk (told self.old) (told self.new)
            (AppendsBytes (id file.old) (take count bytes.now))) }
        ensures err { OnErr result
            (ChangesDisk (told self.old) (told self.new) (AppendsFront (id file.old) bytes.now)) }
        ensures later { failures self.old ≤ failures self.new }
        ensures none { IfOk result
            (λ count. count ≡ 0 → Rose (failures self.old) (failures self.new)) }
        ensures ok_failures { IfOk result
            (λ count. 0 < count → failures self.new ≡ failures self.old) }
        ensures failed { OnErr result (Rose (failures self.old) (failures self.new)) };

    /// Waits until the device has the file.
    fn sync(&mut self, file: &mut Self::File) -> Result<(), CallFailed>
        ensures file { id file.new ≡ id file.old }
        ensures ok { OnOk result
            (ChangesDisk (told self.old) (told self.new) (SyncsFile (id file.old))) }
        ensures err { OnErr result
            (ChangesDisk (told self.old) (told self.new) (ChangesOnlyFile (id file.old))) }
        ensures later { failures self.old ≤ failures self.new }
        ensures ok_failures { OnOk result (failures self.new ≡ failures self.old) }
        ensures failed { OnErr result (Rose (failures self.old) (failures self.new)) };

    /// Gives the file with the name `from` the name `to`. A file that had this name loses it.
    fn rename(&mut self, from: &str, to: &str) -> Result<(), CallFailed>
        ensures ok { OnOk result
            (ChangesDisk (told self.old) (told self.new) (RenamesUnlessLink from.now to.now)) }
        ensures err { OnErr result (KeepsDisk (told self.old) (told self.new)) }
        ensures later { failures self.old ≤ failures self.new }
        ensures ok_failures { OnOk result (failures self.new ≡ failures self.old) }
        ensures failed { OnErr result (Rose (failures self.old) (failures self.new)) };

    /// Takes the name away.
    fn remove(&mut self, name: &str) -> Result<(), CallFailed>
        ensures ok { OnOk result
            (ChangesDisk (told self.old) (told self.new) (RemovesUnlessLink name.now)) }
        ensures err { OnErr result
            (ChangesDisk (told self.old) (told self.new) (RefusesRemoval name.now)) }
        ensures later { failures self.old ≤ failures self.new }
        ensures ok_failures { OnOk result (failures self.new ≡ failures self.old) }
        ensures failed { OnErr result (Rose (failures self.old) (failures self.new)) };

    /// A disk that is told to be plain has no links, and each file with a name is regular.
    ghost plain: { (system : Self) → HoldsNow (told system) KnowsPlain };

    /// In a folder, a new file's own name stands for no other name.
    ghost new_names: { (system : Self) → HoldsNow (told system) KnowsNewNames };
}
