//! The adapter over real files: each call is one call of the operating system, and it decides
//! nothing. To look at a link is two calls, since the second tells the links of the system by their
//! device.
ghost use Rattle.std.specs.Prelude.{◌≡◌, ◌≢◌, ◌≤◌, None, Some, Ok, IsErr, IfOk, IfErr, OnOk, OnErr};
ghost use Rattle.std.specs.IoError.{error_kind};
ghost use Rattle.pg_outside.specs.Faults.{Rose, next_count};

use super::files::DiskFiles;
use super::system::{CallFailed, FileId, FileStatus, NameKind, System};
use crate::streams::{read_some, write_some};
use std::alloc::Global;
use std::fs::{File, Metadata, OpenFile, OpenOptions, Permissions};
use std::io::ErrorKind;
use std::os::unix::fs::{MetadataExt, PermissionsExt};
use std::path::PathBuf;
use std::{fs, io, rt};

/// Real files by their paths. A call that a signal interrupts goes on.
pub type HostFiles<R> = DiskFiles<HostSystem<R>>;

/// The calls of the system on real files. They tell no content. They count the calls that failed,
/// and keep the last reason that the system gave.
#[derive(Drop)]
pub struct HostSystem<R: rt::Files + Drop> {
    system: R,
    failures: u64,
    reason: Option<io::Error>,
}

fn id_of(metadata: &Metadata) -> FileId {
    FileId {
        device: metadata.dev(),
        inode: metadata.ino(),
    }
}

/// A name where the system shows its processes. What each has opened stands there as links.
const PROCESS: &str = "/proc/self";

/// Whether a link is one of the system to an open file: whether it stands where the system shows its
/// processes.
fn is_open(system: &impl rt::Files, link: &Metadata) -> bool {
    match fs::symlink_metadata(system, PROCESS) {
        Ok(process) => link.dev() == process.dev(),
        Err(_) => false,
    }
}

/// What a name is, by what the system says of it.
fn kind_of(system: &impl rt::Files, found: Option<Metadata>) -> NameKind {
    match found {
        None => NameKind::Missing,
        Some(link) if link.is_symlink() && is_open(system, &link) => NameKind::OpenFile,
        Some(link) if link.is_symlink() => NameKind::Link,
        Some(file) => NameKind::File(id_of(&file)),
    }
}

/// The text of a link. It has to be UTF-8.
fn text_of(alloc: Global, path: &PathBuf) -> Result<String, CallFailed> {
    match path.to_str() {
        Some(text) => String::from_str(alloc, text).or(Err(CallFailed)),
        None => Err(CallFailed),
    }
}

fn status_of(metadata: io::Result<Metadata>) -> io::Result<FileStatus> {
    let metadata = metadata?;
    Ok(FileStatus {
        id: id_of(&metadata),
        is_regular: metadata.is_file(),
        mode: metadata.mode(),
    })
}

impl<R: rt::Files + Drop> HostSystem<R> {
    /// The files of this system, with no call so far.
    pub fn new(system: R) -> HostSystem<R>
        ensures system { result.system ≡ system }
        ensures failures { result.failures ≡ 0 }
        ensures reason { result.reason ≡ None }
    {
        HostSystem {
            system,
            failures: 0,
            reason: None,
        }
    }

    /// The last reason that the system gave for a failed call; none where it gave none. A failure
    /// without a reason leaves the older one: a write that took no byte, and a link whose text is
    /// not UTF-8 or could not be copied.
    pub fn reason(&self) -> Option<io::Error>
        ensures { result ≡ self.now.reason }
    {
        self.reason
    }
}

/// Counts a call where it failed.
fn count<T>(failures: &mut u64, outcome: Result<T, CallFailed>) -> Result<T, CallFailed>
    ensures same { result ≡ outcome }
    ensures later { failures.old ≤ failures.new }
    ensures ok_failures { OnOk result (failures.new ≡ failures.old) }
    ensures failed { OnErr result (Rose failures.old failures.new) }
{
    match outcome {
        Ok(value) => Ok(value),
        Err(error) => {
            count_failure(failures);
            Err(error)
        }
    }
}

/// Counts a call where it failed, and keeps why it did.
fn count_and_keep<T>(
    reason: &mut Option<io::Error>,
    failures: &mut u64,
    outcome: io::Result<T>,
) -> Result<T, CallFailed>
    ensures same { IfOk result (λ value. outcome ≡ Ok value) }
    ensures later { failures.old ≤ failures.new }
    ensures ok_failures { OnOk result (failures.new ≡ failures.old) }
    ensures failed { OnErr result (Rose failures.old failures.new) }
    ensures reason { IfErr outcome (λ error. reason.new ≡ Some error) }
    ensures ok_reason { OnOk result (reason.new ≡ reason.old) }
{
    match outcome {
        Ok(value) => Ok(value),
        Err(error) => {
            *reason = Some(error);
            count_failure(failures);
            Err(CallFailed)
        }
    }
}

/// Counts a call where it failed, and keeps why it did. The reason `none` is an answer, not a
/// failure.
fn count_unless_none<T>(
    reason: &mut Option<io::Error>,
    failures: &mut u64,
    outcome: io::Result<T>,
    none: ErrorKind,
) -> Result<Option<T>, CallFailed>
    ensures same { IfOk outcome (λ value. result ≡ Ok (Some value)) }
    ensures missing { IfErr outcome (λ error. (error_kind error ≡ none) → (result ≡ Ok None)) }
    ensures failing { IfErr outcome (λ error. (error_kind error ≢ none) → IsErr result) }
    ensures later { failures.old ≤ failures.new }
    ensures ok_failures { OnOk result (failures.new ≡ failures.old) }
    ensures failed { OnErr result (Rose failures.old failures.new) }
    ensures reason { OnErr result (IfErr outcome (λ error. reason.new ≡ Some error)) }
    ensures ok_reason { OnOk result (reason.new ≡ reason.old) }
{
    match outcome {
        Ok(value) => Ok(Some(value)),
        Err(error) if error.kind() == none => Ok(None),
        Err(error) => {
            *reason = Some(error);
            count_failure(failures);
            Err(CallFailed)
        }
    }
}

fn count_failure(failures: &mut u64)
    ensures later { failures.old ≤ failures.new }
    ensures rose { failures.new ≡ next_count failures.old }
{
    *failures = failures.saturating_add(1);
}

impl<R: rt::Files + Drop> System for HostSystem<R> {
    type File = R::File;

    ghost told = { λ _. None };

    ghost failures = { λ system. system.failures };

    ghost id = { λ _. record { device = 0; inode = 0 } };

    ghost at = { λ _. 0 };

    ghost plain = { λ _. tt };

    ghost new_names = { λ _. tt };

    fn look(&mut self, name: &str) -> Result<NameKind, CallFailed> {
        let found = fs::symlink_metadata(&self.system, name);
        let none = ErrorKind::NotFound;
        let found = count_unless_none(&mut self.reason, &mut self.failures, found, none)?;
        Ok(kind_of(&self.system, found))
    }

    fn read_link(&mut self, alloc: Global, name: &str) -> Result<String, CallFailed> {
        let path = self.system.read_link(alloc, name);
        let path = count_and_keep(&mut self.reason, &mut self.failures, path)?;
        count(&mut self.failures, text_of(alloc, &path))
    }

    fn open(&mut self, name: &str) -> Result<R::File, CallFailed> {
        let file = fs::open(&self.system, name);
        count_and_keep(&mut self.reason, &mut self.failures, file)
    }

    fn open_to_write(&mut self, name: &str) -> Result<Option<R::File>, CallFailed> {
        let file = OpenOptions::new().write(true).open(&self.system, name);
        count_unless_none(
            &mut self.reason,
            &mut self.failures,
            file,
            ErrorKind::NotFound,
        )
    }

    fn stat(&mut self, file: &R::File) -> Result<FileStatus, CallFailed> {
        let seen = status_of(file.metadata());
        count_and_keep(&mut self.reason, &mut self.failures, seen)
    }

    fn read_some(&mut self, file: &mut R::File, buffer: &mut [u8]) -> Result<usize, CallFailed> {
        let count = read_some(file, buffer);
        count_and_keep(&mut self.reason, &mut self.failures, count)
    }

    fn make(&mut self, name: &str) -> Result<Option<R::File>, CallFailed> {
        let file = File::create_new(&self.system, name);
        let none = ErrorKind::AlreadyExists;
        count_unless_none(&mut self.reason, &mut self.failures, file, none)
    }

    fn set_mode(&mut self, file: &mut R::File, mode: u32) -> Result<(), CallFailed> {
        let outcome = file.set_permissions(Permissions::from_mode(mode));
        count_and_keep(&mut self.reason, &mut self.failures, outcome)
    }

    fn write_some(&mut self, file: &mut R::File, bytes: &[u8]) -> Result<usize, CallFailed> {
        match write_some(file, bytes) {
            Ok(0) => {
                count_failure(&mut self.failures);
                Ok(0)
            }
            Ok(count) => Ok(count),
            Err(error) => {
                self.reason = Some(error);
                count(&mut self.failures, Err(CallFailed))
            }
        }
    }

    fn sync(&mut self, file: &mut R::File) -> Result<(), CallFailed> {
        let outcome = file.sync_all();
        count_and_keep(&mut self.reason, &mut self.failures, outcome)
    }

    fn rename(&mut self, from: &str, to: &str) -> Result<(), CallFailed> {
        let outcome = fs::rename(&self.system, from, to);
        count_and_keep(&mut self.reason, &mut self.failures, outcome)
    }

    fn remove(&mut self, name: &str) -> Result<(), CallFailed> {
        let outcome = fs::remove_file(&self.system, name);
        count_and_keep(&mut self.reason, &mut self.failures, outcome)
    }
}
