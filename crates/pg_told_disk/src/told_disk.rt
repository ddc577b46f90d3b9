//! A disk in memory, some calls of which fail.
ghost use Rattle.std.specs.Prelude.{◌≡◌, ◌≤◌, [], ◌∷◌, true, false, IfOk};
ghost use Rattle.pg_outside.specs.Faults.{Rose};
ghost use Rattle.pg_told_disk.specs.Inside.Changes.{IsHeldIn};

use crate::change::Change;
use crate::links::{Link, is_link, is_open, link_of, real_of, text_of};
use crate::lookup::{bytes_of, lets_write, mode_of, number_of};
use pg_outside::{CallFailed, FileId, FileStatus, NameKind, System, linked_name};
use std::alloc::{AllocError, Global};

/// How many bytes a write takes at most.
const PIECE: usize = 16;

/// A file of a disk in memory, and how many of its bytes were read.
#[derive(Drop)]
pub struct ToldFile {
    number: u64,
    at: usize,
}

/// A disk in memory, with links and several names of one file. It tells all that it holds and held,
/// until there is no memory for a change.
///
/// Every name is a regular file, a link or none, and two spellings are two names. All folders are
/// there.
#[derive(Drop)]
pub struct ToldDisk {
    alloc: Global,
    /// The links, the latest first.
    links: Vec<Link>,
    /// The changes, the latest first.
    log: Vec<Change>,
    is_told: bool,
    failing: FailurePlan,
}

/// Which calls fail, and a count that rises with each failure, by one or by two.
#[derive(Drop)]
struct FailurePlan {
    calls: u64,
    /// The first and the last call that fails, counted from 1.
    from: u64,
    to: u64,
    failures: u64,
}

/// The file of this number. All are on one device.
fn id_of(number: u64) -> FileId
    ensures { result ≡ record { device = 1; inode = number } }
{
    FileId {
        device: 1,
        inode: number,
    }
}

impl FailurePlan {
    /// Counts a call that fails.
    fn fail(&mut self) -> CallFailed
        ensures later { self.old.failures ≤ self.new.failures }
        ensures rose { Rose self.old.failures self.new.failures }
    {
        self.failures = self.failures.saturating_add(1);
        CallFailed
    }

    /// Counts a call, and says whether it is to fail.
    fn next_fails(&mut self) -> bool
        ensures later { self.old.failures ≤ self.new.failures }
        ensures rose { result ≡ true → Rose self.old.failures self.new.failures }
        ensures calm { result ≡ false → self.new.failures ≡ self.old.failures }
    {
        self.calls = self.calls.saturating_add(1);
        let fails = self.from <= self.calls && self.calls <= self.to;
        if fails {
            self.failures = self.failures.saturating_add(1);
        }
        fails
    }
}

impl ToldDisk {
    /// An empty disk. None of its calls fails.
    pub fn new(alloc: Global) -> ToldDisk
        ensures links { result.links.items ≡ [] }
        ensures log { result.log.items ≡ [] }
        ensures told { result.is_told ≡ true }
    {
        ToldDisk {
            alloc,
            links: Vec::new(alloc),
            log: Vec::new(alloc),
            is_told: true,
            failing: FailurePlan {
                calls: 0,
                from: u64::MAX,
                to: 0,
                failures: 0,
            },
        }
    }

    /// Makes a regular file with these bytes and permissions.
    ///
    /// # Errors
    /// Where there is not enough memory.
    pub fn add(&mut self, name: &str, bytes: &[u8], mode: u32) -> Result<(), AllocError> {
        let number = self.log.len() as u64;
        let name = String::from_str(self.alloc, name)?;
        let bytes = bytes.to_vec(self.alloc)?;
        self.change(Change::Made(name));
        self.change(Change::Wrote(number, bytes));
        self.change(Change::GotMode(number, mode));
        Ok(())
    }

    /// Gives the file of the old name another name.
    ///
    /// # Errors
    /// Where there is not enough memory.
    pub fn add_hard_link(&mut self, name: &str, old: &str) -> Result<(), AllocError> {
        let name = String::from_str(self.alloc, name)?;
        let old = String::from_str(self.alloc, old)?;
        self.change(Change::Shared(name, old));
        Ok(())
    }

    /// Makes a link with this text, under a name that is no link so far.
    ///
    /// # Errors
    /// Where there is not enough memory.
    pub fn add_link(&mut self, name: &str, text: &str) -> Result<(), AllocError> {
        self.add_any_link(name, text, false)
    }

    /// Makes a link as the system does to an open file, under a name that is no link so far.
    ///
    /// # Errors
    /// Where there is not enough memory.
    pub fn add_open_file(&mut self, name: &str, text: &str) -> Result<(), AllocError> {
        self.add_any_link(name, text, true)
    }

    /// Makes a link of one of the two kinds.
    fn add_any_link(&mut self, name: &str, text: &str, is_open: bool) -> Result<(), AllocError> {
        let said = linked_name(self.alloc, name, text)?;
        let name = String::from_str(self.alloc, name)?;
        let text = String::from_str(self.alloc, text)?;
        self.links.insert(
            0,
            Link {
                name,
                text,
                said,
                is_open,
            },
        )?;
        Ok(())
    }

    /// Lets the call of this number fail, counted from 1. Where `stops` is set, each later call
    /// fails too, as if the program had ended before that call.
    pub fn fail_at(&mut self, call: u64, stops: bool)
        ensures links { self.new.links ≡ self.old.links }
        ensures log { self.new.log ≡ self.old.log }
        ensures told { self.new.is_told ≡ self.old.is_told }
    {
        self.failing.from = call;
        self.failing.to = if stops { u64::MAX } else { call };
    }

    /// Whether it tells what it holds.
    pub fn is_told(&self) -> bool
        ensures { result ≡ self.now.is_told }
    {
        self.is_told
    }

    /// How many calls there were.
    pub fn calls(&self) -> u64
        ensures { result ≡ self.now.failing.calls }
    {
        self.failing.calls
    }

    /// The bytes of the file that the name leads to, if there is one.
    ///
    /// # Errors
    /// Where there is not enough memory.
    pub fn bytes(&self, name: &str) -> Result<Option<Vec<u8>>, AllocError>
        ensures { IfOk result (IsHeldIn self.now.links.items self.now.log.items name.now) }
    {
        match number_of(&self.log, real_of(&self.links, name)) {
            None => Ok(None),
            Some(number) => Ok(Some(bytes_of(self.alloc, &self.log, number)?)),
        }
    }

    /// Whether the name leads to a file with these bytes, or to none where none are given.
    pub fn holds(&self, name: &str, wanted: Option<&[u8]>) -> bool {
        match (self.bytes(name), wanted) {
            (Ok(Some(found)), Some(bytes)) => found.as_slice() == bytes,
            (Ok(None), None) => true,
            _ => false,
        }
    }

    /// Whether the name is a link.
    pub fn is_link(&self, name: &str) -> bool {
        is_link(&self.links, name)
    }

    /// Makes a change.
    fn change(&mut self, change: Change)
        ensures told { self.new.is_told ≡ true → self.old.is_told ≡ true }
        ensures links { self.new.links.items ≡ self.old.links.items }
        ensures log { self.new.is_told ≡ true → self.new.log.items ≡ change ∷ self.old.log.items }
        ensures failing { self.new.failing ≡ self.old.failing }
    {
        if self.log.insert(0, change).is_err() {
            self.is_told = false;
        }
    }
}

impl System for ToldDisk {
    ghost use Rattle.pg_told_disk.specs.Inside.Memory.{told_by, file_id, read_len};
    ghost use Rattle.pg_told_disk.specs.Inside.laws.DisksWithoutLinks.{plain_where, new_names_where};

    type File = ToldFile;

    ghost told = { told_by };

    ghost failures = { λ disk. disk.failing.failures };

    ghost id = { file_id };

    ghost at = { read_len };

    ghost plain = { λ disk. plain_where disk.is_told disk.links.items disk.log.items };

    ghost new_names = { λ disk. new_names_where disk.is_told disk.links.items disk.log.items };

    fn look(&mut self, name: &str) -> Result<NameKind, CallFailed> {
        if self.failing.next_fails() {
            return Err(CallFailed);
        }
        if is_open(&self.links, name) {
            return Ok(NameKind::OpenFile);
        }
        if is_link(&self.links, name) {
            return Ok(NameKind::Link);
        }
        match number_of(&self.log, name) {
            None => Ok(NameKind::Missing),
            Some(number) => Ok(NameKind::File(id_of(number))),
        }
    }

    fn read_link(&mut self, alloc: Global, name: &str) -> Result<String, CallFailed> {
        if self.failing.next_fails() {
            return Err(CallFailed);
        }
        match link_of(&self.links, name) {
            None => Err(self.failing.fail()),
            Some(link) => match text_of(alloc, name, link) {
                Some(text) => Ok(text),
                None => Err(self.failing.fail()),
            },
        }
    }

    fn open(&mut self, name: &str) -> Result<ToldFile, CallFailed> {
        if self.failing.next_fails() {
            return Err(CallFailed);
        }
        match number_of(&self.log, real_of(&self.links, name)) {
            None => Err(self.failing.fail()),
            Some(number) => Ok(ToldFile { number, at: 0 }),
        }
    }

    fn open_to_write(&mut self, name: &str) -> Result<Option<ToldFile>, CallFailed> {
        if self.failing.next_fails() {
            return Err(CallFailed);
        }
        let real = real_of(&self.links, name);
        let Some(number) = number_of(&self.log, real) else {
            if is_link(&self.links, real) {
                return Err(self.failing.fail());
            }
            return Ok(None);
        };
        match mode_of(&self.log, number) {
            Some(mode) if lets_write(mode) => Ok(Some(ToldFile { number, at: 0 })),
            _ => Err(self.failing.fail()),
        }
    }

    fn stat(&mut self, file: &ToldFile) -> Result<FileStatus, CallFailed> {
        if self.failing.next_fails() {
            return Err(CallFailed);
        }
        let Some(mode) = mode_of(&self.log, file.number) else {
            return Err(self.failing.fail());
        };
        Ok(FileStatus {
            id: id_of(file.number),
            is_regular: true,
            mode,
        })
    }

    fn read_some(&mut self, file: &mut ToldFile, buffer: &mut [u8]) -> Result<usize, CallFailed> {
        if self.failing.next_fails() {
            return Err(CallFailed);
        }
        let Ok(bytes) = bytes_of(self.alloc, &self.log, file.number) else {
            return Err(self.failing.fail());
        };
        if bytes.len() < file.at {
            return Err(self.failing.fail());
        }
        let rest = &bytes[file.at..];
        let count = rest.len().min(buffer.len());
        buffer[..count].copy_from_slice(&rest[..count]);
        file.at += count;
        Ok(count)
    }

    fn make(&mut self, name: &str) -> Result<Option<ToldFile>, CallFailed> {
        if self.failing.next_fails() {
            return Err(CallFailed);
        }
        if is_link(&self.links, name) {
            return Ok(None);
        }
        match number_of(&self.log, name) {
            Some(_) => Ok(None),
            None => {
                let Ok(own) = String::from_str(self.alloc, name) else {
                    return Err(self.failing.fail());
                };
                let number = self.log.len() as u64;
                self.change(Change::Made(own));
                Ok(Some(ToldFile { number, at: 0 }))
            }
        }
    }

    fn set_mode(&mut self, file: &mut ToldFile, mode: u32) -> Result<(), CallFailed> {
        if self.failing.next_fails() {
            self.change(Change::Stayed);
            return Err(CallFailed);
        }
        self.change(Change::GotMode(file.number, mode));
        Ok(())
    }

    fn write_some(&mut self, file: &mut ToldFile, bytes: &[u8]) -> Result<usize, CallFailed> {
        if self.failing.next_fails() || bytes.is_empty() {
            self.change(Change::Stayed);
            return Err(self.failing.fail());
        }
        let count = bytes.len().min(PIECE);
        let Ok(held) = bytes[..count].to_vec(self.alloc) else {
            self.change(Change::Stayed);
            return Err(self.failing.fail());
        };
        self.change(Change::Wrote(file.number, held));
        Ok(count)
    }

    fn sync(&mut self, file: &mut ToldFile) -> Result<(), CallFailed> {
        if self.failing.next_fails() {
            self.change(Change::Stayed);
            return Err(CallFailed);
        }
        self.change(Change::Stored(file.number));
        Ok(())
    }

    fn rename(&mut self, from: &str, to: &str) -> Result<(), CallFailed> {
        if self.failing.next_fails() || number_of(&self.log, from).is_none() {
            return Err(self.failing.fail());
        }
        let Ok(old) = String::from_str(self.alloc, from) else {
            return Err(self.failing.fail());
        };
        let Ok(new) = String::from_str(self.alloc, to) else {
            return Err(self.failing.fail());
        };
        self.change(Change::Renamed(old, new));
        Ok(())
    }

    fn remove(&mut self, name: &str) -> Result<(), CallFailed> {
        let Ok(own) = String::from_str(self.alloc, name) else {
            self.is_told = false;
            return Err(self.failing.fail());
        };
        if self.failing.next_fails() {
            self.change(Change::Refused(own));
            return Err(self.failing.fail());
        }
        self.change(Change::Removed(own));
        Ok(())
    }
}
