//! What the system shows of the files behind names. Nothing is opened and nothing made.
use pg_messages::Names;
use pg_outside::{HostSystem, WriteError, folder_of, follow};
use std::alloc::Global;
use std::fs::Metadata;
use std::io::ErrorKind;
use std::os::unix::fs::MetadataExt;
use std::{fs, io, rt};

/// A name whose folder belongs to the user of this process.
const PROCESS: &str = "/proc/self";

/// The bit of the permissions to write a file, and those to make names in a folder. They are the
/// bits of all others; those of the group and of the owner stand left of them.
const WRITE: u32 = 0o2;

const MAKE: u32 = 0o3;

/// The names of a system. Two are of one file where device and inode are the same.
#[derive(Clone, Copy)]
pub(crate) struct SystemNames<'a, R> {
    system: &'a R,
}

impl<'a, R> SystemNames<'a, R> {
    /// The names of this system.
    pub(crate) fn new(system: &'a R) -> SystemNames<'a, R> {
        SystemNames { system }
    }
}

/// A text of its own; none where memory is short.
fn text_of(alloc: Global, text: &str) -> Option<String> {
    String::from_str(alloc, text).ok()
}

/// The system's reason as it prints it; none where memory is short.
fn reason_of(alloc: Global, error: io::Error) -> Option<String> {
    format!(in alloc; "{error}").ok()
}

impl<'a, R: rt::Files> SystemNames<'a, R> {
    /// Whether the permissions refuse this process to use the file so. The superuser may do all. A
    /// process may be in any group.
    fn refuses(&self, file: &Metadata, bits: u32) -> bool {
        let Ok(process) = fs::metadata(self.system, PROCESS) else {
            return false;
        };
        let mode = file.mode();
        let granted = if process.uid() == file.uid() {
            mode >> 6
        } else {
            mode | mode >> 3
        };
        process.uid() != 0 && granted & bits != bits
    }

    /// What is in the way of a new name in this folder.
    fn folder_obstacle(&self, alloc: Global, folder: &str) -> Option<String> {
        let seen = fs::metadata(self.system, if folder.is_empty() { "." } else { folder });
        match seen {
            Ok(seen) if self.refuses(&seen, MAKE) => text_of(
                alloc,
                "its folder may not be written",
            ),
            Ok(_) => None,
            Err(error) if error.kind() == ErrorKind::NotFound => {
                text_of(alloc, "its folder is not there")
            }
            Err(error) => reason_of(alloc, error),
        }
    }

    /// What is in the way of writing the file of this name, which is no link.
    fn real_obstacle(&self, alloc: Global, name: &str) -> Option<String> {
        match fs::metadata(self.system, name) {
            Ok(old) if old.is_dir() => text_of(alloc, "it is a folder"),
            Ok(old) if self.refuses(&old, WRITE) => text_of(alloc, "the file may not be written"),
            Ok(old) if !old.is_file() => None,
            _ => self.folder_obstacle(alloc, folder_of(name)),
        }
    }

    /// Whether the name leads to a regular file.
    fn is_regular(&self, name: &str) -> bool {
        match fs::metadata(self.system, name) {
            Ok(file) => file.is_file(),
            Err(_) => false,
        }
    }
}

impl<'a, R: rt::Files> Names for SystemNames<'a, R> {
    fn is_same(&self, one: &str, other: &str) -> bool {
        match (
            fs::metadata(self.system, one),
            fs::metadata(self.system, other),
        ) {
            (Ok(one), Ok(other)) => one.dev() == other.dev() && one.ino() == other.ino(),
            _ => false,
        }
    }

    fn obstacle(&self, alloc: Global, name: &str) -> Option<String> {
        let mut system = HostSystem::new(self.system);
        match follow(alloc, &mut system, name) {
            Ok(real) => self.real_obstacle(alloc, real.name.as_str()),
            Err(WriteError::Failed) => reason_of(alloc, system.reason()?),
            Err(WriteError::Opened) if !self.is_regular(name) => None,
            Err(WriteError::Memory) => None,
            Err(error) => format!(in alloc; "{error}").ok(),
        }
    }
}
