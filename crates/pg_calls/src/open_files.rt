//! Names that lead through a link of the system to an open file: nothing is written, and the file
//! keeps its bytes.
use crate::folders::{enter_names, holds, is_new_file_left, leave_folder};
use pg_outside::{DiskFiles, HostFiles, HostSystem, WriteError};
use pg_told_disk::ToldDisk;
use std::alloc::{AllocError, Global};
use std::os::fd::AsRawFd;
use std::os::unix::fs::symlink;
use std::test::Fail;
use std::{fs, io};

/// Names on a disk in memory, and how a write to each goes. A link beside them leads to the same
/// file by its own name.
const ROWS: &[(&str, Result<(), WriteError>)] = &[
    ("/proc/self/fd/1", Err(WriteError::Opened)),
    ("/dev/stdout", Err(WriteError::Opened)),
    ("own", Err(WriteError::Opened)),
    ("/proc/self/fd/2", Err(WriteError::Opened)),
    ("beside", Ok(())),
    ("/log", Ok(())),
];

const OLD: &[u8] = b"before\n";

const NEW: &[u8] = b"a1b\n";

/// A disk with a file, links of the system to it and to none, and links to these and to the file.
fn disk(alloc: Global) -> Result<ToldDisk, AllocError> {
    let mut disk = ToldDisk::new(alloc);
    disk.add("/log", OLD, 0o644)?;
    disk.add_open_file("/proc/self/fd/1", "/log")?;
    disk.add_open_file("/proc/self/fd/2", "/log (deleted)")?;
    disk.add_link("/dev/stdout", "/proc/self/fd/1")?;
    disk.add_link("own", "/dev/stdout")?;
    disk.add_link("beside", "/log")?;
    Ok(disk)
}

/// Whether a write goes so on a disk in memory, and leaves the old bytes or the new ones.
fn goes_so(alloc: Global, name: &str, wanted: Result<(), WriteError>) -> Result<bool, AllocError> {
    let mut files = DiskFiles::new(alloc, disk(alloc)?);
    let result = files.write_file(name, NEW);
    let left = if wanted.is_ok() { NEW } else { OLD };
    let disk = files.system();
    Ok(
        result == wanted
            && files.reason() == wanted.err()
            && disk.holds("/log", Some(left))
            && disk.holds("/patgen-new-0", None)
            && disk.is_link("/proc/self/fd/1"),
    )
}

#[test]
fn told_open_files(rt: HostRuntime) -> Result<(), Fail> {
    for (name, wanted) in ROWS {
        assert!(rt; goes_so(rt.alloc(), name, *wanted)?, "{name}");
    }
    Ok(())
}

/// Why a write of this name fails over real files.
fn host_reason(rt: &HostRuntime, name: &str) -> Option<WriteError> {
    let mut files = HostFiles::new(rt.alloc(), HostSystem::new(rt));
    files.write_file(name, NEW).err()
}

#[test]
fn real_open_files(rt: HostRuntime) -> Result<(), Fail> {
    if fs::symlink_metadata(&rt, "/proc/self").is_err() {
        println!(rt; "skipped: the system shows no open files")?;
        return Ok(());
    }
    enter_names(&rt, "real_open_files")?;
    let opened = fs::open(&rt, "D")?;
    let number = opened.as_raw_fd();
    let name = format!(in rt.alloc(); "/proc/self/fd/{number}")?;
    symlink(&rt, &name, "own")?;
    assert_eq!(rt; host_reason(&rt, &name), Some(WriteError::Opened));
    assert_eq!(rt; host_reason(&rt, "own"), Some(WriteError::Opened));
    assert!(rt; holds(&rt, "D", b"a-b\n") && !is_new_file_left(&rt));
    assert_eq!(rt; host_reason(&rt, "soft"), None);
    assert!(rt; holds(&rt, "D", NEW));
    leave_folder(&rt, "real_open_files")?;
    Ok(())
}
