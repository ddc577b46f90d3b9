//! Real files: what is read and written, and what is not.
use crate::folders::{enter_names, holds, leave_folder, permit};
use crate::outcomes::{Read, outcomes};
use pg_outside::ReadError;
use std::os::unix::fs::MetadataExt;
use std::test::Fail;
use std::{fs, io};

/// A read, and the name of a file that is then written. Behind them stand whether the two go well,
/// and the name of a file with the bytes that it then holds.
type Row = (
    Read<'static>,
    &'static str,
    [bool; 2],
    &'static str,
    &'static [u8],
);

/// The read of D.
const OF_D: Read<'static> = ("D", 5, Ok(()), OLD);

/// The read of a file that is left as it is.
const OF_NEW: Read<'static> = ("patgen-new-0", 5, Ok(()), b"x");

/// What D holds at first, and what is written.
const OLD: &[u8] = b"a-b\n";

const NEW: &[u8] = b"a1b\n";

const NOT: [bool; 2] = [true, false];

const BOTH: [bool; 2] = [true, true];

/// Once D was read, no name of D is written, nor is a name of what is no file or cannot be one.
/// Else D is replaced, then a file is made, then one behind a link, and a device is written in
/// place.
const ROWS: &[Row] = &[
    (("D", 4, Ok(()), OLD), ".", NOT, "D", OLD),
    (("soft", 4, Ok(()), OLD), ".", NOT, "D", OLD),
    (("D", 3, Err(ReadError::TooLong), OLD), ".", NOT, "D", OLD),
    (
        ("missing", 5, Err(ReadError::Failed), b""),
        ".",
        NOT,
        "D",
        OLD,
    ),
    (
        ("folder", 5, Err(ReadError::Failed), b""),
        ".",
        NOT,
        "D",
        OLD,
    ),
    (OF_D, "D", NOT, "D", OLD),
    (OF_D, "./D", NOT, "D", OLD),
    (OF_D, "hard", NOT, "D", OLD),
    (OF_D, "soft", NOT, "D", OLD),
    (OF_D, "folder", NOT, "D", OLD),
    (OF_D, ".", NOT, "D", OLD),
    (OF_D, "", NOT, "D", OLD),
    (OF_D, "missing/O", NOT, "D", OLD),
    (OF_D, "O/", NOT, "D", OLD),
    (OF_D, "/dev/full", NOT, "D", OLD),
    (OF_NEW, "D", BOTH, "soft", NEW),
    (OF_NEW, "./D", BOTH, "D", NEW),
    (OF_NEW, "N", BOTH, "N", NEW),
    (OF_NEW, "folder/N", BOTH, "folder/N", NEW),
    (OF_NEW, "soft", BOTH, "D", NEW),
    (OF_NEW, "dangling", BOTH, "later", NEW),
    (OF_NEW, "/dev/null", BOTH, "later", NEW),
];

/// How a read and then a write go, over real files.
fn host_outcomes(rt: &HostRuntime, read: Read<'_>, name: &str) -> [bool; 2] {
    outcomes(rt.alloc(), rt, read, name, NEW)
}

/// Whether a row goes so, and the file `patgen-new-0` stays.
fn goes_so(rt: &HostRuntime, row: &Row) -> bool {
    let (read, name, both, left, bytes) = *row;
    host_outcomes(rt, read, name) == both
        && holds(rt, left, bytes)
        && holds(rt, "patgen-new-0", b"x")
}

/// The number of the first row that goes otherwise, counted from 0.
fn wrong_row(rt: &HostRuntime) -> Option<usize> {
    for (i, row) in ROWS.iter().enumerate() {
        if !goes_so(rt, row) {
            return Some(i);
        }
    }
    None
}

/// Makes the names, a file of the name that a new file would have, and the permissions of D.
fn enter_files(rt: &HostRuntime) -> io::Result<()> {
    enter_names(rt, "real_files")?;
    fs::write(rt, "patgen-new-0", b"x")?;
    permit(rt, "D", 0o640)
}

/// Whether the other files hold what they held, D has its permissions, the link is one, and no new
/// file is left.
fn is_rest_kept(rt: &HostRuntime) -> io::Result<bool> {
    Ok(
        holds(rt, "hard", OLD)
            && holds(rt, "patgen-new-0", b"x")
            && fs::metadata(rt, "D")?.mode() & 0o777 == 0o640
            && fs::symlink_metadata(rt, "soft")?.is_symlink()
            && !fs::exists(rt, "patgen-new-1")?,
    )
}

#[test]
fn real_files(rt: HostRuntime) -> Result<(), Fail> {
    enter_files(&rt)?;
    assert_eq!(rt; wrong_row(&rt), None);
    assert!(rt; is_rest_kept(&rt)?);
    leave_folder(&rt, "real_files")?;
    Ok(())
}

/// Writes, in a folder that may not be written to, a file that is there and one that is not.
fn written_within(rt: &HostRuntime) -> io::Result<[[bool; 2]; 2]> {
    permit(rt, "folder", 0o500)?;
    let both = [
        host_outcomes(rt, OF_D, "folder/O"),
        host_outcomes(rt, OF_D, "folder/N"),
    ];
    permit(rt, "folder", 0o700)?;
    Ok(both)
}

#[test]
fn a_folder_without_permission(rt: HostRuntime) -> Result<(), Fail> {
    enter_names(&rt, "a_folder_without_permission")?;
    fs::write(&rt, "folder/O", b"x")?;
    if fs::metadata(&rt, "folder")?.uid() == 0 {
        println!(rt; "skipped as root: a folder without permission")?;
    } else {
        assert_eq!(rt; written_within(&rt)?, [NOT, NOT]);
        assert!(rt; holds(&rt, "folder/O", b"x"));
    }
    leave_folder(&rt, "a_folder_without_permission")?;
    Ok(())
}
