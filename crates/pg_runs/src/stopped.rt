//! Calls of the program over a disk with links, each call of which fails or is the last: what
//! stands under each name then.
use crate::quiet::{INPUTS, words};
use pg_outside::{DiskFiles, MemorySink};
use pg_told_disk::ToldDisk;
use pg_top::{Status, run};
use std::alloc::{AllocError, Global};
use std::process::Abort;
use std::test::Fail;

/// What stands on the disk beside the files of a small run: old files, one of them the one that the
/// run writes.
const OLD: &[(&str, &[u8])] = &[
    ("folder/old", b"old patterns, longer than the new\n"),
    ("R", b"old report\n"),
    ("good", b"ab1\n"),
];

/// The names of what is written.
const WRITTEN: [&str; 4] = ["O", "R", "M", "C"];

/// The names of what is not.
const OTHERS: [&str; 6] = ["T", "A", "P", "D", "twin", "good"];

/// Calls and their answers. The first writes four files: one through a link, one beside another
/// name of the old file, and two that are not there. The second writes none.
const CALLS: &[(&str, Status)] = &[
    ("generate D P O T A R --pattmp M --cells C", Status::Done),
    ("audit D P good T A R", Status::No),
];

/// Adds these files to a disk.
fn add_files(disk: &mut ToldDisk, added: &[(&str, &[u8])]) -> Result<(), AllocError> {
    for (name, bytes) in added {
        disk.add(name, bytes, 0o644)?;
    }
    Ok(())
}

/// Adds all files, a link to one in a folder, and another name of the old report.
fn fill(disk: &mut ToldDisk) -> Result<(), AllocError> {
    add_files(disk, INPUTS)?;
    add_files(disk, OLD)?;
    disk.add_link("O", "folder/old")?;
    disk.add_hard_link("twin", "R")
}

/// A disk that fails at this call, or at it and each later one; at none where it is 0.
fn disk(alloc: Global, call: u64, stops: bool) -> Result<ToldDisk, AllocError> {
    let mut disk = ToldDisk::new(alloc);
    fill(&mut disk)?;
    disk.fail_at(call, stops);
    Ok(disk)
}

/// Does what the arguments ask for, over files.
fn answer(
    alloc: Global,
    words: &[String],
    files: &mut DiskFiles<ToldDisk>,
) -> Result<Status, AllocError> {
    let mut out = MemorySink::new(alloc, 200)?;
    Ok(run(alloc, words, files, &mut out))
}

/// Does what the arguments ask for, over a disk that fails at this call.
fn run_over(
    alloc: Global,
    words: &[String],
    call: u64,
    stops: bool,
) -> Result<(Status, DiskFiles<ToldDisk>), AllocError> {
    let mut files = DiskFiles::new(alloc, disk(alloc, call, stops)?);
    let status = answer(alloc, words, &mut files)?;
    Ok((status, files))
}

/// Whether the name leads to the same bytes on both disks.
fn is_same(one: &ToldDisk, other: &ToldDisk, name: &str) -> bool {
    match (one.bytes(name), other.bytes(name)) {
        (Ok(one), Ok(other)) => one == other,
        _ => false,
    }
}

/// Whether each name that is written leads to what it led to before or does after, whole.
fn is_old_or_new(disk: &ToldDisk, before: &ToldDisk, after: &ToldDisk) -> bool {
    for name in WRITTEN {
        if !is_same(disk, before, name) && !is_same(disk, after, name) {
            return false;
        }
    }
    true
}

/// Whether each name that is not written leads to what it led to before, and the link is there.
fn keeps_others(disk: &ToldDisk, before: &ToldDisk) -> bool {
    for name in OTHERS {
        if !is_same(disk, before, name) {
            return false;
        }
    }
    disk.is_link("O")
}

/// Whether no new file is left.
fn is_tidy(disk: &ToldDisk) -> bool {
    disk.holds("patgen-new-0", None) && disk.holds("folder/patgen-new-0", None)
}

/// Whether the call leaves old files and new ones, whole, where it is stopped at this call of the
/// system. Where that fails, it also answers with a fault and leaves nothing else.
fn survives(
    alloc: Global,
    words: &[String],
    call: u64,
    stops: bool,
    before: &ToldDisk,
    after: &ToldDisk,
) -> Result<bool, AllocError> {
    let (status, files) = run_over(alloc, words, call, stops)?;
    let disk = files.system();
    let is_right = if stops {
        disk.is_told()
    } else {
        status == Status::Fault && is_tidy(disk)
    };
    Ok(is_right && is_old_or_new(disk, before, after) && keeps_others(disk, before))
}

/// Whether this goes well both where this call stops and where it fails.
fn survives_both(
    alloc: Global,
    words: &[String],
    call: u64,
    before: &ToldDisk,
    after: &ToldDisk,
) -> Result<bool, AllocError> {
    Ok(
        survives(alloc, words, call, true, before, after)?
            && survives(alloc, words, call, false, before, after)?,
    )
}

/// Whether this goes well whichever call stops or fails.
fn survives_all(
    alloc: Global,
    words: &[String],
    before: &ToldDisk,
    after: &ToldDisk,
) -> Result<bool, AllocError> {
    for call in 1..after.calls().saturating_add(1) {
        if !survives_both(alloc, words, call, before, after)? {
            return Ok(false);
        }
    }
    Ok(true)
}

/// Whether the call has this answer where no call of the system fails, and leaves whole files
/// whichever stops or fails.
fn goes_well(
    alloc: Global,
    words: &[String],
    wanted: Status,
    before: &ToldDisk,
) -> Result<bool, AllocError> {
    let (status, files) = run_over(alloc, words, 0, false)?;
    let after = files.system();
    if status != wanted || !is_tidy(after) || !is_old_or_new(after, before, after) {
        return Ok(false);
    }
    survives_all(alloc, words, before, after)
}

/// Does a call, and asserts that it goes well.
fn try_call(
    rt: &impl Abort,
    alloc: Global,
    line: &str,
    wanted: Status,
    before: &ToldDisk,
) -> Result<(), AllocError> {
    let words = words(alloc, line)?;
    assert!(rt; goes_well(alloc, &words, wanted, before)?, "{line}");
    Ok(())
}

/// Does all calls.
fn try_calls(rt: &impl Abort, alloc: Global, before: &ToldDisk) -> Result<(), AllocError> {
    for (line, answer) in CALLS {
        try_call(rt, alloc, line, *answer, before)?;
    }
    Ok(())
}

#[test]
fn generate_and_audit(rt: HostRuntime) -> Result<(), Fail> {
    let before = disk(rt.alloc(), 0, false)?;
    try_calls(&rt, rt.alloc(), &before)?;
    Ok(())
}
