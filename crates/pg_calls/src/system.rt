//! What each call of the system does to real files, and says of them. No clause can, since real
//! files tell no content.
use crate::folders::{enter_names, holds, leave_folder};
use pg_outside::{CallFailed, FileId, FileStatus, HostSystem, NameKind, System};
use std::io::ErrorKind;
use std::os::unix::fs::MetadataExt;
use std::test::Fail;
use std::{fs, io};

/// Which file has this name, and whether it is a regular one, with its permissions.
fn told(rt: &HostRuntime, name: &str) -> io::Result<(FileId, bool, u32)> {
    let found = fs::symlink_metadata(rt, name)?;
    let id = FileId {
        device: found.dev(),
        inode: found.ino(),
    };
    Ok((id, found.is_file(), found.mode()))
}

/// Whether a name was found to be this file.
fn is_file(found: Result<NameKind, CallFailed>, id: FileId) -> bool {
    match found {
        Ok(NameKind::File(other)) => other == id,
        _ => false,
    }
}

/// Whether each name is what it is: a file, a device, a folder, a link, or nothing.
fn are_names_seen(rt: &HostRuntime) -> io::Result<bool> {
    let mut system = HostSystem::new(rt);
    for name in ["D", "hard", "/dev/null", "folder"] {
        let (id, _, _) = told(rt, name)?;
        if !is_file(system.look(name), id) {
            return Ok(false);
        }
    }
    let is_link = matches!(system.look("dangling"), Ok(NameKind::Link));
    let is_missing = matches!(system.look("later"), Ok(NameKind::Missing));
    let is_within = system.look("D/N").is_ok();
    let text = system.read_link(rt.alloc(), "dangling");
    let is_text = text.is_ok_and(|text| text.as_str() == "later");
    let is_none = system.read_link(rt.alloc(), "D").is_err();
    Ok(is_link && is_missing && !is_within && is_text && is_none)
}

/// Whether an opened file is what its name is.
fn is_same(status: Result<FileStatus, CallFailed>, told: (FileId, bool, u32)) -> bool {
    let (id, is_regular, mode) = told;
    status.is_ok_and(|seen| seen.id == id && seen.is_regular == is_regular && seen.mode == mode)
}

/// Whether a file is read from its start to its end, and told as what it is.
fn is_read(rt: &HostRuntime) -> Result<bool, CallFailed> {
    let mut system = HostSystem::new(rt);
    let mut file = system.open("soft")?;
    let wanted = told(rt, "D").or(Err(CallFailed))?;
    let mut buffer = [0; 3];
    let counts = [
        system.read_some(&mut file, &mut buffer)?,
        system.read_some(&mut file, &mut buffer)?,
        system.read_some(&mut file, &mut buffer)?,
    ];
    let is_right = counts == [3, 1, 0] && buffer == *b"\n-b";
    Ok(is_right && is_same(system.stat(&file), wanted))
}

/// Whether a device is told as what it is, and is opened to be written, as a name of nothing is not.
fn is_opened(rt: &HostRuntime) -> Result<bool, CallFailed> {
    let mut system = HostSystem::new(rt);
    let wanted = told(rt, "/dev/null").or(Err(CallFailed))?;
    let is_missing = system.open_to_write("later")?.is_none();
    match system.open_to_write("/dev/null")? {
        Some(device) => Ok(is_missing && is_same(system.stat(&device), wanted)),
        None => Ok(false),
    }
}

/// Whether a file is made, gets its permissions and bytes, takes the name of another, and goes.
fn is_changed(rt: &HostRuntime) -> Result<bool, CallFailed> {
    let mut system = HostSystem::new(rt);
    let Some(mut file) = system.make("N")? else {
        return Ok(false);
    };
    let is_again = system.make("N")?.is_some();
    system.set_mode(&mut file, 0o604)?;
    let count = system.write_some(&mut file, b"a1b")?;
    system.sync(&mut file)?;
    let mode = system.stat(&file)?.mode & 0o777;
    system.rename("N", "D")?;
    let is_moved = holds(rt, "D", b"a1b") && fs::symlink_metadata(rt, "N").is_err();
    system.remove("D")?;
    let is_gone = fs::symlink_metadata(rt, "D").is_err();
    Ok(!is_again && count == 3 && mode == 0o604 && is_moved && is_gone)
}

/// Whether a call that fails is counted, and keeps the reason of the system.
fn is_reason_kept(rt: &HostRuntime) -> bool {
    let mut system = HostSystem::new(rt);
    let is_gone = system.remove("later").is_ok();
    let reason = system.reason();
    !is_gone && reason.is_some_and(|error| error.kind() == ErrorKind::NotFound)
}

#[test]
fn calls_of_the_system(rt: HostRuntime) -> Result<(), Fail> {
    enter_names(&rt, "calls_of_the_system")?;
    assert!(rt; are_names_seen(&rt)?);
    assert!(rt; is_read(&rt)? && is_opened(&rt)?);
    assert!(rt; is_changed(&rt)?);
    assert!(rt; is_reason_kept(&rt));
    leave_folder(&rt, "calls_of_the_system")?;
    Ok(())
}
