//! A folder of a test's own, and what stands in it.
use std::fs::Permissions;
use std::os::unix::fs::{PermissionsExt, symlink};
use std::{env, fs, io};

/// Goes into an empty folder of this name, which is the test's own.
pub fn enter_folder(rt: &HostRuntime, name: &str) -> io::Result<()> {
    fs::create_dir_all(rt, "out/tests")?;
    env::set_current_dir(rt, "out/tests")?;
    let _ = fs::remove_dir_all(rt, name);
    fs::create_dir(rt, name)?;
    env::set_current_dir(rt, name)
}

/// Goes into an empty folder, and makes there a file D and other names of it, a folder, and a link
/// without a file.
pub fn enter_names(rt: &HostRuntime, name: &str) -> io::Result<()> {
    enter_folder(rt, name)?;
    fs::write(rt, "D", b"a-b\n")?;
    fs::hard_link(rt, "D", "hard")?;
    symlink(rt, "D", "soft")?;
    symlink(rt, "later", "dangling")?;
    fs::create_dir(rt, "folder")
}

/// Leaves the folder of this name, and removes it.
pub fn leave_folder(rt: &HostRuntime, name: &str) -> io::Result<()> {
    env::set_current_dir(rt, "..")?;
    fs::remove_dir_all(rt, name)
}

/// Sets the permissions of a file or folder.
pub fn permit(rt: &HostRuntime, name: &str, mode: u32) -> io::Result<()> {
    fs::set_permissions(rt, name, Permissions::from_mode(mode))
}

/// Whether the file of this name holds these bytes.
pub fn holds(rt: &HostRuntime, name: &str, bytes: &[u8]) -> bool {
    fs::read(rt, name).is_ok_and(|held| held.as_slice() == bytes)
}

/// Whether a new file stands in the folder that is worked in.
pub fn is_new_file_left(rt: &HostRuntime) -> bool {
    fs::symlink_metadata(rt, "patgen-new-0").is_ok()
}
