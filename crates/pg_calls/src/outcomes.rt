//! How a read and a write go, over files of a system.
use pg_outside::{Files, HostFiles, HostSystem, ReadError};
use std::alloc::Global;
use std::rt;

/// A read: the name of a file, the limit, how it is to go, and what it is to give.
pub(crate) type Read<'a> = (&'a str, u32, Result<(), ReadError>, &'a [u8]);

/// Whether a read goes as it is to, and whether a write of another file then goes well.
pub(crate) fn outcomes(
    alloc: Global,
    system: impl rt::Files + Drop,
    read: Read<'_>,
    name: &str,
    bytes: &[u8],
) -> [bool; 2] {
    let (read_name, limit, wanted, given) = read;
    let mut files = HostFiles::new(alloc, HostSystem::new(system));
    let mut into = Vec::new(alloc);
    let result = files.read(alloc, read_name, limit as usize, &mut into);
    let is_right = result == wanted && into.as_slice() == given;
    [is_right, files.write(name, bytes).is_ok()]
}
