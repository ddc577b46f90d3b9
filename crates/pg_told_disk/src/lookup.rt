//! What a list of changes says of a name and of a file.
ghost use Rattle.std.specs.Prelude.{◌≡◌, IfOk};
ghost use Rattle.pg_told_disk.specs.Inside.Changes.{number_in, bytes_in, mode_in, lets_write};

use crate::change::Change;
use std::alloc::{AllocError, Global};

/// The number of the file that the name leads to, which is no link.
pub(crate) fn number_of(log: &[Change], name: &str) -> Option<u64>
    ensures { result ≡ number_in log.now name.now }
{
    match log {
        [] => None,
        [Change::Made(own), older @ ..] => {
            if name == own.as_str() {
                Some(older.len() as u64)
            } else {
                number_of(older, name)
            }
        }
        [Change::Shared(own, old), older @ ..] => {
            if name == own.as_str() {
                number_of(older, old.as_str())
            } else {
                number_of(older, name)
            }
        }
        [Change::Renamed(from, to), older @ ..] => {
            if name == to.as_str() {
                number_of(older, from.as_str())
            } else if name == from.as_str() {
                None
            } else {
                number_of(older, name)
            }
        }
        [Change::Removed(own), older @ ..] => {
            if name == own.as_str() {
                None
            } else {
                number_of(older, name)
            }
        }
        [_, older @ ..] => number_of(older, name),
    }
}

/// The permissions of a file, if it is there.
pub(crate) fn mode_of(log: &[Change], number: u64) -> Option<u32>
    ensures { result ≡ mode_in log.now number }
{
    match log {
        [] => None,
        [Change::Made(_), older @ ..] => {
            if number == older.len() as u64 {
                Some(0o644)
            } else {
                mode_of(older, number)
            }
        }
        [Change::GotMode(other, mode), older @ ..] => {
            if number == *other {
                Some(*mode)
            } else {
                mode_of(older, number)
            }
        }
        [_, older @ ..] => mode_of(older, number),
    }
}

/// The bytes of a file.
pub(crate) fn bytes_of(alloc: Global, log: &[Change], number: u64) -> Result<Vec<u8>, AllocError>
    ensures { IfOk result (λ bytes. bytes.items ≡ bytes_in log.now number) }
{
    match log {
        [] => Ok(Vec::new(alloc)),
        [Change::Made(_), older @ ..] => {
            if number == older.len() as u64 {
                return Ok(Vec::new(alloc));
            }
            bytes_of(alloc, older, number)
        }
        [Change::Wrote(other, more), older @ ..] => {
            let mut bytes = bytes_of(alloc, older, number)?;
            if number == *other {
                bytes.extend_from_slice(more)?;
            }
            Ok(bytes)
        }
        [_, older @ ..] => bytes_of(alloc, older, number),
    }
}

/// Whether a file of these permissions may be written by its owner.
pub(crate) fn lets_write(mode: u32) -> bool
    ensures { result ≡ lets_write mode }
{
    mode / 128 % 2 == 1
}
