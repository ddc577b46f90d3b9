//! A list of files in memory.
ghost use Rattle.std.specs.Prelude.{◌≡◌, ◌≢◌, ℕ, ◌+◌, ◌-◌, ◌^◌, ◌<◌, ◌≤◌, [], ◌++◌, take, length, max, Option, Some, None, OnOk, OnErr, IsOk, IsSome, IfOk, IfSome, IfNone, IsErrOf, vec_len, vec_capacity, string_bytes, position};
ghost use Rattle.std.specs.Option.{option_copied};
ghost use Rattle.std.specs.FinMap as fin;
ghost use Rattle.pg_outside.specs.Inside.ToldFiles.{file_at, IsTooLong};
ghost use Rattle.pg_outside.specs.Inside.NameFaults.{NoneFell, SameCounts};
ghost use Rattle.pg_outside.specs.Inside.memory.StoredFile.{has_name, file_map, room_in, IsIndexOf, IsMissing};

use crate::outside::ReadError;
use std::alloc::{AllocError, Global};

/// A file in memory. Its room is the capacity of `bytes`.
#[derive(Drop)]
pub(crate) struct StoredFile {
    pub name: String,
    pub bytes: Vec<u8>,
}

/// Scans the list for the first file of this name.
fn first_named(files: &[StoredFile], name: &str) -> Option<usize>
    ensures { result ≡ position (has_name name.now) files.now }
{
    files.iter().position(|file| file.name.as_str() == name)
}

/// Where the first file of this name stands.
fn index_of(files: &[StoredFile], name: &str) -> Option<usize>
    ensures found { IfSome result (IsIndexOf name.now files.now) }
    ensures missing { IfNone result (IsMissing name.now files.now) }
{
    first_named(files, name)
}

/// Lends the file of this name.
pub(crate) fn bytes_of<'a>(files: &'a [StoredFile], name: &str) -> Option<&'a [u8]>
    ensures { option_copied result ≡ file_at (file_map files.now) name.now }
{
    let index = index_of(files, name)?;
    Some(files[index].bytes.as_slice())
}

/// Sets the bytes of a vector and gives it room for at least `room` bytes.
fn replace(to: &mut Vec<u8>, bytes: &[u8], room: usize) -> Result<(), AllocError>
    ensures ok { OnOk result (to.new.items ≡ bytes.now) }
    ensures err { OnErr result (to.new.items ≡ to.old.items) }
    ensures room { OnOk result (room ≤ vec_capacity to.new) }
    ensures rooms { vec_capacity to.old ≤ vec_capacity to.new }
    ensures err_room { OnErr result (vec_capacity to.new ≡ vec_capacity to.old) }
    ensures succeeds { max room (length bytes.now) ≤ vec_capacity to.old → IsOk result }
{
    let needed = room.max(bytes.len());
    to.reserve(needed.saturating_sub(to.len()))?;
    to.clear();
    to.extend_from_slice(bytes)
}

/// Makes a file with room for at least `room` bytes.
fn new_file(alloc: Global, name: &str, bytes: &[u8], room: usize) -> Result<StoredFile, AllocError>
    ensures name { IfOk result (λ file. string_bytes file.name ≡ name.now) }
    ensures bytes { IfOk result (λ file. file.bytes.items ≡ bytes.now) }
    ensures room { IfOk result (λ file. room ≤ vec_capacity file.bytes) }
{
    let mut held = Vec::with_capacity(alloc, room.max(bytes.len()))?;
    held.extend_from_slice(bytes)?;
    Ok(StoredFile {
        name: String::from_str(alloc, name)?,
        bytes: held,
    })
}

/// Sets the file of this name, and gives it room for at least `room` bytes.
pub(crate) fn store(
    alloc: Global,
    files: &mut Vec<StoredFile>,
    name: &str,
    bytes: &[u8],
    room: usize,
) -> Result<(), AllocError>
    ensures ok { OnOk result
        (file_map files.new.items ≡ fin.insert (file_map files.old.items) name.now bytes.now) }
    ensures err { OnErr result (file_map files.new.items ≡ file_map files.old.items) }
    ensures room { OnOk result (room ≤ room_in files.new.items name.now) }
    ensures rooms { NoneFell (room_in files.old.items) (room_in files.new.items) }
    ensures err_rooms { OnErr result
        (SameCounts (room_in files.old.items) (room_in files.new.items)) }
    ensures succeeds { IsSome (file_at (file_map files.old.items) name.now)
        → max room (length bytes.now) ≤ room_in files.old.items name.now → IsOk result }
{
    match index_of(files, name) {
        Some(index) => replace(&mut files[index].bytes, bytes, room),
        None => {
            files.push(new_file(alloc, name, bytes, room)?)?;
            Ok(())
        }
    }
}

/// Reads the bytes into `into`, which is empty before. Of more than `limit` bytes it reads the
/// first `limit + 1`.
pub(crate) fn read_bytes(bytes: &[u8], limit: usize, into: &mut Vec<u8>) -> Result<(), ReadError>
    requires empty { into.old.items ≡ [] }
    requires limit { limit < 2 ^ 64 - 1 }
    ensures fits { OnOk result (length into.new.items ≤ limit) }
    ensures ok { OnOk result (into.new.items ≡ bytes.now) }
    ensures cut { IsErrOf result ReadError.TooLong
        → IsTooLong (Some bytes.now) limit into.new.items }
    ensures failed { IsErrOf result ReadError.Failed → ⊥ }
{
    if bytes.len() <= limit {
        into.extend_from_slice(bytes)?;
        return Ok(());
    }
    into.extend_from_slice(&bytes[..limit + 1])?;
    Err(ReadError::TooLong)
}
