//! Bytes in memory that take no more memory up to their room.
ghost use Rattle.std.specs.Prelude.{◌≡◌, ◌↔◌, ◌+◌, ◌≤◌, [], ◌++◌, length, IfOk, IsTrue, vec_len, vec_capacity};

use std::alloc::{AllocError, Global};

/// At most `room` bytes, for which the memory is taken when they are made.
#[derive(Drop)]
pub(crate) struct BoundedBytes {
    pub bytes: Vec<u8>,
    pub room: usize,
    ghost within: { length bytes.items ≤ room },
    ghost reserved: { room ≤ vec_capacity bytes },
}

impl BoundedBytes {
    /// No byte, with this room.
    pub fn new(alloc: Global, room: usize) -> Result<BoundedBytes, AllocError>
        ensures bytes { IfOk result (λ bounded. bounded.bytes.items ≡ []) }
        ensures room { IfOk result (λ bounded. bounded.room ≡ room) }
    {
        let bytes = Vec::with_capacity(alloc, room)?;
        Ok(BoundedBytes { bytes, room })
    }

    /// Whether the room suffices for these bytes.
    pub fn has_room(&self, more: &[u8]) -> bool
        ensures { IsTrue result ↔ length self.now.bytes.items + length more.now ≤ self.now.room }
    {
        more.len() <= self.room - self.bytes.len()
    }

    /// Appends bytes for which the room suffices.
    pub fn append(&mut self, more: &[u8])
        requires { length self.old.bytes.items + length more.now ≤ self.old.room }
        ensures bytes { self.new.bytes.items ≡ self.old.bytes.items ++ more.now }
        ensures room { self.new.room ≡ self.old.room }
    {
        if self.bytes.extend_from_slice(more).is_err() {
            unreachable!();
        }
    }
}
