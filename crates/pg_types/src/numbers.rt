//! Numbers in a text.
ghost use Rattle.std.specs.Prelude.{◌≡◌, ◌++◌, decimal, OnOk};

use itoa::Buffer;
use std::alloc::AllocError;

/// Appends `front` and then the number in decimal digits. An error is lack of memory.
pub fn push_number(text: &mut Vec<u8>, front: &[u8], number: u64) -> Result<(), AllocError>
    ensures { OnOk result (text.new.items ≡ text.old.items ++ front.now ++ decimal number) }
{
    let mut digits = Buffer::new();
    text.extend_from_slice(front)?;
    text.extend_from_slice(digits.format(number).as_bytes())
}
