//! The head of a string's list, as its cell keeps it.
ghost use Rattle.std.specs.Prelude.{◌≡◌, IfOk};

use std::alloc::AllocError;
use std::marker::Model;

/// The head of a list in four bytes, so that it needs no padding beside the links of a cell.
#[derive(Clone, Copy)]
pub struct Head {
    number: u32,
}

impl Model for Head {
    ghost use Rattle.std.specs.Prelude.{ℕ};

    ghost Value = { ℕ };

    ghost view = { λ h. h.number };

    ghost inverse = { λ n. record { number = n } };
}

impl Head {
    /// The head of the empty list.
    pub fn none() -> Head
        ensures { result ≡ 0 }
    {
        Head { number: 0 }
    }

    /// The head with the number.
    pub fn new(number: u32) -> Head
        ensures { result ≡ number }
    {
        Head { number }
    }

    /// The number of the head.
    pub fn number(self) -> u64
        ensures { result ≡ self }
    {
        u64::from(self.number)
    }
}

/// The number of a head in four bytes. It is an error where there are more records than four bytes
/// can number.
pub fn in_four_bytes(number: u64) -> Result<u32, AllocError>
    ensures { IfOk result (λ word. word ≡ number) }
{
    if number >= 1 << 32 {
        return Err(AllocError);
    }
    Ok(number as u32)
}
