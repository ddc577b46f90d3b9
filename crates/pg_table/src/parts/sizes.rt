//! The sizes at the beginning of a packed table.
ghost use Rattle.std.specs.Prelude.{◌≡◌, ◌≤◌, ◌&&◌, nat_le, nat_lt, true, false, length, None, MatchOption};
ghost use Rattle.pg_types.specs.declared.limits.TheConstants.{SIGNS_MAX};
ghost use Rattle.pg_types.specs.declared.packed_table.TheConstants.{HEAD_LEN};
ghost use Rattle.pg_table.specs.Forms.{sizes_of, has_sizes};
ghost use Rattle.pg_table.specs.Inside.Breaches.{sizes_breach, head_breach};

use crate::parts::breach::Breach;
use crate::parts::numbers::u32_at;
use pg_types::SIGNS_MAX;
use pg_types::packed_table::{CELL_LEN, HEAD_LEN, RECORD_LEN, SIGNATURE, TABLE_MAX};

/// What the first bytes of a packed table say of its sizes.
#[derive(Clone, Copy, Debug)]
pub struct Sizes {
    /// The greatest sign.
    pub signs: u32,
    /// How many cells there are, cell 0 included.
    pub cells: u32,
    /// How many records there are.
    pub records: u32,
}

impl Sizes {
    /// The sizes that the head of a file says.
    pub fn of(bytes: &[u8]) -> Sizes
        requires { HEAD_LEN ≤ length bytes.now }
        ensures { result ≡ sizes_of bytes.now }
    {
        Sizes {
            signs: u32_at(bytes, 4),
            cells: u32_at(bytes, 8),
            records: u32_at(bytes, 12),
        }
    }

    /// Whether the greatest sign is in its range and below the number of cells.
    fn has_signs(&self) -> bool
        ensures { result ≡ (nat_le 1 self.now.signs && nat_le self.now.signs SIGNS_MAX
            && nat_lt self.now.signs self.now.cells) }
    {
        1 <= self.signs && self.signs <= u32::from(SIGNS_MAX) && self.signs < self.cells
    }

    /// The first rule on sizes that these break in a file of this length.
    fn breach(&self, len: usize) -> Option<Breach>
        ensures { result ≡ sizes_breach self.now len }
    {
        let cells_len = CELL_LEN * self.cells as usize;
        let records_len = RECORD_LEN * self.records as usize;
        let whole = HEAD_LEN + cells_len + records_len;
        if len != whole {
            Some(Breach::Length(whole))
        } else if len > TABLE_MAX {
            Some(Breach::TooLong)
        } else if !self.has_signs() {
            Some(Breach::Signs(self.signs, self.cells))
        } else {
            None
        }
    }
}

/// The first rule on the head that a file breaks.
pub fn head_breach(bytes: &[u8]) -> Option<Breach>
    ensures breach { result ≡ head_breach bytes.now }
    ensures sizes { MatchOption result (has_sizes bytes.now ≡ true)
        (λ _. has_sizes bytes.now ≡ false) }
    ensures whole { result ≡ None → HEAD_LEN ≤ length bytes.now }
{
    if bytes.is_empty() {
        Some(Breach::Empty)
    } else if !bytes.starts_with(SIGNATURE) {
        Some(Breach::Signature)
    } else if bytes.len() < HEAD_LEN {
        Some(Breach::Head)
    } else {
        Sizes::of(bytes).breach(bytes.len())
    }
}
