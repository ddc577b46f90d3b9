//! A cell of a packed table.
ghost use Rattle.std.specs.Prelude.{◌≡◌, ◌+◌, ◌≤◌, ◌||◌, ◌&&◌, not, nat_lt, nat_eq, length};
ghost use Rattle.pg_types.specs.declared.packed_table.TheConstants.{CELL_LEN};
ghost use Rattle.pg_table.specs.Forms.{cell_at};
ghost use Rattle.pg_table.specs.Inside.Breaches.{cell_breach};
ghost use Rattle.pg_table.specs.Inside.Extents.{cell_start};

use crate::parts::breach::CellRule;
use crate::parts::numbers::{u16_at, u32_at};
use crate::parts::sizes::Sizes;
use pg_types::Sign;
use pg_types::packed_table::{CELL_LEN, HEAD_LEN};

/// A cell: its sign, the base of the family below its string, and the head of its string's list.
/// Each is 0 where there is none.
#[derive(Clone, Copy, Debug, PartialEq, Eq)]
pub struct Cell {
    /// The last sign of the string that has the cell.
    pub sign: Sign,
    /// The base of the family of the longer strings.
    pub child: u32,
    /// The head of the list of the string's values.
    pub head: u32,
}

/// Where the cell with this number begins.
pub fn cell_start(at: u32) -> usize
    ensures { result ≡ cell_start at }
{
    HEAD_LEN + CELL_LEN * at as usize
}

impl Cell {
    /// The cell with this number.
    pub fn read(bytes: &[u8], at: u32) -> Cell
        requires { cell_start at + CELL_LEN ≤ length bytes.now }
        ensures { result ≡ cell_at bytes.now at }
    {
        let start = cell_start(at);
        Cell {
            sign: u16_at(bytes, start),
            child: u32_at(bytes, start + 2),
            head: u32_at(bytes, start + 6),
        }
    }

    /// Whether the cell has its own number as its sign, where it stands at the root.
    fn has_own_sign(&self, at: u32, sizes: &Sizes) -> bool
        ensures { result ≡ (nat_lt sizes.now.signs at || nat_eq self.now.sign at) }
    {
        sizes.signs < at || u32::from(self.sign) == at
    }

    /// Whether the cell is all 0, where it has no sign.
    fn is_clear(&self) -> bool
        ensures { result ≡ (not (nat_eq self.now.sign 0)
            || (nat_eq self.now.child 0 && nat_eq self.now.head 0)) }
    {
        self.sign != 0 || self.child == 0 && self.head == 0
    }

    /// The first rule that the cell breaks at its place.
    pub fn breach(&self, at: u32, sizes: &Sizes) -> Option<CellRule>
        ensures { result ≡ cell_breach sizes.now at self.now }
    {
        if !self.has_own_sign(at, sizes) {
            Some(CellRule::OwnSign)
        } else if !self.is_clear() {
            Some(CellRule::Unused)
        } else if u32::from(self.sign) > sizes.signs {
            Some(CellRule::Sign)
        } else if self.child >= sizes.cells {
            Some(CellRule::Child)
        } else if self.head > sizes.records {
            Some(CellRule::Head)
        } else {
            None
        }
    }
}
