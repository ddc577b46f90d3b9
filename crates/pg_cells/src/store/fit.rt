//! What a search for a base asks of a cell.
ghost use Rattle.std.specs.Prelude.{◌≡◌, ◌≢◌, nat_eq};
ghost use Rattle.pg_cells.specs.Inside.store.CellRows.{row_of, SaysTaken, sign_at};

use crate::store::cell::{Cell, has_sign, is_taken};
use pg_types::Sign;

/// What a taken cell holds.
#[derive(Clone, Copy)]
pub struct Slot<V> {
    /// The value of the string that ends with the cell.
    pub value: V,
    /// The base of the child family, 0 for none.
    pub child: usize,
    /// The last sign of that string.
    pub sign: Sign,
}

/// Whether a cell is taken. None past the end is.
pub fn is_taken_there<V: Copy>(cells: &[Cell<V>], cell: usize) -> bool
    ensures { SaysTaken (row_of cells.now) cell result }
{
    if cell < cells.len() {
        is_taken(cells, cell)
    } else {
        false
    }
}

/// Whether a cell has a sign. None past the end has it.
pub fn has_sign_there<V: Copy>(cells: &[Cell<V>], cell: usize, sign: Sign) -> bool
    requires { sign ≢ 0 }
    ensures { result ≡ nat_eq (sign_at (row_of cells.now) cell) sign }
{
    if cell < cells.len() {
        has_sign(cells, cell, sign)
    } else {
        false
    }
}
