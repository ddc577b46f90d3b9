//! Free cells: all of them, and one more.
ghost use Rattle.std.specs.Prelude.{◌≡◌, length, OnOk, OnErr};
ghost use Rattle.pg_cells.specs.Inside.store.CellRows.{row_of, with_more, without_links};
ghost use Rattle.pg_cells.specs.Inside.store.Store.{AreFreeTo};

use crate::store::cell::{Cell, set_base, set_free};
use std::alloc::AllocError;

/// Makes all cells free. Their indices are no bases any more.
pub fn free_all<V: Copy>(cells: &mut [Cell<V>])
    ensures size { length cells.new ≡ length cells.old }
    ensures free { AreFreeTo (length cells.old) (row_of cells.new) }
{
    for cell in 0..cells.len() {
        set_free(cells, cell);
        set_base(cells, cell, false);
    }
}

/// Adds a free cell at the end.
pub fn push_cell<V: Copy>(cells: &mut Vec<Cell<V>>, value: V) -> Result<(), AllocError>
    ensures row { OnOk result (row_of cells.new.items
        ≡ with_more (row_of cells.old.items) (without_links value)) }
    ensures err { OnErr result (cells.new.items ≡ cells.old.items) }
{
    cells.push(Cell {
        value,
        signs: 0,
        links: 0,
    })?;
    Ok(())
}
