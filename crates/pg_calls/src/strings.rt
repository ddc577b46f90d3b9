//! The cells by their strings.
ghost use Rattle.std.specs.Prelude.{◌≡◌, ℕ, List, Some};
ghost use Rattle.pg_types.specs.Inside.Signs.{IsTableSign};
ghost use Rattle.pg_types.specs.Inside.Placing.{cell_of};

use pg_cells::{Cells, step};
use pg_types::Sign;
use std::test::Fail;

/// The cell of the sign in the family below a cell, or below the root for `None`.
pub fn cell_below(cells: &Cells<u32>, parent: Option<usize>, s: Sign) -> Option<usize> {
    if s < 1 || cells.signs() < s {
        return None;
    }
    match parent {
        None => step(cells, None, s),
        Some(cell) => {
            cells.value_if_taken(cell)?;
            step(cells, Some(cell), s)
        }
    }
}

/// The cell of a string.
pub fn cell_of(cells: &Cells<u32>, string: &[Sign]) -> Option<usize> {
    let mut at = None;
    for s in string {
        at = Some(cell_below(cells, at, *s)?);
    }
    at
}

/// Adds the sign with the value below the string of a cell, and gives its cell, or removes it where
/// it is there and no family is below it.
fn change(cells: &mut Cells<u32>, parent: usize, s: Sign, value: u32) -> Result<Option<usize>, Fail>
    requires parent { (q : List ℕ) × (cell_of cells.old.families q ≡ Some parent) }
    requires sign { IsTableSign cells.old.signs s }
{
    match step(cells, Some(parent), s) {
        None => Ok(Some(cells.add(parent, s, value)?)),
        Some(cell) => {
            if cells.child(cell) == 0 {
                cells.remove(parent, s);
            }
            Ok(None)
        }
    }
}

/// Adds or removes a sign below a cell, as `change` does. The cell may be free, which is an error.
pub fn change_below(
    cells: &mut Cells<u32>,
    parent: usize,
    s: Sign,
    value: u32,
) -> Result<Option<usize>, Fail> {
    if s < 1 || cells.signs() < s {
        return Err(Fail::new("a sign of the table"));
    }
    match cells.value_if_taken(parent) {
        None => Err(Fail::new("a taken cell")),
        Some(_) => change(cells, parent, s, value),
    }
}

/// Adds or removes a sign below a string, as `change` does. A string without a cell is an error.
pub fn change_at(
    cells: &mut Cells<u32>,
    string: &[Sign],
    s: Sign,
    value: u32,
) -> Result<Option<usize>, Fail> {
    match cell_of(cells, string) {
        None => Err(Fail::new("the string has a cell")),
        Some(cell) => change_below(cells, cell, s, value),
    }
}
