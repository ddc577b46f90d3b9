//! One cell, and the reading and writing of its parts.
ghost use Rattle.std.specs.Prelude.{◌≡◌, ◌≢◌, ◌<◌, ◌+◌, ◌*◌, ◌%◌, length, nat_eq, slice_get, Some};
ghost use Rattle.pg_cells.specs.Inside.store.CellRows.{row_of, FitsCell, SaysTaken, base_in, link_in, with_child, with_value, with_base, with_taken, with_free, sign_at, child_at};

use crate::store::member::Member;
use pg_types::Sign;

/// There are fewer cells than this, so that a cell has room for the base of its child family.
pub const CELLS_END: usize = 1 << 29;

/// Each sign is below this. So many numbers fit where a cell keeps a sign.
pub const SIGN_COUNT: u32 = 1 << 11;

/// In `signs` one less than the sign stands from this bit on. The bit below says whether the cell
/// is taken.
pub const SIGN_AT: u32 = 1 << 1;

/// In `signs` the next sign of the family stands from this bit on.
pub const NEXT_AT: u32 = 1 << 12;

/// In `signs` the lower part of the first sign stands from this bit on.
pub const FIRST_AT: u32 = 1 << 23;

/// How many numbers fit where the lower part of the first sign stands.
pub const FIRST_COUNT: u32 = 1 << 9;

/// In `links` this bit says whether the index is a base. The bits below are the upper part of the
/// first sign.
pub const BASE_AT: u32 = 1 << 2;

/// In `links` the base of the child family stands from this bit on.
pub const LINK_AT: u32 = 1 << 3;

/// A cell. Its parts beside the value are packed into two numbers of 32 bits, so that many cells
/// fit in the cache.
#[derive(Clone, Copy)]
pub struct Cell<V> {
    /// The value of the string that ends with this cell.
    pub value: V,
    /// Of a taken cell: a bit that is 1, its sign less one, the next sign of its family and the
    /// lower part of the first sign below, 0 for none. Of a free cell 0.
    pub signs: u32,
    /// The upper part of the first sign, whether the index of the cell is the base of a family, and
    /// the base of the child family, 0 for none.
    pub links: u32,
}

// The part of `signs` above the sign.
fn upper_signs(next: Sign, first: Sign) -> u32
    requires { next < SIGN_COUNT }
    ensures { result ≡ next * NEXT_AT + first % FIRST_COUNT * FIRST_AT }
{
    next as u32 * NEXT_AT + first as u32 % FIRST_COUNT * FIRST_AT
}

// `links` with the bit that says whether the index is a base.
fn links_with_base(links: u32, is_base: bool) -> u32
    ensures base { base_in result ≡ is_base }
    ensures link { link_in result ≡ link_in links }
    ensures first { result % BASE_AT ≡ links % BASE_AT }
{
    let others = links / LINK_AT * LINK_AT + links % BASE_AT;
    if is_base { others + BASE_AT } else { others }
}

/// Whether a cell is taken.
pub fn is_taken<V: Copy>(cells: &[Cell<V>], cell: usize) -> bool
    requires { cell < length cells.now }
    ensures { SaysTaken (row_of cells.now) cell result }
{
    cells[cell].signs % SIGN_AT == 1
}

/// Whether the cell has the sign. A walk asks this at each step, so no part is taken out of
/// `signs`: its lower bits are compared as they are.
pub fn has_sign<V: Copy>(cells: &[Cell<V>], cell: usize, sign: Sign) -> bool
    requires cell { cell < length cells.now }
    requires sign { sign ≢ 0 }
    ensures { result ≡ nat_eq (sign_at (row_of cells.now) cell) sign }
{
    cells[cell].signs % NEXT_AT == 1 + (sign as u32 - 1) * SIGN_AT
}

/// The value of a taken cell, with the next sign of its family and the first sign below its string.
pub fn value_of<V: Copy>(cells: &[Cell<V>], cell: usize) -> Member<V>
    requires cell { cell < length cells.now }
    requires taken { sign_at (row_of cells.now) cell ≢ 0 }
    ensures value { slice_get (row_of cells.now).values cell ≡ Some result }
    ensures fits { FitsCell result }
{
    let taken = cells[cell];
    Member {
        value: taken.value,
        next: (taken.signs / NEXT_AT % SIGN_COUNT) as Sign,
        first: (taken.links % BASE_AT * FIRST_COUNT + taken.signs / FIRST_AT % FIRST_COUNT) as Sign,
    }
}

/// The base of the child family of a taken cell, 0 for none.
pub fn child_of<V: Copy>(cells: &[Cell<V>], cell: usize) -> usize
    requires cell { cell < length cells.now }
    requires taken { sign_at (row_of cells.now) cell ≢ 0 }
    ensures { result ≡ child_at (row_of cells.now) cell }
{
    (cells[cell].links / LINK_AT) as usize
}

/// Sets the base of the child family of a taken cell, 0 for none.
pub fn set_child<V: Copy>(cells: &mut [Cell<V>], cell: usize, child: usize)
    requires cell { cell < length cells.old }
    requires taken { sign_at (row_of cells.old) cell ≢ 0 }
    requires child { child < CELLS_END }
    ensures { row_of cells.new ≡ with_child (row_of cells.old) cell child }
{
    let taken = &mut cells[cell];
    taken.links = child as u32 * LINK_AT + taken.links % LINK_AT;
}

/// Sets the value of a taken cell, with the next and the first sign.
pub fn set_value<V: Copy>(cells: &mut [Cell<V>], cell: usize, value: Member<V>)
    requires cell { cell < length cells.old }
    requires taken { sign_at (row_of cells.old) cell ≢ 0 }
    requires fits { FitsCell value }
    ensures { row_of cells.new ≡ with_value (row_of cells.old) cell value }
{
    let taken = &mut cells[cell];
    taken.value = value.value;
    taken.signs = taken.signs % NEXT_AT + upper_signs(value.next, value.first);
    taken.links = taken.links / BASE_AT * BASE_AT + value.first as u32 / FIRST_COUNT;
}

/// Sets whether the index of a cell is the base of a family.
pub fn set_base<V: Copy>(cells: &mut [Cell<V>], cell: usize, is_base: bool)
    requires { cell < length cells.old }
    ensures { row_of cells.new ≡ with_base (row_of cells.old) cell is_base }
{
    let held = &mut cells[cell];
    held.links = links_with_base(held.links, is_base);
}

/// Takes a cell for a sign, with its value and the base of its child family, 0 for none. Whether
/// its index is a base stays as it is.
pub fn set_taken<V: Copy>(
    cells: &mut [Cell<V>],
    cell: usize,
    sign: Sign,
    value: Member<V>,
    child: usize,
)
    requires cell { cell < length cells.old }
    requires sign { sign ≢ 0 }
    requires sign_fits { sign < SIGN_COUNT }
    requires fits { FitsCell value }
    requires child { child < CELLS_END }
    ensures { row_of cells.new ≡ with_taken (row_of cells.old) cell sign value child }
{
    let taken = &mut cells[cell];
    taken.value = value.value;
    taken.signs = 1 + (sign as u32 - 1) * SIGN_AT + upper_signs(value.next, value.first);
    taken.links = child as u32 * LINK_AT
        + taken.links / BASE_AT % 2 * BASE_AT
        + value.first as u32 / FIRST_COUNT;
}

/// Makes a cell free. Whether its index is a base stays as it is.
pub fn set_free<V: Copy>(cells: &mut [Cell<V>], cell: usize)
    requires { cell < length cells.old }
    ensures { row_of cells.new ≡ with_free (row_of cells.old) cell }
{
    let free = &mut cells[cell];
    free.signs = 0;
    free.links %= LINK_AT;
}
