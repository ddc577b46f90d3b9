//! The store: one vector of cells.
ghost use Rattle.std.specs.Prelude.{◌≡◌, ◌≢◌, ℕ, ◌+◌, ◌<◌, ◌≤◌, ◌==◌, if◌then◌else◌, ◌∷◌, length, nat_eq, slice_get, Some, IfOk, OnOk};
ghost use Rattle.pg_types.specs.Inside.Placing.{IsLeast};
ghost use Rattle.pg_cells.specs.Inside.store.CellRows.{FitsCell, SaysTaken, row_of, without_links, sign_at, child_at, IsFree};
ghost use Rattle.pg_cells.specs.Inside.store.BlockedBases.{AreBlocked};
ghost use Rattle.pg_cells.specs.Inside.store.Bounds.{NoneFree};
ghost use Rattle.pg_cells.specs.Inside.store.Fit.{HasSpace, fits_row, slot_signs};
ghost use Rattle.pg_cells.specs.Inside.store.BitSets.{room_of, has_index};
ghost use Rattle.pg_cells.specs.Inside.store.Store.{one_free, taken_in, IsTop, IsRow, Extends};
ghost use Rattle.pg_cells.specs.Inside.families.Root.{IsRootTo};
ghost use Rattle.pg_cells.specs.Inside.store.Writes.{Takes, Frees, SetsChild, SetsRowValue, SetsBase};
ghost use Rattle.pg_cells.specs.declared.store.member.Member.{Member as MemberOf};

mod bit_set;
mod blocks;
mod bounds;
mod cell;
pub mod fit;
mod free_cells;
pub mod member;
mod taken_set;

use crate::store::bit_set::BitSet;
use crate::store::blocks::find_in_blocks;
use crate::store::bounds::{bound_of, least_dropped, no_bounds, raise, still_placed};
use crate::store::cell::{
    CELLS_END, Cell, SIGN_COUNT, child_of, is_taken, set_base, set_child, set_free, set_taken,
    set_value, value_of,
};
use crate::store::fit::{Slot, has_sign_there, is_taken_there};
use crate::store::free_cells::{free_all, push_cell};
use crate::store::member::Member;
use crate::store::taken_set::TakenSet;
use pg_types::Sign;
use std::alloc::{AllocError, Global};
use std::marker::Model;

/// There is room for this many cells from the start. So the cells get a block of their own, which
/// the system lengthens in its place. Memory that no cell needs is never touched.
const CELLS_AT_FIRST: usize = 1 << 18;

/// The cells. Cell 0 is never taken.
#[derive(Drop)]
pub struct Store<V: Copy> {
    cells: Vec<Cell<V>>,
    top: usize,
    taken: usize,
    /// The taken cells.
    taken_set: TakenSet,
    /// The bases of families, a bit for each.
    bases: BitSet,
    /// A bound for each sign. Each base below it is that of a family, or the sign's cell there is
    /// taken, unless one of the two was given up since.
    lows: Vec<u32>,
    /// The least cell that was given up since the bounds were lowered last, `usize::MAX` where none
    /// was. It is 0 at the start, and where all cells were given up.
    freed: usize,
    /// The least base that was given up since the bounds were lowered last, `usize::MAX` where none
    /// was. It is 0 at the start.
    dropped: usize,
    /// The base of the family that was placed last, 0 where a cell or a base was given up since.
    placed: usize,
    /// The base at which the search for it began.
    sought: usize,
}

impl<V: Copy> Model for Store<V> {
    ghost use Rattle.pg_cells.specs.declared.store.member.Member.{Member};
    ghost use Rattle.pg_cells.specs.Inside.store.CellRows.{Row, row_of};
    ghost use Rattle.pg_cells.specs.Inside.store.Store.{member_code, row_code, IsStore};

    ghost Value = { Row (Member V) };

    ghost coded = { row_code (member_code V.code) };

    ghost view = { λ s. row_of s.cells.items };

    ghost invariant = { λ s.
        IsStore s.cells.items s.top s.taken s.taken_set.cells s.bases s.lows.items
        s.freed s.dropped s.placed s.sought };
}

impl<V: Copy> Store<V> {
    /// One free cell, and a bound for each of `signs` signs.
    pub fn new(alloc: Global, signs: u16, value: V) -> Result<Store<V>, AllocError>
        requires { signs < SIGN_COUNT }
        ensures { IfOk result (λ s. s ≡ one_free (without_links value)) }
    {
        let mut cells = Vec::with_capacity(alloc, CELLS_AT_FIRST)?;
        cells.push(Cell {
            value,
            signs: 0,
            links: 0,
        })?;
        let mut taken_set = TakenSet::empty(alloc);
        taken_set.make_room(1)?;
        let mut bases = BitSet::empty(alloc);
        bases.make_room(1)?;
        let lows = no_bounds(alloc, signs)?;
        Ok(Store {
            cells,
            top: 0,
            taken: 0,
            taken_set,
            bases,
            lows,
            freed: 0,
            dropped: 0,
            placed: 0,
            sought: 0,
        })
    }

    /// Whether a cell is taken. None past the end is.
    pub fn is_taken(&self, cell: usize) -> bool
        ensures { SaysTaken self.now cell result }
    {
        is_taken_there(self.cells.as_slice(), cell)
    }

    /// Whether a cell has a sign.
    pub fn has_sign(&self, cell: usize, sign: Sign) -> bool
        requires { sign ≢ 0 }
        ensures { result ≡ nat_eq (sign_at self.now cell) sign }
    {
        has_sign_there(self.cells.as_slice(), cell, sign)
    }

    /// The base of the child family of a taken cell, 0 for none.
    pub fn child(&self, cell: usize) -> usize
        requires { sign_at self.now cell ≢ 0 }
        ensures { result ≡ child_at self.now cell }
    {
        child_of(self.cells.as_slice(), cell)
    }

    /// The value of a taken cell.
    pub fn value(&self, cell: usize) -> Member<V>
        requires { sign_at self.now cell ≢ 0 }
        ensures value { slice_get self.now.values cell ≡ Some result }
        ensures fits { FitsCell result }
    {
        value_of(self.cells.as_slice(), cell)
    }

    /// The greatest taken cell.
    pub fn top(&self) -> usize
        ensures { IsTop self.now.signs result }
    {
        self.top
    }

    /// The number of taken cells.
    pub fn taken(&self) -> usize
        ensures { result ≡ taken_in self.now }
    {
        self.taken
    }

    /// Sets the base of the child family of a taken cell.
    pub fn set_child(&mut self, cell: usize, child: usize)
        requires taken { sign_at self.old cell ≢ 0 }
        requires child { child < length self.old.signs }
        ensures sets { SetsChild self.old self.new cell child }
        ensures row { IsRow self.new }
    {
        set_child(self.cells.as_mut_slice(), cell, child);
    }

    /// Sets the value of a taken cell.
    pub fn set_value(&mut self, cell: usize, value: Member<V>)
        requires taken { sign_at self.old cell ≢ 0 }
        requires fits { FitsCell value }
        ensures sets { SetsRowValue self.old self.new cell value }
        ensures row { IsRow self.new }
    {
        set_value(self.cells.as_mut_slice(), cell, value);
    }

    /// Sets whether a cell's index is the base of a family.
    pub fn set_base(&mut self, cell: usize, is_base: bool)
        requires { cell < length self.old.signs }
        ensures sets { SetsBase self.old self.new cell is_base }
        ensures row { IsRow self.new }
    {
        set_base(self.cells.as_mut_slice(), cell, is_base);
        put_in(&mut self.bases, cell, is_base);
        self.dropped = least_dropped(self.dropped, cell, is_base);
        self.placed = still_placed(self.placed, is_base);
    }

    /// Takes a free cell.
    pub fn take(&mut self, cell: usize, slot: Slot<Member<V>>)
        requires cell { 0 < cell }
        requires free { IsFree self.old cell }
        requires sign { slot.sign ≢ 0 }
        requires sign_fits { slot.sign < SIGN_COUNT }
        requires fits { FitsCell slot.value }
        requires child { slot.child < length self.old.signs }
        ensures takes { Takes self.old self.new cell slot.sign slot.value slot.child }
        ensures row { IsRow self.new }
    {
        set_taken(
            self.cells.as_mut_slice(),
            cell,
            slot.sign,
            slot.value,
            slot.child,
        );
        self.taken_set.insert(cell);
        self.top = self.top.max(cell);
        self.taken += 1;
    }

    /// Gives up a taken cell.
    pub fn free(&mut self, cell: usize)
        requires cell { 0 < cell }
        requires taken { sign_at self.old cell ≢ 0 }
        ensures frees { Frees self.old self.new cell }
        ensures row { IsRow self.new }
    {
        set_free(self.cells.as_mut_slice(), cell);
        self.taken_set.remove(cell);
        self.top = taken_up_to(self.cells.as_slice(), self.top);
        self.taken -= 1;
        self.freed = self.freed.min(cell);
        self.placed = 0;
    }

    /// Gives up all cells and bases, and the memory beyond that of the start. At least `least`
    /// cells stay, each of them free.
    pub fn clear(&mut self, least: usize)
        requires some { 0 < least }
        requires within { least ≤ length self.old.signs }
        ensures empty { (blank : MemberOf V) → IsRootTo 1 blank self.new }
        ensures least { least ≤ length self.new.signs }
        ensures row { IsRow self.new }
    {
        let count = least.max(CELLS_AT_FIRST.min(self.top + 1));
        self.cells.truncate(count);
        self.cells.shrink_to(CELLS_AT_FIRST);
        free_all(self.cells.as_mut_slice());
        self.taken_set.clear();
        self.bases.clear();
        self.top = 0;
        self.taken = 0;
        self.freed = 0;
        self.placed = 0;
    }

    /// Adds free cells until there are `count`. After an error the cells that were there are as
    /// before.
    pub fn grow(&mut self, count: usize, value: V) -> Result<(), AllocError>
        ensures extends { Extends self.old self.new }
        ensures length { OnOk result (count ≤ length self.new.signs) }
        ensures row { IsRow self.new }
    {
        if count <= self.cells.len() {
            return Ok(());
        }
        self.taken_set.make_room(count)?;
        self.bases.make_room(count)?;
        grow_cells(&mut self.cells, count, value)
    }

    /// Makes room for `more` cells from the greatest taken one on, which is counted too. After an
    /// error the cells that were there are as before.
    pub fn make_room(&mut self, more: usize, value: V) -> Result<(), AllocError>
        requires { more < CELLS_END }
        ensures extends { Extends self.old self.new }
        ensures room { OnOk result
            ((i : ℕ) → sign_at self.old i ≢ 0 → i + more ≤ length self.new.signs) }
        ensures row { IsRow self.new }
    {
        let count = self.top + more;
        self.grow(count, value)
    }

    /// The bound of a sign. Each base below it is that of a family, or the sign's cell there is
    /// taken.
    pub fn bound(&self, sign: Sign) -> usize
        ensures { (b : ℕ) → 0 < b → b < result → NoneFree self.now sign b }
    {
        bound_of(self.lows.as_slice(), self.freed, self.dropped, sign)
    }

    /// Raises the bound of a sign to a base. Each base below has to be that of a family, or the
    /// sign's cell there has to be taken.
    pub fn raise_bound(&mut self, sign: Sign, base: usize)
        requires base { base < length self.old.signs }
        requires none { (b : ℕ) → 0 < b → b < base → NoneFree self.old sign b }
        ensures { self.new ≡ self.old }
    {
        let lows = self.lows.as_mut_slice();
        raise(lows, self.freed, self.dropped, sign, base);
        self.freed = usize::MAX;
        self.dropped = usize::MAX;
    }

    /// Where the search for the family at `base` began, or `base` if that is not known. No base
    /// from there on and below `base` can take this family.
    pub fn sought_from(&self, base: usize) -> usize
        ensures { AreBlocked self.now base result }
    {
        if base == self.placed {
            self.sought
        } else {
            base
        }
    }

    /// Notes that a family was placed now at `base`, and that its search began at `low`.
    pub fn set_sought(&mut self, base: usize, low: usize)
        requires { AreBlocked self.old base low }
        ensures { self.new ≡ self.old }
    {
        self.placed = base;
        self.sought = low;
    }

    /// The least base from `low` on at which the sign and those of the slots may stand. `room` is a
    /// base at which they may stand.
    pub fn find_base(&self, slots: &[Slot<Member<V>>], sign: Sign, low: usize, room: usize) -> usize
        requires low { low ≤ room }
        requires room { HasSpace self.now slots.now sign room }
        ensures least { IsLeast (fits_row self.now (sign ∷ slot_signs slots.now)) low result }
        ensures room { result ≤ room }
    {
        find_in_blocks(&self.taken_set, &self.bases, slots, sign, low, room)
    }
}

// Puts an index into a set, or takes it out.
fn put_in(set: &mut BitSet, index: usize, is_in: bool)
    requires { index < room_of set.old }
    ensures room { room_of set.new ≡ room_of set.old }
    ensures has { (i : ℕ) → has_index set.new i
        ≡ (if i == index then is_in else has_index set.old i) }
{
    if is_in {
        set.insert(index);
    } else {
        set.remove(index);
    }
}

// The last taken cell up to a cell, or 0.
fn taken_up_to<V: Copy>(cells: &[Cell<V>], cell: usize) -> usize
    requires { cell < length cells.now }
    ensures below { result ≤ cell }
    ensures used { 0 < result → sign_at (row_of cells.now) result ≢ 0 }
    ensures most { (k : ℕ) → k ≤ cell → sign_at (row_of cells.now) k ≢ 0 → k ≤ result }
{
    let mut at = cell;
    while at > 0 && !is_taken(cells, at) {
        at -= 1;
    }
    at
}

// Adds free cells until there are `count`. It fails where an index would not fit in a link.
fn grow_cells<V: Copy>(cells: &mut Vec<Cell<V>>, count: usize, value: V) -> Result<(), AllocError>
    requires { length cells.old.items < CELLS_END }
    ensures small { length cells.new.items < CELLS_END }
    ensures extends { Extends (row_of cells.old.items) (row_of cells.new.items) }
    ensures length { OnOk result (count ≤ length cells.new.items) }
    ensures within { length cells.old.items ≤ count → length cells.new.items ≤ count }
{
    if count >= CELLS_END {
        return Err(AllocError);
    }
    'grow: while cells.len() < count {
        push_cell(cells, value)?;
    }
    Ok(())
}
