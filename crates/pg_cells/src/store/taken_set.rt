//! The set of taken cells.
ghost use Rattle.std.specs.Prelude.{◌≡◌, ◌<◌, ◌≤◌, ◌+◌, ◌/◌, ◌||◌, ◌&&◌, ◌==◌, ℕ, not, true, false, OnOk};
ghost use Rattle.std.specs.Int.{bit_at};
ghost use Rattle.pg_cells.specs.Inside.store.BitSets.{has_index, room_of, AreFull};

use crate::store::bit_set::BitSet;
use pg_types::bits::NUMBER_BITS;
use std::alloc::{AllocError, Global};

/// The set of taken cells. It also keeps which numbers of 64 cells are full, so that a search
/// passes over these.
#[derive(Drop)]
pub struct TakenSet {
    /// The taken cells, a bit for each.
    cells: BitSet,
    /// The numbers of 64 cells that are all taken, a bit for each.
    full: BitSet,
    ghost fills: { AreFull cells full },
}

impl TakenSet {
    /// The empty set, which has no room. It takes no memory.
    pub fn empty(alloc: Global) -> TakenSet
        ensures none { (i : ℕ) → has_index result.cells i ≡ false }
    {
        TakenSet {
            cells: BitSet::empty(alloc),
            full: BitSet::empty(alloc),
        }
    }

    /// Makes room for at least `count` cells. After an error the set is as before.
    pub fn make_room(&mut self, count: usize) -> Result<(), AllocError>
        ensures room { OnOk result (count ≤ room_of self.new.cells) }
        ensures grows { room_of self.old.cells ≤ room_of self.new.cells }
        ensures same { (i : ℕ) → has_index self.new.cells i ≡ has_index self.old.cells i }
    {
        self.full.make_room(count / NUMBER_BITS + 1)?;
        self.cells.make_room(count)?;
        Ok(())
    }

    /// Puts a cell in.
    pub fn insert(&mut self, cell: usize)
        requires { cell < room_of self.old.cells }
        ensures room { room_of self.new.cells ≡ room_of self.old.cells }
        ensures has { (i : ℕ) → has_index self.new.cells i
            ≡ (i == cell || has_index self.old.cells i) }
    {
        self.cells.insert(cell);
        let number = cell / NUMBER_BITS;
        if self.cells.from(number * NUMBER_BITS) == u64::MAX {
            self.full.insert(number);
        }
    }

    /// Takes a cell out.
    pub fn remove(&mut self, cell: usize)
        requires { cell < room_of self.old.cells }
        ensures room { room_of self.new.cells ≡ room_of self.old.cells }
        ensures has { (i : ℕ) → has_index self.new.cells i
            ≡ (not (i == cell) && has_index self.old.cells i) }
    {
        self.full.remove(cell / NUMBER_BITS);
        self.cells.remove(cell);
    }

    /// Takes all cells out.
    pub fn clear(&mut self)
        ensures room { room_of self.new.cells ≡ room_of self.old.cells }
        ensures none { (i : ℕ) → has_index self.new.cells i ≡ false }
    {
        self.full.clear();
        self.cells.clear();
    }

    /// Which of the 64 cells from `cell` on are in the set, a bit for each.
    #[inline]
    pub fn from(&self, cell: usize) -> u64
        ensures { (j : ℕ) → j < 64 → (bit_at result j == 1) ≡ has_index self.now.cells (cell + j) }
    {
        self.cells.from(cell)
    }

    /// The first cell of the next number behind that of `cell` that is not full. `room` is a free
    /// cell behind that number.
    #[inline]
    pub fn behind(&self, cell: usize, room: usize) -> usize
        requires later { cell / 64 < room / 64 }
        requires free { has_index self.now.cells room ≡ false }
        ensures later { cell < result }
        ensures room { result ≤ room }
        ensures taken { (i : ℕ) → cell + 64 ≤ i → i < result → has_index self.now.cells i ≡ true }
    {
        self.full
            .first_absent(cell / NUMBER_BITS + 1, room / NUMBER_BITS)
            * NUMBER_BITS
    }
}
