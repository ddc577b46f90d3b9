//! A set of indices of cells.
ghost use Rattle.std.specs.Prelude.{◌≡◌, ◌<◌, ◌≤◌, ◌+◌, ◌*◌, ◌/◌, ◌^◌, ◌||◌, ◌&&◌, ◌==◌, ℕ, max, not, true, false, OnOk};
ghost use Rattle.std.specs.Int.{bit_at};

use pg_types::bits::{NUMBER_BITS, bits_from, clear, set};
use std::alloc::{AllocError, Global};

/// A set of indices of cells: a bit for each index below its room.
#[derive(Drop)]
pub struct BitSet {
    /// The bits, 64 of them in a number.
    bits: Vec<u64>,
}

impl BitSet {
    ghost use Rattle.pg_cells.specs.Inside.store.BitSets.{has_index, room_of};

    /// The empty set, which has no room. It takes no memory.
    pub fn empty(alloc: Global) -> BitSet
        ensures none { (i : ℕ) → has_index result i ≡ false }
        ensures room { room_of result ≡ 0 }
    {
        BitSet {
            bits: Vec::new(alloc),
        }
    }

    /// Makes room for at least `count` indices. After an error nothing has changed.
    pub fn make_room(&mut self, count: usize) -> Result<(), AllocError>
        ensures room { OnOk result (count ≤ room_of self.new) }
        ensures grows { room_of self.old ≤ room_of self.new }
        ensures within { room_of self.new ≤ max (room_of self.old) (64 * (count / 64 + 1)) }
        ensures same { (i : ℕ) → has_index self.new i ≡ has_index self.old i }
    {
        let len = count / NUMBER_BITS + 1;
        if self.bits.len() < len {
            self.bits.resize(len, 0)?;
        }
        Ok(())
    }

    /// Puts an index in.
    #[inline]
    pub fn insert(&mut self, index: usize)
        requires { index < room_of self.old }
        ensures room { room_of self.new ≡ room_of self.old }
        ensures has { (i : ℕ) → has_index self.new i ≡ (i == index || has_index self.old i) }
    {
        set(&mut self.bits, index);
    }

    /// Takes an index out.
    #[inline]
    pub fn remove(&mut self, index: usize)
        requires { index < room_of self.old }
        ensures room { room_of self.new ≡ room_of self.old }
        ensures has { (i : ℕ) → has_index self.new i
            ≡ (not (i == index) && has_index self.old i) }
    {
        clear(&mut self.bits, index);
    }

    /// Takes all indices out.
    pub fn clear(&mut self)
        ensures room { room_of self.new ≡ room_of self.old }
        ensures none { (i : ℕ) → has_index self.new i ≡ false }
    {
        self.bits.fill(0);
    }

    /// Which of the 64 indices from `index` on are in the set, a bit for each.
    #[inline]
    pub fn from(&self, index: usize) -> u64
        ensures { (j : ℕ) → j < 64 → (bit_at result j == 1) ≡ has_index self.now (index + j) }
    {
        bits_from(&self.bits, index)
    }
    /// The first index from `index` on that is not in the set. `bound` is one that is not.
    #[inline]
    pub fn first_absent(&self, index: usize, bound: usize) -> usize
        requires from { index ≤ bound }
        requires small { bound < 2 ^ 60 }
        requires absent { has_index self.now bound ≡ false }
        ensures from { index ≤ result }
        ensures bound { result ≤ bound }
        ensures absent { has_index self.now result ≡ false }
        ensures before { (i : ℕ) → index ≤ i → i < result → has_index self.now i ≡ true }
    {
        let mut at = index;
        let mut has = self.from(at);
        while has == u64::MAX {
            at += NUMBER_BITS;
            has = self.from(at);
        }
        at + has.trailing_ones() as usize
    }
}
