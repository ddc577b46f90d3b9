//! A set of positions of the words of a dictionary.
ghost use Rattle.std.specs.Prelude.{◌≡◌, ◌<◌, ◌*◌, ◌-◌, ◌^◌, ◌&&◌, ◌==◌, ℕ, not, length, true, IfOk};

use crate::bits::ROOM_AT_LEAST;
use pg_types::bits::clear;
use std::alloc::{AllocError, Global};

/// A set of positions of the words of a dictionary, which are numbered through all words, from 0.
/// It has one bit for each of them.
#[derive(Drop)]
pub struct PositionSet {
    /// The bits, 64 of them in a number.
    pub(crate) bits: Vec<u64>,
}

impl PositionSet {
    ghost use Rattle.pg_dots.specs.Inside.Positions.{is_among, positions_room};

    /// The set of all positions that have a bit in `width` numbers.
    pub(crate) fn full(alloc: Global, width: usize) -> Result<PositionSet, AllocError>
        ensures room { IfOk result (λ all. positions_room all ≡ 64 * width) }
        ensures among { IfOk result (λ all. (i : ℕ) → i < 64 * width → is_among all i ≡ true) }
    {
        let mut bits = vec![in alloc; u64::MAX; width]?;
        let _ = bits.reserve_exact(ROOM_AT_LEAST);
        Ok(PositionSet { bits })
    }

    /// Takes a position out.
    pub fn remove(&mut self, i: usize)
        requires within { i < positions_room self.old }
        ensures room { positions_room self.new ≡ positions_room self.old }
        ensures among { (j : ℕ) → is_among self.new j ≡ (not (j == i) && is_among self.old j) }
    {
        clear(&mut self.bits, i);
    }
}
