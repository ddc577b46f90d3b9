//! A set of signs at which windows begin.
ghost use Rattle.std.specs.Prelude.{◌≤◌, ◌<◌, length};
ghost use Rattle.pg_types.specs.Inside.Limits.{positions_limit};

use crate::bits::{has_clear_part, keep_shifted, set_all};
use crate::walk::Walk;
use pg_types::bits::NUMBER_BITS;
use std::alloc::{AllocError, Global};

/// A set of signs at which windows begin. The signs are numbered through all words, from 0. It has
/// a bit for each of them, which is clear where the sign is in the set.
#[derive(Drop)]
pub struct StartSet {
    /// The bits, 64 of them in a number.
    pub(crate) bits: Vec<u64>,
    ghost some: { 0 < length bits.items },
    ghost few: { length bits.items ≤ positions_limit },
}

impl StartSet {
    ghost use Rattle.std.specs.Prelude.{◌≡◌, ◌≤◌, ◌<◌, ◌*◌, ◌+◌, ℕ, length, false, IsTrue, OnOk, IfOk};
    ghost use Rattle.pg_types.specs.Inside.Bits.{has_bit};
    ghost use Rattle.pg_types.specs.Inside.Limits.{positions_limit};
    ghost use Rattle.pg_types.specs.declared.limits.TheConstants.{LENGTH_MAX};
    ghost use Rattle.pg_dots.specs.Inside.Starts.{HasStartWalk, is_left_out, starts_room};
    ghost use Rattle.pg_dots.specs.Inside.Walks.{IsAhead, IsFirstFailing};

    /// The set of `size` signs and of some behind them.
    pub fn all(alloc: Global, size: usize) -> Result<StartSet, AllocError>
        requires { size < positions_limit }
        ensures room { IfOk result (λ s. size ≤ starts_room s) }
        ensures all { IfOk result (λ s. (i : ℕ) → is_left_out s i ≡ false) }
    {
        let bits = vec![in alloc; 0u64; size / NUMBER_BITS + 1]?;
        Ok(StartSet { bits })
    }

    /// Leaves all signs out.
    pub(crate) fn leave_out_all(&mut self)
        ensures { length self.new.bits.items ≡ length self.old.bits.items }
    {
        set_all(&mut self.bits);
    }

    /// Takes in the signs that stand `by` places before a clear bit of a row.
    pub(crate) fn take_in(&mut self, row: &[u64], by: usize)
        requires { by ≤ LENGTH_MAX }
        ensures room { length self.new.bits.items ≡ length self.old.bits.items }
        ensures old { (i : ℕ) → is_left_out self.old i ≡ false → is_left_out self.new i ≡ false }
        ensures row { (i : ℕ) → i < starts_room self.old → has_bit row.now (i + by) ≡ false
            → is_left_out self.new i ≡ false }
    {
        keep_shifted(&mut self.bits, row, by);
    }

    /// A walk over the signs of the set, before the first of them.
    pub fn walk(&self) -> Walk
        ensures within { HasStartWalk self.now result }
        ensures ahead { IsAhead (is_left_out self.now) result 0 }
    {
        Walk::start(&self.bits)
    }

    /// The next sign of a walk over those of the set; the end of all signs where there is none.
    pub fn next(&self, walk: &mut Walk) -> usize
        requires within { HasStartWalk self.now walk.old }
        ensures within { HasStartWalk self.now walk.new }
        ensures next { (from : ℕ) → IsAhead (is_left_out self.now) walk.old from
            → IsFirstFailing (is_left_out self.now) (starts_room self.now) from result }
        ensures ahead { (from : ℕ) → IsAhead (is_left_out self.now) walk.old from
            → result < starts_room self.now
            → IsAhead (is_left_out self.now) walk.new (result + 1) }
    {
        walk.next(&self.bits)
    }

    /// Whether each sign of the set is in another one.
    pub fn is_part_of(&self, whole: &StartSet) -> bool
        ensures { IsTrue result → (i : ℕ) → i < starts_room self.now
            → is_left_out self.now i ≡ false → is_left_out whole.now i ≡ false }
    {
        has_clear_part(&self.bits, &whole.bits)
    }
}
