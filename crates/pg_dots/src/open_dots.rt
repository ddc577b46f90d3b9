//! Which dots are closed at which positions.
ghost use Rattle.std.specs.Prelude.{◌≡◌, ◌≤◌, ◌<◌, ◌*◌, ◌+◌, ◌-◌, ◌^◌, ◌||◌, ◌&&◌, ◌==◌, ℕ, not, nat_le, length, false, true, take, ◌++◌, IfOk, OnOk, OnErr};
ghost use Rattle.pg_types.specs.Inside.Bits.{has_bit};
ghost use Rattle.pg_types.specs.declared.limits.TheConstants.{LENGTH_MAX};
ghost use Rattle.pg_types.specs.Inside.Limits.{positions_limit};

use crate::bits::{ROOM_AT_LEAST, take_in_before, turn_others};
use crate::position_set::PositionSet;
use crate::start_set::StartSet;
use crate::walk::Walk;
use pg_types::LENGTH_MAX;
use pg_types::bits::{NUMBER_BITS, clear, set};
use std::alloc::{AllocError, Global};

/// How many dots there are: those of the greatest length.
const DOTS: usize = LENGTH_MAX as usize + 1;

/// Which dots are closed at which positions of the words of a dictionary. The positions are
/// numbered through all words, from 0, and for each dot there is a row with one bit for each of
/// them.
///
/// The dots that are not reached yet share one row. Where its bit is set, the position is closed
/// altogether: at every dot.
#[derive(Drop)]
pub struct OpenDots {
    /// How many numbers a row has.
    width: usize,
    /// How many dots have a row of their own, from 0 on.
    reached: usize,
    /// The rows, one after the other: first that of the dots that are not reached, then those of
    /// the dots.
    bits: Vec<u64>,
    ghost some: { 0 < width },
    ghost narrow: { width ≤ positions_limit },
    ghost few: { reached ≤ LENGTH_MAX + 1 },
    ghost rows: { length bits.items ≡ (reached + 1) * width },
}

impl OpenDots {
    ghost use Rattle.pg_dots.specs.Inside.Walks.{IsFirstFailing};
    ghost use Rattle.pg_dots.specs.Inside.Dots.{dot_row, is_closed, position_count, HasWalk};
    ghost use Rattle.pg_dots.specs.Inside.Positions.{is_among, positions_room};
    ghost use Rattle.pg_dots.specs.Inside.Starts.{is_left_out, starts_room};
    ghost use Rattle.pg_dots.specs.Inside.Walks.{IsAhead};

    /// Each dot is closed at each of `size` positions, and no dot is reached.
    pub fn all_closed(alloc: Global, size: usize) -> Result<OpenDots, AllocError>
        requires { size ≤ positions_limit }
        ensures size { IfOk result (λ o. size ≤ position_count o) }
        ensures few { IfOk result (λ o. position_count o ≤ size + 64) }
        ensures none { IfOk result (λ o. o.reached ≡ 0) }
        ensures closed { IfOk result (λ o. (dot i : ℕ) → i < position_count o → is_closed o dot i
            ≡ true) }
    {
        let width = size / NUMBER_BITS + 1;
        let mut bits = vec![in alloc; u64::MAX; width]?;
        ask_for_rows(&mut bits, width);
        Ok(OpenDots {
            width,
            reached: 0,
            bits,
        })
    }

    /// Opens each dot at a position. No dot is reached.
    pub fn open(&mut self, i: usize)
        requires within { i < position_count self.old }
        requires none { self.old.reached ≡ 0 }
        ensures positions { position_count self.new ≡ position_count self.old }
        ensures none { self.new.reached ≡ 0 }
        ensures closed { (dot j : ℕ) → j < position_count self.old
            → is_closed self.new dot j ≡ (not (j == i) && is_closed self.old dot j) }
    {
        clear(&mut self.bits, i);
    }

    /// Gives a dot a row of its own, and the lesser ones too.
    pub fn reach(&mut self, dot: u8) -> Result<(), AllocError>
        requires { dot ≤ LENGTH_MAX }
        ensures reached { OnOk result (dot < self.new.reached) }
        ensures positions { position_count self.new ≡ position_count self.old }
        ensures closed { (d j : ℕ) → j < position_count self.old
            → is_closed self.new d j ≡ is_closed self.old d j }
    {
        while self.reached <= usize::from(dot) {
            self.reach_next()?;
        }
        Ok(())
    }

    /// Gives the next dot a row of its own.
    fn reach_next(&mut self) -> Result<(), AllocError>
        requires { self.old.reached < LENGTH_MAX + 1 }
        ensures reached { OnOk result (self.new.reached ≡ self.old.reached + 1) }
        ensures positions { position_count self.new ≡ position_count self.old }
        ensures closed { (d j : ℕ) → j < position_count self.old
            → is_closed self.new d j ≡ is_closed self.old d j }
    {
        push_first(&mut self.bits, self.width)?;
        self.reached += 1;
        Ok(())
    }

    /// A walk over the positions at which a dot is open, before the first of them.
    pub fn walk(&self, dot: u8) -> Walk
        requires dot { dot < self.now.reached }
        ensures within { HasWalk self.now result }
        ensures ahead { IsAhead (is_closed self.now dot) result 0 }
    {
        Walk::start(self.row(dot))
    }

    /// The next position of a walk over those at which a dot is open; the end of all positions
    /// where there is none.
    pub fn next_open(&self, dot: u8, walk: &mut Walk) -> usize
        requires dot { dot < self.now.reached }
        requires within { HasWalk self.now walk.old }
        ensures within { HasWalk self.now walk.new }
        ensures next { (from : ℕ) → IsAhead (is_closed self.now dot) walk.old from
            → IsFirstFailing (is_closed self.now dot) (position_count self.now) from result }
        ensures ahead { (from : ℕ) → IsAhead (is_closed self.now dot) walk.old from
            → result < position_count self.now
            → IsAhead (is_closed self.now dot) walk.new (result + 1) }
    {
        walk.next(self.row(dot))
    }

    /// The index of the row of a dot.
    fn row_index(&self, dot: u8) -> usize
        ensures { result ≡ dot_row self.now.reached dot }
    {
        let index = usize::from(dot);
        if index < self.reached { index + 1 } else { 0 }
    }

    /// The row of a dot: that of all dots that are not reached, where it is not.
    fn row(&self, dot: u8) -> &[u64]
        ensures size { length result.now ≡ self.now.width }
        ensures bits { (i : ℕ) → i < position_count self.now
            → has_bit result.now i ≡ is_closed self.now dot i }
    {
        let start = self.row_index(dot) * self.width;
        &self.bits[start..start + self.width]
    }

    /// Leaves in the set the signs whose window of `len` signs has an open dot, at the position where
    /// that dot is in it, and perhaps some close to the end.
    pub fn set_starts(&self, len: u8, starts: &mut StartSet)
        requires { len ≤ LENGTH_MAX }
        ensures room { starts_room starts.new ≡ starts_room starts.old }
        ensures free { (d i : ℕ) → d ≤ len → i < starts_room starts.old
            → i + d < position_count self.now → is_closed self.now d (i + d) ≡ false
            → is_left_out starts.new i ≡ false }
    {
        starts.leave_out_all();
        let end = len + 1;
        'dots: for dot in 0..end {
            starts.take_in(self.row(dot), usize::from(dot));
        }
    }

    /// Closes a dot at a position.
    pub fn close(&mut self, dot: u8, i: usize)
        requires dot { dot < self.old.reached }
        requires within { i < position_count self.old }
        ensures positions { position_count self.new ≡ position_count self.old }
        ensures reached { self.new.reached ≡ self.old.reached }
        ensures closed { (d j : ℕ) → j < position_count self.old
            → is_closed self.new d j ≡ ((d == dot && j == i) || is_closed self.old d j) }
    {
        let row = (usize::from(dot) + 1) * self.width;
        set(&mut self.bits, row * NUMBER_BITS + i);
    }

    /// Closes every dot at a position.
    pub fn close_all(&mut self, i: usize)
        requires within { i < position_count self.old }
        ensures positions { position_count self.new ≡ position_count self.old }
        ensures reached { self.new.reached ≡ self.old.reached }
        ensures closed { (d j : ℕ) → j < position_count self.old
            → is_closed self.new d j ≡ (j == i || is_closed self.old d j) }
    {
        set_in_rows(&mut self.bits, self.width, self.reached + 1, i);
    }

    /// Goes on to the next length: a dot is closed where it was, or where the dot before it was.
    pub fn next_length(&mut self) -> Result<(), AllocError>
        ensures positions { position_count self.new ≡ position_count self.old }
        ensures closed { OnOk result ((d j : ℕ) → d ≤ LENGTH_MAX → j < position_count self.old
            → is_closed self.new d j
            ≡ (is_closed self.old d j || (nat_le 1 d && is_closed self.old (d - 1) j))) }
        ensures beyond { OnOk result ((d j : ℕ) → LENGTH_MAX < d → j < position_count self.old
            → is_closed self.new d j ≡ is_closed self.old d j) }
        ensures err { OnErr result ((d j : ℕ) → j < position_count self.old
            → is_closed self.new d j ≡ is_closed self.old d j) }
    {
        if self.reached == 0 {
            return Ok(());
        }
        if self.reached < DOTS {
            self.reach_next()?;
        }
        take_in_before(&mut self.bits, self.width);
        Ok(())
    }

    /// The set of all positions.
    pub fn all_positions(&self, alloc: Global) -> Result<PositionSet, AllocError>
        ensures room { IfOk result (λ all. positions_room all ≡ position_count self.now) }
        ensures among { IfOk result (λ all. (i : ℕ) → i < position_count self.now
            → is_among all i ≡ true) }
    {
        PositionSet::full(alloc, self.width)
    }

    /// Goes on to the next level. Each dot is open at those positions alone that were closed
    /// altogether and are not kept closed. No dot is reached, and the memory of all rows but one is
    /// given back. The windows of the first passes need most of it.
    pub fn next_level(&mut self, kept: &PositionSet)
        requires room { positions_room kept.now ≡ position_count self.old }
        ensures positions { position_count self.new ≡ position_count self.old }
        ensures none { self.new.reached ≡ 0 }
        ensures closed { (d j : ℕ) → j < position_count self.old → is_closed self.new d j
            ≡ (not (is_closed self.old (LENGTH_MAX + 1) j) || is_among kept.now j) }
    {
        self.bits.truncate(self.width);
        self.bits.shrink_to_fit();
        ask_for_rows(&mut self.bits, self.width);
        turn_others(&mut self.bits, &kept.bits);
        self.reached = 0;
    }
}

/// Asks for room for the rows of all dots, so that no row is copied when the next one is added.
/// What no row needs stays untouched. Where there is no such room, each row asks for its own.
fn ask_for_rows(bits: &mut Vec<u64>, width: usize)
    requires { width ≤ positions_limit }
    ensures { bits.new.items ≡ bits.old.items }
{
    let _ = bits.reserve_exact(ROOM_AT_LEAST.max(width * DOTS));
}

/// Appends a copy of the first `width` numbers. It takes no more memory than they need.
fn push_first(bits: &mut Vec<u64>, width: usize) -> Result<(), AllocError>
    requires { width ≤ length bits.old.items }
    ensures ok { OnOk result (bits.new.items ≡ bits.old.items ++ take width bits.old.items) }
    ensures err { OnErr result (bits.new.items ≡ bits.old.items) }
{
    bits.reserve_exact(width)?;
    bits.extend_from_within(0..width)?;
    Ok(())
}

/// Sets bit `i` of each of the rows of `width` numbers.
fn set_in_rows(bits: &mut [u64], width: usize, rows: usize, i: usize)
    requires rows { length bits.old ≡ rows * width }
    requires within { i < 64 * width }
    requires few { 64 * length bits.old < 2 ^ 64 }
    ensures { (r j : ℕ) → r < rows → j < 64 * width → has_bit bits.new (r * (64 * width) + j)
        ≡ (j == i || has_bit bits.old (r * (64 * width) + j)) }
{
    'rows: for row in 0..rows {
        set(bits, row * width * NUMBER_BITS + i);
    }
}
