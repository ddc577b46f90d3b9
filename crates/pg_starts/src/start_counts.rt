//! The windows that are counted in a pass, by the numbers of their starts.
ghost use Rattle.std.specs.Prelude.{◌≡◌, ◌≤◌, ◌<◌, ◌+◌, ℕ, [], true, false, length, unwrap_or, slice_index, slice_index_or, None, OnOk, IfOk};
ghost use Rattle.pg_types.specs.Inside.Limits.{positions_limit};
ghost use Rattle.pg_types.specs.declared.limits.TheConstants.{LENGTH_MAX};

use crate::start_numbers::StartNumbers;
use crate::tallies::Tallies;
use pg_dots::OpenDots;
use pg_types::{Cursor, Sign};
use std::alloc::{AllocError, Global};

/// The windows that are counted in a pass, each with its sums of good and bad weights.
///
/// They are known by the numbers of their starts, which serve all passes of a length. The signs of
/// all words stand in one slice, which each call is lent.
#[derive(Drop)]
pub struct StartCounts {
    /// The numbers of the windows of a length.
    numbers: StartNumbers,
    /// The sums of the pass, by number.
    tallies: Tallies,
}

impl StartCounts {
    ghost use Rattle.std.specs.Prelude.{◌≡◌, ◌≤◌, ◌<◌, ◌+◌, ℕ, List, [], true, false, length, unwrap_or, slice_index, slice_index_or, None, OnOk, IfOk};
    ghost use Rattle.std.specs.List.{list_all};
    ghost use Rattle.pg_types.specs.Inside.Limits.{positions_limit};
    ghost use Rattle.pg_types.specs.Inside.Signs.{is_sign};
    ghost use Rattle.pg_types.specs.Inside.counting.Counts.{AreSmall, counted_sums, sums_of, with_count, with_weight};
    ghost use Rattle.pg_types.specs.Inside.counting.NumberedWindows.{HasNumber};
    ghost use Rattle.pg_types.specs.declared.limits.TheConstants.{LENGTH_MAX};
    ghost use Rattle.pg_dots.specs.Inside.Dots.{is_closed, position_count};
    ghost use Rattle.pg_starts.specs.Inside.Starts.{window_from};
    ghost use Rattle.pg_starts.specs.Inside.Known.{AreKnown, is_numbered, number_count};
    ghost use Rattle.pg_starts.specs.Inside.Tallies.{tallied};
    ghost use Rattle.pg_starts.specs.Inside.StartCountings.{AreCounting, counts_in, windows_in};

    /// No window has a number.
    pub fn new(alloc: Global, signs: &[Sign]) -> Result<StartCounts, AllocError>
        requires { length signs.now < positions_limit }
        ensures { IfOk result (λ c. AreKnown signs.now c.numbers) }
    {
        let numbers = StartNumbers::new(alloc, signs)?;
        Ok(StartCounts {
            numbers,
            tallies: Tallies::new(alloc),
        })
    }

    /// Numbers the windows of `len` signs whose start is before an open dot. Nothing can be counted
    /// before a pass begins. The sums of the last pass are given up first, since numbering takes
    /// memory of its own.
    pub fn number_open(
        &mut self,
        alloc: Global,
        signs: &[Sign],
        dots: &OpenDots,
        len: u8,
    ) -> Result<(), AllocError>
        requires len { (1 ≤ len) × (len ≤ LENGTH_MAX) }
        requires few { length signs.now < positions_limit }
        requires size { length signs.now ≤ position_count dots.now }
        requires known { AreKnown signs.now self.old.numbers }
        ensures known { AreKnown signs.now self.new.numbers }
        ensures done { OnOk result ((self.new.numbers.len ≡ len)
            × ((d i : ℕ) → d ≤ len → i + len ≤ length signs.now → i + d < length signs.now
            → is_closed dots.now d (i + d) ≡ false
            → is_numbered signs.now self.new.numbers i ≡ true)) }
    {
        self.tallies = Tallies::new(alloc);
        self.numbers.number_open(alloc, signs, dots, len)
    }

    /// Numbers all windows of `len` signs. Nothing can be counted before a pass begins.
    pub fn number_all(&mut self, alloc: Global, signs: &[Sign], len: u8) -> Result<(), AllocError>
        requires len { (1 ≤ len) × (len ≤ LENGTH_MAX) }
        requires few { length signs.now < positions_limit }
        requires known { AreKnown signs.now self.old.numbers }
        ensures known { AreKnown signs.now self.new.numbers }
        ensures done { OnOk result ((self.new.numbers.len ≡ len)
            × ((i : ℕ) → i + len ≤ length signs.now
            → is_numbered signs.now self.new.numbers i ≡ true)) }
    {
        self.tallies = Tallies::new(alloc);
        self.numbers.number_all(alloc, signs, len)
    }

    /// Begins a pass with windows of the length that is numbered: nothing is counted in it yet.
    /// Only the contract reads `signs`.
    pub fn begin(&mut self, signs: &[Sign]) -> Result<(), AllocError>
        requires known { AreKnown signs.now self.old.numbers }
        requires len { 1 ≤ self.old.numbers.len }
        ensures numbers { self.new.numbers ≡ self.old.numbers }
        ensures counting { OnOk result (AreCounting signs.now self.new) }
        ensures none { OnOk result (counts_in signs.now self.new ≡ []) }
    {
        self.tallies.begin(self.numbers.count())
    }

    /// Adds `weight` to the good or the bad sum of the window at a start.
    #[inline(always)]
    pub fn add(&mut self, signs: &[Sign], start: usize, good: bool, weight: u64)
        requires counting { AreCounting signs.now self.old }
        requires start { is_numbered signs.now self.old.numbers start ≡ true }
        requires small { AreSmall (with_weight (sums_of (counts_in signs.now self.old)
            (window_from signs.now start self.old.numbers.len)) good weight) }
        ensures numbers { self.new.numbers ≡ self.old.numbers }
        ensures counting { AreCounting signs.now self.new }
        ensures counts { counts_in signs.now self.new ≡ with_count (counts_in signs.now self.old)
            (window_from signs.now start self.old.numbers.len) good weight }
    {
        let number = self.numbers.number(signs, start);
        self.tallies.add(number, good, weight);
    }

    /// How many numbers there are.
    pub fn count(&self) -> usize
        ensures { result ≡ number_count self.now.numbers }
    {
        self.numbers.count()
    }

    /// The number of the window at a start.
    #[inline(always)]
    pub fn number(&self, signs: &[Sign], start: usize) -> u32
        requires counting { AreCounting signs.now self.now }
        requires start { is_numbered signs.now self.now.numbers start ≡ true }
        ensures { HasNumber (windows_in signs.now self.now)
            (window_from signs.now start self.now.numbers.len) result }
    {
        self.numbers.number(signs, start)
    }

    /// The sums of the window with the number; none where it was not counted. Only the contract
    /// reads `signs`.
    pub fn sums(&self, signs: &[Sign], number: u32) -> Option<(u64, u64)>
        requires counting { AreCounting signs.now self.now }
        requires number { number < number_count self.now.numbers }
        ensures value { (u : List ℕ) → HasNumber (windows_in signs.now self.now) u number
            → result ≡ counted_sums (counts_in signs.now self.now) u }
        ensures tally { result ≡ slice_index_or (tallied self.now.tallies) number None }
    {
        self.tallies.sums(number)
    }

    /// Puts the window with the number into a cursor.
    pub fn read(&self, signs: &[Sign], number: u32, window: &mut Cursor)
        requires counting { AreCounting signs.now self.now }
        requires number { number < number_count self.now.numbers }
        requires signs { (u : List ℕ) → HasNumber (windows_in signs.now self.now) u number
            → list_all is_sign u ≡ true }
        ensures { HasNumber (windows_in signs.now self.now) window.new number }
    {
        self.numbers.read(signs, number, window);
    }
}
