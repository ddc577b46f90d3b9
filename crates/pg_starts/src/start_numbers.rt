//! Numbers of the windows of a length by their starts.
ghost use Rattle.std.specs.Prelude.{◌≡◌, ◌≢◌, ◌≤◌, ◌<◌, ◌+◌, ◌^◌, ℕ, length, slice_index, IfOk};
ghost use Rattle.pg_types.specs.Inside.Limits.{positions_limit};
ghost use Rattle.pg_types.specs.declared.limits.TheConstants.{LENGTH_MAX};
ghost use Rattle.pg_starts.specs.Inside.Codes.{code_at, code_count};

use crate::codes::{coded_length, count_codes, decode, write_codes};
use crate::steps::number_to;
use pg_dots::{OpenDots, StartSet};
use pg_types::{Cursor, Sign};
use std::alloc::{AllocError, Global};
use std::mem;

/// Numbers of the windows of a length by their starts. A start is a sign at which a window begins.
///
/// Numbers rise in the order of signs, and are equal exactly where windows are equal. So one number
/// for each start serves all dots of a length.
///
/// The codes of windows of a few signs are their numbers. Longer ones get numbers in steps, from
/// those that are shorter by a sign. A large alphabet has more codes than a short list has signs.
/// There each length is made in such steps.
#[derive(Drop)]
pub struct StartNumbers {
    /// The number of the window at each start.
    numbers: Vec<u32>,
    /// For each number, a start that has it.
    firsts: Vec<u32>,
    /// The starts that have a number.
    starts: StartSet,
    /// Room for the starts of the next length.
    next: StartSet,
    /// The greatest sign.
    greatest: Sign,
    /// The greatest length whose windows are known by their codes.
    coded: usize,
    /// How many signs a window has; 0 where none has a number.
    len: usize,
    ghost short: { len ≤ LENGTH_MAX },
    ghost few: { coded ≤ 3 },
}

impl StartNumbers {
    ghost use Rattle.std.specs.Prelude.{◌≡◌, ◌≢◌, ◌≤◌, ◌<◌, ◌+◌, ℕ, List, true, false, length, slice_index, OnOk, IfOk};
    ghost use Rattle.std.specs.List.{list_all};
    ghost use Rattle.pg_types.specs.Inside.Limits.{positions_limit};
    ghost use Rattle.pg_types.specs.Inside.Signs.{is_sign};
    ghost use Rattle.pg_types.specs.Inside.counting.NumberedWindows.{HasNumber};
    ghost use Rattle.pg_types.specs.declared.limits.TheConstants.{LENGTH_MAX};
    ghost use Rattle.pg_dots.specs.Inside.Dots.{is_closed, position_count};
    ghost use Rattle.pg_dots.specs.Inside.Starts.{is_left_out, starts_room};
    ghost use Rattle.pg_starts.specs.Inside.Known.{AreKnown, is_numbered, number_at, number_count, windows_of};

    /// No window of these signs has a number.
    pub fn new(alloc: Global, signs: &[Sign]) -> Result<StartNumbers, AllocError>
        requires { length signs.now < positions_limit }
        ensures { IfOk result (λ n. AreKnown signs.now n) }
    {
        let starts = StartSet::all(alloc, signs.len())?;
        let next = StartSet::all(alloc, signs.len())?;
        let greatest = greatest_of(signs);
        Ok(StartNumbers {
            numbers: Vec::new(alloc),
            firsts: Vec::new(alloc),
            starts,
            next,
            greatest,
            coded: coded_length(greatest, signs.len()),
            len: 0,
        })
    }

    /// How many numbers there are.
    pub fn count(&self) -> usize
        ensures { result ≡ number_count self.now }
    {
        if self.len <= self.coded {
            return count_codes(self.greatest, self.len);
        }
        self.firsts.len()
    }

    /// The number of the window at a start.
    #[inline(always)]
    pub fn number(&self, signs: &[Sign], start: usize) -> u32
        requires known { AreKnown signs.now self.now }
        requires len { 1 ≤ self.now.len }
        requires start { is_numbered signs.now self.now start ≡ true }
        ensures { result ≡ number_at signs.now self.now start }
    {
        self.numbers[start]
    }

    /// Puts the window with the number into a cursor.
    pub fn read(&self, signs: &[Sign], number: u32, window: &mut Cursor)
        requires known { AreKnown signs.now self.now }
        requires len { 1 ≤ self.now.len }
        requires number { number < number_count self.now }
        requires signs { (u : List ℕ) → HasNumber (windows_of signs.now self.now) u number
            → list_all is_sign u ≡ true }
        ensures { HasNumber (windows_of signs.now self.now) window.new number }
    {
        if self.len <= self.coded {
            decode(self.greatest, self.len, number, window);
            return;
        }
        let start = self.firsts[number as usize] as usize;
        window.set(&signs[start..start + self.len]);
    }

    /// The length from which the numbers for the next starts can go on: that of the numbers there
    /// are, where the next starts are among those that have one; else that of the codes.
    fn length_to_go_on(&self, len: usize) -> usize
        requires { self.now.coded < len }
        ensures below { result < len }
        ensures coded { self.now.coded ≤ result }
        ensures some { result ≢ self.now.coded → (result ≡ self.now.len) × (result + 1 ≡ len) }
        ensures part { result ≢ self.now.coded → (i : ℕ) → i < starts_room self.now.next
            → is_left_out self.now.next i ≡ false → is_left_out self.now.starts i ≡ false }
    {
        if self.coded < self.len && self.len + 1 == len && self.next.is_part_of(&self.starts) {
            self.len
        } else {
            self.coded
        }
    }

    /// Numbers the windows of `len` signs at the next starts.
    fn number_next(&mut self, alloc: Global, signs: &[Sign], len: usize) -> Result<(), AllocError>
        requires len { (1 ≤ len) × (len ≤ LENGTH_MAX) }
        requires coded { self.old.coded < len }
        requires known { AreKnown signs.now self.old }
        ensures known { AreKnown signs.now self.new }
        ensures coded { self.new.coded ≡ self.old.coded }
        ensures done { OnOk result
            ((self.new.len ≡ len) × (self.new.starts ≡ self.old.next)) }
    {
        let from = self.length_to_go_on(len);
        mem::swap(&mut self.starts, &mut self.next);
        self.len = 0;
        let greatest = self.greatest;
        let count = begin(
            &mut self.numbers,
            self.firsts.len(),
            signs,
            greatest,
            from,
            self.coded,
        )?;
        self.firsts = Vec::new(alloc);
        let numbers = &mut self.numbers;
        let firsts = number_to(
            alloc,
            signs,
            greatest,
            &self.starts,
            len,
            from,
            numbers,
            count,
        )?;
        self.firsts = firsts;
        self.len = len;
        Ok(())
    }

    /// Takes the codes of the windows of `len` signs for their numbers.
    fn take_codes(&mut self, signs: &[Sign], len: usize) -> Result<(), AllocError>
        requires len { (1 ≤ len) × (len ≤ self.old.coded) }
        requires known { AreKnown signs.now self.old }
        ensures known { AreKnown signs.now self.new }
        ensures coded { self.new.coded ≡ self.old.coded }
        ensures done { OnOk result (self.new.len ≡ len) }
    {
        self.len = 0;
        self.numbers.resize(signs.len(), 0)?;
        write_codes(signs, self.greatest, len, &mut self.numbers);
        self.len = len;
        Ok(())
    }

    /// Numbers the windows of `len` signs whose start is before an open dot.
    pub fn number_open(
        &mut self,
        alloc: Global,
        signs: &[Sign],
        dots: &OpenDots,
        len: u8,
    ) -> Result<(), AllocError>
        requires len { (1 ≤ len) × (len ≤ LENGTH_MAX) }
        requires few { length signs.now < positions_limit }
        requires size { length signs.now ≤ position_count dots.now }
        requires known { AreKnown signs.now self.old }
        ensures known { AreKnown signs.now self.new }
        ensures done { OnOk result ((self.new.len ≡ len)
            × ((d i : ℕ) → d ≤ len → i + len ≤ length signs.now → i + d < length signs.now
            → is_closed dots.now d (i + d) ≡ false
            → is_numbered signs.now self.new i ≡ true)) }
    {
        let size = usize::from(len);
        if size <= self.coded {
            return self.take_codes(signs, size);
        }
        dots.set_starts(len, &mut self.next);
        self.number_next(alloc, signs, size)
    }

    /// Numbers all windows of `len` signs.
    pub fn number_all(&mut self, alloc: Global, signs: &[Sign], len: u8) -> Result<(), AllocError>
        requires len { (1 ≤ len) × (len ≤ LENGTH_MAX) }
        requires few { length signs.now < positions_limit }
        requires known { AreKnown signs.now self.old }
        ensures known { AreKnown signs.now self.new }
        ensures done { OnOk result ((self.new.len ≡ len)
            × ((i : ℕ) → i + len ≤ length signs.now
            → is_numbered signs.now self.new i ≡ true)) }
    {
        let size = usize::from(len);
        if size <= self.coded {
            return self.take_codes(signs, size);
        }
        let all = StartSet::all(alloc, signs.len())?;
        self.next = all;
        self.number_next(alloc, signs, size)
    }
}

/// Begins with the codes where `from` is the length of the codes. Gives how many numbers there are.
fn begin(
    numbers: &mut Vec<u32>,
    count: usize,
    signs: &[Sign],
    greatest: Sign,
    from: usize,
    coded: usize,
) -> Result<usize, AllocError>
    requires coded { coded ≤ 3 }
    requires small { length signs.now < positions_limit }
    requires greatest { (k : ℕ) → slice_index signs.now k ≤ greatest }
    requires few { 1 ≤ coded → code_count (greatest + 1) coded ≤ length signs.now }
    ensures size { from ≡ coded → IfOk result (λ n. length numbers.new.items ≡ length signs.now) }
    ensures codes { from ≡ coded → IfOk result (λ n. (n ≡ code_count (greatest + 1) coded)
        × ((i : ℕ) → i + coded ≤ length signs.now
        → slice_index numbers.new.items i ≡ code_at signs.now (greatest + 1) i coded)) }
    ensures old { from ≢ coded → IfOk result (λ n. (n ≡ count)
        × (numbers.new.items ≡ numbers.old.items)) }
{
    if from != coded {
        return Ok(count);
    }
    numbers.clear();
    numbers.resize(signs.len(), 0)?;
    if coded == 0 {
        return Ok(1);
    }
    write_codes(signs, greatest, coded, numbers);
    Ok(count_codes(greatest, coded))
}

/// The greatest of some signs; 0 where there is none.
fn greatest_of(signs: &[Sign]) -> Sign
    ensures { (k : ℕ) → slice_index signs.now k ≤ result }
{
    let mut greatest = 0;
    'signs: for sign in signs {
        greatest = greatest.max(*sign);
    }
    greatest
}
