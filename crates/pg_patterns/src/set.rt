//! A set of patterns.
ghost use Rattle.std.specs.Prelude.{◌≡◌};

use crate::dotted_signs::DottedSigns;
use crate::entries::{join, raise_in};
use crate::reader::read_entries;
use crate::text::push_lines;
use pg_translate::{Table, laws};
use pg_types::{FILE_MAX, Kind, LEVEL_MAX, PATTERN_SIGNS_MAX, ReadingError, Refusal, Sign};
use std::alloc::{AllocError, Global};
use std::marker::Model;

/// Patterns: a map from signs with a dot to a value.
///
/// An entry has 1 to [`PATTERN_SIGNS_MAX`](pg_types::PATTERN_SIGNS_MAX) signs, a dot that is at
/// most their number, and a value from 1 to [`LEVEL_MAX`](pg_types::LEVEL_MAX). Entries stand in
/// the order of their signs, a string before its extensions, and then of their dots.
#[derive(Drop)]
pub struct PatternSet {
    held: Vec<(DottedSigns, u8)>,
}

impl Model for PatternSet {
    ghost use Rattle.std.specs.Prelude.{ℕ, List};

    ghost Value = { List ((List ℕ × ℕ) × ℕ) };

    ghost use Rattle.pg_patterns.specs.Inside.PatternMaps.{IsPatternMap};

    ghost view = { λ s. s.held.items };

    ghost invariant = { λ s. IsPatternMap s.held.items };
}

/// An entry of a [`PatternSet`].
#[derive(Clone, Copy, Debug)]
pub struct Entry<'a> {
    /// The signs of its string, 1 to [`PATTERN_SIGNS_MAX`](pg_types::PATTERN_SIGNS_MAX).
    pub signs: &'a [Sign],
    /// How many signs stand before the dot.
    pub dot: u8,
    /// The value at the dot.
    pub value: u8,
}

impl PatternSet {
    ghost use Rattle.std.specs.Prelude.{◌≡◌, ◌+◌, ◌<◌, ◌≤◌, true, T, [], length, Some, Ok, slice_get, OnOk, OnErr, IfOk};
    ghost use Rattle.std.specs.FinMap.Entries.{is_sorted};
    ghost use Rattle.std.specs.List.{list_all};
    ghost use Rattle.pg_types.specs.declared.limits.TheConstants.{FILE_MAX, LEVEL_MAX, PATTERN_SIGNS_MAX};
    ghost use Rattle.pg_types.specs.Inside.reading.Answers.{Gives};
    ghost use Rattle.pg_types.specs.Inside.Signs.{is_sign};
    ghost use Rattle.pg_patterns.specs.DottedSigns.{dotted_cmp};
    ghost use Rattle.pg_patterns.specs.Values.{raise, map_of_entries, largest};
    ghost use Rattle.pg_patterns.specs.Inside.PatternMaps.{IsPatternMap, SignsUpTo, is_entry};
    ghost use Rattle.pg_patterns.specs.Starts.{start};
    ghost use Rattle.pg_patterns.specs.Texts.{pattern_text};
    ghost use Rattle.pg_translate.specs.Alphabets.{letters_of};

    /// The set without entries. It takes no memory.
    pub fn empty(alloc: Global) -> PatternSet
        ensures { result ≡ [] }
    {
        PatternSet {
            held: Vec::new(alloc),
        }
    }

    /// The patterns of a file. A file of more than [`FILE_MAX`](pg_types::FILE_MAX) bytes is
    /// refused. In any other, the first line with a byte that begins no item, or with a sign too
    /// many, is refused.
    pub fn read(alloc: Global, table: &Table, bytes: &[u8]) -> Result<PatternSet, ReadingError>
        ensures value { Gives (λ set. set) result (start table.now bytes.now) }
        ensures known { IfOk result (SignsUpTo (letters_of table.now + 1)) }
    {
        if bytes.len() > FILE_MAX {
            return Err(ReadingError::Refused(Refusal {
                kind: Kind::PatternsTooLong,
                line: 0,
                column: 0,
            }));
        }
        laws::keeps_rules(table);
        let entries = read_entries(alloc, table, bytes)?;
        Ok(PatternSet::from_entries(entries))
    }

    /// The map of `entries`, which may stand in any order. Where a dotted string has several, the
    /// greatest value counts. The vector is sorted where it stands, in O(n log n) comparisons, or
    /// O(n) where it is in order, and no memory is taken.
    pub fn from_entries(mut entries: Vec<(DottedSigns, u8)>) -> PatternSet
        requires { list_all is_entry entries.items ≡ true }
        ensures value { result ≡ map_of_entries entries.items }
        ensures in_order { T (is_sorted dotted_cmp entries.items) → result ≡ entries.items }
    {
        join(&mut entries);
        PatternSet { held: entries }
    }

    /// Sets the value of `dot` among `signs` to the greater of its value and `value`. A set that
    /// finds no memory stays as it was.
    pub fn raise(&mut self, signs: &[Sign], dot: u8, value: u8) -> Result<(), AllocError>
        requires some { 0 < length signs.now }
        requires few { length signs.now ≤ PATTERN_SIGNS_MAX }
        requires signs { list_all is_sign signs.now ≡ true }
        requires dot { dot ≤ length signs.now }
        requires value { (1 ≤ value) × (value ≤ LEVEL_MAX) }
        ensures ok { OnOk result (self.new ≡ raise self.old (signs.now, dot) value) }
        ensures err { OnErr result (self.new ≡ self.old) }
    {
        raise_in(&mut self.held, DottedSigns::new(signs, dot), value)?;
        Ok(())
    }

    /// How many entries there are.
    pub fn len(&self) -> usize
        ensures value { result ≡ length self.now }
        ensures kept { IsPatternMap self.now }
    {
        self.held.len()
    }

    /// The entry with the number `i` in the order of signs and then of dots, counted from 0.
    pub fn entry(&self, i: usize) -> Entry<'_>
        requires { i < length self.now }
        ensures value { slice_get self.now i ≡ Some ((result.signs.now, result.dot), result.value) }
        ensures some { 0 < length result.signs.now }
        ensures few { length result.signs.now ≤ PATTERN_SIGNS_MAX }
        ensures signs { list_all is_sign result.signs.now ≡ true }
        ensures dot { result.dot ≤ length result.signs.now }
        ensures bounds { (1 ≤ result.value) × (result.value ≤ LEVEL_MAX) }
    {
        let held = &self.held[i];
        Entry {
            signs: held.0.signs(),
            dot: held.0.dot(),
            value: held.1,
        }
    }

    /// The greatest value, 0 where there is no entry.
    pub fn largest(&self) -> u8
        ensures value { result ≡ largest self.now }
        ensures bound { result ≤ LEVEL_MAX }
    {
        let mut largest = 0;
        for entry in self.held.as_slice() {
            largest = entry.1.max(largest);
        }
        largest
    }

    /// The text of the pattern file of these patterns: a line for each string, in the order of
    /// signs. At each dot stands the digit of its value, where it has one, between the first
    /// spellings of the letters, or `.` for the edge. A text of at most
    /// [`FILE_MAX`](pg_types::FILE_MAX) bytes is read as these patterns again.
    pub fn text(&self, alloc: Global, table: &Table) -> Result<Vec<u8>, AllocError>
        requires { SignsUpTo (letters_of table.now + 1) self.now }
        ensures text { IfOk result (λ text. text.items ≡ pattern_text table.now self.now) }
        ensures read_back { IfOk result
            (λ text. length text.items ≤ FILE_MAX → start table.now text.items ≡ Ok self.now) }
    {
        laws::keeps_rules(table);
        let mut text = Vec::new(alloc);
        push_lines(self.held.as_slice(), table, &mut text)?;
        Ok(text)
    }
}
