//! The value and the cover of each position of a word.
use pg_types::WORD_LETTERS_MAX;
use std::marker::Model;

/// The room for a word's positions: as many as a word has signs.
const ROOM: usize = WORD_LETTERS_MAX + 2;

/// The value of each position of a word, and whether its window is covered. It lies on the stack
/// and allocates nothing.
#[derive(Drop)]
pub struct WordState {
    values: [u8; ROOM],
    covers: [bool; ROOM],
}

impl Model for WordState {
    ghost use Rattle.pg_select.specs.Inside.words.Positions.{Positions};

    ghost Value = { Positions };

    ghost view = { λ s. record { values = s.values; covers = s.covers } };
}

impl WordState {
    ghost use Rattle.std.specs.Prelude.{◌≡◌, ◌+◌, ◌<◌, false, slice_set, slice_index, slice_index_or, replicate};
    ghost use Rattle.pg_types.specs.declared.limits.TheConstants.{WORD_LETTERS_MAX};
    ghost use Rattle.pg_select.specs.Inside.words.Positions.{bit, values_of, covers_of, RaisesAt};

    /// Every value is 0, and nothing is covered.
    pub fn new() -> WordState
        ensures values { result.values ≡ replicate (WORD_LETTERS_MAX + 2) 0 }
        ensures covers { result.covers ≡ replicate (WORD_LETTERS_MAX + 2) false }
    {
        WordState {
            values: [0; ROOM],
            covers: [false; ROOM],
        }
    }

    /// The value of position `p`.
    pub fn value(&self, p: usize) -> u8
        requires { p < WORD_LETTERS_MAX + 2 }
        ensures { result ≡ slice_index self.now.values p }
    {
        self.values[p]
    }

    /// Whether the window at position `p` is covered.
    pub fn covered(&self, p: usize) -> bool
        requires { p < WORD_LETTERS_MAX + 2 }
        ensures { result ≡ slice_index_or self.now.covers p false }
    {
        self.covers[p]
    }

    /// Sets the value and the cover of position `p`. Those of the other positions stay.
    pub fn set(&mut self, p: usize, value: u8, covered: bool)
        requires { p < WORD_LETTERS_MAX + 2 }
        ensures values { self.new.values ≡ slice_set self.old.values p value }
        ensures covers { self.new.covers ≡ slice_set self.old.covers p covered }
    {
        self.values[p] = value;
        self.covers[p] = covered;
    }

    /// Raises the value of position `p` to at least `value`, and covers its window where `covered`
    /// is true. The other positions stay; where `p` is past the positions of every word, all do.
    pub fn raise(&mut self, p: usize, value: u8, covered: bool)
        ensures values { RaisesAt p value (values_of self.old) (values_of self.new) }
        ensures covers { RaisesAt p (bit covered) (covers_of self.old) (covers_of self.new) }
    {
        if p < ROOM {
            self.values[p] = self.values[p].max(value);
            self.covers[p] |= covered;
        }
    }
}
