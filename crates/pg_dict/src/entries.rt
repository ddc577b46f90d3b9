//! The reading of a whole line into the store.
ghost use Rattle.std.specs.Prelude.{◌<◌, ◌≤◌, ◌+◌, ◌*◌, length, IfOk, OnOk};
ghost use Rattle.pg_types.specs.Inside.reading.Answers.{Gives};
ghost use Rattle.pg_translate.specs.Alphabets.{letters_of};
ghost use Rattle.pg_translate.specs.Inside.tables.Rules.{KeepsRules};
ghost use Rattle.pg_dict.specs.Inside.LineWords.{line_reading};
ghost use Rattle.pg_dict.specs.Inside.Lines.LineStarts.{word_reading_by};
ghost use Rattle.pg_dict.specs.Inside.Lines.Entries.{with_word, entries_of, GrowsBy};
ghost use Rattle.pg_dict.specs.Inside.Store.{stored_words, IsSound, IsFit};

mod letters;
mod line;
mod line_start;

use crate::entries::line::Line;
use crate::entries::line_start::LineStart;
use crate::store::position::Position;
use crate::store::{Store, StoredWord};
use pg_translate::Table;
use pg_types::{EDGE, FILE_MAX, ReadingError, Sign, WEIGHT_MAX, Weight};

impl Line<'_> {
    /// Adds the word of a line with this first letter, and the rest of the line behind it. After an
    /// error nothing is said of the store.
    fn read_word(&self, store: &mut Store, sign: Sign, rest: &[u8]) -> Result<(), ReadingError>
        requires within { length rest.now ≤ self.now.size }
        requires letter { (1 < sign) × (sign ≤ letters_of self.now.table.now + 1) }
        requires rules { KeepsRules self.now.table.now }
        requires sound { IsSound store.old }
        requires fit { IsFit (letters_of self.now.table.now + 1) store.old }
        requires few { length store.old.signs.items ≤ 3 * FILE_MAX }
        ensures word { let line = word_reading_by self.now sign rest.now in Gives
            (λ _. entries_of store.new self.now.weight) result
            (with_word (stored_words store.old) line) }
        ensures sound { OnOk result (IsSound store.new) }
        ensures fit { OnOk result (IsFit (letters_of self.now.table.now + 1) store.new) }
        ensures counted { OnOk result (GrowsBy (length rest.now + 1) store.old store.new) }
    {
        let start = store.signs.len();
        store.push(Position::plain(self.weight), EDGE)?;
        store.push(Position::plain(self.weight), sign)?;
        self.fill(store, rest)?;
        let end = store.signs.len();
        store.words.push(StoredWord::new(start, end, self.weight))?;
        Ok(())
    }
}

/// Adds the word of a line, if it has one, and gives the word weight for the lines below. `number`
/// is that of the line, and `weight` the word weight above it. After an error nothing is said of
/// the store.
pub(crate) fn read_line(
    store: &mut Store,
    table: &Table,
    number: u32,
    weight: Weight,
    text: &[u8],
) -> Result<Weight, ReadingError>
    requires short { length text.now ≤ FILE_MAX }
    requires small { weight ≤ WEIGHT_MAX }
    requires rules { KeepsRules table.now }
    requires sound { IsSound store.old }
    requires fit { IsFit (letters_of table.now + 1) store.old }
    requires few { length store.old.signs.items ≤ 3 * FILE_MAX }
    ensures line { let line = line_reading table.now number weight text.now in
        Gives (entries_of store.new) result
        (with_word (stored_words store.old) line) }
    ensures small { IfOk result (λ next. next ≤ WEIGHT_MAX) }
    ensures sound { OnOk result (IsSound store.new) }
    ensures fit { OnOk result (IsFit (letters_of table.now + 1) store.new) }
    ensures counted { OnOk result (GrowsBy (length text.now) store.old store.new) }
{
    let line = Line {
        table,
        number,
        size: text.len(),
        weight,
    };
    match line.seek(text)? {
        LineStart::Word { weight, sign, rest } => {
            let line = Line {
                table,
                number,
                size: text.len(),
                weight,
            };
            line.read_word(store, sign, rest)?;
            Ok(weight)
        }
        LineStart::Empty { weight } => Ok(weight),
    }
}
