//! The totals of a word list.
ghost use Rattle.std.specs.Prelude.{◌≡◌};
ghost use Rattle.pg_types.specs.Inside.Signs.{SignsWithin};
ghost use Rattle.pg_dict.specs.Inside.SoundWords.{IsWord, SignsAtMost, letter_count};
ghost use Rattle.pg_dict.specs.Inside.LentWords.{lent_word};
ghost use Rattle.pg_select.specs.Sums.{totals as totals_of_words};
ghost use Rattle.pg_select.specs.Inside.SumSteps.{marks_in, with_marks, HasRoomFor, TookRoomFor};
ghost use Rattle.pg_driver.specs.Inside.records.SoundRecords.{IsSmall};

use pg_dict::{Dictionary, WordRef};
use pg_select::marks::{add_marks, no_totals};
use pg_select::{Engine, WordState};
use pg_translate::Table;
use pg_types::Totals;

/// The totals of the words of a dictionary by the patterns of an engine. They are the sums of the
/// weights of the positions in reach that are found, that are errors and that are missed. It takes
/// no memory.
pub fn totals<E: Engine>(engine: &E, dictionary: &Dictionary, table: &Table) -> Totals
    requires { SignsAtMost (E.meaning engine.now).signs dictionary.now }
    ensures value { result
        ≡ totals_of_words table.now dictionary.now (E.meaning engine.now).patterns }
    ensures small { IsSmall result }
{
    let mut found = WordState::new();
    let mut sums = no_totals();
    'words: for i in 0..dictionary.len() {
        sums = add_word(engine, table, &dictionary.word(i), &mut found, sums);
    }
    sums
}

/// The totals with the positions of one more word. What `found` holds does not matter.
fn add_word<E: Engine>(
    engine: &E,
    table: &Table,
    w: &WordRef<'_>,
    found: &mut WordState,
    sums: Totals,
) -> Totals
    requires word { IsWord (lent_word w.now) }
    requires signs { SignsWithin (E.meaning engine.now).signs w.now.signs.now }
    requires room { HasRoomFor sums (letter_count (lent_word w.now)) }
    ensures took { TookRoomFor sums result (letter_count (lent_word w.now)) }
    ensures value { result ≡ with_marks sums
        (marks_in table.now (E.meaning engine.now).patterns (lent_word w.now)) }
{
    engine.hyphenate(*w, found);
    add_marks(table, w, found, sums)
}
