//! Laws on the words of a dictionary file. A call does nothing; its contract is the law.
ghost use Rattle.std.specs.Prelude.{◌≡◌, ℕ, ◌≤◌, List, length, Some, Ok};
ghost use Rattle.std.specs.List.{AllByRecursion};
ghost use Rattle.pg_types.specs.declared.marks.Mark.{Mark};
ghost use Rattle.pg_translate.specs.declared.items.Place.TheVariants.{Dictionary};
ghost use Rattle.pg_translate.specs.Tokens.{Token};
ghost use Rattle.pg_translate.specs.Inside.items.Items.{AreItems, text_of_items, tokens_in};
ghost use Rattle.pg_dict.specs.Word.{Word};
ghost use Rattle.pg_dict.specs.Inside.SoundWords.{IsWord};
ghost use Rattle.pg_dict.specs.DictionaryWords.{words};
ghost use Rattle.pg_dict.specs.Inside.LineWords.{line_reading, line_word};
ghost use Rattle.pg_dict.specs.Inside.WrittenWords.{AreMarksOf, word_tokens, letters_among, IsLine, text_of_lines, LinesGive};

use pg_translate::Table;
use pg_translate::laws::keeps_rules;
use pg_types::{FILE_MAX, WORD_LETTERS_MAX};

/// The items of a written word, under any word weight of the lines above, give that word. Its marks
/// may be any that mean its hyphens and cares.
pub fn words_are_read()
    ensures { (before : ℕ) (w : Word) (marks : List Mark) → IsWord w → AreMarksOf w marks
        → line_word before (word_tokens before marks w)
        ≡ record { word = Some w; weight = w.weight } }
{}

/// A line of items with at most [`WORD_LETTERS_MAX`](pg_types::WORD_LETTERS_MAX) letters is
/// accepted, and gives what its items give.
pub fn lines_are_read(table: &Table)
    ensures { (line weight : ℕ) (items : List (Token × List ℕ))
        → AreItems table.now Dictionary items
        → letters_among (tokens_in items) ≤ WORD_LETTERS_MAX
        → line_reading table.now line weight (text_of_items items)
        ≡ Ok (line_word weight (tokens_in items)) }
{
    keeps_rules(table);
}

/// The items of a dictionary, joined, are one line: they hold no line feed, and do not end with a
/// CR.
pub fn items_are_lines(table: &Table)
    ensures { (items : List (Token × List ℕ)) → AreItems table.now Dictionary items
        → IsLine (text_of_items items) }
{
    keeps_rules(table);
}

/// A file of lines that give words, each read under the word weight that the line before it hands
/// on, is read as the list of these words.
pub fn files_are_read(table: &Table)
    ensures { (texts : List (List ℕ)) (all : List Word) → AllByRecursion IsLine texts
        → LinesGive table.now 1 texts all → length (text_of_lines texts) ≤ FILE_MAX
        → words table.now (text_of_lines texts) ≡ Ok all }
{
    keeps_rules(table);
}
