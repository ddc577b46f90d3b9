//! The law that the hyphenated list is read back. A call does nothing; its contract is the law.
ghost use Rattle.std.specs.Prelude.{◌+◌, List, All};
ghost use Rattle.pg_translate.specs.Alphabets.{letters_of};
ghost use Rattle.pg_dict.specs.Word.{Word};
ghost use Rattle.pg_dict.specs.Inside.SoundWords.{IsWord, SignsAtMost};
ghost use Rattle.pg_patterns.specs.Values.{Patterns};
ghost use Rattle.pg_texts.specs.PattmpTexts.{pattmp_text};
ghost use Rattle.pg_texts.specs.Inside.ReadBack.{ReadsBack};

use pg_dict::laws::{files_are_read, items_are_lines, lines_are_read, words_are_read};
use pg_translate::laws::items_are_read;
use pg_translate::{Place, Table};

/// The hyphenated list of words, by any patterns, is a dictionary file of those that take part,
/// under the same table: with their hyphens, their cares, their weights and their word weights. It
/// must have at most [`FILE_MAX`](pg_types::FILE_MAX) bytes.
pub fn lists_are_read(table: &Table)
    ensures { (P : Patterns) (words : List Word) → All IsWord words
        → SignsAtMost (letters_of table.now + 1) words
        → ReadsBack table.now words (pattmp_text table.now P words) }
{
    items_are_read(table, Place::Dictionary);
    words_are_read();
    items_are_lines(table);
    lines_are_read(table);
    files_are_read(table);
}
