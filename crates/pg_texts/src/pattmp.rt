//! The hyphenated list.
ghost use Rattle.std.specs.Prelude.{◌≡◌, ◌+◌, IfOk};
ghost use Rattle.pg_translate.specs.Alphabets.{letters_of};
ghost use Rattle.pg_dict.specs.Inside.SoundWords.{SignsAtMost};
ghost use Rattle.pg_texts.specs.PattmpTexts as pattmp;
ghost use Rattle.pg_texts.specs.Inside.ReadBack.{ReadsBack};

use crate::laws::lists_are_read;
use crate::word::{push_weight, push_word};
use pg_dict::Dictionary;
use pg_select::{Engine, WordState};
use pg_translate::Table;
use std::alloc::{AllocError, Global};

/// The hyphenated list: the words that take part, in the order of the dictionary. A word has its
/// word weight before it, where that differs from the one of the line before. Before the first line
/// the word weight is 1. Each position has its mark by the patterns of the engine, and its weight
/// where that differs from the word weight.
///
/// If it has at most [`FILE_MAX`](pg_types::FILE_MAX) bytes, it is a dictionary file of these
/// words, under the same table, with their hyphens, their cares and all their weights. Each word is
/// hyphenated once.
pub fn pattmp_text<E: Engine>(
    alloc: Global,
    engine: &E,
    dictionary: &Dictionary,
    table: &Table,
) -> Result<Vec<u8>, AllocError>
    requires signs { SignsAtMost (E.meaning engine.now).signs dictionary.now }
    requires letters { SignsAtMost (letters_of table.now + 1) dictionary.now }
    ensures text { IfOk result (λ text. text.items
        ≡ pattmp.pattmp_text table.now (E.meaning engine.now).patterns dictionary.now) }
    ensures read_back { IfOk result (λ text. ReadsBack table.now dictionary.now text.items) }
{
    lists_are_read(table);
    let mut text = Vec::new(alloc);
    let mut found = WordState::new();
    let mut weight = 1;
    'words: for i in 0..dictionary.len() {
        let word = dictionary.word(i);
        if let Some(reach) = table.reach(word.signs.len()) {
            engine.hyphenate(word, &mut found);
            push_weight(&mut text, weight, word.weight)?;
            push_word(&mut text, table, word, &found, reach)?;
            weight = word.weight;
        }
    }
    Ok(text)
}
