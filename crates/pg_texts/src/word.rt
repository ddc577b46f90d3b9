//! A word of the hyphenated list.
ghost use Rattle.std.specs.Prelude.{◌≡◌, ◌<◌, ◌≤◌, ◌+◌, ◌-◌, ◌++◌, All, OnOk, length};
ghost use Rattle.pg_types.specs.declared.limits.TheConstants.{WORD_LETTERS_MAX, WEIGHT_MAX};
ghost use Rattle.pg_translate.specs.Alphabets.{letters_of};
ghost use Rattle.pg_dict.specs.Inside.SoundWords.{IsWord};
ghost use Rattle.pg_dict.specs.Inside.LentWords.{lent_word};
ghost use Rattle.pg_texts.specs.PattmpTexts as pattmp;
ghost use Rattle.pg_texts.specs.Inside.FoundStatuses.{status_found};

use pg_dict::WordRef;
use pg_select::{WordState, status};
use pg_translate::Table;
use pg_types::{Mark, Weight, push_number};
use std::alloc::AllocError;

/// Appends a weight where it differs from another: a digit, or a greater number in braces.
pub fn push_weight(text: &mut Vec<u8>, other: Weight, weight: Weight) -> Result<(), AllocError>
    ensures { OnOk result (text.new.items ≡ text.old.items ++ pattmp.weight_text other weight) }
{
    if weight == other {
        return Ok(());
    }
    if weight < 10 {
        return push_number(text, b"", u64::from(weight));
    }
    push_number(text, b"{", u64::from(weight))?;
    text.extend_from_slice(b"}")
}

/// Appends the byte of a status, if it has one.
fn push_mark(text: &mut Vec<u8>, table: &Table, mark: Mark) -> Result<(), AllocError>
    ensures { OnOk result (text.new.items ≡ text.old.items ++ pattmp.mark_text table.now mark) }
{
    match mark {
        Mark::Nothing => {}
        Mark::Error | Mark::Missed | Mark::Found | Mark::DontCare => {
            text.push(table.mark_byte(mark))?;
        }
    }
    Ok(())
}

/// The status of position `p`, where `reach` has the first and the last position in reach. Out of
/// reach the value counts as 0.
fn status_at(word: WordRef<'_>, found: &WordState, reach: (usize, usize), p: usize) -> Mark
    requires within { p < length word.signs.now }
    requires short { length word.signs.now ≤ WORD_LETTERS_MAX + 2 }
    ensures { result ≡ status_found found.now.values reach (lent_word word.entry) p }
{
    let value = if reach.0 <= p && p <= reach.1 {
        found.value(p)
    } else {
        0
    };
    status(word.hyphens[p], word.cares[p], value)
}

/// Appends the mark of position `p`, its weight where it is not the word's, and the letter behind
/// it.
fn push_position(
    text: &mut Vec<u8>,
    table: &Table,
    word: WordRef<'_>,
    p: usize,
    mark: Mark,
) -> Result<(), AllocError>
    requires within { p < length word.signs.now }
    requires word { IsWord (lent_word word) }
    requires known { All (λ s. s ≤ letters_of table.now + 1) word.signs.now }
    ensures { OnOk result (text.new.items
        ≡ text.old.items ++ pattmp.position_text table.now (λ _. mark) (lent_word word.entry) p) }
{
    push_mark(text, table, mark)?;
    push_weight(text, word.weight, word.weights[p])?;
    text.extend_from_slice(table.spelling(word.signs[p]))
}

/// Appends the line of a word: its first letter, and at each position between two letters its mark,
/// its weight where it is not the word's, and the letter behind it.
pub fn push_word(
    text: &mut Vec<u8>,
    table: &Table,
    word: WordRef<'_>,
    found: &WordState,
    reach: (usize, usize),
) -> Result<(), AllocError>
    requires word { IsWord (lent_word word) }
    requires known { All (λ s. s ≤ letters_of table.now + 1) word.signs.now }
    ensures { OnOk result (text.new.items ≡ text.old.items ++ pattmp.word_text table.now
        (status_found found.now.values reach (lent_word word.entry)) (lent_word word.entry)) }
{
    let last = word.signs.len() - 1;
    text.extend_from_slice(table.spelling(word.signs[1]))?;
    'positions: for p in 2..last {
        push_position(text, table, word, p, status_at(word, found, reach, p))?;
    }
    text.extend_from_slice(b"\n")
}
