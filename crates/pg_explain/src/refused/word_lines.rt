//! The refused lines of dictionaries and pattern files.

use crate::chars::{first_bytes, first_char, up_to};
use crate::wrong::RefusalCase;
use pg_types::{Kind, PATTERN_SIGNS_MAX, WORD_LETTERS_MAX};
use pg_visible::Part::{Count, Hex, Name, Say, Show};
use pg_visible::{Spot, Text, is_invisible};
use std::alloc::AllocError;

/// Whose letters are meant where a byte begins none: a to z, or those of a translate file.
fn letters_of<'a>(refused: &RefusalCase<'a>) -> &'a str {
    match &refused.letters {
        Some(letters) if letters.is_no_file() => "a to z",
        Some(letters) => letters.name,
        None => "the translate file",
    }
}

/// Whether a character can be shown by itself: it can be seen, and is no accent of the letter
/// before it.
fn is_seen_alone(c: char) -> bool {
    !is_invisible(c) && !matches!(c, '\u{300}'..='\u{36F}')
}

/// Appends which bytes begin no item.
pub(crate) fn push_character<'a>(
    text: &mut Text,
    refused: &RefusalCase<'a>,
    spot: &Spot<'a>,
) -> Result<(), AllocError> {
    let bytes = first_bytes(spot.rest());
    let sentence = match first_char(bytes) {
        Some(c) if is_seen_alone(c) => "$0 ($1) begins no letter of $2, and is no $3",
        _ => "$0 begins no letter of $2, and is no $3",
    };
    let due = match refused.refusal.kind {
        Kind::PatternCharacter => "digit and no dot",
        _ => "mark, digit or weight",
    };
    let letters = Name(letters_of(refused));
    let parts = [Hex(bytes), Show(bytes), letters, Say(due)];
    text.place(refused.name, spot, sentence, &parts)
}

/// What stands behind a number in English to say which one of a row is meant.
fn ordinal_end(number: usize) -> &'static str {
    match (number % 100, number % 10) {
        (11..=13, _) => "th",
        (_, 1) => "st",
        (_, 2) => "nd",
        (_, 3) => "rd",
        _ => "th",
    }
}

/// Appends that a pattern or a word is too long.
pub(crate) fn push_long(
    text: &mut Text,
    refused: &RefusalCase<'_>,
    spot: &Spot<'_>,
) -> Result<(), AllocError> {
    let (most, sentence) = if refused.refusal.kind == Kind::WordTooLong {
        let sentence = "the $0$2 letter of the line begins here, and a word has at most $1";
        (WORD_LETTERS_MAX, sentence)
    } else {
        let sentence =
            "the $0$2 letter or dot of the line begins here, and a pattern has at most $1";
        (PATTERN_SIGNS_MAX, sentence)
    };
    let first_behind = most + 1;
    let parts = [
        Count(first_behind),
        Count(most),
        Say(ordinal_end(first_behind)),
    ];
    text.place(refused.name, spot, sentence, &parts)
}

/// How many bytes the weight has that these bytes begin with; 1 where it does not end.
fn weight_len(rest: &[u8]) -> usize {
    for (index, byte) in rest.iter().enumerate() {
        if *byte == b'}' {
            return index.saturating_add(1);
        }
    }
    1
}

/// Appends that a brace begins no weight.
pub(crate) fn push_weight(text: &mut Text, name: &str, spot: &Spot<'_>) -> Result<(), AllocError> {
    let rest = spot.rest();
    text.place(
        name,
        spot,
        "$0 is no weight: a weight is {, one to four digits with a value from 1 to 9,999, and }",
        &[Show(up_to(rest, weight_len(rest)))],
    )
}
