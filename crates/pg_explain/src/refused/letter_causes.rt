//! The usual causes of a refusal that a character shows when it is compared with the letters of the
//! table.

use crate::chars::{first_bytes, first_char, is_letter, is_letter_char, small_of};
use crate::wrong::{Letters, RefusalCase};
use pg_translate::{Item, Place, mark_column};
use pg_types::{Kind, Mark};
use pg_visible::Part::{Byte, Char, Count, Hex, Name, Show};
use pg_visible::{Spot, Text};
use std::alloc::AllocError;

/// Why a character is no letter, as a sentence. In it `$0` is the character, `$1` its bytes as
/// numbers, and `$2` the translate file. `$3` is the refused file, `$4` the character beside it, `$5`
/// the mark of a hyphen, `$6` the character as Latin-1 has it, and `$7` the column of a mark.
#[derive(Clone, Copy)]
struct Cause {
    sentence: &'static str,
    beside: char,
}

/// It is one byte and no UTF-8. Read as Latin-1 it is a letter, which the table has in UTF-8.
const LATIN1_LETTER: &str =
    "$1 is $4 in Latin-1, and $2 has it in UTF-8: convert $3, as by iconv -f LATIN1 -t UTF-8";

/// The same in Latin-2.
const LATIN2_LETTER: &str =
    "$1 is $4 in Latin-2, and $2 has it in UTF-8: convert $3, as by iconv -f LATIN2 -t UTF-8";

/// It is one byte, and no UTF-8.
const LATIN: &str = "$1 is no UTF-8; it would be $6 in Latin-1 and $4 in Latin-2";

/// The characters of Latin-2 from A0 on.
const LATIN2: [char; 96] = [
    '\u{A0}', 'Ą', '˘', 'Ł', '¤', 'Ľ', 'Ś', '§', '¨', 'Š', 'Ş', 'Ť', 'Ź', '\u{AD}', 'Ž', 'Ż', '°',
    'ą', '˛', 'ł', '´', 'ľ', 'ś', 'ˇ', '¸', 'š', 'ş', 'ť', 'ź', '˝', 'ž', 'ż', 'Ŕ', 'Á', 'Â', 'Ă',
    'Ä', 'Ĺ', 'Ć', 'Ç', 'Č', 'É', 'Ę', 'Ë', 'Ě', 'Í', 'Î', 'Ď', 'Đ', 'Ń', 'Ň', 'Ó', 'Ô', 'Ő', 'Ö',
    '×', 'Ř', 'Ů', 'Ú', 'Ű', 'Ü', 'Ý', 'Ţ', 'ß', 'ŕ', 'á', 'â', 'ă', 'ä', 'ĺ', 'ć', 'ç', 'č', 'é',
    'ę', 'ë', 'ě', 'í', 'î', 'ď', 'đ', 'ń', 'ň', 'ó', 'ô', 'ő', 'ö', '÷', 'ř', 'ů', 'ú', 'ű', 'ü',
    'ý', 'ţ', '˙',
];

/// It is UTF-8, and the table has it as one byte.
const UTF8: &str = "$0 is UTF-8 here and one byte of Latin-1 in $2: both files need one encoding";

/// It is a capital of a letter of the table.
const CAPITAL: &str =
    "$2 has $4 without its capital: write it small, or let the line there be \" $4 $0\"";

/// It is a hyphen of Unicode.
const HYPHEN: &str = "this is a hyphen of Unicode; the mark of a hyphen is $5";

/// It is an accent behind its letter.
const ACCENT: &str =
    "this accent is a character of its own behind its letter: compose the file to NFC, or spell the letter so in $2";

/// It is a mark of dictionaries, in a pattern without digits.
const MARK: &str = "$0 is a mark of dictionaries; patterns have digits";

/// It is a mark of dictionaries, in a pattern with digits.
const MARK_LETTER: &str =
    "$0 is a mark of dictionaries; a letter needs a line \" $0\", and column $7 of the head another mark";

/// It is `=`, in a dictionary.
const EQUALS: &str =
    "if $0 is the hyphen of $3, write it into column $7 of the first line of the translate file";

/// It is a dot in the middle, in a dictionary.
const DOT: &str = "if $0 is the hyphen of $3, write $5 in its place, since a mark is one byte";

/// The table does not have it, and is that of no file.
const NO_FILE: &str = "$2 has the letters a to z alone: write a translate file with a line for $0";

/// The table does not have it.
const NEW_LETTER: &str = "a line of $2 with a blank and $0 would make it a letter";

/// Whether the table has a character as the one byte that it is in Latin-1.
fn is_latin_letter(letters: &Letters<'_>, c: char) -> bool {
    match u8::try_from(u32::from(c)) {
        Ok(byte) => is_letter(letters.table, &[byte]),
        Err(_) => false,
    }
}

/// The small letter of a capital, where the table has it.
fn small_letter(letters: &Letters<'_>, c: char) -> Option<char> {
    let small = small_of(c)?;
    if is_letter_char(letters.table, small) {
        Some(small)
    } else {
        None
    }
}

/// Why a character is no letter.
fn char_cause(letters: &Letters<'_>, c: char) -> Option<Cause> {
    if is_latin_letter(letters, c) {
        return Some(Cause {
            sentence: UTF8,
            beside: c,
        });
    }
    if let Some(small) = small_letter(letters, c) {
        return Some(Cause {
            sentence: CAPITAL,
            beside: small,
        });
    }
    let sentence = match c {
        '\u{AD}' | '\u{2010}'..='\u{2015}' => HYPHEN,
        '\u{300}'..='\u{36F}' => ACCENT,
        _ if !c.is_alphabetic() => return None,
        _ if letters.is_no_file() => NO_FILE,
        _ => NEW_LETTER,
    };
    Some(Cause {
        sentence,
        beside: c,
    })
}

/// Why a byte that begins no character is no letter.
fn stray_byte_cause(letters: &Letters<'_>, byte: u8) -> Option<Cause> {
    let beside = *LATIN2.get(usize::from(byte.checked_sub(0xA0)?))?;
    let latin1 = char::from(byte);
    if is_letter_char(letters.table, latin1) {
        return Some(Cause {
            sentence: LATIN1_LETTER,
            beside: latin1,
        });
    }
    let sentence = if is_letter_char(letters.table, beside) {
        LATIN2_LETTER
    } else {
        LATIN
    };
    Some(Cause { sentence, beside })
}

/// What is said of a mark of dictionaries in a line of patterns. One without digits is no pattern.
fn mark_sentence(line: &[u8]) -> &'static str {
    if line.iter().any(|byte| byte.is_ascii_digit()) {
        MARK_LETTER
    } else {
        MARK
    }
}

/// What is said of a character that some lists have as their hyphen.
fn hyphen_sentence(kind: Kind, c: char) -> Option<&'static str> {
    match (kind, c) {
        (Kind::DictionaryCharacter, '=') => Some(EQUALS),
        (Kind::DictionaryCharacter, '\u{B7}') => Some(DOT),
        _ => None,
    }
}

/// Why the refused bytes begin no item.
fn item_cause(letters: &Letters<'_>, kind: Kind, spot: &Spot<'_>) -> Option<Cause> {
    let rest = spot.rest();
    let byte = *rest.first()?;
    if kind != Kind::DictionaryCharacter && kind != Kind::PatternCharacter {
        return None;
    }
    match (
        letters.table.item(Place::Dictionary, rest),
        first_char(rest),
    ) {
        (Item::Mark(_, _), _) => Some(Cause {
            sentence: mark_sentence(spot.text),
            beside: char::from(byte),
        }),
        (_, Some(c)) => match hyphen_sentence(kind, c) {
            Some(sentence) => Some(Cause {
                sentence,
                beside: c,
            }),
            None => char_cause(letters, c),
        },
        (_, None) => stray_byte_cause(letters, byte),
    }
}

/// The column of the mark that these bytes begin with, in the head of a translate file.
fn column_of(letters: &Letters<'_>, rest: &[u8]) -> usize {
    match letters.table.item(Place::Dictionary, rest) {
        Item::Mark(mark, _) => mark_column(mark),
        _ => mark_column(Mark::Missed),
    }
}

/// Appends why the bytes at a place begin no item, where they show it.
pub(crate) fn push_letter_cause<'a>(
    text: &mut Text,
    refused: &RefusalCase<'a>,
    letters: &Letters<'a>,
    spot: &Spot<'a>,
) -> Result<(), AllocError> {
    let Some(cause) = item_cause(letters, refused.refusal.kind, spot) else {
        return Ok(());
    };
    let bytes = first_bytes(spot.rest());
    let latin1 = char::from(*bytes.first().unwrap_or(&b'?'));
    let column = column_of(letters, spot.rest());
    let hyphen = letters.table.mark_byte(Mark::Missed);
    text.line(
        cause.sentence,
        &[
            Show(bytes),
            Hex(bytes),
            Name(letters.name),
            Name(refused.name),
            Char(cause.beside),
            Byte(hyphen),
            Char(latin1),
            Count(column),
        ],
    )
}
