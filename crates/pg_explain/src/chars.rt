//! Characters and pieces of bytes, and which of them are letters of a table.

use pg_translate::{Item, Place, Table};

/// The first `end` bytes; all where there are fewer.
pub(crate) fn up_to(bytes: &[u8], end: usize) -> &[u8] {
    bytes.get(..end).unwrap_or(bytes)
}

/// The character that these bytes begin with, if they begin with one.
pub(crate) fn first_char(bytes: &[u8]) -> Option<char> {
    for size in 1..5 {
        if let Ok(text) = str::from_utf8(up_to(bytes, size)) {
            return text.chars().next();
        }
    }
    None
}

/// The bytes of the character that these bytes begin with. It is the first byte alone where they
/// begin with no character.
pub(crate) fn first_bytes(bytes: &[u8]) -> &[u8] {
    let len = match first_char(bytes) {
        Some(c) => c.len_utf8(),
        None => 1,
    };
    up_to(bytes, len)
}

/// Whether a text is a spelling of a letter.
pub(crate) fn is_letter(table: &Table, text: &[u8]) -> bool {
    match table.item(Place::Dictionary, text) {
        Item::Letter(_, rest) => rest.is_empty(),
        _ => false,
    }
}

/// Whether a character, in UTF-8, is a spelling of a letter.
pub(crate) fn is_letter_char(table: &Table, c: char) -> bool {
    let mut room = [0; 4];
    is_letter(table, c.encode_utf8(&mut room).as_bytes())
}

/// The small letter of a capital; none where it is no capital, or its small letter is not one
/// character.
pub(crate) fn small_of(c: char) -> Option<char> {
    let mut changed = c.to_lowercase();
    let small = changed.next()?;
    if small == c || changed.next().is_some() {
        return None;
    }
    Some(small)
}

/// Whether a head has a digit where the minima are due. The bytes behind are then meant as marks.
pub(crate) fn has_minima(head: &[u8]) -> bool {
    for byte in up_to(head, 4) {
        if byte.is_ascii_digit() {
            return true;
        }
    }
    false
}

/// Whether there is no byte but blanks.
pub(crate) fn is_blank(bytes: &[u8]) -> bool {
    for byte in bytes {
        if *byte != b' ' {
            return false;
        }
    }
    true
}
