//! The usual causes of a refusal that the bytes show without the letters of a table.

use crate::chars::{has_minima, up_to};
use crate::refused::letter_causes::push_letter_cause;
use crate::refused::parameters::items_in;
use crate::wrong::RefusalCase;
use pg_types::{Kind, is_separator};
use pg_visible::Part::Name;
use pg_visible::{Spot, Text};
use std::alloc::AllocError;

/// What is said of a file that has no head.
const NO_HEAD: &str = "$0 has no head: its first line has the minima, and may be empty";

/// What is said of a file for its first bytes, where they show a cause.
fn file_cause(bytes: &[u8]) -> Option<&'static str> {
    if bytes.starts_with(b"\xEF\xBB\xBF") {
        return Some("$0 begins with a byte order mark (EF BB BF): save it as UTF-8 without one");
    }
    let is_marked = bytes.starts_with(b"\xFF\xFE") || bytes.starts_with(b"\xFE\xFF");
    if is_marked || up_to(bytes, 2).contains(&0) {
        return Some("$0 is in UTF-16, with two bytes for a character: save it as UTF-8");
    }
    None
}

/// What is said of a file for the first byte of what is refused, where it shows a cause.
fn byte_cause(rest: &[u8]) -> Option<&'static str> {
    match *rest.first()? {
        b'\r' => Some("$0 has a CR inside the line: only one CR is dropped, at the line's end"),
        b'%' => Some("$0 has a comment of TeX: % begins none here, so take comments out"),
        b'\\' | b'{' | b'}' => Some(
            "$0 has commands of TeX, as \\patterns{ and }: keep only the lines between the braces",
        ),
        _ => None,
    }
}

/// What is said of a translate file for its first line, where that shows a cause: it may be a
/// letter line.
fn head_cause(head: &[u8]) -> Option<&'static str> {
    let cause = byte_cause(head);
    if cause.is_some() || has_minima(head) {
        return cause;
    }
    Some(NO_HEAD)
}

/// What is said of a translate file that has a parameters file's numbers.
const PARAMETERS: &str =
    "$0 stands where TRANSLATE is due, and has numbers alone, as a parameters file";

/// What is said of a parameters file that has letters where it begins.
const NO_PARAMETERS: &str =
    "$0 stands where PARAMS is due, and a parameters file has numbers alone";

/// How many numbers the parameters of one level are.
const LEVEL_NUMBERS: usize = 7;

/// Whether there is no byte but those of numbers and what stands between them, and there are as
/// many numbers as a level takes.
fn are_numbers(bytes: &[u8]) -> bool {
    bytes
        .iter()
        .all(|byte| byte.is_ascii_digit() || is_separator(*byte))
        && LEVEL_NUMBERS <= items_in(bytes)
}

/// What is said of a file that stands in the place of another, where its bytes show it.
fn name_cause(refused: &RefusalCase<'_>, spot: &Spot<'_>) -> Option<&'static str> {
    match refused.refusal.kind {
        Kind::BadMinima | Kind::BadMark | Kind::BadSpelling | Kind::SpellingClash
            if are_numbers(refused.bytes) => { Some(PARAMETERS) }
        Kind::BadNumber if matches!(refused.refusal.line, 1 | 3) => {
            let first = *spot.rest().first()?;
            if first.is_ascii_alphabetic() || 128 <= first {
                Some(NO_PARAMETERS)
            } else {
                None
            }
        }
        _ => None,
    }
}

/// What is said of a file for the place of its refusal, where that shows a cause.
fn place_cause(kind: Kind, spot: &Spot<'_>) -> Option<&'static str> {
    match kind {
        Kind::BadMinima => head_cause(spot.text),
        Kind::BadNumber | Kind::PatternCharacter | Kind::DictionaryCharacter => {
            byte_cause(spot.rest())
        }
        _ => None,
    }
}

/// What is said of a refused file as a whole, where its bytes show a cause.
fn cause_of(refused: &RefusalCase<'_>, spot: &Spot<'_>) -> Option<&'static str> {
    if spot.line == 1 {
        let cause = file_cause(refused.bytes);
        if cause.is_some() {
            return cause;
        }
    }
    let cause = name_cause(refused, spot);
    if cause.is_some() {
        return cause;
    }
    place_cause(refused.refusal.kind, spot)
}

/// Appends the cause of a refusal, where the bytes show one.
pub(crate) fn push_cause<'a>(
    text: &mut Text,
    refused: &RefusalCase<'a>,
    spot: &Spot<'a>,
) -> Result<(), AllocError> {
    if let Some(cause) = cause_of(refused, spot) {
        return text.line(cause, &[Name(refused.name)]);
    }
    match &refused.letters {
        Some(letters) => push_letter_cause(text, refused, letters, spot),
        None => Ok(()),
    }
}
