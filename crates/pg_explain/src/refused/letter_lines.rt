//! The letter lines of a refused translate file.

use crate::chars::up_to;
use crate::wrong::RefusalCase;
use pg_translate::{BadSpelling, SPELLING_MAX, bad_spelling, first_clash, spelling_at};
use pg_types::next_line;
use pg_visible::Part::{Count, Show};
use pg_visible::{Spot, Text};
use std::alloc::AllocError;

/// The first line of a file.
fn head_of(bytes: &[u8]) -> &[u8] {
    match next_line(bytes) {
        Some((head, _)) => head,
        None => b"",
    }
}

/// Why these bytes, `$0`, so many as `$1`, are no spelling.
fn spelling_sentence(bad: &BadSpelling) -> &'static str {
    match bad {
        BadSpelling::TooLong => "the spelling \"$0\" has $1 bytes, and $2 is the most",
        BadSpelling::Holds(b' ') => "the spelling \"$0\" holds a blank",
        BadSpelling::Holds(b'\t') => "the spelling \"$0\" holds a TAB",
        BadSpelling::Holds(_) => "the spelling \"$0\" holds a CR",
        BadSpelling::Begins(b'0'..=b'9') => "the spelling \"$0\" begins with a digit",
        BadSpelling::Begins(b'.') => {
            "the spelling \"$0\" begins with a dot, which is the edge of words"
        }
        BadSpelling::Begins(b'{') => {
            "the spelling \"$0\" begins with a brace, which begins a weight"
        }
        BadSpelling::Begins(_) => "the spelling \"$0\" begins with a mark of the head",
    }
}

/// Appends which byte is the delimiter of a line, where it is no blank.
pub(crate) fn push_delimiter(text: &mut Text, line: &[u8]) -> Result<(), AllocError> {
    if line.is_empty() || line.starts_with(b" ") {
        return Ok(());
    }
    text.line(
        "the first byte of a letter line stands between its spellings; here it is $0, and mostly it is a blank",
        &[Show(up_to(line, 1))],
    )
}

/// Appends why the bytes at a place are no spelling.
pub(crate) fn push_spelling(
    text: &mut Text,
    refused: &RefusalCase<'_>,
    spot: &Spot<'_>,
) -> Result<(), AllocError> {
    let Some(spelling) = spelling_at(spot.text, spot.offset().saturating_add(1)) else {
        return Ok(());
    };
    let Some(bad) = bad_spelling(head_of(refused.bytes), spelling) else {
        return Ok(());
    };
    let parts = [Show(spelling), Count(spelling.len()), Count(SPELLING_MAX)];
    text.place(refused.name, spot, spelling_sentence(&bad), &parts)
}

/// How a spelling, `$0`, clashes with an earlier one, `$1`, of the line `$2`.
fn clash_sentence(spelling: &[u8], other: &[u8]) -> &'static str {
    if other == spelling {
        "\"$0\" is \"$1\", a spelling of line $2: a spelling belongs to one letter"
    } else if other.starts_with(spelling) {
        "\"$0\" begins \"$1\", a spelling of line $2: no spelling begins another"
    } else {
        "\"$0\" begins with \"$1\", a spelling of line $2: no spelling begins another"
    }
}

/// Appends which spellings clash.
pub(crate) fn push_clash<'a>(
    text: &mut Text,
    refused: &RefusalCase<'a>,
    spot: &Spot<'a>,
) -> Result<(), AllocError> {
    let Some(spelling) = spelling_at(spot.text, spot.offset().saturating_add(1)) else {
        return Ok(());
    };
    let Some((line, other)) = first_clash(refused.bytes, spot.line, spelling) else {
        return Ok(());
    };
    let sentence = clash_sentence(spelling, other);
    let parts = [Show(spelling), Show(other), Count(line)];
    text.place(refused.name, spot, sentence, &parts)
}
