//! Status 3: a file is refused.

mod causes;
mod heads;
mod letter_causes;
mod letter_lines;
mod more;
mod packed_tables;
mod parameters;
mod word_lines;

use crate::refused::causes::push_cause;
use crate::refused::heads::push_head;
use crate::refused::letter_lines::{push_clash, push_delimiter, push_spelling};
use crate::refused::more::push_more;
use crate::refused::packed_tables::{push_bad_table, push_long_table, push_other_table};
use crate::refused::parameters::RefusedItem;
use crate::refused::word_lines::{push_character, push_long, push_weight};
use crate::wrong::RefusalCase;
use pg_types::Kind;
use pg_visible::Part::Name;
use pg_visible::{Spot, Text};
use std::alloc::AllocError;

/// What is said of a file with too many bytes.
const LONG_FILE: &str = "$0 has more than 67,108,864 bytes (2^26), the most that is read";

/// What is said of the first letter that is one too many.
const MANY_LETTERS: &str = "2,000 letters stand above this line, the most that a table has";

/// Appends where and why a file is refused.
fn push_reason<'a>(
    text: &mut Text,
    refused: &RefusalCase<'a>,
    spot: &Spot<'a>,
) -> Result<(), AllocError> {
    match refused.refusal.kind {
        Kind::TranslateTooLong
        | Kind::ParametersTooLong
        | Kind::PatternsTooLong
        | Kind::DictionaryTooLong => text.line(LONG_FILE, &[Name(refused.name)]),
        Kind::BadMinima | Kind::BadMark => push_head(text, refused.name, spot),
        Kind::BadSpelling => push_spelling(text, refused, spot),
        Kind::SpellingClash => push_clash(text, refused, spot),
        Kind::TooManyLetters => text.place(refused.name, spot, MANY_LETTERS, &[]),
        Kind::BadNumber | Kind::OutOfRange | Kind::Missing | Kind::Extra => Ok(()),
        Kind::PatternCharacter | Kind::DictionaryCharacter => push_character(text, refused, spot),
        Kind::PatternTooLong | Kind::WordTooLong => push_long(text, refused, spot),
        Kind::BadWeight => push_weight(text, refused.name, spot),
        Kind::TableTooLong => push_long_table(text, refused),
        Kind::BadTable => push_bad_table(text, refused),
        Kind::OtherTable => push_other_table(text, refused),
    }
}

/// Appends the line of a refusal with a caret. Its cause follows where the bytes show one, and then
/// how many more lines would be refused.
fn push_place(
    text: &mut Text,
    refused: &RefusalCase<'_>,
    spot: &Spot<'_>,
) -> Result<(), AllocError> {
    text.excerpt(spot)?;
    if refused.refusal.kind == Kind::BadSpelling {
        push_delimiter(text, spot.text)?;
    }
    push_cause(text, refused, spot)?;
    push_more(text, refused)
}

/// Appends where and why a file is refused, and what is due there. A refusal that has a place also
/// gets its line with a caret, its cause, and how many more lines would be refused.
pub(crate) fn push_refused(text: &mut Text, refused: &RefusalCase<'_>) -> Result<(), AllocError> {
    if let Some(item) = RefusedItem::of(refused) {
        item.push_reason(text)?;
        text.excerpt(&item.spot)?;
        push_cause(text, refused, &item.spot)?;
        return item.push_more(text);
    }
    let refusal = &refused.refusal;
    let (line, column) = (refusal.line as usize, refusal.column as usize);
    let spot = Spot::new(refused.bytes, line, column);
    push_reason(text, refused, &spot)?;
    if line == 0 {
        return Ok(());
    }
    push_place(text, refused, &spot)
}
