//! Refused packed tables: what is said of the first rule that they break.

use crate::wrong::RefusalCase;
use pg_table::{Breach, CellRule, RecordRule, TableView, first_breach};
use pg_types::packed_table::HEAD_LEN;
use pg_types::{LEVEL_MAX, PATTERN_SIGNS_MAX, SIGNS_MAX};
use pg_visible::Part::{Count, Name};
use pg_visible::Text;
use std::alloc::AllocError;

/// What is said of the head of a file. In it `$0` is the file, and `$1` and `$6` are the numbers of
/// the rule.
fn head_sentence(breach: &Breach) -> &'static str {
    match breach {
        Breach::Empty => "$0 is no packed table: it is empty",
        Breach::Signature => {
            "$0 is no packed table: it does not begin with PGT1, as a file of pack does"
        }
        Breach::Head => "$0 is no packed table: it ends inside its head of $1 bytes",
        Breach::Length(_) => "$0 is no packed table: by its head it has $1 bytes, and it has $4",
        Breach::Signs(_, _) => {
            "$0 is no packed table: its greatest sign is $1, and has to be 1 to $5 and below the number of cells, $6"
        }
        _ => "$0 is no packed table",
    }
}

/// What is said of a cell.
fn cell_sentence(rule: &CellRule) -> &'static str {
    match rule {
        CellRule::OwnSign => {
            "$0 is no packed table: its cell $1 stands at the root, and its sign is not its own number"
        }
        CellRule::Unused => "$0 is no packed table: its cell $1 has no sign, and is not all 0",
        CellRule::Sign => "$0 is no packed table: its cell $1 has a sign above the greatest",
        CellRule::Child => {
            "$0 is no packed table: its cell $1 leads to a family behind the last cell"
        }
        CellRule::Head => "$0 is no packed table: its cell $1 leads to a record behind the last",
    }
}

/// What is said of a record.
fn record_sentence(rule: &RecordRule) -> &'static str {
    match rule {
        RecordRule::Value => {
            "$0 is no packed table: its record $1 has a value that is not 1 to $2"
        }
        RecordRule::Dot => "$0 is no packed table: its record $1 has a dot above $3",
        RecordRule::Back => {
            "$0 is no packed table: its record $1 leads to itself or a later one"
        }
    }
}

/// What is said of a broken rule, with its numbers `$1` and `$6`. Records are counted from 1 here.
fn breach_sentence(breach: &Breach) -> (&'static str, usize, usize) {
    match breach {
        Breach::Cell(at, rule) => (cell_sentence(rule), *at as usize, 0),
        Breach::Record(i, rule) => (record_sentence(rule), (*i as usize).saturating_add(1), 0),
        Breach::Head => (head_sentence(breach), HEAD_LEN, 0),
        Breach::Length(len) => (head_sentence(breach), *len, 0),
        Breach::Signs(signs, cells) => (head_sentence(breach), *signs as usize, *cells as usize),
        _ => (head_sentence(breach), 0, 0),
    }
}

/// Appends which rule of packed tables a file breaks first. Its cells lead to one another, so
/// nothing behind the first fault is judged.
pub(crate) fn push_bad_table(text: &mut Text, refused: &RefusalCase<'_>) -> Result<(), AllocError> {
    let breach = first_breach(refused.bytes).unwrap_or(Breach::TooLong);
    let (sentence, number, cells) = breach_sentence(&breach);
    let parts = [
        Name(refused.name),
        Count(number),
        Count(usize::from(LEVEL_MAX)),
        Count(PATTERN_SIGNS_MAX),
        Count(refused.bytes.len()),
        Count(usize::from(SIGNS_MAX)),
        Count(cells),
    ];
    text.line(sentence, &parts)?;
    if matches!(breach, Breach::Empty | Breach::Signature | Breach::Head) {
        return Ok(());
    }
    let sentence = "what stands behind that is not judged: pack makes a table anew";
    text.line(sentence, &[])
}

/// The number of letters for which a table was packed.
fn letters_of(bytes: &[u8]) -> usize {
    match TableView::read(bytes) {
        Some(view) => usize::from(view.signs()).saturating_sub(1),
        None => 0,
    }
}

/// Appends that a packed table is of another number of letters.
pub(crate) fn push_other_table(
    text: &mut Text,
    refused: &RefusalCase<'_>,
) -> Result<(), AllocError> {
    let own = Count(letters_of(refused.bytes));
    let name = Name(refused.name);
    match &refused.letters {
        Some(letters) => text.line(
            "$0 was packed for $1 letters, and $2 has $3: give the translate file that it was packed with",
            &[
                name,
                own,
                Name(letters.name),
                Count(usize::from(letters.table.letters())),
            ],
        ),
        None => text.line("$0 was packed for $1 letters", &[name, own]),
    }
}

/// Appends that a packed table has too many bytes.
pub(crate) fn push_long_table(
    text: &mut Text,
    refused: &RefusalCase<'_>,
) -> Result<(), AllocError> {
    let sentence = if refused.bytes.is_empty() {
        "$0 would have more than 268,435,456 bytes (2^28), the most of a packed table"
    } else {
        "$0 has more than 268,435,456 bytes (2^28), the most of a packed table"
    };
    text.line(sentence, &[Name(refused.name)])
}
