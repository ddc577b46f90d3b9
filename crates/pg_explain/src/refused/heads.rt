//! The head of a refused translate file.

use crate::chars::{is_blank, up_to};
use pg_translate::{BadHead, BadMark, MINIMUM_MAX, bad_head};
use pg_types::Mark;
use pg_visible::Part::{Byte, Count, Say, Show};
use pg_visible::{Spot, Text};
use std::alloc::AllocError;

/// What is said of a minimum, `$0`.
fn minimum_sentence(bad: &BadHead) -> &'static str {
    match bad {
        BadHead::Left(true) => {
            "columns 1 and 2 are blank, and the left minimum is due there, 1 to $1, since the right one is given"
        }
        BadHead::Left(false) => {
            "columns 1 and 2 are \"$0\", and the left minimum is due there: a number from 1 to $1"
        }
        BadHead::Right(true) => {
            "columns 3 and 4 are blank, and the right minimum is due there, 1 to $1, since the left one is given"
        }
        _ => {
            "columns 3 and 4 are \"$0\", and the right minimum is due there: a number from 1 to $1"
        }
    }
}

/// What a mark means.
fn meaning_of(mark: Mark) -> &'static str {
    match mark {
        Mark::Error => "an error",
        Mark::Missed => "a missed hyphen",
        Mark::Found => "a found hyphen",
        _ => "a don't-care position",
    }
}

/// Appends why a byte is no mark.
fn push_mark(
    text: &mut Text,
    name: &str,
    spot: &Spot<'_>,
    bad: &BadMark,
) -> Result<(), AllocError> {
    let sentence = match bad.same {
        None => "$0 is no mark of $1: a mark is no digit, TAB, CR or {",
        Some(_) if is_blank(up_to(spot.rest(), 1)) => {
            "$0 is the mark of $1, as a blank means it, and that of column $2 too: the four marks differ"
        }
        Some(_) => "$0 is the mark of $1, and that of column $2 too: the four marks differ",
    };
    let same = Count(bad.same.unwrap_or(0));
    let parts = [Byte(bad.byte), Say(meaning_of(bad.mark)), same];
    text.place(name, spot, sentence, &parts)
}

/// Appends what is wrong with a head.
pub(crate) fn push_head(text: &mut Text, name: &str, spot: &Spot<'_>) -> Result<(), AllocError> {
    match bad_head(spot.text) {
        Some(BadHead::Mark(bad)) => push_mark(text, name, spot, &bad),
        Some(bad) => {
            let parts = [Show(up_to(spot.rest(), 2)), Count(usize::from(MINIMUM_MAX))];
            text.place(name, spot, minimum_sentence(&bad), &parts)
        }
        None => Ok(()),
    }
}
