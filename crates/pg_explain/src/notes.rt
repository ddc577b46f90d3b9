//! Status 0: what is said although nothing is wrong.

use pg_types::next_line;
use pg_visible::Part::{Count, Name};
use pg_visible::{Spot, Text};
use std::alloc::AllocError;

/// Appends that a dictionary has no word.
pub(crate) fn push_no_word(text: &mut Text, dict: &str) -> Result<(), AllocError> {
    let sentence = "$0 has no word: a word is a line with a letter before its first blank";
    text.line(sentence, &[Name(dict)])
}

/// Appends that no word of a dictionary takes part.
pub(crate) fn push_no_part(
    text: &mut Text,
    dict: &str,
    words: usize,
    left: u8,
    right: u8,
) -> Result<(), AllocError> {
    let left = usize::from(left);
    let right = usize::from(right);
    text.line(
        "no word of $0 takes part, of $1: with the minima $2 and $3 a word needs at least $4 letters",
        &[
            Name(dict),
            Count(words),
            Count(left),
            Count(right),
            Count(left + right),
        ],
    )
}

/// Appends that the first level is not above the starting values.
pub(crate) fn push_low_start(
    text: &mut Text,
    patterns: &str,
    largest: u8,
    start: u8,
) -> Result<(), AllocError> {
    let largest = Count(usize::from(largest));
    let start = Count(usize::from(start));
    text.line(
        "$0 has the value $1, and the first level is $2: give a first level above the greatest value",
        &[Name(patterns), largest, start],
    )
}

/// How many bytes stand before what follows the first blank or TAB of a line; none where nothing
/// follows.
fn behind_blank(line: &[u8]) -> Option<usize> {
    let mut is_behind = false;
    for (index, byte) in line.iter().enumerate() {
        let is_blank = *byte == b' ' || *byte == b'\t';
        if is_behind && !is_blank {
            return Some(index);
        }
        is_behind |= is_blank;
    }
    None
}

/// The first line that has more behind its first blank, and how many lines have more.
fn lines_behind(bytes: &[u8]) -> Option<(Spot<'_>, usize)> {
    let mut first = None;
    let mut count = 0_usize;
    let mut line = 0_usize;
    let mut rest = bytes;
    'lines: while let Some((text, after)) = next_line(rest) {
        line = line.saturating_add(1);
        if let Some(at) = behind_blank(text) {
            count = count.saturating_add(1);
            let column = at.saturating_add(1);
            first = first.or(Some(Spot { line, column, text }));
        }
        rest = after;
    }
    Some((first?, count))
}

/// Appends that lines of patterns have more behind their first blank, where some do.
pub(crate) fn push_behind(text: &mut Text, patterns: &str, bytes: &[u8]) -> Result<(), AllocError> {
    let Some((spot, count)) = lines_behind(bytes) else {
        return Ok(());
    };
    let sentence = "a line ends at its first blank, and what follows it here is not read";
    text.place(patterns, &spot, sentence, &[])?;
    text.excerpt(&spot)?;
    let sentence = if count == 1 {
        "no other line of $0 has more"
    } else {
        "$1 lines of $0 have more behind their first blank"
    };
    text.line(sentence, &[Name(patterns), Count(count)])
}
