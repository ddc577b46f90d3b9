//! How many more lines of a refused file would be refused.

use crate::chars::{has_minima, up_to};
use crate::wrong::RefusalCase;
use pg_dict::Dictionary;
use pg_patterns::PatternSet;
use pg_translate::Table;
use pg_types::{FILE_MAX, Kind, ReadingError, Refusal, next_line};
use pg_visible::Part::{Count, Name, Say};
use pg_visible::{Spot, Text};
use std::alloc::{AllocError, Global};

/// How many lines or items are counted at most.
pub(crate) const MORE_MAX: usize = 100;

/// How many bytes of a translate file are read again at most, while its refused lines are counted.
const AGAIN_MAX: usize = 2 * FILE_MAX;

/// What a reader refuses; none where it accepts.
fn refusal_of<T: Drop>(read: Result<T, ReadingError>) -> Result<Option<Refusal>, AllocError> {
    match read {
        Ok(_) => Ok(None),
        Err(ReadingError::Refused(refusal)) => Ok(Some(refusal)),
        Err(ReadingError::Memory) => Err(AllocError),
    }
}

/// Appends how many more lines or items of a file would be refused, or that there are at least so
/// many.
pub(crate) fn push_count(
    text: &mut Text,
    name: &str,
    thing: &'static str,
    more: usize,
    is_all: bool,
) -> Result<(), AllocError> {
    let sentence = match more {
        0 => "$0no other $1 of $2 would be refused",
        1 => "$0$3 more $1 of $2 would be refused",
        _ => "$0$3 more $1s of $2 would be refused",
    };
    let front = if is_all { "" } else { "at least " };
    text.line(sentence, &[Say(front), Say(thing), Name(name), Count(more)])
}

/// Whether a line of patterns or of a dictionary is refused when it is read by itself.
fn is_refused(
    alloc: Global,
    table: &Table,
    line: &[u8],
    is_pattern: bool,
) -> Result<bool, AllocError> {
    let refusal = if is_pattern {
        refusal_of(PatternSet::read(alloc, table, line))?
    } else {
        refusal_of(Dictionary::read(alloc, table, line))?
    };
    Ok(refusal.is_some())
}

/// How many lines behind the refused one are refused when each is read by itself, up to a hundred.
fn refused_behind(
    alloc: Global,
    refused: &RefusalCase<'_>,
    table: &Table,
    is_pattern: bool,
) -> Result<usize, AllocError> {
    let first = refused.refusal.line as usize;
    let mut more = 0_usize;
    let mut line = 0_usize;
    let mut rest = refused.bytes;
    'lines: while let Some((_, after)) = next_line(rest) {
        let whole = up_to(rest, rest.len().saturating_sub(after.len()));
        line = line.saturating_add(1);
        if first < line && more < MORE_MAX {
            more += usize::from(is_refused(alloc, table, whole, is_pattern)?);
        }
        rest = after;
    }
    Ok(more)
}

/// How many bytes of a line of a translate file are blanked: the minima of a head, or all.
fn blank_len(file: &[u8], refusal: &Refusal) -> usize {
    let head = Spot::new(file, refusal.line as usize, 1).text;
    if refusal.kind == Kind::BadMinima && has_minima(head) {
        return 4;
    }
    usize::MAX
}

/// Blanks what is refused out of a translate file: the minima of a head, or a whole line.
fn blank_out(file: &mut [u8], refusal: &Refusal) {
    let number = refusal.line as usize;
    let len = blank_len(file, refusal);
    let mut line = 1_usize;
    let mut column = 0_usize;
    for byte in file.iter_mut() {
        if *byte == b'\n' {
            line = line.saturating_add(1);
            column = 0;
        } else if line == number && column < len {
            *byte = b' ';
            column = column.saturating_add(1);
        }
    }
}

/// Blanks what is refused out of a translate file, then what is refused next, and so on until the
/// file is accepted. Gives how many lines behind the head were blanked after the first refusal, and
/// whether these are all: the count ends at `most`.
fn refused_besides(
    alloc: Global,
    file: &mut [u8],
    refusal: Refusal,
    most: usize,
) -> Result<(usize, bool), AllocError> {
    let mut more = 0_usize;
    let mut next = refusal;
    for _ in 0..MORE_MAX + 2 {
        blank_out(file, &next);
        match refusal_of(Table::read(alloc, file))? {
            None => return Ok((more, true)),
            Some(refusal) => next = refusal,
        }
        more = more.saturating_add(usize::from(next.line > 1));
        if more >= most {
            return Ok((more, false));
        }
    }
    Ok((more, false))
}

/// Appends how many more lines of a translate file would be refused. Where the head is refused, the
/// lines behind it are read as if its minima were blank, or all of it where it has none.
fn push_more_letters(text: &mut Text, refused: &RefusalCase<'_>) -> Result<(), AllocError> {
    let most = (AGAIN_MAX / refused.bytes.len().max(1))
        .min(MORE_MAX)
        .max(1);
    let mut file = Vec::from_slice(text.alloc(), refused.bytes)?;
    let (more, is_all) = refused_besides(text.alloc(), &mut file, refused.refusal, most)?;
    push_count(text, refused.name, "line", more, is_all)
}

/// Appends how many more lines of a dictionary or a file of patterns would be refused.
fn push_more_words(
    text: &mut Text,
    refused: &RefusalCase<'_>,
    is_pattern: bool,
) -> Result<(), AllocError> {
    match &refused.letters {
        Some(letters) => {
            let more = refused_behind(text.alloc(), refused, letters.table, is_pattern)?;
            push_count(text, refused.name, "line", more, more < MORE_MAX)
        }
        None => Ok(()),
    }
}

/// Appends how many more lines of a file with lines would be refused.
pub(crate) fn push_more(text: &mut Text, refused: &RefusalCase<'_>) -> Result<(), AllocError> {
    match refused.refusal.kind {
        Kind::PatternCharacter | Kind::PatternTooLong => push_more_words(text, refused, true),
        Kind::DictionaryCharacter | Kind::WordTooLong | Kind::BadWeight => {
            push_more_words(text, refused, false)
        }
        Kind::BadMinima
        | Kind::BadMark
        | Kind::BadSpelling
        | Kind::SpellingClash
        | Kind::TooManyLetters => push_more_letters(text, refused),
        _ => Ok(()),
    }
}
