//! The letter lines of a translate file.
ghost use Rattle.std.specs.Prelude.{◌≡◌, ◌==◌, position, IfOk, ℕ, ◌+◌, ◌-◌, ◌*◌, ◌<◌, ◌≤◌, ◌++◌, ◌∷◌, [], List, length, map, MatchOption, IfSome, OnOk, Ok, Err};
ghost use Rattle.std.specs.List.{list_any};
ghost use Rattle.pg_types.specs.Lines.{lines};
ghost use Rattle.pg_types.specs.ValuesOrRefusals.{refusal_at};
ghost use Rattle.pg_types.specs.Inside.reading.Parts.{first_refusal};
ghost use Rattle.pg_types.specs.Inside.reading.Answers.{Gives};
ghost use Rattle.pg_translate.specs.Inside.spellings.FirstSpellings.{letters_in};
ghost use Rattle.pg_translate.specs.Inside.spellings.Fronts.{pairs, IsIndex};
ghost use Rattle.pg_translate.specs.Spellings as spelling;
ghost use Rattle.pg_translate.specs.Inside.spellings.Beginnings as beginnings;
ghost use Rattle.pg_translate.specs.Tables as table;
ghost use Rattle.pg_translate.specs.Inside.tables.Checks as checks;
ghost use Rattle.pg_types.specs.declared.refusals.ReadingError.TheVariants.{Refused};

use crate::index::Index;
use crate::spellings::SPELLING_MAX;
use pg_types::{FILE_MAX, Kind, ReadingError, Refusal, SIGNS_MAX, next_line};
use std::alloc::Global;

/// A refusal with its place.
pub(crate) fn refusal(kind: Kind, line: u32, column: u32) -> ReadingError
    ensures { result ≡ Refused (refusal_at line kind column) }
{
    ReadingError::Refused(Refusal { kind, line, column })
}

/// Whether a byte is a blank, a TAB, an LF or a CR, which no spelling holds and which is no mark.
/// No line holds an LF. That it counts here too lets the text of a pattern file be read back line
/// by line.
pub(crate) fn is_space(byte: u8) -> bool
    ensures { result ≡ spelling.is_space byte }
{
    byte == b' ' || byte == b'\t' || byte == b'\n' || byte == b'\r'
}

/// Whether a text holds such a byte.
pub(crate) fn has_space(text: &[u8]) -> bool
    ensures { result ≡ list_any spelling.is_space text.now }
{
    text.iter().any(|byte| is_space(*byte))
}

/// Whether the first byte of a text may begin a spelling: it is no digit, dot, `{` or mark.
fn begins_well(marks: &[u8], text: &[u8]) -> bool
    ensures { result ≡ beginnings.begins_well marks.now text.now }
{
    if text.is_empty() {
        return false;
    }
    let byte = text[0];
    !(byte.is_ascii_digit() || byte == b'.' || byte == b'{' || marks.contains(&byte))
}

/// Whether a text may be a spelling beside these marks.
#[tactic(auto, using(crate::proofs::Beginnings::begins_as))]
pub(crate) fn is_spelling(marks: &[u8], text: &[u8]) -> bool
    ensures { result ≡ spelling.is_spelling marks.now text.now }
{
    text.len() <= SPELLING_MAX && begins_well(marks, text) && !has_space(text)
}

/// Adds a spelling of the letter with this number to the index, unless one of its checks fails. The
/// letter is the last of the index or a new one. The number of letters is one of them, checked at
/// each spelling: at the first one it fails first.
fn add_spelling(
    index: &mut Index,
    marks: &[u8],
    line: u32,
    column: u32,
    letter: u16,
    text: &[u8],
) -> Result<(), ReadingError>
    requires sound { IsIndex index.old }
    requires some { 0 < letter }
    requires low { letters_in (pairs index.old) ≤ letter }
    requires high { letter ≤ letters_in (pairs index.old) + 1 }
    ensures answer { Gives (λ _. tt) result
        (checks.first_failure (table.spelling_check marks.now (pairs index.old)
        (record { line = line; column = column; spelling = (letter + 1, text.now) }))) }
    ensures spellings { OnOk result
        (pairs index.new ≡ pairs index.old ++ (letter + 1, text.now) ∷ []) }
    ensures letters { OnOk result
        ((letters_in (pairs index.new) ≡ letter) × (letter ≤ SIGNS_MAX - 1)) }
    ensures sound { OnOk result (IsIndex index.new) }
{
    if letter > SIGNS_MAX - 1 {
        return Err(refusal(Kind::TooManyLetters, line, 1));
    }
    if !is_spelling(marks, text) {
        return Err(refusal(Kind::BadSpelling, line, column));
    }
    if index.clashes(letter + 1, text) {
        return Err(refusal(Kind::SpellingClash, line, column));
    }
    index.add(letter + 1, text)?;
    Ok(())
}

/// The index of the first delimiter.
fn find_delimiter(delimiter: u8, rest: &[u8]) -> Option<usize>
    ensures { result ≡ position (λ b. b == delimiter) rest.now }
{
    rest.iter().position(|byte| *byte == delimiter)
}

/// The first piece of what is left of a letter line behind its delimiter, and what follows it; none
/// where the piece is empty: the pieces end there.
pub(crate) fn next_piece(delimiter: u8, rest: &[u8]) -> Option<(&[u8], &[u8])>
    ensures pieces { MatchOption result (checks.pieces_of delimiter rest.now ≡ [])
        (λ p. checks.pieces_of delimiter rest.now ≡ p.0.now ∷ checks.pieces_of delimiter p.1.now) }
    ensures some { IfSome result (λ p. 0 < length p.0.now) }
    ensures shorter { IfSome result (λ p. length p.0.now + length p.1.now ≤ length rest.now) }
{
    match find_delimiter(delimiter, rest) {
        Some(0) => None,
        Some(end) => Some((&rest[..end], &rest[end + 1..])),
        None if rest.is_empty() => None,
        None => Some((rest, &rest[rest.len()..])),
    }
}

/// Adds the spellings of the letter with this number, which stand in the text behind the delimiter
/// of its line.
fn add_pieces(
    index: &mut Index,
    marks: &[u8],
    line: u32,
    letter: u16,
    delimiter: u8,
    text: &[u8],
) -> Result<(), ReadingError>
    requires sound { IsIndex index.old }
    requires letter { letter ≡ letters_in (pairs index.old) + 1 }
    requires letters { letter ≤ SIGNS_MAX }
    requires few { length text.now ≤ FILE_MAX }
    ensures answer { Gives (λ _. tt) result
        (checks.spellings_outcome marks.now (pairs index.old)
        (checks.spellings_behind line letter delimiter text.now)) }
    ensures spellings { OnOk result
        (pairs index.new ≡ pairs index.old ++ map checks.spelling_with_sign
        (checks.spellings_behind line letter delimiter text.now)) }
    ensures letters { OnOk result (letters_in (pairs index.new) ≤ SIGNS_MAX - 1) }
    ensures sound { OnOk result (IsIndex index.new) }
{
    let mut column = 2;
    let mut rest = text;
    'pieces: while let Some((piece, after)) = next_piece(delimiter, rest) {
        add_spelling(index, marks, line, column, letter, piece)?;
        column += piece.len() as u32 + 1;
        rest = after;
    }
    Ok(())
}

/// A line without the blanks at its end.
pub(crate) fn without_blanks(line: &[u8]) -> &[u8]
    ensures value { result.now ≡ checks.without_blanks line.now }
    ensures within { length result.now ≤ length line.now }
{
    let mut end = line.len();
    'blanks: while end > 0 && line[end - 1] == b' ' {
        end -= 1;
    }
    &line[..end]
}

/// Adds the letter of a letter line, unless the line is skipped.
fn add_line(index: &mut Index, marks: &[u8], line: u32, text: &[u8]) -> Result<(), ReadingError>
    requires sound { IsIndex index.old }
    requires letters { letters_in (pairs index.old) ≤ SIGNS_MAX - 1 }
    requires few { length text.now ≤ FILE_MAX }
    ensures answer { Gives (λ _. tt) result
        (let letter = letters_in (pairs index.old) + 1 in
        checks.spellings_outcome marks.now (pairs index.old)
        (checks.spellings_of_line line letter text.now)) }
    ensures spellings { OnOk result
        (pairs index.new ≡ pairs index.old ++ map checks.spelling_with_sign
        (checks.spellings_of_line line (letters_in (pairs index.old) + 1) text.now)) }
    ensures letters { OnOk result (letters_in (pairs index.new) ≤ SIGNS_MAX - 1) }
    ensures sound { OnOk result (IsIndex index.new) }
{
    let text = without_blanks(text);
    if text.is_empty() {
        return Ok(());
    }
    let letter = index.letters() as u16 + 1;
    add_pieces(index, marks, line, letter, text[0], &text[1..])
}

/// The letters of the lines that follow the head.
pub(crate) fn read_letters(alloc: Global, marks: &[u8], text: &[u8]) -> Result<Index, ReadingError>
    requires { length text.now ≤ FILE_MAX }
    ensures answer { let all = checks.spellings_from 2 1 (lines text.now) in Gives pairs result
        (first_refusal (checks.spelling_checks_from marks.now [] all)
        (map checks.spelling_with_sign all)) }
    ensures sound { IfOk result IsIndex }
{
    let mut index = Index::new(alloc);
    let mut line = 2;
    let mut rest = text;
    'lines: while let Some((first, after)) = next_line(rest) {
        add_line(&mut index, marks, line, first)?;
        line += 1;
        rest = after;
    }
    Ok(index)
}
