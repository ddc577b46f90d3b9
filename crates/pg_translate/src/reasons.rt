//! Why a translate file is refused: what is wrong with its head, or with a spelling.
ghost use Rattle.std.specs.Prelude.{◌≡◌, ◌==◌, ◌+◌, ◌<◌, ◌∷◌, [], true, false, length, position, option_map, MatchOption, IfSome, Err};
ghost use Rattle.std.specs.List.{list_any};
ghost use Rattle.pg_translate.specs.Inside.tables.Checks.{marks_of};
ghost use Rattle.pg_translate.specs.Spellings as spelling;
ghost use Rattle.pg_translate.specs.Inside.tables.Checks as checks;
ghost use Rattle.pg_translate.specs.Inside.tables.BadHeads.{mark_column, mark_refusal, head_refusal, IsMarkIn, IsHeadFault, IsSpellingFault};

use crate::head::{
    DEFAULT_DONT_CARE, DEFAULT_ERROR, DEFAULT_FOUND, DEFAULT_LEFT, DEFAULT_MISSED, DEFAULT_RIGHT,
    mark_fails, mark_in, minimum, pair_at,
};
use crate::reading::{has_space, is_spelling, next_piece, without_blanks};
use crate::spellings::SPELLING_MAX;
use pg_types::{Mark, next_line};

/// A byte of a head that is no mark.
#[derive(Clone, Copy, Debug, PartialEq, Eq)]
pub struct BadMark {
    /// What it should mark.
    pub mark: Mark,
    /// The byte, which is a default where the head has a blank.
    pub byte: u8,
    /// The column of the mark before it that is the same; none where the byte is no mark at all.
    pub same: Option<usize>,
}

/// What is wrong with the head of a translate file.
#[derive(Clone, Copy, Debug, PartialEq, Eq)]
pub enum BadHead {
    /// The left minimum, in columns 1 and 2. It is blank beside a right one, or it is no number.
    Left(bool),
    /// The right minimum, in columns 3 and 4. It is blank beside a left one, or it is no number.
    Right(bool),
    /// A mark.
    Mark(BadMark),
}

/// Why a text is no spelling.
#[derive(Clone, Copy, Debug, PartialEq, Eq)]
pub enum BadSpelling {
    /// It has more than [`SPELLING_MAX`] bytes.
    TooLong,
    /// It holds this byte, a blank, a TAB, an LF or a CR.
    Holds(u8),
    /// It begins with this byte, a digit, a dot, `{` or a mark.
    Begins(u8),
}

/// The column in which the head has the byte of a mark; 0 for `Nothing`, which has none.
pub fn mark_column(mark: Mark) -> usize
    ensures { result ≡ mark_column mark }
{
    match mark {
        Mark::Nothing => 0,
        Mark::Error => 5,
        Mark::Missed => 6,
        Mark::Found => 7,
        Mark::DontCare => 8,
    }
}

/// Whether a pair is two blanks.
fn is_blank_pair(pair: (u8, u8)) -> bool
    ensures { result ≡ checks.is_blank_pair pair }
{
    pair.0 == b' ' && pair.1 == b' '
}

/// What is wrong with the minima of a head.
fn bad_minimum(head: &[u8]) -> Option<BadHead>
    ensures answer { let all = checks.minima_checks head.now in MatchOption result (all ≡ [])
        (λ bad. checks.first_failure all ≡ Err (head_refusal bad)) }
    ensures fault { IfSome result (IsHeadFault head.now) }
{
    let (left, right) = (pair_at(head, 1), pair_at(head, 3));
    let Some(_) = minimum(left, right, DEFAULT_LEFT) else {
        return Some(BadHead::Left(is_blank_pair(left)));
    };
    let Some(_) = minimum(right, left, DEFAULT_RIGHT) else {
        return Some(BadHead::Right(is_blank_pair(right)));
    };
    None
}

/// The column of the first of these marks that is this byte. They stand from column 5 on.
fn same_column(before: &[u8], byte: u8) -> Option<usize>
    ensures { result ≡ option_map (λ i. i + 5) (position (λ b. b == byte) before.now) }
{
    match mark_position(before, byte) {
        Some(i) => Some(i + 5),
        None => None,
    }
}

/// Which of these marks is this byte.
fn mark_position(before: &[u8], byte: u8) -> Option<usize>
    ensures { result ≡ position (λ b. b == byte) before.now }
{
    before.iter().position(|other| *other == byte)
}

/// The first of four mark bytes that may not be a mark.
fn first_bad_mark(error: u8, missed: u8, found: u8, dont_care: u8) -> Option<BadMark>
    ensures answer { let all = checks.mark_checks (error ∷ missed ∷ found ∷ dont_care ∷ []) in
        MatchOption result (all ≡ []) (λ bad. checks.first_failure all ≡ Err (mark_refusal bad)) }
    ensures mark { IfSome result (IsMarkIn (error ∷ missed ∷ found ∷ dont_care ∷ [])) }
{
    if mark_fails(&[], error) {
        return Some(BadMark {
            mark: Mark::Error,
            byte: error,
            same: None,
        });
    }
    if mark_fails(&[error], missed) {
        return Some(BadMark {
            mark: Mark::Missed,
            byte: missed,
            same: same_column(&[error], missed),
        });
    }
    if mark_fails(&[missed, error], found) {
        return Some(BadMark {
            mark: Mark::Found,
            byte: found,
            same: same_column(&[error, missed], found),
        });
    }
    if mark_fails(&[found, missed, error], dont_care) {
        return Some(BadMark {
            mark: Mark::DontCare,
            byte: dont_care,
            same: same_column(&[error, missed, found], dont_care),
        });
    }
    None
}

/// The first mark byte of a head that may not be a mark.
fn bad_mark(head: &[u8]) -> Option<BadMark>
    ensures answer { let all = checks.mark_checks (marks_of head.now) in
        MatchOption result (all ≡ []) (λ bad. checks.first_failure all ≡ Err (mark_refusal bad)) }
    ensures mark { IfSome result (IsMarkIn (marks_of head.now)) }
{
    let error = mark_in(head, 5, DEFAULT_ERROR);
    let missed = mark_in(head, 6, DEFAULT_MISSED);
    let found = mark_in(head, 7, DEFAULT_FOUND);
    let dont_care = mark_in(head, 8, DEFAULT_DONT_CARE);
    first_bad_mark(error, missed, found, dont_care)
}

/// What is wrong with the head of a translate file: the first check that fails. It is none exactly
/// where the head is accepted, and else of the kind and at the place of its refusal.
pub fn bad_head(line: &[u8]) -> Option<BadHead>
    ensures answer { let all = checks.head_checks_by_pairs line.now in MatchOption result (all ≡ [])
        (λ bad. checks.first_failure all ≡ Err (head_refusal bad)) }
    ensures fault { IfSome result (IsHeadFault line.now) }
{
    match bad_minimum(line) {
        Some(bad) => Some(bad),
        None => match bad_mark(line) {
            Some(mark) => Some(BadHead::Mark(mark)),
            None => None,
        },
    }
}

/// The four mark bytes of a head.
fn marks_in(head: &[u8]) -> [u8; 4]
    ensures { result ≡ marks_of head.now }
{
    let error = mark_in(head, 5, DEFAULT_ERROR);
    let missed = mark_in(head, 6, DEFAULT_MISSED);
    let found = mark_in(head, 7, DEFAULT_FOUND);
    let dont_care = mark_in(head, 8, DEFAULT_DONT_CARE);
    [error, missed, found, dont_care]
}

/// Which byte that no spelling holds is named, where a text holds some.
fn held_space(text: &[u8]) -> u8
    ensures { spelling.is_space result ≡ true }
{
    if text.contains(&b' ') {
        b' '
    } else if text.contains(&b'\t') {
        b'\t'
    } else if text.contains(&b'\r') {
        b'\r'
    } else {
        b'\n'
    }
}

/// Why a text that is no spelling is none: its length, else what it holds, else how it begins.
fn spelling_fault(text: &[u8]) -> BadSpelling
    requires { 0 < length text.now }
    ensures { IsSpellingFault text.now result }
{
    if text.len() > SPELLING_MAX {
        BadSpelling::TooLong
    } else if has_space(text) {
        BadSpelling::Holds(held_space(text))
    } else {
        BadSpelling::Begins(text[0])
    }
}

/// Why a text is no spelling below a head. It is none exactly where it may be one.
pub fn bad_spelling(head: &[u8], text: &[u8]) -> Option<BadSpelling>
    requires { 0 < length text.now }
    ensures answer { MatchOption result (spelling.is_spelling (marks_of head.now) text.now ≡ true)
        (λ _. spelling.is_spelling (marks_of head.now) text.now ≡ false) }
    ensures fault { IfSome result (IsSpellingFault text.now) }
{
    let marks = marks_in(head);
    if is_spelling(&marks, text) {
        return None;
    }
    Some(spelling_fault(text))
}

/// The spelling that begins in a column of a letter line; none where none does.
pub fn spelling_at(line: &[u8], column: usize) -> Option<&[u8]>
    requires { 0 < column }
    ensures { IfSome result (λ piece. 0 < length piece.now) }
{
    let line = without_blanks(line);
    let delimiter = *line.first()?;
    let (piece, _) = next_piece(delimiter, line.get(column - 1..)?)?;
    Some(piece)
}

/// Whether one of two spellings begins with the other, and they are not the same one of a letter.
/// Each stands in the letter line with this number.
fn clashes(line: usize, text: &[u8], other_line: usize, other: &[u8]) -> bool
    ensures { result ≡ spelling.clash (line, text.now) (other_line, other.now) }
{
    (text.starts_with(other) || other.starts_with(text))
        && !(line == other_line && text.len() == other.len())
}

/// The first spelling of a letter line that clashes with this one, of the letter line `last`.
fn clash_in<'a>(line: usize, text: &'a [u8], last: usize, refused: &[u8]) -> Option<&'a [u8]>
    ensures { IfSome result
        (λ other. spelling.clash (last, refused.now) (line, other.now) ≡ true) }
{
    let text = without_blanks(text);
    let (delimiter, text) = text.split_first()?;
    let mut rest = text;
    'pieces: while let Some((piece, after)) = next_piece(*delimiter, rest) {
        if clashes(last, refused, line, piece) {
            return Some(piece);
        }
        rest = after;
    }
    None
}

/// The first spelling of a translate file up to the line `last` that clashes with this one of that
/// line, and the number of its line.
pub fn first_clash<'a>(bytes: &'a [u8], last: usize, refused: &[u8]) -> Option<(usize, &'a [u8])>
    ensures { IfSome result
        (λ r. spelling.clash (last, refused.now) (r.0, r.1.now) ≡ true) }
{
    let (_, text) = next_line(bytes)?;
    let mut rest = text;
    'lines: for above in 1..last {
        let line = above + 1;
        let (text, after) = next_line(rest)?;
        if let Some(other) = clash_in(line, text, last, refused) {
            return Some((line, other));
        }
        rest = after;
    }
    None
}
