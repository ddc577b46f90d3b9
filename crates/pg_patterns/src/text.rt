//! The text of a pattern file.
ghost use Rattle.std.specs.Prelude.{◌≡◌, ◌+◌, ◌≤◌, ◌++◌, length, drop, All, OnOk, IfOk, IfSome};
ghost use Rattle.pg_translate.specs.Alphabets.{letters_of};
ghost use Rattle.pg_patterns.specs.Inside.DottedOrder.{same_dotted};
ghost use Rattle.pg_patterns.specs.Inside.PatternMaps.{IsPatternMap, SignsUpTo};
ghost use Rattle.pg_patterns.specs.Inside.Search.{HasRank, first_value};
ghost use Rattle.pg_patterns.specs.Texts.{pattern_line, pattern_text};
ghost use Rattle.pg_patterns.specs.Inside.PatternLines.{value_digit};

use crate::dotted_signs::DottedSigns;
use pg_translate::Table;
use pg_types::{LEVEL_MAX, PATTERN_SIGNS_MAX, Sign};
use std::alloc::AllocError;

/// Appends the lines of the strings of the entries.
pub fn push_lines(
    entries: &[(DottedSigns, u8)],
    table: &Table,
    text: &mut Vec<u8>,
) -> Result<(), AllocError>
    requires map { IsPatternMap entries.now }
    requires known { SignsUpTo (letters_of table.now + 1) entries.now }
    ensures { OnOk result (text.new.items ≡ text.old.items ++ pattern_text table.now entries.now) }
{
    let mut at = 0;
    'lines: while at < entries.len() {
        let signs = entries[at].0.signs();
        at = push_line(entries, at, signs, table, text)?;
    }
    Ok(())
}

/// Appends the line of `signs`, whose entries begin at `at`, and gives where those of the next
/// string begin.
fn push_line(
    entries: &[(DottedSigns, u8)],
    at: usize,
    signs: &[Sign],
    table: &Table,
    text: &mut Vec<u8>,
) -> Result<usize, AllocError>
    requires map { IsPatternMap entries.now }
    requires point { HasRank entries.now (signs.now, 0) at }
    requires few { length signs.now ≤ PATTERN_SIGNS_MAX }
    requires each { All (λ s. 1 ≤ s) signs.now }
    requires known { All (λ s. s ≤ letters_of table.now + 1) signs.now }
    ensures text { OnOk result
        (text.new.items ≡ text.old.items ++ pattern_line table.now entries.now signs.now) }
    ensures next { IfOk result
        (λ next. HasRank entries.now (signs.now, length signs.now + 1) next) }
{
    let mut next = at;
    'signs: for (dot, sign) in signs.iter().enumerate() {
        next = push_digit(entries, next, signs, dot, text)?;
        text.extend_from_slice(table.spelling(*sign))?;
    }
    next = push_digit(entries, next, signs, signs.len(), text)?;
    text.push(b'\n')?;
    Ok(next)
}

/// Appends the digit of `dot` among `signs`, where the entry at `next` is theirs, and gives where
/// the entry of the next dot would stand.
fn push_digit(
    entries: &[(DottedSigns, u8)],
    next: usize,
    signs: &[Sign],
    dot: usize,
    text: &mut Vec<u8>,
) -> Result<usize, AllocError>
    requires map { IsPatternMap entries.now }
    requires point { HasRank entries.now (signs.now, dot) next }
    ensures text { OnOk result
        (text.new.items ≡ text.old.items ++ value_digit entries.now (signs.now, dot)) }
    ensures next { IfOk result (λ after. HasRank entries.now (signs.now, dot + 1) after) }
{
    match entry_value_at(entries, next, signs, dot) {
        Some(value) => {
            text.push(b'0' + value)?;
            Ok(next + 1)
        }
        None => Ok(next),
    }
}

/// The value of the entry at `at`, where it is that of `dot` among `signs`.
fn entry_value_at(
    entries: &[(DottedSigns, u8)],
    at: usize,
    signs: &[Sign],
    dot: usize,
) -> Option<u8>
    requires { IsPatternMap entries.now }
    ensures value { result ≡ first_value (signs.now, dot) (drop at entries.now) }
    ensures low { IfSome result (λ value. value ≤ LEVEL_MAX) }
{
    if at < entries.len() && is_dotted(&entries[at].0, signs, dot) {
        Some(entries[at].1)
    } else {
        None
    }
}

/// Whether the dotted string is that of `dot` among `signs`.
fn is_dotted(dotted: &DottedSigns, signs: &[Sign], dot: usize) -> bool
    ensures { result ≡ same_dotted (signs.now, dot) dotted.now }
{
    usize::from(dotted.dot()) == dot && signs == dotted.signs()
}
