//! The reader of a pattern file.
ghost use Rattle.std.specs.Prelude.{◌≡◌, ◌+◌, ◌-◌, ◌<◌, ◌≤◌, ◌^◌, true, length, Err, IfOk, MatchOption, MatchResult};
ghost use Rattle.std.specs.List.{list_all};
ghost use Rattle.pg_types.specs.Lines.{lines};
ghost use Rattle.pg_types.specs.Inside.reading.Answers.{Gives};
ghost use Rattle.pg_translate.specs.Alphabets.{letters_of};
ghost use Rattle.pg_types.specs.ValuesOrRefusals.{refusal_at};
ghost use Rattle.pg_patterns.specs.Inside.PatternMaps.{SignsUpTo, is_entry};
ghost use Rattle.pg_patterns.specs.Inside.Drafts.{IsDraft, EndsWith, ReadsOn, draft_left, line_draft, draft_with_sign};
ghost use Rattle.pg_patterns.specs.Inside.EntryLines.{entries_from};

use crate::dotted_signs::DottedSigns;
use crate::draft::LineDraft;
use pg_translate::{Item, Place, Table};
use pg_types::{EDGE, FILE_MAX, Kind, PATTERN_SIGNS_MAX, ReadingError, Refusal, Sign, next_line};
use std::alloc::Global;

/// The entries of the lines of a file, in their order.
pub fn read_entries(
    alloc: Global,
    table: &Table,
    bytes: &[u8],
) -> Result<Vec<(DottedSigns, u8)>, ReadingError>
    requires { length bytes.now ≤ FILE_MAX }
    ensures value { Gives (λ entries. entries.items) result
        (entries_from table.now 1 (lines bytes.now)) }
    ensures sound { IfOk result (λ entries. list_all is_entry entries.items ≡ true) }
    ensures known { IfOk result (λ entries. SignsUpTo (letters_of table.now + 1) entries.items) }
{
    let mut entries = Vec::new(alloc);
    let mut rest = bytes;
    let mut line = 1;
    'lines: while let Some((text, after)) = next_line(rest) {
        read_line(table, line, text)?.push_entries(&mut entries)?;
        line += 1;
        rest = after;
    }
    Ok(entries)
}

/// The draft of a whole line.
fn read_line(table: &Table, line: u32, text: &[u8]) -> Result<LineDraft, Refusal>
    requires { length text.now ≤ FILE_MAX }
    ensures value { result ≡ line_draft table.now line text.now }
    ensures kept { IfOk result (IsDraft (letters_of table.now + 1)) }
{
    let mut draft = LineDraft::new();
    let mut rest = text;
    'items: while let Some(after) = take_item(table, &mut draft, line, text.len(), rest)? {
        rest = after;
    }
    Ok(draft)
}

/// The column at which `rest` begins, of a line of `size` bytes.
fn column_of(size: usize, rest: &[u8]) -> u32
    requires size { size ≤ FILE_MAX }
    requires rest { length rest.now ≤ size }
    ensures { result ≡ size - length rest.now + 1 }
{
    (size - rest.len() + 1) as u32
}

/// Takes the first item of `rest`, of a line of `size` bytes, into the draft, and gives what
/// follows it; none where the line ends.
fn take_item<'a>(
    table: &Table,
    draft: &mut LineDraft,
    line: u32,
    size: usize,
    rest: &'a [u8],
) -> Result<Option<&'a [u8]>, Refusal>
    requires size { size ≤ FILE_MAX }
    requires rest { length rest.now ≤ size }
    requires kept { IsDraft (letters_of table.now + 1) draft.old }
    ensures step { let read = draft_left table.now line size in MatchResult result
        (λ o. MatchOption o (EndsWith read draft.old rest.now draft.new)
        (λ after. ReadsOn read draft.old rest.now draft.new after.now))
        (λ r. read draft.old rest.now ≡ Err r) }
    ensures kept { IfOk result (λ _. IsDraft (letters_of table.now + 1) draft.new) }
{
    let column = column_of(size, rest);
    match table.item(Place::Patterns, rest) {
        Item::Letter(sign, after) => {
            add_sign(draft, sign, line, column)?;
            Ok(Some(after))
        }
        Item::Edge(after) => {
            add_sign(draft, EDGE, line, column)?;
            Ok(Some(after))
        }
        Item::Digit(digit, after) => {
            draft.set_digit(digit);
            Ok(Some(after))
        }
        Item::Weight(_, _) => unreachable!(),
        Item::Mark(_, _) => unreachable!(),
        Item::End => Ok(None),
        Item::Bad => Err(Refusal {
            kind: Kind::PatternCharacter,
            line,
            column,
        }),
    }
}

/// Adds a sign that stands in a column of a line; the sign after the last that a pattern may have
/// is refused.
fn add_sign(draft: &mut LineDraft, sign: Sign, line: u32, column: u32) -> Result<(), Refusal>
    ensures { MatchResult result (λ _. (length draft.old.signs < PATTERN_SIGNS_MAX)
        × (draft.new ≡ draft_with_sign draft.old sign))
        (λ r. (PATTERN_SIGNS_MAX ≤ length draft.old.signs)
        × (r ≡ refusal_at line Kind.PatternTooLong column)) }
{
    if draft.is_full() {
        return Err(Refusal {
            kind: Kind::PatternTooLong,
            line,
            column,
        });
    }
    draft.push_sign(sign);
    Ok(())
}
