//! The report of what pruning comes to.
ghost use Rattle.std.specs.Prelude.{◌≡◌, ◌≤◌, ◌+◌, ◌++◌, [], ◌∷◌, length, ◌<◌, OnOk, IfOk};
ghost use Rattle.pg_translate.specs.Alphabets.{letters_of};
ghost use Rattle.pg_patterns.specs.Inside.PatternMaps.{SignsUpTo};
ghost use Rattle.pg_prune.specs.Inside.rounds.Picks.{entry_of};
ghost use Rattle.pg_prune.specs.Reports.{keep_line, last_line, prune_report};
ghost use Rattle.pg_prune.specs.Inside.EntryTexts.{entry_text};

use crate::pruned::{Need, Pruned};
use pg_patterns::{DottedSigns, PatternSet};
use pg_translate::Table;
use pg_types::push_number;
use std::alloc::{AllocError, Global};

/// The text of the entry with the number `i`: the pattern file of this entry alone, without its
/// line feed.
fn text_of_entry(
    alloc: Global,
    table: &Table,
    patterns: &PatternSet,
    i: usize,
) -> Result<Vec<u8>, AllocError>
    requires within { i < length patterns.now }
    requires known { SignsUpTo (letters_of table.now + 1) patterns.now }
    ensures { IfOk result (λ text. text.items ≡ entry_text table.now (entry_of patterns.now i)) }
{
    let entry = patterns.entry(i);
    let mut entries = Vec::new(alloc);
    entries.push((DottedSigns::new(entry.signs, entry.dot), entry.value))?;
    let mut text = PatternSet::from_entries(entries).text(alloc, table)?;
    let len = text.len().saturating_sub(1);
    text.truncate(len);
    Ok(text)
}

/// Appends the line of the entry with the number `i` and its need.
fn push_line(
    alloc: Global,
    text: &mut Vec<u8>,
    table: &Table,
    patterns: &PatternSet,
    i: usize,
    need: Need,
) -> Result<(), AllocError>
    requires within { i < length patterns.now }
    requires known { SignsUpTo (letters_of table.now + 1) patterns.now }
    requires behind { 1 ≤ need.position }
    ensures { OnOk result (text.new.items
        ≡ text.old.items ++ keep_line table.now (entry_of patterns.now i) need) }
{
    text.extend_from_slice(b"keep ")?;
    text.extend_from_slice(text_of_entry(alloc, table, patterns, i)?.as_slice())?;
    push_number(text, b": word ", need.word)?;
    push_number(text, b" after ", u64::from(need.position) - 1)?;
    text.extend_from_slice(b" letters\n")
}

/// Appends the last line: how many rounds there were, and how many entries went and stay.
fn push_last_line(text: &mut Vec<u8>, pruned: &Pruned) -> Result<(), AllocError>
    ensures { OnOk result (text.new.items ≡ text.old.items ++ last_line pruned.now) }
{
    push_number(text, b"rounds: ", pruned.rounds())?;
    push_number(text, b", removed ", pruned.removed())?;
    push_number(text, b", kept ", pruned.patterns().len() as u64)?;
    text.push(b'\n')?;
    Ok(())
}

/// The report: a line for each entry that stays, with its need. The last line has the numbers of
/// rounds, of entries that were taken out, and of those that stay.
pub fn prune_text(alloc: Global, table: &Table, pruned: &Pruned) -> Result<Vec<u8>, AllocError>
    requires { SignsUpTo (letters_of table.now + 1) pruned.now.patterns }
    ensures { IfOk result (λ text. text.items ≡ prune_report table.now pruned.now) }
{
    let patterns = pruned.patterns();
    let needs = pruned.needs();
    let mut text = Vec::new(alloc);
    'entries: for i in 0..patterns.len() {
        push_line(alloc, &mut text, table, patterns, i, needs[i])?;
    }
    push_last_line(&mut text, pruned)?;
    Ok(text)
}
