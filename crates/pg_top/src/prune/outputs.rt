//! What `prune` writes and prints.
ghost use Rattle.std.specs.Prelude.{◌≡◌, ◌+◌, ◌∷◌, [], IfOk, OnOk, ◌++◌, length};
ghost use Rattle.pg_patterns.specs.Texts.{pattern_text};
ghost use Rattle.pg_patterns.specs.Inside.PatternMaps.{SignsUpTo};
ghost use Rattle.pg_prune.specs.Reports.{prune_report};
ghost use Rattle.pg_translate.specs.Alphabets.{letters_of};
ghost use Rattle.pg_prune.specs.Prunes.{pruning_of};
ghost use Rattle.pg_steps.specs.Inside.Texts.{ending_of, writing_of};
ghost use Rattle.pg_top.specs.ReadingBack.{ReadsBackPatterns};
ghost use Rattle.pg_top.specs.Pruning.{rounds_line as rounds_line_of};
ghost use Rattle.pg_top.specs.Inside.Plans.{end_of_prune};
ghost use Rattle.pg_types.specs.Lines.{lines};

use pg_dict::Dictionary;
use pg_patterns::PatternSet;
use pg_prune::{Pruned, RoundObserver, prune_text, prune_watched};
use pg_steps::{BuiltTexts, OutputFile, push_file};
use pg_translate::Table;
use pg_types::push_number;
use pg_watch::Watch;
use pg_words::PruneNames;
use std::alloc::{AllocError, Global};

/// Tells an observer of a call where a round begins.
#[derive(Drop)]
struct RoundTeller<'a, W> {
    watch: &'a W,
}

impl<'a, W: Watch> RoundObserver for RoundTeller<'a, W> {
    fn begins(&self, round: u64) {
        self.watch.round(round);
    }
}

/// The line where `prune` is done: how many rounds were made, and how many entries were taken out
/// and stay.
pub fn rounds_line(
    alloc: Global,
    rounds: u64,
    removed: u64,
    kept: u64,
) -> Result<Vec<u8>, AllocError>
    ensures { IfOk result (λ line. line.items ≡ rounds_line_of rounds removed kept) }
{
    let mut line = Vec::new(alloc);
    begin_pruned(&mut line, rounds, removed, kept)?;
    Ok(line)
}

/// Appends the `done:` line of `prune` to an empty text.
fn begin_pruned(line: &mut Vec<u8>, rounds: u64, removed: u64, kept: u64) -> Result<(), AllocError>
    requires { line.old.items ≡ [] }
    ensures { OnOk result (line.new.items ≡ rounds_line_of rounds removed kept) }
{
    push_number(line, b"done: ", rounds)?;
    push_number(line, b" rounds, ", removed)?;
    push_number(line, b" removed, ", kept)?;
    line.extend_from_slice(b" kept\n")
}

/// Adds the file of the patterns that stay.
fn push_kept<'a>(
    alloc: Global,
    files: &mut Vec<OutputFile<'a>>,
    name: &'a str,
    table: &Table,
    pruned: &Pruned,
) -> Result<(), AllocError>
    requires { SignsUpTo (letters_of table.now + 1) pruned.now.patterns }
    ensures file { OnOk result (writing_of files.new.items ≡ writing_of files.old.items
        ++ (name.now, pattern_text table.now pruned.now.patterns) ∷ []) }
    ensures reads_back { OnOk result (ReadsBackPatterns table.now pruned.now.patterns) }
{
    let text = pruned.patterns().text(alloc, table)?;
    push_file(files, name, text)
}

/// Adds the report.
fn push_needs<'a>(
    alloc: Global,
    files: &mut Vec<OutputFile<'a>>,
    name: &'a str,
    table: &Table,
    pruned: &Pruned,
) -> Result<(), AllocError>
    requires { SignsUpTo (letters_of table.now + 1) pruned.now.patterns }
    ensures { OnOk result (writing_of files.new.items
        ≡ writing_of files.old.items ++ (name.now, prune_report table.now pruned.now) ∷ []) }
{
    let report = prune_text(alloc, table, pruned)?;
    push_file(files, name, report)
}

/// What `prune` writes and prints, where pruning comes to this.
fn write_pruned<'a>(
    alloc: Global,
    names: &PruneNames<'a>,
    table: &Table,
    pruned: &Pruned,
) -> Result<BuiltTexts<'a>, AllocError>
    requires { SignsUpTo (letters_of table.now + 1) pruned.now.patterns }
    ensures made { IfOk result (λ made. ending_of made
        ≡ end_of_prune names.now.output.now names.now.report.now table.now pruned.now) }
    ensures reads_back { IfOk result (λ _. ReadsBackPatterns table.now pruned.now.patterns) }
{
    let mut files = Vec::new(alloc);
    push_kept(alloc, &mut files, names.output, table, pruned)?;
    push_needs(alloc, &mut files, names.report, table, pruned)?;
    let kept = pruned.patterns();
    let lines = rounds_line(alloc, pruned.rounds(), pruned.removed(), kept.len() as u64)?;
    Ok(BuiltTexts { files, lines })
}

/// Prunes, and builds all that `prune` writes and prints.
pub fn make_prune<'a, W: Watch>(
    alloc: Global,
    names: &PruneNames<'a>,
    table: &Table,
    patterns: &PatternSet,
    dictionary: &Dictionary,
    watch: &W,
) -> Result<BuiltTexts<'a>, AllocError>
    requires { SignsUpTo (letters_of table.now + 1) patterns.now }
    ensures made { IfOk result (λ made. ending_of made
        ≡ end_of_prune names.now.output.now names.now.report.now table.now
        (pruning_of table.now dictionary.now patterns.now)) }
    ensures reads_back { IfOk result (λ _. ReadsBackPatterns table.now
        (pruning_of table.now dictionary.now patterns.now).patterns) }
{
    let pruned = prune_watched(alloc, dictionary, table, patterns, &RoundTeller { watch })?;
    write_pruned(alloc, names, table, &pruned)
}
