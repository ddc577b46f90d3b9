//! `prune`: the patterns that a dictionary needs.
ghost use Rattle.std.specs.Prelude.{IfOk};
ghost use Rattle.pg_outside.specs.Content.{Told};
ghost use Rattle.pg_steps.specs.Inside.Steps.{Begins};
ghost use Rattle.pg_steps.specs.Inside.Texts.{ending_of};
ghost use Rattle.pg_top.specs.Promises.{PrunePromise};
ghost use Rattle.pg_top.specs.Inside.Plans.{plan_of_prune};

mod outputs;

use crate::prune::outputs::make_prune;
use pg_outside::Files;
use pg_steps::{BuiltTexts, Stop, read_dictionary, read_patterns, read_table};
use pg_watch::Watch;
use pg_words::PruneNames;
use std::alloc::Global;

/// Reads what `prune` reads, and builds all that it writes and prints.
pub fn prune_files<'a, F: Files, W: Watch>(
    alloc: Global,
    names: &PruneNames<'a>,
    files: &mut F,
    watch: &W,
) -> Result<BuiltTexts<'a>, Stop<'a>>
    ensures begins { Begins (plan_of_prune names.now.dict.now names.now.patterns.now
        names.now.output.now names.now.translate.now names.now.report.now) result ending_of
        (F.shown files.old) (F.shown files.new) }
    ensures promised { IfOk result (λ _. Told (F.shown files.old).held (F.shown files.new).held
        (λ before after. PrunePromise before
        names.now.dict.now names.now.patterns.now names.now.translate.now)) }
{
    let table = read_table(alloc, names.translate, files, watch)?;
    let patterns = read_patterns(alloc, &table, names.patterns, files, watch)?;
    let dictionary = read_dictionary(alloc, &table, names.dict, files, watch)?;
    let outputs = make_prune(alloc, names, &table, &patterns, &dictionary, watch);
    drop(dictionary);
    drop(patterns);
    drop(table);
    Ok(outputs?)
}
