//! `pack`: patterns as a packed table.
ghost use Rattle.std.specs.Prelude.{IfOk};
ghost use Rattle.pg_outside.specs.Content.{Told};
ghost use Rattle.pg_steps.specs.Inside.Steps.{Begins};
ghost use Rattle.pg_steps.specs.Inside.Texts.{ending_of};
ghost use Rattle.pg_top.specs.Inside.Plans.{plan_of_pack};
ghost use Rattle.pg_top.specs.Promises.{PackPromise};

mod outputs;

use crate::pack::outputs::make_table;
use pg_outside::Files;
use pg_steps::{BuiltTexts, Stop, read_patterns, read_table};
use pg_watch::Watch;
use pg_words::PackNames;
use std::alloc::Global;

/// Reads what `pack` reads, and builds all that it writes and prints.
pub fn pack_files<'a, F: Files, W: Watch>(
    alloc: Global,
    names: &PackNames<'a>,
    files: &mut F,
    watch: &W,
) -> Result<BuiltTexts<'a>, Stop<'a>>
    ensures begins { Begins
        (plan_of_pack names.now.patterns.now names.now.translate.now names.now.table.now)
        result ending_of (F.shown files.old) (F.shown files.new) }
    ensures promised { IfOk result (λ _. Told (F.shown files.old).held (F.shown files.new).held
        (λ before after. PackPromise before names.now.patterns.now names.now.translate.now)) }
{
    let table = read_table(alloc, names.translate, files, watch)?;
    let patterns = read_patterns(alloc, &table, names.patterns, files, watch)?;
    let outputs = make_table(alloc, names.table, &table, &patterns, watch);
    drop(patterns);
    drop(table);
    Ok(outputs?)
}
