//! `generate`: the patterns that a selection finds, and what is told of them.
ghost use Rattle.std.specs.Prelude.{IfOk};
ghost use Rattle.pg_outside.specs.Content.{Told};
ghost use Rattle.pg_words.specs.Inside.CommandRequests.{texts_of};
ghost use Rattle.pg_steps.specs.Inside.Steps.{Begins};
ghost use Rattle.pg_steps.specs.Inside.Texts.{ending_of};
ghost use Rattle.pg_top.specs.Inside.Requests.{generate_plan};
ghost use Rattle.pg_top.specs.Promises.{GeneratePromise};

mod inputs;
mod outputs;

use crate::generate::outputs::make_outputs;
use crate::selection::list_reads_back;
pub use inputs::read_inputs;
use pg_outside::Files;
use pg_steps::{BuiltTexts, Stop};
use pg_watch::Watch;
use pg_words::Names;
use std::alloc::Global;

/// Reads what `generate` reads, and builds all that it writes and prints.
pub fn generate_files<'a, F: Files, W: Watch>(
    alloc: Global,
    names: &Names<'a>,
    files: &mut F,
    watch: &W,
) -> Result<BuiltTexts<'a>, Stop<'a>>
    ensures begins { Begins (generate_plan (texts_of names.now)) result ending_of
        (F.shown files.old) (F.shown files.new) }
    ensures promised { IfOk result (λ _. Told (F.shown files.old).held (F.shown files.new).held
        (λ before after. GeneratePromise before names.now.dict.now names.now.patterns.now
        names.now.translate.now names.now.params.now)) }
{
    let inputs = read_inputs(alloc, names, files, watch)?;
    list_reads_back(&inputs);
    let outputs = make_outputs(alloc, names, &inputs, watch);
    drop(inputs);
    Ok(outputs?)
}
