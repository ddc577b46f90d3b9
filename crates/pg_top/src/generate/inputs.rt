//! What `generate` reads.
ghost use Rattle.std.specs.Prelude.{IfOk};
ghost use Rattle.pg_steps.specs.Inside.Steps.{Gives};
ghost use Rattle.pg_top.specs.Generating.{selection_from};
ghost use Rattle.pg_top.specs.Inside.selection.SelectionSigns.{HasSigns};

use crate::selection::Inputs;
use pg_outside::Files;
use pg_steps::{Input, Stop, read_dictionary, read_parameters, read_patterns, read_table};
use pg_watch::Watch;
use pg_words::Names;
use std::alloc::Global;

/// Reads what `generate` reads, in its order, up to the first refusal or fault.
pub fn read_inputs<'a, F: Files, W: Watch>(
    alloc: Global,
    names: &Names<'a>,
    files: &mut F,
    watch: &W,
) -> Result<Inputs, Stop<'a>>
    ensures read { Gives (selection_from names.now.dict.now names.now.patterns.now
        names.now.translate.now names.now.params.now) result
        (F.shown files.old) (F.shown files.new) }
    ensures signs { IfOk result HasSigns }
{
    let table = read_table(alloc, names.translate, files, watch)?;
    let params = read_parameters(alloc, Input::Parameters, names.params, files, watch)?;
    let start = read_patterns(alloc, &table, names.patterns, files, watch)?;
    let dictionary = read_dictionary(alloc, &table, names.dict, files, watch)?;
    Ok(Inputs {
        table,
        params,
        start,
        dictionary,
    })
}
