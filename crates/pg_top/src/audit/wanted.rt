//! The texts that given files should be.
ghost use Rattle.std.specs.Prelude.{◌≡◌, IfOk, None};
ghost use Rattle.pg_words.specs.Inside.CommandRequests.{texts_of};
ghost use Rattle.pg_top.specs.Inside.selection.SelectionSigns.{HasSigns};
ghost use Rattle.pg_top.specs.Inside.selection.SelectedRuns.{IsNew};
ghost use Rattle.pg_top.specs.Inside.selection.SelectedFiles.{made_files, due_files};

use crate::selected_files::{SelectedFile, make_selected};
use crate::selection::{Inputs, select};
use pg_plain::PlainEngine;
use pg_select::Engine;
use pg_watch::{Watch, Watched};
use pg_words::Names;
use std::alloc::{AllocError, Global};

/// Does the run of the inputs over the plain engine, and builds the texts that the given files
/// should be, in their order.
pub fn make_wanted<'a, W: Watch>(
    alloc: Global,
    names: &Names<'a>,
    inputs: &Inputs,
    watch: &W,
) -> Result<Vec<SelectedFile<'a>>, AllocError>
    requires signs { HasSigns inputs.now }
    requires cells { names.now.cells ≡ None }
    ensures { IfOk result
        (λ wanted. made_files wanted.items ≡ due_files (texts_of names.now) inputs.now) }
{
    watch.selects(names.patterns, &inputs.params, &inputs.start);
    let engine = PlainEngine::new(alloc, inputs.table.letters() + 1, &inputs.start)?;
    let mut engine = Watched::new(engine, &inputs.params, watch);
    let wanted = run_wanted(alloc, names, inputs, &mut engine);
    drop(engine);
    wanted
}

/// Does the run over an engine that was just made, and builds the texts that the given files should
/// be, in their order.
fn run_wanted<'a, E: Engine>(
    alloc: Global,
    names: &Names<'a>,
    inputs: &Inputs,
    engine: &mut E,
) -> Result<Vec<SelectedFile<'a>>, AllocError>
    requires new { IsNew inputs.now (E.meaning engine.old) }
    requires signs { HasSigns inputs.now }
    requires cells { names.now.cells ≡ None }
    ensures { IfOk result
        (λ wanted. made_files wanted.items ≡ due_files (texts_of names.now) inputs.now) }
{
    let run = select(alloc, engine, inputs)?;
    let wanted = make_selected(alloc, names, inputs, engine, &run)?;
    Ok(wanted)
}
