//! What `generate` writes and prints.
ghost use Rattle.std.specs.Prelude.{◌≡◌, ◌++◌, [], IfOk, OnOk, Some, map};
ghost use Rattle.pg_driver.specs.Inside.records.RunAccounts.{TellsCells};
ghost use Rattle.pg_packed.specs.Inside.Starts.{pattern_families};
ghost use Rattle.pg_words.specs.Inside.CommandRequests.{texts_of};
ghost use Rattle.pg_top.specs.Generating.{selected_lines};
ghost use Rattle.pg_top.specs.Inside.selection.SelectionAccounts.{work_line, selected_cells, passes_begun, last_layout as last_layout_of};
ghost use Rattle.pg_top.specs.Inside.selection.SelectedFiles.{written_file, selected_files};
ghost use Rattle.pg_top.specs.Inside.selection.SelectedRuns.{IsNew, TellsSelection, HasSelected};
ghost use Rattle.pg_top.specs.ReadingBack.{ReadsBackPatterns};
ghost use Rattle.pg_steps.specs.declared.inputs.Given.TheVariants as given;
ghost use Rattle.pg_top.specs.Selection.{selected_file, selected_patterns};
ghost use Rattle.pg_top.specs.Inside.selection.SelectionSigns.{HasSigns, greatest_sign_of};
ghost use Rattle.pg_steps.specs.Inside.Texts.{writing_of};
ghost use Rattle.pg_types.specs.Lines.{lines};

use crate::printed::done_line;
use crate::selected_files::{SelectedFile, make_selected};
use crate::selection::{Inputs, last_layout, select};
use pg_driver::Run;
use pg_packed::PackedEngine;
use pg_select::Engine;
use pg_steps::{BuiltTexts, OutputFile, push_file};
use pg_texts::push_layout;
use pg_types::{Layout, push_number};
use pg_watch::{Watch, Watched};
use pg_words::Names;
use std::alloc::{AllocError, Global};

/// Appends the line of how many passes were begun and of a layout.
pub fn push_work(lines: &mut Vec<u8>, passes: u64, layout: &Layout) -> Result<(), AllocError>
    ensures { OnOk result (lines.new.items ≡ lines.old.items ++ work_line passes layout.now) }
{
    push_number(lines, b"work: ", passes)?;
    lines.extend_from_slice(b" passes, ")?;
    push_layout(lines, layout)
}

/// Appends the work line of a run. Only the contract reads `inputs`.
fn push_end(lines: &mut Vec<u8>, run: &Run, inputs: &Inputs) -> Result<(), AllocError>
    requires told { TellsSelection inputs.now run.now }
    requires cells { TellsCells (Some (selected_cells inputs.now)) run.now }
    ensures { OnOk result (lines.new.items ≡
        lines.old.items ++ work_line (passes_begun inputs.now)
        (last_layout_of (selected_cells inputs.now))) }
{
    let layout = match last_layout(run) {
        Some(layout) => layout,
        None => unreachable!(),
    };
    push_work(lines, run.begun(), &layout)
}

/// The printed lines of a run that writes this pattern file.
fn make_lines(
    alloc: Global,
    patterns: &[u8],
    run: &Run,
    inputs: &Inputs,
) -> Result<Vec<u8>, AllocError>
    requires text { patterns.now ≡ selected_file inputs.now given.Patterns }
    requires told { TellsSelection inputs.now run.now }
    requires cells { TellsCells (Some (selected_cells inputs.now)) run.now }
    ensures { IfOk result (λ lines. lines.items ≡ selected_lines inputs.now) }
{
    let mut lines = done_line(alloc, patterns, &run.totals())?;
    push_end(&mut lines, run, inputs)?;
    Ok(lines)
}

/// The files of a selection, as they are written.
fn written<'a>(
    alloc: Global,
    selected: Vec<SelectedFile<'a>>,
) -> Result<Vec<OutputFile<'a>>, AllocError>
    ensures { IfOk result
        (λ files. writing_of files.items ≡ map written_file selected.entry.items) }
{
    let mut files = Vec::new(alloc);
    'selected: for file in selected {
        push_file(&mut files, file.name, file.text)?;
    }
    Ok(files)
}

/// Builds all that is written and printed, after the run over an engine.
fn make_files<'a, E: Engine>(
    alloc: Global,
    names: &Names<'a>,
    inputs: &Inputs,
    engine: &E,
    run: &Run,
) -> Result<BuiltTexts<'a>, AllocError>
    requires signs { HasSigns inputs.now }
    requires engine { HasSelected inputs.now (E.meaning engine.now) }
    requires told { TellsSelection inputs.now run.now }
    requires cells { TellsCells (Some (selected_cells inputs.now)) run.now }
    ensures files { IfOk result (λ made.
        writing_of made.files.items ≡ selected_files (texts_of names.now) inputs.now) }
    ensures lines { IfOk result (λ made. made.lines.items ≡ selected_lines inputs.now) }
    ensures reads_back { IfOk result
        (λ _. ReadsBackPatterns inputs.now.table (selected_patterns inputs.now)) }
{
    let selected = make_selected(alloc, names, inputs, engine, run)?;
    let lines = make_lines(alloc, &selected[0].text, run, inputs)?;
    let files = written(alloc, selected)?;
    Ok(BuiltTexts { files, lines })
}

/// Does the run of the inputs over the packed engine, and builds all that `generate` writes and
/// prints. The observer is told of the passes.
pub fn make_outputs<'a, W: Watch>(
    alloc: Global,
    names: &Names<'a>,
    inputs: &Inputs,
    watch: &W,
) -> Result<BuiltTexts<'a>, AllocError>
    requires { HasSigns inputs.now }
    ensures files { IfOk result (λ made.
        writing_of made.files.items ≡ selected_files (texts_of names.now) inputs.now) }
    ensures lines { IfOk result (λ made. made.lines.items ≡ selected_lines inputs.now) }
    ensures reads_back { IfOk result
        (λ _. ReadsBackPatterns inputs.now.table (selected_patterns inputs.now)) }
{
    watch.selects(names.patterns, &inputs.params, &inputs.start);
    let engine = PackedEngine::new(alloc, inputs.table.letters() + 1, &inputs.start)?;
    let mut engine = Watched::new(engine, &inputs.params, watch);
    let outputs = run_files(alloc, names, inputs, &mut engine);
    drop(engine);
    outputs
}

/// Does the run over an engine that was just made, and builds all that `generate` writes and
/// prints.
fn run_files<'a, E: Engine>(
    alloc: Global,
    names: &Names<'a>,
    inputs: &Inputs,
    engine: &mut E,
) -> Result<BuiltTexts<'a>, AllocError>
    requires new { IsNew inputs.now (E.meaning engine.old) }
    requires families { (E.meaning engine.old).families
        ≡ Some (pattern_families (greatest_sign_of inputs.now) inputs.now.start) }
    requires signs { HasSigns inputs.now }
    ensures files { IfOk result (λ made.
        writing_of made.files.items ≡ selected_files (texts_of names.now) inputs.now) }
    ensures lines { IfOk result (λ made. made.lines.items ≡ selected_lines inputs.now) }
    ensures reads_back { IfOk result
        (λ _. ReadsBackPatterns inputs.now.table (selected_patterns inputs.now)) }
{
    let run = select(alloc, engine, inputs)?;
    make_files(alloc, names, inputs, engine, &run)
}
