//! The files of a selection: `generate` writes them, and `audit` compares given files with them.
ghost use Rattle.std.specs.Prelude.{◌≡◌, ◌++◌, [], ◌∷◌, IfOk, OnOk, IfSome, Some};
ghost use Rattle.pg_driver.specs.Inside.records.RunAccounts.{TellsCells};
ghost use Rattle.pg_words.specs.Inside.CommandRequests.{texts_of};
ghost use Rattle.pg_top.specs.ReadingBack.{ReadsBackPatterns};
ghost use Rattle.pg_top.specs.Selection.{selected_patterns};
ghost use Rattle.pg_top.specs.Inside.selection.SelectionAccounts.{selected_cells};
ghost use Rattle.pg_top.specs.Inside.selection.SelectedFiles.{made_files, due_files};
ghost use Rattle.pg_top.specs.Inside.selection.SelectedRuns.{TellsSelection, HasSelected};
ghost use Rattle.pg_top.specs.Inside.selection.SelectionSigns.{HasSigns};

use crate::selection::{Inputs, list_file, pattern_file, report_file};
use pg_driver::Run;
use pg_select::Engine;
use pg_steps::Given;
use pg_texts::cells_text;
use pg_words::Names;
use std::alloc::{AllocError, Global};

/// A file of a selection.
#[derive(Drop)]
pub struct SelectedFile<'a> {
    /// Which file it is.
    pub given: Given,
    pub name: &'a str,
    /// All of its bytes.
    pub text: Vec<u8>,
}

/// Adds a file.
fn push_selected<'a>(
    files: &mut Vec<SelectedFile<'a>>,
    given: Given,
    name: &'a str,
    text: Vec<u8>,
) -> Result<(), AllocError>
    ensures { OnOk result (made_files files.new.items
        ≡ made_files files.old.items ++ (given, name.now, text.items) ∷ []) }
{
    files.push(SelectedFile { given, name, text })?;
    Ok(())
}

/// The files of a selection in their order, after the run over an engine: the patterns, the
/// hyphenated list and the cells file where they are asked for, and the report. The plain engine
/// has no cells. So what a run tells of them is asked for only where the cells file is, and `audit`
/// never has one.
pub fn make_selected<'a, E: Engine>(
    alloc: Global,
    names: &Names<'a>,
    inputs: &Inputs,
    engine: &E,
    run: &Run,
) -> Result<Vec<SelectedFile<'a>>, AllocError>
    requires signs { HasSigns inputs.now }
    requires engine { HasSelected inputs.now (E.meaning engine.now) }
    requires told { TellsSelection inputs.now run.now }
    requires cells { IfSome names.now.cells
        (λ _. TellsCells (Some (selected_cells inputs.now)) run.now) }
    ensures files { IfOk result
        (λ files. made_files files.items ≡ due_files (texts_of names.now) inputs.now) }
    ensures reads_back { IfOk result
        (λ _. ReadsBackPatterns inputs.now.table (selected_patterns inputs.now)) }
{
    let mut files = Vec::new(alloc);
    let text = pattern_file(alloc, inputs, run)?;
    push_selected(&mut files, Given::Patterns, names.output, text)?;
    if let Some(name) = names.pattmp {
        let list = list_file(alloc, inputs, engine)?;
        push_selected(&mut files, Given::Pattmp, name, list)?;
    }
    if let Some(name) = names.cells {
        let cells = cells_text(alloc, run)?;
        push_selected(&mut files, Given::Cells, name, cells)?;
    }
    let report = report_file(alloc, inputs, run)?;
    push_selected(&mut files, Given::Report, names.report, report)?;
    Ok(files)
}
