//! The selection of patterns: what it is made of, and what is told of its run.
ghost use Rattle.std.specs.Prelude.{◌≡◌, ◌≤◌, IfOk, OnOk, Ok, filter, length};
ghost use Rattle.std.specs.Option.{option_map};
ghost use Rattle.pg_types.specs.declared.limits.TheConstants.{FILE_MAX};
ghost use Rattle.pg_dict.specs.DictionaryWords.{words};
ghost use Rattle.pg_patterns.specs.Starts.{start};
ghost use Rattle.pg_texts.specs.PattmpTexts.{is_taking_part};
ghost use Rattle.pg_top.specs.ReadingBack.{ReadsBackPatterns};
ghost use Rattle.pg_top.specs.Inside.selection.SelectionAccounts.{selected_cells_from};
ghost use Rattle.pg_top.specs.Inside.selection.SelectionSigns.{HasSigns};
ghost use Rattle.pg_top.specs.Inside.selection.SelectedRuns.{IsNew, TellsSelection, HasSelected};
ghost use Rattle.pg_driver.specs.Inside.records.RunAccounts.{TellsCells};
ghost use Rattle.pg_top.specs.Inside.selection.Runs.{last_layout_told};
ghost use Rattle.pg_steps.specs.declared.inputs.Given.TheVariants as given;
ghost use Rattle.pg_top.specs.Selection.{selected_file, selected_patterns};

use pg_dict::Dictionary;
use pg_driver::{Run, generate};
use pg_patterns::PatternSet;
use pg_select::Engine;
use pg_texts::laws::lists_are_read;
use pg_texts::{pattmp_text, report_text};
use pg_translate::Table;
use pg_types::{Layout, Params};
use std::alloc::{AllocError, Global};

/// What a selection is made of: what `generate` and `audit` read.
#[derive(Drop)]
pub struct Inputs {
    /// The table of the translate file.
    pub table: Table,
    pub params: Params,
    /// The starting patterns.
    pub start: PatternSet,
    pub dictionary: Dictionary,
}

/// Does the run of the inputs over an engine that was just made with their starting patterns.
pub fn select<E: Engine>(alloc: Global, engine: &mut E, inputs: &Inputs) -> Result<Run, AllocError>
    requires new { IsNew inputs.now (E.meaning engine.old) }
    requires signs { HasSigns inputs.now }
    ensures told { IfOk result (TellsSelection inputs.now) }
    ensures cells { IfOk result
        (TellsCells (option_map (selected_cells_from inputs.now) (E.meaning engine.old).families)) }
    ensures engine { OnOk result (HasSelected inputs.now (E.meaning engine.new)) }
{
    let run = generate(
        alloc,
        engine,
        &inputs.dictionary,
        &inputs.table,
        &inputs.params,
    )?;
    Ok(run)
}

/// The layout after the last level, or the one at the start where no level was run. It is `None`
/// where the run tells no layouts.
pub fn last_layout(run: &Run) -> Option<Layout>
    ensures { result ≡ last_layout_told run.now }
{
    let levels = run.levels();
    if levels.is_empty() {
        run.first_layout()
    } else {
        levels[levels.len() - 1].layout
    }
}

/// The pattern file of the inputs, by their run.
pub fn pattern_file(alloc: Global, inputs: &Inputs, run: &Run) -> Result<Vec<u8>, AllocError>
    requires { TellsSelection inputs.now run.now }
    ensures text { IfOk result (λ text. text.items ≡ selected_file inputs.now given.Patterns) }
    ensures reads_back { IfOk result
        (λ _. ReadsBackPatterns inputs.now.table (selected_patterns inputs.now)) }
{
    run.patterns().text(alloc, &inputs.table)
}

/// The hyphenated list of the inputs, by the engine that did their run.
pub fn list_file<E: Engine>(
    alloc: Global,
    inputs: &Inputs,
    engine: &E,
) -> Result<Vec<u8>, AllocError>
    requires signs { HasSigns inputs.now }
    requires engine { HasSelected inputs.now (E.meaning engine.now) }
    ensures { IfOk result (λ text. text.items ≡ selected_file inputs.now given.Pattmp) }
{
    pattmp_text(alloc, engine, &inputs.dictionary, &inputs.table)
}

/// The hyphenated list of the inputs is read as the words that take part. A call does nothing.
pub fn list_reads_back(inputs: &Inputs)
    requires { HasSigns inputs.now }
    ensures { length (selected_file inputs.now given.Pattmp) ≤ FILE_MAX
        → words inputs.now.table (selected_file inputs.now given.Pattmp)
        ≡ Ok (filter (is_taking_part inputs.now.table) inputs.now.dictionary) }
{
    lists_are_read(&inputs.table);
    let _ = inputs.dictionary.len();
}

/// The report of the inputs, by their run.
pub fn report_file(alloc: Global, inputs: &Inputs, run: &Run) -> Result<Vec<u8>, AllocError>
    requires { TellsSelection inputs.now run.now }
    ensures { IfOk result (λ text. text.items ≡ selected_file inputs.now given.Report) }
{
    report_text(alloc, inputs.start.largest(), &inputs.params, run)
}
