//! `sample`: the selection on a dictionary that is made from a number.
ghost use Rattle.std.specs.Prelude.{◌≡◌, ◌+◌, ◌≤◌, ◌++◌, [], IfOk, OnOk, Ok};
ghost use Rattle.pg_dict.specs.DictionaryWords.{words};
ghost use Rattle.pg_words.specs.declared.limits.TheConstants.{COUNT_MAX};
ghost use Rattle.pg_translate.specs.Alphabets.{letters_of};
ghost use Rattle.pg_translate.specs.Tables.{default_alphabet};
ghost use Rattle.pg_dict.specs.Inside.SoundWords.{SignsAtMost};
ghost use Rattle.pg_outside.specs.Content.{FilesShown};
ghost use Rattle.pg_plans.specs.Plans.{Ending, Follows};
ghost use Rattle.pg_top.specs.Sampling.{sample_inputs, sample_lines as lines_of, sample_text as made_text, sampled};
ghost use Rattle.pg_top.specs.Inside.Sampled.{is_printed as is_printed_line, printed_part, IsSample};
ghost use Rattle.pg_top.specs.Inside.selection.SelectionSigns.{HasSigns};
ghost use Rattle.pg_top.specs.Inside.selection.SelectedRuns.{IsNew, TellsSelection};

mod words;

use crate::printed::done_line;
use crate::selection::{Inputs, pattern_file, report_file, select};
use pg_dict::Dictionary;
use pg_driver::Run;
use pg_outside::Sink;
use pg_packed::PackedEngine;
use pg_patterns::PatternSet;
use pg_plans::Status;
use pg_select::Engine;
use pg_steps::answer;
use pg_translate::Table;
use pg_types::{Params, ReadingError, next_line, read_params};
use pg_watch::{Watch, Watched};
use std::alloc::{AllocError, Global};
pub use words::sample_text;

/// Two levels, with lengths 1 to 3 and 2 to 4.
const PARAMETERS: &[u8] = b"1 2 1 3 1 2 20 2 4 2 1 8";

/// The error of a reader that refuses nothing.
fn only_memory(error: ReadingError) -> AllocError
    requires { error ≡ ReadingError.Memory }
{
    match error {
        ReadingError::Memory => AllocError,
        ReadingError::Refused(_) => unreachable!(),
    }
}

/// The parameters of the selection.
fn sample_params(alloc: Global) -> Result<Params, AllocError>
    ensures { IfOk result (λ params. params ≡ (sample_inputs []).params) }
{
    match read_params(alloc, PARAMETERS) {
        Ok(params) => Ok(params),
        Err(error) => Err(only_memory(error)),
    }
}

/// Makes the dictionary and reads it under the default table.
fn sample_dictionary(
    alloc: Global,
    table: &Table,
    seed: u32,
    count: u32,
) -> Result<Dictionary, AllocError>
    requires table { table.now ≡ default_alphabet }
    requires count { count ≤ COUNT_MAX }
    ensures words { IfOk result
        (λ dictionary. words default_alphabet (made_text seed count) ≡ Ok dictionary) }
    ensures signs { IfOk result (SignsAtMost (letters_of table.now + 1)) }
{
    let text = sample_text(alloc, seed, count)?;
    match Dictionary::read(alloc, table, &text) {
        Ok(dictionary) => Ok(dictionary),
        Err(error) => Err(only_memory(error)),
    }
}

/// What the selection is made of.
fn make_inputs(alloc: Global, seed: u32, count: u32) -> Result<Inputs, AllocError>
    requires { count ≤ COUNT_MAX }
    ensures inputs { IfOk result (IsSample seed count) }
    ensures signs { IfOk result HasSigns }
{
    let table = Table::default_letters(alloc)?;
    let params = sample_params(alloc)?;
    let dictionary = sample_dictionary(alloc, &table, seed, count)?;
    Ok(Inputs {
        table,
        params,
        start: PatternSet::empty(alloc),
        dictionary,
    })
}

/// Whether a line of the report is printed.
fn is_printed(line: &[u8]) -> bool
    ensures { result ≡ is_printed_line line.now }
{
    line.starts_with(b"level") || line.starts_with(b"total") || line.starts_with(b"rate")
}

/// Appends the lines of a report that are printed.
fn push_printed(lines: &mut Vec<u8>, report: &[u8]) -> Result<(), AllocError>
    ensures { OnOk result (lines.new.items ≡ lines.old.items ++ printed_part report.now) }
{
    let mut rest = report;
    'lines: while let Some((line, after)) = next_line(rest) {
        if is_printed(line) {
            lines.extend_from_slice(line)?;
            lines.extend_from_slice(b"\n")?;
        }
        rest = after;
    }
    Ok(())
}

/// The printed lines, after the run.
fn lines_after(alloc: Global, inputs: &Inputs, run: &Run) -> Result<Vec<u8>, AllocError>
    requires told { TellsSelection inputs.now run.now }
    ensures { IfOk result (λ lines. lines.items ≡ lines_of inputs.now) }
{
    let patterns = pattern_file(alloc, inputs, run)?;
    let report = report_file(alloc, inputs, run)?;
    let done = done_line(alloc, &patterns, &run.totals())?;
    let mut lines = Vec::new(alloc);
    push_printed(&mut lines, &report)?;
    lines.extend_from_slice(&done)?;
    Ok(lines)
}

/// Does the run of the inputs over the packed engine, and builds the printed lines. The observer is
/// told of the passes.
fn run_lines<W: Watch>(alloc: Global, inputs: &Inputs, watch: &W) -> Result<Vec<u8>, AllocError>
    requires { HasSigns inputs.now }
    ensures { IfOk result (λ lines. lines.items ≡ lines_of inputs.now) }
{
    let engine = PackedEngine::new(alloc, inputs.table.letters() + 1, &inputs.start)?;
    let mut engine = Watched::new(engine, &inputs.params, watch);
    let lines = lines_by(alloc, inputs, &mut engine);
    drop(engine);
    lines
}

/// Does the run over an engine that was just made, and builds the printed lines.
fn lines_by<E: Engine>(
    alloc: Global,
    inputs: &Inputs,
    engine: &mut E,
) -> Result<Vec<u8>, AllocError>
    requires new { IsNew inputs.now (E.meaning engine.old) }
    requires signs { HasSigns inputs.now }
    ensures { IfOk result (λ lines. lines.items ≡ lines_of inputs.now) }
{
    let run = select(alloc, engine, inputs)?;
    lines_after(alloc, inputs, &run)
}

/// The printed lines.
fn sample_lines<W: Watch>(
    alloc: Global,
    seed: u32,
    count: u32,
    watch: &W,
) -> Result<Vec<u8>, AllocError>
    requires { count ≤ COUNT_MAX }
    ensures { IfOk result
        (λ lines. sampled seed count ≡ Ending Status.Done [] lines.items) }
{
    let inputs = make_inputs(alloc, seed, count)?;
    run_lines(alloc, &inputs, watch)
}

/// Does the selection and prints what it tells. It reads and writes no file, and refuses nothing.
pub fn sample<O: Sink, W: Watch>(
    alloc: Global,
    seed: u32,
    count: u32,
    out: &mut O,
    watch: &W,
) -> Status
    requires { count ≤ COUNT_MAX }
    ensures { (files : FilesShown) → Follows (sampled seed count) result
        (files, O.shown out.old) (files, O.shown out.new) }
{
    match sample_lines(alloc, seed, count, watch) {
        Ok(lines) => answer(out, &lines, Status::Done, watch),
        Err(AllocError) => Status::Memory,
    }
}
