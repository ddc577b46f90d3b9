//! The report.
ghost use Rattle.std.specs.Prelude.{◌≡◌, ◌++◌, map, All, OnOk, IfOk};
ghost use Rattle.std.specs.List.{flat_map};
ghost use Rattle.pg_driver.specs.Inside.records.SoundRecords.{IsSoundPass};
ghost use Rattle.pg_driver.specs.Inside.records.RunAccounts.{line_of, level_line_of, account_of};
ghost use Rattle.pg_texts.specs.Inside.ReportLines as lines;
ghost use Rattle.pg_texts.specs.ReportTexts as report;

use crate::fronts::{push_level_front, push_pass_front};
use crate::rates::{push_ending, push_totals};
use pg_driver::{LevelRecord, PassRecord, Run};
use pg_types::{Params, push_number};
use std::alloc::{AllocError, Global};

/// Appends the line that the greatest starting value is not below a level.
fn push_warning_line(text: &mut Vec<u8>, value: u8, level: u8) -> Result<(), AllocError>
    ensures { OnOk result (text.new.items ≡ text.old.items ++ lines.warning_line value level) }
{
    push_number(text, b"warning: starting value ", u64::from(value))?;
    push_number(text, b" is not below level ", u64::from(level))?;
    text.extend_from_slice(b"\n")?;
    Ok(())
}

/// Appends the warning, where a level is run and the greatest starting value is not below the first
/// one.
fn push_warning(text: &mut Vec<u8>, largest: u8, params: &Params) -> Result<(), AllocError>
    ensures { OnOk result
        (text.new.items ≡ text.old.items ++ report.warning_text largest params.now) }
{
    let start = params.start();
    if start <= params.finish() && start <= largest {
        push_warning_line(text, largest, start)?;
    }
    Ok(())
}

/// Appends how many candidates a pass has, and how many of them are chosen, hopeless and left.
fn push_counts(text: &mut Vec<u8>, pass: &PassRecord) -> Result<(), AllocError>
    requires { IsSoundPass pass.now }
    ensures { OnOk result
        (text.new.items ≡ text.old.items ++ lines.counts_text (line_of pass.now)) }
{
    let left = pass.candidates - pass.chosen - pass.hopeless;
    push_number(text, b"", pass.candidates)?;
    push_number(text, b" candidates, ", pass.chosen)?;
    push_number(text, b" chosen, ", pass.hopeless)?;
    push_number(text, b" hopeless, ", left)?;
    text.extend_from_slice(b" left; ")?;
    Ok(())
}

/// Appends the sums over the chosen of a pass, and the line's end.
fn push_sums(text: &mut Vec<u8>, pass: &PassRecord) -> Result<(), AllocError>
    ensures { OnOk result (text.new.items ≡ text.old.items ++ lines.sums_text (line_of pass.now)) }
{
    push_number(text, b"", pass.good)?;
    push_number(text, b" good, ", pass.bad)?;
    text.extend_from_slice(b" bad\n")
}

/// Appends the line of a pass.
fn push_pass(text: &mut Vec<u8>, pass: &PassRecord) -> Result<(), AllocError>
    requires { IsSoundPass pass.now }
    ensures { OnOk result (text.new.items
        ≡ text.old.items ++ lines.pass_line_text (line_of pass.now)) }
{
    push_pass_front(text, pass)?;
    push_totals(text, &pass.before)?;
    text.extend_from_slice(b"; ")?;
    push_counts(text, pass)?;
    push_sums(text, pass)
}

/// Appends the lines of the passes of a level.
fn push_passes(text: &mut Vec<u8>, passes: &[PassRecord], level: u8) -> Result<(), AllocError>
    requires { All IsSoundPass passes.now }
    ensures { OnOk result
        (text.new.items ≡ text.old.items ++ lines.passes_text (map line_of passes.now) level) }
{
    'passes: for pass in passes {
        if pass.level == level {
            push_pass(text, pass)?;
        }
    }
    Ok(())
}

/// Appends the line of a level.
fn push_level(text: &mut Vec<u8>, level: &LevelRecord) -> Result<(), AllocError>
    ensures { OnOk result
        (text.new.items ≡ text.old.items ++ lines.level_line_text (level_line_of level.now)) }
{
    push_level_front(text, level.level)?;
    push_number(text, b"", level.chosen)?;
    text.extend_from_slice(b" chosen, ")?;
    push_totals(text, &level.after)?;
    text.extend_from_slice(b"\n")
}

/// Appends the lines of the levels, each behind those of its passes.
fn push_levels(
    text: &mut Vec<u8>,
    passes: &[PassRecord],
    levels: &[LevelRecord],
) -> Result<(), AllocError>
    requires { All IsSoundPass passes.now }
    ensures { OnOk result (text.new.items
        ≡ text.old.items ++ flat_map (lines.level_lines_text (map line_of passes.now))
        (map level_line_of levels.now)) }
{
    'levels: for level in levels {
        push_passes(text, passes, level.level)?;
        push_level(text, level)?;
    }
    Ok(())
}

/// The report of a run. `largest` is the greatest starting value; a warning comes first where it is
/// not below the first level that is run. Then comes a line for each pass that has a candidate and
/// for each level. The totals with their rates are at the end.
pub fn report_text(
    alloc: Global,
    largest: u8,
    params: &Params,
    run: &Run,
) -> Result<Vec<u8>, AllocError>
    ensures { IfOk result
        (λ text. text.items ≡ lines.account_text largest params.now (account_of run.now)) }
{
    let mut text = Vec::new(alloc);
    push_warning(&mut text, largest, params)?;
    push_levels(&mut text, run.passes(), run.levels())?;
    push_ending(&mut text, &run.totals())?;
    Ok(text)
}
