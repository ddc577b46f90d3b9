//! The line that says where a call is.
ghost use Rattle.std.specs.Prelude.{◌≡◌, ◌++◌, IfOk, OnOk};
ghost use Rattle.std.specs.Option.{option_map};
ghost use Rattle.pg_watch.specs.Inside.Lines.{progress_text, sweep_run_text, sweep_run_if_told, step_text, line_text as line_text_of};

use crate::watch::{PassProgress, SweepRun};
use pg_types::push_number;
use std::alloc::{AllocError, Global};

/// How many bytes a line has at most, so that it fits into a row of a terminal.
const ROW: usize = 79;

/// What a call does at a moment.
#[derive(Clone, Copy, Debug, PartialEq, Eq)]
pub enum Step {
    /// It reads a file.
    Reading,
    /// It writes a file.
    Writing,
    /// It makes a pass of a selection.
    Pass(PassProgress),
    /// It makes a round of pruning, counted from 1.
    Round(u64),
}

/// Appends where a selection is.
fn push_pass(line: &mut Vec<u8>, pass: &PassProgress) -> Result<(), AllocError>
    ensures { OnOk result (line.new.items ≡ line.old.items ++ progress_text pass.now) }
{
    push_number(line, b"level ", u64::from(pass.level))?;
    push_number(line, b" of ", u64::from(pass.last))?;
    push_number(line, b", length ", u64::from(pass.len))?;
    push_number(line, b" of ", u64::from(pass.shortest))?;
    push_number(line, b" to ", u64::from(pass.longest))?;
    push_number(line, b", dot ", u64::from(pass.dot))
}

/// Appends which run of a sweep this is.
fn push_sweep_run(line: &mut Vec<u8>, sweep_run: &SweepRun) -> Result<(), AllocError>
    ensures { OnOk result (line.new.items ≡ line.old.items ++ sweep_run_text sweep_run.now) }
{
    push_number(line, b"set ", sweep_run.set as u64)?;
    push_number(line, b" of ", sweep_run.sets as u64)?;
    push_number(line, b", fold ", u64::from(sweep_run.fold))?;
    push_number(line, b" of ", u64::from(sweep_run.folds))?;
    line.extend_from_slice(b", ")
}

/// Appends which run of a sweep this is, where it is one.
fn push_sweep_run_if_told(
    line: &mut Vec<u8>,
    sweep_run: Option<&SweepRun>,
) -> Result<(), AllocError>
    ensures { OnOk result
        (line.new.items ≡ line.old.items ++ sweep_run_if_told
        (option_map (λ sweep_run. sweep_run.now) sweep_run.entry)) }
{
    match sweep_run {
        Some(sweep_run) => push_sweep_run(line, sweep_run),
        None => Ok(()),
    }
}

/// Appends what a call does.
fn push_step(line: &mut Vec<u8>, step: &Step, name: &[u8]) -> Result<(), AllocError>
    ensures { OnOk result (line.new.items ≡ line.old.items ++ step_text step.now name.now) }
{
    match step {
        Step::Reading => {
            line.extend_from_slice(b"reading ")?;
            line.extend_from_slice(name)
        }
        Step::Writing => {
            line.extend_from_slice(b"writing ")?;
            line.extend_from_slice(name)
        }
        Step::Pass(pass) => push_pass(line, pass),
        Step::Round(round) => push_number(line, b"round ", *round),
    }
}

/// The line that says where the call of a command is: the command, the seconds gone, the run of a
/// sweep, and the step with the name of its file. Where the line is longer than a row, its first
/// bytes are given.
///
/// # Errors
/// Where there is not enough memory.
pub fn line_text(
    alloc: Global,
    command: &str,
    seconds: u64,
    sweep_run: Option<&SweepRun>,
    step: &Step,
    name: &[u8],
) -> Result<Vec<u8>, AllocError>
    ensures { IfOk result (λ line. line.items ≡ line_text_of command.now seconds
        (option_map (λ sweep_run. sweep_run.now) sweep_run.entry) step.now name.now) }
{
    let mut line = Vec::new(alloc);
    line.extend_from_slice(command.as_bytes())?;
    push_number(&mut line, b" ", seconds)?;
    line.extend_from_slice(b" s: ")?;
    push_sweep_run_if_told(&mut line, sweep_run)?;
    push_step(&mut line, step, name)?;
    line.truncate(ROW);
    Ok(line)
}
