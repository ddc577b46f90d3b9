//! What a command writes and prints, and how it ends.
ghost use Rattle.std.specs.Prelude.{◌≡◌, ◌+◌, ◌<◌, ◌++◌, ◌∷◌, [], OnOk, OnErr, IfOk, IfErr, List, ℕ, length, drop, slice_get, Some, codes};
ghost use Rattle.pg_outside.specs.Content.{FilesShown};
ghost use Rattle.pg_plans.specs.Calls.{PutsFault};
ghost use Rattle.pg_plans.specs.Plans.{Says, Finishes};
ghost use Rattle.pg_steps.specs.Inside.Steps.{Goes, StopsBy};
ghost use Rattle.pg_steps.specs.Inside.Texts.{writing_of, ending_of};

use crate::inputs::Stop;
use crate::refused::refused_line;
use pg_outside::{Failed, Files, Sink};
use pg_plans::Status;
use pg_watch::Watch;
use std::alloc::{AllocError, Global};

/// The front of the line where a file could not be read.
pub const READING: &[u8] = b"fault: reading ";

/// The front of the line where a file could not be written.
pub const WRITING: &[u8] = b"fault: writing ";

/// A file that is to be written.
#[derive(Drop)]
pub struct OutputFile<'a> {
    /// The name that it gets.
    pub name: &'a str,
    /// All of its bytes.
    pub text: Vec<u8>,
}

/// What a command writes and prints.
#[derive(Drop)]
pub struct BuiltTexts<'a> {
    /// The files, in the order in which they are written.
    pub files: Vec<OutputFile<'a>>,
    /// The printed lines.
    pub lines: Vec<u8>,
}

/// Adds a file with this name and text.
pub fn push_file<'a>(
    files: &mut Vec<OutputFile<'a>>,
    name: &'a str,
    text: Vec<u8>,
) -> Result<(), AllocError>
    ensures { OnOk result (writing_of files.new.items
        ≡ writing_of files.old.items ++ (name.now, text.items) ∷ []) }
{
    files.push(OutputFile { name, text })?;
    Ok(())
}

/// Puts the lines of an answer as the last step of a call, and gives the answer: this one, or a
/// fault.
pub fn answer<O: Sink, W: Watch>(out: &mut O, lines: &[u8], status: Status, watch: &W) -> Status
    ensures { Says lines.now status result (O.shown out.old) (O.shown out.new) }
{
    watch.answers();
    match out.put(lines) {
        Ok(()) => status,
        Err(Failed) => Status::Fault,
    }
}

/// Puts the three parts of a fault line, and stops where a put fails.
fn put_parts<O: Sink>(out: &mut O, front: &[u8], name: &str) -> Result<(), Failed>
    ensures { PutsFault front.now name.now (O.shown out.old) (O.shown out.new) }
{
    out.put(front)?;
    out.put(name.as_bytes())?;
    out.put(b"\n")
}

/// Puts a fault line for a name as the last step of a call, and gives its answer.
fn put_fault<O: Sink, W: Watch>(out: &mut O, front: &[u8], name: &str, watch: &W) -> Status
    ensures status { result ≡ Status.Fault }
    ensures line { PutsFault front.now name.now (O.shown out.old) (O.shown out.new) }
{
    watch.fails();
    watch.answers();
    let _ = put_parts(out, front, name);
    Status::Fault
}

/// Puts the line that says why a command stopped, if there is one, and gives its answer.
pub fn put_stop<O: Sink, W: Watch>(alloc: Global, out: &mut O, stop: &Stop<'_>, watch: &W) -> Status
    ensures { (files : FilesShown) → StopsBy stop.now result
        (files, O.shown out.old) (files, O.shown out.new) }
{
    match stop {
        Stop::Refused(input, refusal) => match refused_line(alloc, *input, refusal) {
            Ok(line) => answer(out, &line, Status::Refused, watch),
            Err(AllocError) => Status::Memory,
        },
        Stop::Unread(name) => put_fault(out, READING, name, watch),
        Stop::Memory => Status::Memory,
    }
}

/// Writes files one after the other, puts the lines and gives the answer `Done`. The first of these
/// that fails is the last.
fn finish<F: Files, O: Sink, W: Watch>(
    files: &mut F,
    out: &mut O,
    outputs: &[OutputFile<'_>],
    lines: &[u8],
    watch: &W,
) -> Status
    ensures { Finishes (writing_of outputs.now) lines.now Status.Done result
        (F.shown files.old, O.shown out.old) (F.shown files.new, O.shown out.new) }
{
    match outputs {
        [] => answer(out, lines, Status::Done, watch),
        [output, behind @ ..] => {
            watch.writes(output.name);
            match files.write(output.name, &output.text) {
                Ok(()) => finish(files, out, behind, lines, watch),
                Err(Failed) => put_fault(out, WRITING, output.name, watch),
            }
        }
    }
}

/// Writes and prints what a command built, or prints why it stopped.
pub fn end<F: Files, O: Sink, W: Watch>(
    alloc: Global,
    built: Result<BuiltTexts<'_>, Stop<'_>>,
    files: &mut F,
    out: &mut O,
    watch: &W,
) -> Status
    ensures { Goes built.entry ending_of result
        (F.shown files.old, O.shown out.old) (F.shown files.new, O.shown out.new) }
{
    match built {
        Ok(built) => finish(files, out, &built.files, &built.lines, watch),
        Err(stop) => put_stop(alloc, out, &stop, watch),
    }
}
