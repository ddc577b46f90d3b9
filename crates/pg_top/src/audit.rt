//! `audit`: given files, which are compared with those that `generate` would write.
ghost use Rattle.std.specs.Prelude.{◌≡◌, None};
ghost use Rattle.pg_outside.specs.Content.{FilesShown};
ghost use Rattle.pg_plans.specs.Plans.{Follows};
ghost use Rattle.pg_steps.specs.Inside.Steps.{Begins};
ghost use Rattle.pg_words.specs.Inside.CommandRequests.{texts_of};
ghost use Rattle.pg_top.specs.Inside.Comparing.{end_of};
ghost use Rattle.pg_top.specs.Inside.Requests.{audit_plan};

mod compare;
mod no_lines;
mod wanted;

use crate::audit::compare::{Verdict, compare_all};
use crate::audit::wanted::make_wanted;
use crate::generate::read_inputs;
use pg_outside::{Files, Sink};
use pg_plans::Status;
use pg_steps::{Stop, answer, put_stop};
use pg_watch::Watch;
use pg_words::Names;
use std::alloc::Global;

/// The line where all given files are right.
const YES: &[u8] = b"yes\n";

/// Reads what `audit` reads, and compares the given files with those that `generate` would write.
pub fn audit_files<'a, F: Files, W: Watch>(
    alloc: Global,
    names: &Names<'a>,
    files: &mut F,
    watch: &W,
) -> Result<Verdict, Stop<'a>>
    requires { names.now.cells ≡ None }
    ensures { Begins (audit_plan (texts_of names.now)) result end_of
        (F.shown files.old) (F.shown files.new) }
{
    let inputs = read_inputs(alloc, names, files, watch)?;
    let wanted = make_wanted(alloc, names, &inputs, watch);
    drop(inputs);
    let wanted = wanted?;
    compare_all(alloc, &wanted, files, watch)
}

/// Puts the line of a verdict, and gives its answer.
pub fn put_verdict<O: Sink, W: Watch>(out: &mut O, verdict: &Verdict, watch: &W) -> Status
    ensures { (files : FilesShown) → Follows (end_of verdict.now) result
        (files, O.shown out.old) (files, O.shown out.new) }
{
    match verdict {
        Verdict::Equal => answer(out, YES, Status::Yes, watch),
        Verdict::False(line) => answer(out, line, Status::No, watch),
    }
}

/// Compares given files with those that would be written, and says whether they are equal.
pub fn audit<F: Files, O: Sink, W: Watch>(
    alloc: Global,
    names: &Names<'_>,
    files: &mut F,
    out: &mut O,
    watch: &W,
) -> Status
    requires { names.now.cells ≡ None }
    ensures { Follows (audit_plan (texts_of names.now)) result
        (F.shown files.old, O.shown out.old) (F.shown files.new, O.shown out.new) }
{
    match audit_files(alloc, names, files, watch) {
        Ok(verdict) => put_verdict(out, &verdict, watch),
        Err(stop) => put_stop(alloc, out, &stop, watch),
    }
}
