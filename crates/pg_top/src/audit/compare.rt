//! Given files, read and compared one after the other.
ghost use Rattle.std.specs.Prelude.{◌≡◌, IfOk};
ghost use Rattle.pg_audit.specs.Differences.{first_false};
ghost use Rattle.pg_plans.specs.Plans.{Plan};
ghost use Rattle.pg_steps.specs.Inside.Steps.{Begins};
ghost use Rattle.pg_top.specs.Inside.Comparing.{comparing, comparing_one, end_of, judged, after};
ghost use Rattle.pg_top.specs.Inside.selection.SelectedFiles.{made_file, made_files};

use crate::audit::no_lines::no_line;
use crate::selected_files::SelectedFile;
use pg_audit::compare;
use pg_outside::Files;
use pg_steps::{Stop, read_front};
use pg_watch::Watch;
use std::alloc::{AllocError, Global};

/// How many bytes longer than the right one a given file may be, and still be read as a whole. Any
/// number would do.
const MORE: usize = 256;

/// What comparing given files gives.
#[derive(Drop)]
pub enum Verdict {
    /// Each line is right.
    Equal,
    /// A line is false, as this printed line says.
    False(Vec<u8>),
}

/// What the comparison of a given file with its text gives. Of a long file, `bytes` are the first
/// ones. The observer is told of a false line.
fn judge<W: Watch>(
    alloc: Global,
    bytes: &[u8],
    wanted: &SelectedFile<'_>,
    text: &[u8],
    watch: &W,
) -> Result<Verdict, AllocError>
    ensures { IfOk result (λ verdict. (rest : Plan)
        → after verdict rest ≡ judged wanted.now.given (first_false bytes.now text.now) rest) }
{
    match compare(bytes, text) {
        None => Ok(Verdict::Equal),
        Some(line) => {
            watch.false_line(wanted.name, &line, text);
            Ok(Verdict::False(no_line(alloc, wanted.given, &line)?))
        }
    }
}

/// Reads a given file and compares it with its text. Of a file that is longer by more than `MORE`
/// bytes only the first bytes are read: they have the same first false line.
fn compare_file<'a, F: Files, W: Watch>(
    alloc: Global,
    wanted: &SelectedFile<'a>,
    files: &mut F,
    watch: &W,
) -> Result<Verdict, Stop<'a>>
    ensures { (rest : Plan) → Begins (comparing_one (made_file wanted.now) rest) result
        (λ verdict. after verdict rest) (F.shown files.old) (F.shown files.new) }
{
    let text = wanted.text.as_slice();
    let bytes = read_front(alloc, wanted.name, text.len() + MORE, files, watch)?;
    let verdict = judge(alloc, &bytes, wanted, text, watch)?;
    Ok(verdict)
}

/// Compares files one after the other, up to the first that has a false line.
pub fn compare_all<'a, F: Files, W: Watch>(
    alloc: Global,
    wanted: &[SelectedFile<'a>],
    files: &mut F,
    watch: &W,
) -> Result<Verdict, Stop<'a>>
    ensures { Begins (comparing (made_files wanted.now)) result end_of
        (F.shown files.old) (F.shown files.new) }
{
    match wanted {
        [] => Ok(Verdict::Equal),
        [first, behind @ ..] => match compare_file(alloc, first, files, watch)? {
            Verdict::Equal => compare_all(alloc, behind, files, watch),
            Verdict::False(line) => Ok(Verdict::False(line)),
        },
    }
}
