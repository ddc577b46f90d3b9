//! The lines that the commands print where they are done, and where arguments are no command.
ghost use Rattle.std.specs.Prelude.{◌≡◌, [], length, OnOk, IfOk};
ghost use Rattle.pg_types.specs.Lines.{lines};
ghost use Rattle.pg_top.specs.Inside.Printed.{done_text};

use pg_texts::push_totals;
use pg_types::{Totals, next_line, push_number};
use std::alloc::{AllocError, Global};

/// What is printed where arguments are no command.
pub const USAGE: &[u8] = b"usage: patgen COMMAND NAMES [OPTIONS]\n";

/// How many lines a text has.
pub fn count_lines(text: &[u8]) -> usize
    ensures { result ≡ length (lines text.now) }
{
    let mut count = 0;
    let mut rest = text;
    'lines: while let Some((_, after)) = next_line(rest) {
        count += 1;
        rest = after;
    }
    count
}

/// The line where `generate` or `sample` is done: how many lines the pattern file has, and the
/// totals of its patterns.
pub fn done_line(alloc: Global, patterns: &[u8], totals: &Totals) -> Result<Vec<u8>, AllocError>
    ensures { IfOk result (λ line. line.items ≡ done_text patterns.now totals.now) }
{
    let mut line = Vec::new(alloc);
    begin_done(&mut line, patterns, totals)?;
    Ok(line)
}

/// Appends the `done:` line to an empty text.
fn begin_done(line: &mut Vec<u8>, patterns: &[u8], totals: &Totals) -> Result<(), AllocError>
    requires { line.old.items ≡ [] }
    ensures { OnOk result (line.new.items ≡ done_text patterns.now totals.now) }
{
    push_number(line, b"done: ", count_lines(patterns) as u64)?;
    line.extend_from_slice(b" patterns, ")?;
    push_totals(line, totals)?;
    line.extend_from_slice(b"\n")
}
