//! Status 1: a line of an audited file is not the one that the inputs give.

use crate::wrong::ComparedLine;
use pg_visible::Part::{Count, Name, Show};
use pg_visible::Text;
use std::alloc::AllocError;

/// A line without its LF; nothing where there is no line.
fn without_feed(line: Option<&[u8]>) -> &[u8] {
    let line = line.unwrap_or(&[]);
    line.strip_suffix(b"\n").unwrap_or(line)
}

/// What is said of a false line first. `is_same` says whether both lines are the same but for their
/// ends.
fn sentence_of(line: &ComparedLine<'_>, is_same: bool) -> &'static str {
    if line.wanted.is_none() {
        "$0:$1: no line is due here: the file should end before it"
    } else if line.found.is_none() {
        "$0 ends before line $1, which is due and is"
    } else if is_same {
        "$0:$1: the line is right but for its end, which should be one LF"
    } else {
        "$0:$1: the inputs give another line; found and due are"
    }
}

/// Appends that a line is false, and the lines that were found and that should be there, where
/// these show it.
pub(crate) fn push_false_line(text: &mut Text, line: &ComparedLine<'_>) -> Result<(), AllocError> {
    let found = without_feed(line.found);
    let wanted = without_feed(line.wanted);
    let is_same = line.found.is_some() && found == wanted;
    let sentence = sentence_of(line, is_same);
    text.line(sentence, &[Name(line.name), Count(line.line)])?;
    if is_same || line.wanted.is_none() {
        return Ok(());
    }
    if line.found.is_some() {
        text.line("    $0", &[Show(found)])?;
    }
    text.line("    $0", &[Show(wanted)])
}
