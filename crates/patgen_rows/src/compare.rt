//! What came of a call beside what was wanted of it.
use crate::case::Case;
use crate::keyword::Keyword;
use crate::table::{Call, Line};
use std::alloc::{AllocError, Global};
use std::io;

/// How many bytes of a content are shown.
const SHOWN: usize = 300;

/// Appends what is wrong with the last call, a line for each difference.
pub(crate) fn compare_call(text: &mut String, case: &Case<'_>, call: &Call<'_>) -> io::Result<()> {
    let mut is_status_wanted = false;
    let mut are_prints_wanted = false;
    for want in call.wants.iter() {
        is_status_wanted |= want.keyword == Keyword::Status;
        are_prints_wanted |= want.keyword.is_of_prints();
        compare_want(text, case, want, call.is_behind)?;
    }
    if !is_status_wanted || !are_prints_wanted {
        writeln!(
            text,
            "  nothing is wanted of the status or of what is printed"
        )?;
    }
    compare_files(text, case)
}

/// Compares one thing that is wanted of a call.
fn compare_want(
    text: &mut String,
    case: &Case<'_>,
    want: &Line<'_>,
    is_behind: bool,
) -> io::Result<()> {
    match want.keyword {
        Keyword::Status => compare_status(text, case, want.rest),
        Keyword::Begins => compare_beginning(text, case, want),
        Keyword::Same => compare_pair(text, case, want.rest),
        Keyword::Calls => push_number(text, !is_behind && case.is_call_due, "calls", want.rest),
        Keyword::Puts => push_number(text, case.is_put_due, "puts", want.rest),
        Keyword::FailsCall | Keyword::FailsPut | Keyword::After | Keyword::Any => Ok(()),
        _ if want.keyword.is_of_prints() => compare_printed(text, case, want),
        _ => Err(io::Error::other("a line says nothing of a call")),
    }
}

/// Appends that another number came than a line wants, where it did.
fn push_number(text: &mut String, is_right: bool, word: &str, number: &str) -> io::Result<()> {
    if is_right {
        return Ok(());
    }
    Ok(writeln!(text, "  {word}: wanted {number}, and another number came")?)
}

/// Compares the answer with the name of a status.
fn compare_status(text: &mut String, case: &Case<'_>, wanted: &str) -> io::Result<()> {
    let came = format!(in case.alloc; "{:?}", case.status)?;
    let is_right = came.as_str() == wanted;
    push_difference(text, is_right, "status", wanted.as_bytes(), came.as_bytes())
}

/// Compares what was printed with one thing that is wanted of it.
fn compare_printed(text: &mut String, case: &Case<'_>, want: &Line<'_>) -> io::Result<()> {
    let wanted = match want.keyword {
        Keyword::PrintsAgain => case.above.bytes(),
        Keyword::PrintsEndOf => case.files.bytes(want.rest).unwrap_or(b""),
        _ => case.table.content(want),
    };
    let is_right = is_printed(case, want.keyword, wanted)?;
    push_difference(text, is_right, "printed", wanted, case.out.bytes())
}

/// Whether this was printed in the way that a line says.
fn is_printed(case: &Case<'_>, word: Keyword, wanted: &[u8]) -> Result<bool, AllocError> {
    let came = case.out.bytes();
    match word {
        Keyword::PrintsAnything => Ok(true),
        Keyword::PrintsBeginning => Ok(came.starts_with(wanted)),
        Keyword::PrintsEnding => Ok(came.ends_with(wanted)),
        Keyword::PrintsAtLine => is_at_line(case.alloc, came, wanted, case.line),
        Keyword::PrintsEndOf => Ok(!came.is_empty() && wanted.ends_with(came)),
        _ => Ok(came == wanted),
    }
}

/// Whether bytes begin with these, the number of a line and a blank.
fn is_at_line(alloc: Global, bytes: &[u8], front: &[u8], line: usize) -> Result<bool, AllocError> {
    let number = format!(in alloc; "{line} ")?;
    match bytes.strip_prefix(front) {
        Some(rest) => Ok(rest.starts_with(number.as_bytes())),
        None => Ok(false),
    }
}

/// Compares each file that has to hold something.
fn compare_files(text: &mut String, case: &Case<'_>) -> io::Result<()> {
    for held in case.holds.iter() {
        if let Some(wanted) = held.bytes {
            let came = case.files.bytes(held.name).unwrap_or(b"no file");
            push_difference(text, came == wanted, held.name, wanted, came)?;
        }
    }
    Ok(())
}

/// Compares a file with how it has to begin.
fn compare_beginning(text: &mut String, case: &Case<'_>, want: &Line<'_>) -> io::Result<()> {
    let wanted = case.table.content(want);
    let came = case.files.bytes(want.name).unwrap_or(b"no file");
    push_difference(text, came.starts_with(wanted), want.name, wanted, came)
}

/// Compares two files that have to hold the same.
fn compare_pair(text: &mut String, case: &Case<'_>, names: &str) -> io::Result<()> {
    let (one, other) = names.split_once(' ').unwrap_or((names, ""));
    let wanted = case.files.bytes(other).unwrap_or(b"no file");
    let came = case.files.bytes(one).unwrap_or(b"none");
    push_difference(text, came == wanted, one, wanted, came)
}

/// Appends the bytes that were wanted of something and those that came, where these are wrong.
pub(crate) fn push_difference(
    text: &mut String,
    is_right: bool,
    what: &str,
    wanted: &[u8],
    came: &[u8],
) -> io::Result<()> {
    if is_right {
        return Ok(());
    }
    push_shown(text, what, "wanted", wanted)?;
    Ok(push_shown(text, what, "came  ", came)?)
}

/// Appends the front of bytes that were wanted or came.
fn push_shown(text: &mut String, what: &str, how: &str, bytes: &[u8]) -> Result<(), AllocError> {
    let shown = bytes.get(..SHOWN).unwrap_or(bytes).escape_ascii();
    writeln!(text, "  {what}: {how} '{shown}'")
}
