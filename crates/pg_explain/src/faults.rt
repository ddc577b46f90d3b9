//! Status 4: a file could not be read or written, or a line could not be printed.

use crate::wrong::{Before, Deed, Fault};
use pg_visible::Part::{Name, Say};
use pg_visible::Text;
use std::alloc::AllocError;

/// The system's reason without its number.
fn reason_of(reason: &str) -> &str {
    match reason.split_once(" (os error") {
        Some((front, _)) => front,
        None => reason,
    }
}

/// Appends that the same file was read or written before.
fn push_before<'a>(text: &mut Text, name: &'a str, before: &Before<'a>) -> Result<(), AllocError> {
    let done = match before.deed {
        Deed::Reading => "read",
        Deed::Writing | Deed::Printing => "written",
    };
    let sentence = if before.name == name {
        "$0 was $1 before in this call, and is not written again"
    } else {
        "$0 is the file that was $1 before in this call as $2, and is not written again"
    };
    text.line(sentence, &[Name(name), Say(done), Name(before.name)])
}

/// Appends why a read, a write or a line failed.
pub(crate) fn push_fault(text: &mut Text, fault: &Fault<'_>) -> Result<(), AllocError> {
    let reason = reason_of(fault.reason);
    let between = if reason.is_empty() { "" } else { ": " };
    let sentence = match fault.deed {
        Deed::Reading => "$0 could not be read$1$2",
        Deed::Writing => "$0 could not be written$1$2",
        Deed::Printing => "standard output could not be written$1$2",
    };
    text.line(sentence, &[Name(fault.name), Say(between), Name(reason)])?;
    if let (Deed::Reading, "-") = (fault.deed, fault.name) {
        text.line("- is the name of a file: standard input is /dev/stdin", &[])?;
    }
    match &fault.before {
        Some(before) => push_before(text, fault.name, before),
        None => Ok(()),
    }
}

/// Appends what is in the way of a file that is to be written, where something is.
pub(crate) fn push_output(text: &mut Text, name: &str, obstacle: &str) -> Result<(), AllocError> {
    if !obstacle.is_empty() {
        let parts = [Name(name), Name(reason_of(obstacle))];
        text.line("writing $0 will fail: $1", &parts)?;
    }
    if name == "-" {
        text.line(
            "- is the name of a file: standard output is /dev/stdout",
            &[],
        )?;
    }
    Ok(())
}
