//! The line of `no`.
ghost use Rattle.std.specs.Prelude.{◌≡◌, ◌++◌, IfOk, OnOk};
ghost use Rattle.pg_audit.specs.FoundLines.{found_text};
ghost use Rattle.pg_top.specs.Auditing.{no_line as no_line_of};

use pg_audit::{FalseLine, SHOWN_MAX};
use pg_steps::{Given, Input, push_label};
use pg_types::push_number;
use std::alloc::{AllocError, Global};

/// Appends what was found: a line, or that there is none.
fn push_found(text: &mut Vec<u8>, found: &[u8]) -> Result<(), AllocError>
    ensures { OnOk result (text.new.items ≡ text.old.items ++ found_text found.now) }
{
    if found.is_empty() {
        return text.extend_from_slice(b" is missing");
    }
    let has_feed = found[found.len() - 1] == b'\n';
    let bare = if has_feed {
        &found[..found.len() - 1]
    } else {
        found
    };
    if bare.len() > SHOWN_MAX {
        let front = &found[..SHOWN_MAX];
        text.extend_from_slice(b" begins ")?;
        return text.extend_from_slice(front);
    }
    text.extend_from_slice(b" found ")?;
    text.extend_from_slice(bare)?;
    if !has_feed {
        text.extend_from_slice(b" and the file ends")?;
    }
    Ok(())
}

/// The line that says which line of a given file is false, and what stands there.
pub fn no_line(alloc: Global, given: Given, line: &FalseLine<'_>) -> Result<Vec<u8>, AllocError>
    ensures { IfOk result (λ text. text.items
        ≡ no_line_of given (line.now.line, line.now.found.now)) }
{
    let mut text = Vec::from_slice(alloc, b"no: ")?;
    push_label(&mut text, Input::Given(given))?;
    push_number(&mut text, b" line ", line.line)?;
    push_found(&mut text, line.found)?;
    text.extend_from_slice(b"\n")?;
    Ok(text)
}
