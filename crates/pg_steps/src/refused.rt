//! The line where an input is refused.
ghost use Rattle.std.specs.Prelude.{◌≡◌, ◌++◌, [], OnOk, IfOk};
ghost use Rattle.pg_steps.specs.RefusedLines.{refused_line as refused_line_of, label_of, place_of};

use crate::inputs::{Given, Input};
use pg_types::{Refusal, push_number};
use std::alloc::{AllocError, Global};

/// Appends what a line of refusal or of `no` calls a file.
pub fn push_label(line: &mut Vec<u8>, input: Input) -> Result<(), AllocError>
    ensures { OnOk result (line.new.items ≡ line.old.items ++ label_of input) }
{
    match input {
        Input::Translate => line.extend_from_slice(b"translate"),
        Input::Parameters => line.extend_from_slice(b"parameters"),
        Input::Patterns | Input::Given(Given::Patterns) => line.extend_from_slice(b"patterns"),
        Input::Dictionary => line.extend_from_slice(b"dictionary"),
        Input::Set(number) => push_number(line, b"set ", u64::from(number)),
        Input::Table => line.extend_from_slice(b"table"),
        Input::Given(Given::Pattmp) => line.extend_from_slice(b"pattmp"),
        Input::Given(Given::Cells) => line.extend_from_slice(b"cells"),
        Input::Given(Given::Report) => line.extend_from_slice(b"report"),
    }
}

/// Appends where in a file the refused place is.
fn push_place(line: &mut Vec<u8>, input: Input, refusal: &Refusal) -> Result<(), AllocError>
    ensures { OnOk result (line.new.items ≡ line.old.items ++ place_of input refusal.now) }
{
    match input {
        Input::Parameters | Input::Set(_) => {
            push_number(line, b" item ", u64::from(refusal.line))
        }
        Input::Translate | Input::Patterns | Input::Dictionary | Input::Table | Input::Given(_) => {
            push_number(line, b" line ", u64::from(refusal.line))?;
            push_number(line, b" column ", u64::from(refusal.column))
        }
    }
}

/// The line of a refusal.
pub fn refused_line(alloc: Global, input: Input, refusal: &Refusal) -> Result<Vec<u8>, AllocError>
    ensures { IfOk result (λ line. line.items ≡ refused_line_of input refusal.now) }
{
    let mut line = Vec::new(alloc);
    begin_refused(&mut line, input, refusal)?;
    Ok(line)
}

/// Appends the line of a refusal to an empty text.
fn begin_refused(line: &mut Vec<u8>, input: Input, refusal: &Refusal) -> Result<(), AllocError>
    requires { line.old.items ≡ [] }
    ensures { OnOk result (line.new.items ≡ refused_line_of input refusal.now) }
{
    line.extend_from_slice(b"refused: ")?;
    push_label(line, input)?;
    push_number(line, b" ", u64::from(refusal.kind.number()))?;
    line.extend_from_slice(b" ")?;
    line.extend_from_slice(refusal.kind.name().as_bytes())?;
    if refusal.line != 0 {
        push_place(line, input, refusal)?;
    }
    line.extend_from_slice(b"\n")
}
