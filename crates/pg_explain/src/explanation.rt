//! The explanation of what went wrong.
ghost use Rattle.std.specs.Prelude.{IfOk};
ghost use Rattle.pg_visible.specs.Inside.Texts.{IsVisibleText};

use crate::arguments::push_arguments;
use crate::false_lines::push_false_line;
use crate::faults::{push_fault, push_output};
use crate::notes::{push_behind, push_low_start, push_no_part, push_no_word};
use crate::refused::push_refused;
use crate::wrong::Wrong;
use pg_visible::Text;
use std::alloc::{AllocError, Global};

/// What is said where memory was short. To say it takes no memory.
pub const MEMORY: &[u8] = b"there was not enough memory; no file was written\n";

/// Appends an explanation.
fn push(text: &mut Text, wrong: &Wrong<'_>) -> Result<(), AllocError> {
    match wrong {
        Wrong::Arguments { program, arguments } => push_arguments(text, program, arguments),
        Wrong::Output { name, obstacle } => push_output(text, name, obstacle),
        Wrong::Refused(refused) => push_refused(text, refused),
        Wrong::Fault(fault) => push_fault(text, fault),
        Wrong::False(line) => push_false_line(text, line),
        Wrong::NoWord { dict } => push_no_word(text, dict),
        Wrong::NoPart {
            dict,
            words,
            left,
            right,
        } => push_no_part(text, dict, *words, *left, *right),
        Wrong::LowStart {
            patterns,
            largest,
            start,
        } => push_low_start(text, patterns, *largest, *start),
        Wrong::Behind { patterns, bytes } => push_behind(text, patterns, bytes),
    }
}

/// What is wrong, where, and what is due there, in a few lines of English for standard error. It is
/// empty where there is nothing to say. Names and files may hold any bytes: control bytes are shown
/// by their numbers.
pub fn explain(alloc: Global, wrong: &Wrong<'_>) -> Result<Vec<u8>, AllocError>
    ensures { IfOk result (λ text. IsVisibleText text.items) }
{
    let mut text = Text::new(alloc);
    push(&mut text, wrong)?;
    Ok(text.into_bytes())
}
