//! Status 2: the arguments are no command. pg_words has the forms of the commands, and says where
//! arguments break them; here is how that is said.

mod forms;
mod sentences;

use crate::arguments::forms::{file_at, form_of, form_text, is_option, range_text};
use crate::arguments::sentences::{name_sentence, no_command_sentence, not_due_sentence};
use pg_visible::Part::{Count, Name, Say};
use pg_visible::Text;
use pg_words::{FORMS, Form, Slip, Slot, first_slip};
use std::alloc::AllocError;

/// Appends the form of a command of the program with this name.
fn push_form(text: &mut Text, program: &str, form: &Form) -> Result<(), AllocError> {
    let form = form_text(text.alloc(), form)?;
    let program = String::from_str(text.alloc(), program)?;
    text.line("    $0 $1", &[Name(program.as_str()), Say(form.as_str())])
}

/// The argument with this index.
fn word_at(words: &[String], index: usize) -> &str {
    match words.get(index) {
        Some(word) => word.as_str(),
        None => "",
    }
}

/// Appends that the first argument is no command, and the forms of all commands.
fn push_no_command(
    text: &mut Text,
    program: &str,
    argument: Option<&str>,
) -> Result<(), AllocError> {
    let sentence = no_command_sentence(argument);
    text.line(sentence, &[Name(argument.unwrap_or(""))])?;
    for form in FORMS {
        push_form(text, program, form)?;
    }
    Ok(())
}

/// Appends that the arguments end too early.
fn push_missing(text: &mut Text, form: &Form, words: &[String]) -> Result<(), AllocError> {
    let command = Say(form.0);
    match (form.2.get(words.len()), words.last()) {
        (Some((label, _)), _) => text.line("$0: $1 is missing", &[command, Say(label)]),
        (None, Some(option)) if form.4 == 0 => {
            let parts = [command, Name(option.as_str())];
            text.line("$0: FILE is missing behind $1", &parts)
        }
        (None, _) => text.line("$0: PARAMS is missing", &[command]),
    }
}

/// An argument for a number, and the numbers that it may be.
#[derive(Clone, Copy)]
struct NoNumber<'a> {
    command: &'a str,
    label: &'a str,
    argument: &'a str,
    range: &'a str,
    digits: usize,
}

/// Appends that an argument is not the number that is due.
fn push_no_number(text: &mut Text, number: &NoNumber<'_>) -> Result<(), AllocError> {
    let sentence = if number.argument.len() > number.digits {
        "$0: $1 is $2, and has to be $3, in at most $4 digits"
    } else {
        "$0: $1 is $2, and has to be $3"
    };
    text.line(
        sentence,
        &[
            Say(number.command),
            Say(number.label),
            Name(number.argument),
            Say(number.range),
            Count(number.digits),
        ],
    )
}

/// Appends that the argument with this index is not what is due there.
fn push_unfit(
    text: &mut Text,
    form: &Form,
    words: &[String],
    index: usize,
) -> Result<(), AllocError> {
    let argument = word_at(words, index);
    let (label, has_options) = match form.2.get(index) {
        Some(
            (
                label,
                Slot::Number {
                    digits,
                    least,
                    most,
                },
            ),
        ) => {
            let range = range_text(text.alloc(), *least, *most)?;
            let command = String::from_str(text.alloc(), form.0)?;
            let label = String::from_str(text.alloc(), label)?;
            let argument = String::from_str(text.alloc(), argument)?;
            let number = NoNumber {
                command: command.as_str(),
                label: label.as_str(),
                argument: argument.as_str(),
                range: range.as_str(),
                digits: *digits,
            };
            return push_no_number(text, &number);
        }
        Some((label, _)) => (*label, !form.3.is_empty()),
        None if form.4 == 0 => ("FILE", false),
        None => ("PARAMS", false),
    };
    let sentence = name_sentence(argument, has_options);
    text.line(sentence, &[Say(form.0), Name(argument), Say(label)])
}

/// Appends that the arguments with these indices name one file, which is written.
fn push_same(
    text: &mut Text,
    form: &Form,
    words: &[String],
    first: usize,
    second: usize,
) -> Result<(), AllocError> {
    let (one, is_written) = file_at(form, words, first);
    let (other, _) = file_at(form, words, second);
    let (one, other) = if is_written {
        (one, other)
    } else {
        (other, one)
    };
    let name = word_at(words, first);
    text.line(
        "$0: $1 and $2 are one name, $3, and what is written has one of its own",
        &[Say(form.0), Name(one), Name(other), Name(name)],
    )
}

/// Appends which of the arguments that follow a command is wrong.
fn push_slip(
    text: &mut Text,
    form: &Form,
    words: &[String],
    slip: &Slip,
) -> Result<(), AllocError> {
    let command = Say(form.0);
    match *slip {
        Slip::NoCommand => Ok(()),
        Slip::Missing => push_missing(text, form, words),
        Slip::Unfit(left) => push_unfit(text, form, words, words.len().saturating_sub(left)),
        Slip::NotDue(left) => {
            let argument = word_at(words, words.len().saturating_sub(left));
            text.line(not_due_sentence(argument), &[command, Name(argument)])
        }
        Slip::Twice(left) => {
            let option = word_at(words, words.len().saturating_sub(left));
            text.line("$0: $1 stands twice", &[command, Name(option)])
        }
        Slip::TooManySets(sets) => text.line(
            "$0: $1 parameter files are given, and $2 is the most",
            &[command, Count(sets), Count(form.4)],
        ),
        Slip::Same(first, second) => {
            let last = words.len().saturating_sub(1);
            let (first, second) = (last.saturating_sub(first), last.saturating_sub(second));
            push_same(text, form, words, first, second)
        }
    }
}

/// Appends which argument is wrong, and what is due there.
pub(crate) fn push_arguments(
    text: &mut Text,
    program: &str,
    arguments: &[String],
) -> Result<(), AllocError> {
    let Some((first, words)) = arguments.split_first() else {
        return push_no_command(text, program, None);
    };
    let Some(form) = form_of(first.as_str()) else {
        return push_no_command(text, program, Some(first.as_str()));
    };
    if let Some(slip) = first_slip(arguments) {
        push_slip(text, form, words, &slip)?;
    }
    push_form(text, program, form)
}

/// Whether the argument with this index names a file that the call writes. Of arguments that are no
/// command none does.
pub fn is_output(arguments: &[String], index: usize) -> bool {
    let (Some((first, words)), Some(index)) = (arguments.split_first(), index.checked_sub(1)) else {
        return false;
    };
    match form_of(first.as_str()) {
        Some(form) => file_at(form, words, index).1 && first_slip(arguments).is_none(),
        None => false,
    }
}
