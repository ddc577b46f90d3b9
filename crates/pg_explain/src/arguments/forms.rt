//! The forms of the commands as they are shown, and what stands at a place of one.

use pg_words::{FORMS, Form, Slot};
use std::alloc::{AllocError, Global};

/// The form of the command of this name.
pub(crate) fn form_of(name: &str) -> Option<&'static Form> {
    for form in FORMS {
        if form.0 == name {
            return Some(form);
        }
    }
    None
}

/// Whether an argument is an option of some command.
pub(crate) fn is_option(argument: &str) -> bool {
    for form in FORMS {
        for (option, _) in form.3 {
            if *option == argument {
                return true;
            }
        }
    }
    false
}

/// The form of a command as it is shown.
pub(crate) fn form_text(alloc: Global, form: &Form) -> Result<String, AllocError> {
    let mut text = String::from_str(alloc, form.0)?;
    for (label, _) in form.2 {
        text.push(' ')?;
        text.push_str(label)?;
    }
    for (option, _) in form.3 {
        text.push_str(" [")?;
        text.push_str(option)?;
        text.push_str(" FILE]")?;
    }
    if form.4 > 0 {
        text.push_str(" PARAMS..")?;
    }
    Ok(text)
}

/// Appends a number with a comma between its thousands.
fn push_number(alloc: Global, text: &mut String, number: u32) -> Result<(), AllocError> {
    let digits = format!(in alloc; "{number}")?;
    for (index, digit) in digits.as_bytes().iter().enumerate() {
        if index > 0 && digits.len().saturating_sub(index) % 3 == 0 {
            text.push(',')?;
        }
        text.push(char::from(*digit))?;
    }
    Ok(())
}

/// The bounds of a number as they are said.
pub(crate) fn range_text(alloc: Global, least: u32, most: u32) -> Result<String, AllocError> {
    let mut text = String::new(alloc);
    push_number(alloc, &mut text, least)?;
    text.push_str(" to ")?;
    push_number(alloc, &mut text, most)?;
    Ok(text)
}

/// How the file is called that the argument with this index names, and whether it is written.
pub(crate) fn file_at<'a>(form: &Form, words: &'a [String], index: usize) -> (&'a str, bool) {
    if let Some((label, slot)) = form.2.get(index) {
        return (label, matches!(slot, Slot::Output));
    }
    let option = match words.get(index.saturating_sub(1)) {
        Some(option) if form.4 == 0 => option.as_str(),
        _ => return ("a parameter file", false),
    };
    for (other, slot) in form.3 {
        if *other == option {
            return (other, matches!(slot, Slot::Output));
        }
    }
    (option, false)
}
