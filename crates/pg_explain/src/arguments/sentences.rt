//! What is said of a wrong argument: sentences in which `$0` is the command, `$1` the argument, and
//! `$2` how it is called.

use crate::arguments::forms::is_option;

/// What is said of an option with `=` and its file behind it.
const JOINED: &str = "$0: $1 needs a blank in place of its =";

/// Whether an argument is an option with `=` and its file behind it.
fn is_joined(argument: &str) -> bool {
    match argument.split_once('=') {
        Some((front, _)) => is_option(front),
        None => false,
    }
}

/// What is said of an argument that can be no name. Where the command has options, one that stands
/// there is too early.
pub(crate) fn name_sentence(argument: &str, has_options: bool) -> &'static str {
    if argument.is_empty() {
        "$0: $2 is empty, and has to be a name"
    } else if has_options && is_joined(argument) {
        JOINED
    } else if has_options && is_option(argument) {
        "$0: $1 belongs behind the six names, and stands where $2 is due"
    } else {
        "$0: $1 stands where $2 is due, and no name begins with two dashes"
    }
}

/// Whether an argument is an option that lacks a dash.
fn lacks_dash(argument: &str) -> bool {
    argument == "-pattmp" || argument == "-cells"
}

/// What is said of an argument that stands behind all that are due, and is no option there.
pub(crate) fn not_due_sentence(argument: &str) -> &'static str {
    if is_joined(argument) {
        JOINED
    } else if lacks_dash(argument) {
        "$0: $1 needs two dashes"
    } else if argument.starts_with("--") {
        "$0: $1 is no option of this command"
    } else if argument.bytes().all(|byte| byte.is_ascii_digit()) {
        "$0: $1 is one argument too many"
    } else {
        "$0: $1 is one argument too many; a name with a blank needs quotes"
    }
}

/// What is said of a first argument that is no command; `$0` is the argument.
pub(crate) fn no_command_sentence(argument: Option<&str>) -> &'static str {
    match argument {
        None => "a command is missing; the commands are",
        Some(option) if is_option(option) => {
            "$0 is an option, and the command comes first; the commands are"
        }
        Some(_) => "$0 is no command; the commands are",
    }
}
