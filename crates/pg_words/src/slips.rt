//! One walk over the arguments, which says where they break the form of their command.
ghost use Rattle.std.specs.Prelude.{◌≡◌, ◌<◌, ◌∷◌, [], length, MatchOption};
ghost use Rattle.std.specs.Option.{is_none, is_some};
ghost use Rattle.pg_words.specs.Inside.Names.{arguments_of};
ghost use Rattle.pg_words.specs.Inside.Requests.{request_of};
ghost use Rattle.pg_words.specs.Inside.Slips.{labels_of, fits as fits_of, slot_behind as slot_behind_of, file_behind as file_behind_of, slip_of_options, slip_of_sets, slip_behind, slip_in, is_output as is_output_of, files_in, same_name as same_name_of, first_same as first_same_of, slip_named, forms_of, slip_of};
ghost use Rattle.pg_words.specs.Inside.CommandRequests.{name_now};

use crate::forms::{FORMS, Form, Label, Slot};
use crate::names::is_name;
use crate::numbers::number_within;

/// How the arguments break the form of their command. A number says how many arguments there are
/// from the wrong one on.
#[derive(Clone, Copy)]
pub enum Slip {
    /// The first argument is no command, or there is none.
    NoCommand,
    /// The arguments end where one more is due.
    Missing,
    /// This argument is not what is due there.
    Unfit(usize),
    /// This argument stands behind the last that is due, and is no option of the command.
    NotDue(usize),
    /// This option stands again behind its file.
    Twice(usize),
    /// These are too many parameter files.
    TooManySets(usize),
    /// These two arguments name one file, which is written.
    Same(usize, usize),
}

/// Whether an argument is what is due.
fn fits(slot: Slot, argument: &str) -> bool
    ensures { result ≡ fits_of slot argument.now }
{
    match slot {
        Slot::Input | Slot::Output => is_name(argument),
        Slot::Number {
            digits,
            least,
            most,
        } => number_within(argument, digits, least, most).is_some(),
    }
}

/// The first argument, and those behind it.
fn next(words: &[String]) -> Option<(&str, &[String])>
    ensures { MatchOption result (arguments_of words.now ≡ [])
        (λ r. arguments_of words.now ≡ r.0.now ∷ arguments_of r.1.now) }
{
    match words {
        [] => None,
        [word, behind @ ..] => Some((word.as_str(), behind)),
    }
}

/// What is due behind an option; none where it is no option.
fn slot_behind(options: &[Label], word: &str) -> Option<Slot>
    ensures { result ≡ slot_behind_of (labels_of options.now) word.now }
{
    match options {
        [] => None,
        [(option, slot), others @ ..] => {
            if word == *option {
                Some(*slot)
            } else {
                slot_behind(others, word)
            }
        }
    }
}

/// The file behind an option, where that stands among options with their files.
pub(crate) fn file_behind<'a>(option: &str, words: &'a [String]) -> Option<&'a str>
    ensures { name_now result ≡ file_behind_of option.now (arguments_of words.now) }
{
    let (word, behind) = next(words)?;
    let (name, rest) = next(behind)?;
    if option == word {
        Some(name)
    } else {
        file_behind(option, rest)
    }
}

/// Where the arguments break the options of a form, each with its file, in any order.
fn walk_options(options: &[Label], words: &[String]) -> Option<Slip>
    ensures { result ≡ slip_of_options (labels_of options.now) (arguments_of words.now) }
{
    let (word, behind) = next(words)?;
    if slot_behind(options, word).is_none() {
        return Some(Slip::NotDue(words.len()));
    }
    let Some((name, rest)) = next(behind) else {
        return Some(Slip::Missing);
    };
    if file_behind(word, rest).is_some() {
        Some(Slip::Twice(words.len()))
    } else if is_name(name) {
        walk_options(options, rest)
    } else {
        Some(Slip::Unfit(behind.len()))
    }
}

/// Where one of the arguments is no name.
fn walk_sets(words: &[String]) -> Option<Slip>
    ensures { result ≡ slip_of_sets (arguments_of words.now) }
{
    match words {
        [] => None,
        [word, behind @ ..] => {
            if is_name(word.as_str()) {
                walk_sets(behind)
            } else {
                Some(Slip::Unfit(words.len()))
            }
        }
    }
}

/// Where the arguments break what stands behind the slots of a form.
fn walk_behind(options: &[Label], sets: usize, words: &[String]) -> Option<Slip>
    ensures { result ≡ slip_behind (labels_of options.now) sets (arguments_of words.now) }
{
    if sets == 0 {
        walk_options(options, words)
    } else if words.is_empty() {
        Some(Slip::Missing)
    } else if words.len() <= sets {
        walk_sets(words)
    } else {
        Some(Slip::TooManySets(words.len()))
    }
}

/// Where the arguments break the slots of a form, or what stands behind these.
fn walk(slots: &[Label], options: &[Label], sets: usize, words: &[String]) -> Option<Slip>
    ensures { result ≡ slip_in (labels_of slots.now) (labels_of options.now) sets
        (arguments_of words.now) }
{
    match slots {
        [] => walk_behind(options, sets, words),
        [(_, slot), others @ ..] => match words {
            [] => Some(Slip::Missing),
            [word, behind @ ..] => {
                if fits(*slot, word.as_str()) {
                    walk(others, options, sets, behind)
                } else {
                    Some(Slip::Unfit(words.len()))
                }
            }
        },
    }
}

/// Whether what is due is a file that is written.
fn is_output(slot: Slot) -> bool
    ensures { result ≡ is_output_of slot }
{
    match slot {
        Slot::Output => true,
        Slot::Input | Slot::Number { .. } => false,
    }
}

/// Whether the next file is written, its name, and the slots and arguments behind it.
fn next_file<'a, 's>(
    slots: &'s [Label],
    options: &[Label],
    words: &'a [String],
) -> Option<(bool, &'a str, &'s [Label], &'a [String])>
    ensures files { MatchOption result
        (files_in (labels_of slots.now) (labels_of options.now) (arguments_of words.now) ≡ [])
        (λ r. files_in (labels_of slots.now) (labels_of options.now) (arguments_of words.now)
        ≡ (r.0, r.1.now, length (arguments_of r.3.now))
        ∷ files_in (labels_of r.2.now) (labels_of options.now) (arguments_of r.3.now)) }
    ensures less { MatchOption result (Unit {0}) (λ r. length r.3.now < length words.now) }
{
    match slots {
        [] => match next(words) {
            None => None,
            Some((word, behind)) => match slot_behind(options, word) {
                None => Some((false, word, slots, behind)),
                Some(slot) => match next(behind) {
                    None => None,
                    Some((name, rest)) => Some((is_output(slot), name, slots, rest)),
                },
            },
        },
        [(_, slot), others @ ..] => match next(words) {
            None => None,
            Some((word, behind)) => match slot {
                Slot::Number { .. } => next_file(others, options, behind),
                Slot::Input => Some((false, word, others, behind)),
                Slot::Output => Some((true, word, others, behind)),
            },
        },
    }
}

/// How many arguments stand behind the next file of this name, where one of the two is written.
fn same_name(
    name: &str,
    is_written: bool,
    slots: &[Label],
    options: &[Label],
    words: &[String],
) -> Option<usize>
    ensures { result ≡ same_name_of name.now is_written
        (files_in (labels_of slots.now) (labels_of options.now) (arguments_of words.now)) }
{
    let (other_is_written, other, others, rest) = next_file(slots, options, words)?;
    if (is_written || other_is_written) && other == name {
        Some(rest.len())
    } else {
        same_name(name, is_written, others, options, rest)
    }
}

/// How many arguments stand behind two files of one name, where one of the two is written.
fn first_same(slots: &[Label], options: &[Label], words: &[String]) -> Option<Slip>
    ensures { result ≡ first_same_of
        (files_in (labels_of slots.now) (labels_of options.now) (arguments_of words.now)) }
{
    let (is_written, name, others, rest) = next_file(slots, options, words)?;
    match same_name(name, is_written, others, options, rest) {
        Some(behind) => Some(Slip::Same(rest.len(), behind)),
        None => first_same(others, options, rest),
    }
}

/// Where the arguments behind a name break the form of that name.
fn walk_named(forms: &[Form], name: &str, words: &[String]) -> Option<Slip>
    ensures { result ≡ slip_named (forms_of forms.now) name.now (arguments_of words.now) }
{
    match forms {
        [] => Some(Slip::NoCommand),
        [form, others @ ..] => {
            if name == form.0 {
                match walk(form.2, form.3, form.4, words) {
                    Some(slip) => Some(slip),
                    None => first_same(form.2, form.3, words),
                }
            } else {
                walk_named(others, name, words)
            }
        }
    }
}

/// Where arguments break the form of the command that they begin with.
fn walk_call(words: &[String]) -> Option<Slip>
    ensures { result ≡ slip_of (arguments_of words.now) }
{
    match words {
        [] => Some(Slip::NoCommand),
        [name, behind @ ..] => walk_named(FORMS, name.as_str(), behind),
    }
}

/// Where the arguments, without the program's name, break the form of their command; none exactly
/// where they are a command.
pub fn first_slip(words: &[String]) -> Option<Slip>
    ensures first { result ≡ slip_of (arguments_of words.now) }
    ensures none { is_none result ≡ is_some (request_of (arguments_of words.now)) }
{
    walk_call(words)
}
