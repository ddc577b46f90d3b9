//! The arguments of `generate` and `audit`.
ghost use Rattle.std.specs.Prelude.{◌≡◌, ◌≤◌, true, length, drop, IfSome};
ghost use Rattle.std.specs.Option.{option_map, is_some};
ghost use Rattle.pg_words.specs.Inside.Requests.{ToGenerate, ToAudit};
ghost use Rattle.pg_words.specs.Inside.forms.Generate.{with_option as with_option_of, with_options as with_options_of, files_in, generate_in, audit_in};
ghost use Rattle.pg_words.specs.Inside.Names.{arguments_of};
ghost use Rattle.pg_words.specs.Inside.CommandRequests.{texts_of, asked_by, KeepsLimits};

use crate::commands::{Command, Names};

/// The names with that of an option.
fn with_option<'a>(names: Names<'a>, option: &str, name: &'a str) -> Option<Names<'a>>
    ensures { option_map texts_of result
        ≡ with_option_of (texts_of names.entry) option.now name.now }
{
    if option == "--pattmp" {
        Some(Names {
            pattmp: Some(name),
            ..names
        })
    } else if option == "--cells" {
        Some(Names {
            cells: Some(name),
            ..names
        })
    } else {
        None
    }
}

/// The names with those of two options, which differ.
fn with_both<'a>(names: Names<'a>, words: &'a [String]) -> Option<Names<'a>>
    requires { length words.now ≡ 4 }
    ensures { option_map texts_of result
        ≡ with_options_of (texts_of names.entry) (arguments_of words.now) }
{
    let (first, second) = (words[0].as_str(), words[2].as_str());
    if first == second {
        return None;
    }
    match with_option(names, first, words[1].as_str()) {
        Some(names) => with_option(names, second, words[3].as_str()),
        None => None,
    }
}

/// The names with those of the options. Each option may stand once.
fn with_options<'a>(names: Names<'a>, words: &'a [String]) -> Option<Names<'a>>
    ensures { option_map texts_of result
        ≡ with_options_of (texts_of names.entry) (arguments_of words.now) }
{
    match words.len() {
        0 => Some(names),
        2 => with_option(names, words[0].as_str(), words[1].as_str()),
        4 => with_both(names, words),
        _ => None,
    }
}

/// Six names in the order in which they are given.
fn first_names(words: &[String]) -> Names<'_>
    requires { 6 ≤ length words.now }
    ensures { files_in (arguments_of words.now)
        ≡ with_options_of (texts_of result) (arguments_of (drop 6 words.now)) }
{
    Names {
        dict: words[0].as_str(),
        patterns: words[1].as_str(),
        output: words[2].as_str(),
        translate: words[3].as_str(),
        params: words[4].as_str(),
        report: words[5].as_str(),
        pattmp: None,
        cells: None,
    }
}

/// The names in arguments: six, and then the options.
fn names(words: &[String]) -> Option<Names<'_>>
    ensures { option_map texts_of result ≡ files_in (arguments_of words.now) }
{
    if words.len() < 6 {
        return None;
    }
    with_options(first_names(words), &words[6..])
}

/// What the arguments behind `generate` ask for, where they are that command.
pub fn generate(words: &[String]) -> Option<Command<'_>>
    ensures within { IfSome result KeepsLimits }
    ensures value { let asked = option_map ToGenerate (generate_in (arguments_of words.now)) in
        is_some asked ≡ true → option_map asked_by result ≡ asked }
{
    let names = names(words)?;
    Some(Command::Generate(names))
}

/// What the arguments behind `audit` ask for, where they are that command.
pub fn audit(words: &[String]) -> Option<Command<'_>>
    ensures within { IfSome result KeepsLimits }
    ensures value { is_some (option_map ToAudit (audit_in (arguments_of words.now))) ≡ true
        → option_map asked_by result ≡ option_map ToAudit (audit_in (arguments_of words.now)) }
{
    let names = names(words)?;
    match names.cells {
        None => Some(Command::Audit(names)),
        Some(_) => None,
    }
}
