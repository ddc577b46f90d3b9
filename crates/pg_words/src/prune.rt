//! The arguments of `prune`.
ghost use Rattle.std.specs.Prelude.{◌≡◌, true, IfSome};
ghost use Rattle.std.specs.Option.{option_map, is_some};
ghost use Rattle.pg_words.specs.Inside.Requests.{ToPrune};
ghost use Rattle.pg_words.specs.Inside.forms.Prune.{prune_in};
ghost use Rattle.pg_words.specs.Inside.Names.{arguments_of};
ghost use Rattle.pg_words.specs.Inside.CommandRequests.{asked_by, KeepsLimits};

use crate::commands::Command;

/// What the arguments behind `prune` ask for, where they are that command.
pub fn prune(words: &[String]) -> Option<Command<'_>>
    ensures value { is_some (option_map ToPrune (prune_in (arguments_of words.now))) ≡ true
        → option_map asked_by result ≡ option_map ToPrune (prune_in (arguments_of words.now)) }
    ensures within { IfSome result KeepsLimits }
{
    let [dict, patterns, output, translate, report] = words else {
        return None;
    };
    let (dict, patterns, translate) = (dict.as_str(), patterns.as_str(), translate.as_str());
    let (output, report) = (output.as_str(), report.as_str());
    Some(Command::Prune {
        dict,
        patterns,
        output,
        translate,
        report,
    })
}
