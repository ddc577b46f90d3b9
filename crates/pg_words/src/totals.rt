//! The arguments of `totals`.
ghost use Rattle.std.specs.Prelude.{◌≡◌, true, IfSome};
ghost use Rattle.std.specs.Option.{option_map, is_some};
ghost use Rattle.pg_words.specs.Inside.Requests.{ToTotals};
ghost use Rattle.pg_words.specs.Inside.forms.Totals.{totals_in};
ghost use Rattle.pg_words.specs.Inside.Names.{arguments_of};
ghost use Rattle.pg_words.specs.Inside.CommandRequests.{asked_by, KeepsLimits};

use crate::commands::Command;

/// What the arguments behind `totals` ask for, where they are that command.
pub fn totals(words: &[String]) -> Option<Command<'_>>
    ensures value { is_some (option_map ToTotals (totals_in (arguments_of words.now))) ≡ true
        → option_map asked_by result ≡ option_map ToTotals (totals_in (arguments_of words.now)) }
    ensures within { IfSome result KeepsLimits }
{
    let [dict, translate, table] = words else {
        return None;
    };
    let (dict, translate, table) = (dict.as_str(), translate.as_str(), table.as_str());
    Some(Command::Totals {
        dict,
        translate,
        table,
    })
}
