//! The arguments of `pack`.
ghost use Rattle.std.specs.Prelude.{◌≡◌, true, IfSome};
ghost use Rattle.std.specs.Option.{option_map, is_some};
ghost use Rattle.pg_words.specs.Inside.Requests.{ToPack};
ghost use Rattle.pg_words.specs.Inside.forms.Pack.{pack_in};
ghost use Rattle.pg_words.specs.Inside.Names.{arguments_of};
ghost use Rattle.pg_words.specs.Inside.CommandRequests.{asked_by, KeepsLimits};

use crate::commands::Command;

/// What the arguments behind `pack` ask for, where they are that command.
pub fn pack(words: &[String]) -> Option<Command<'_>>
    ensures value { is_some (option_map ToPack (pack_in (arguments_of words.now))) ≡ true
        → option_map asked_by result ≡ option_map ToPack (pack_in (arguments_of words.now)) }
    ensures within { IfSome result KeepsLimits }
{
    let [patterns, translate, table] = words else {
        return None;
    };
    let (patterns, translate, table) = (patterns.as_str(), translate.as_str(), table.as_str());
    Some(Command::Pack {
        patterns,
        translate,
        table,
    })
}
